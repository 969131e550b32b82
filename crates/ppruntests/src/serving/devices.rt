//! Streams that transfer few bytes at a time, and fail at one call.
ghost use Rattle.std.specs.Prelude.{◌≡◌, None, false};

use ppserve::{Failed, Feed, Sink, SliceFeed, VecSink};
use std::alloc::Global;

/// The largest number of bytes in a call of a stream, and the number of the call that fails, from 1.
#[derive(Clone, Copy)]
pub(crate) struct Limits {
    pub most: usize,
    pub fails_at: usize,
}

pub(crate) const UNLIMITED: Limits = Limits {
    most: usize::MAX,
    fails_at: usize::MAX,
};

/// A reader of a list's bytes, within limits.
#[derive(Drop)]
pub(crate) struct Reader<'l> {
    bytes: SliceFeed<'l>,
    limits: Limits,
    calls: usize,
    failed: bool,
}

impl<'l> Reader<'l> {
    pub(crate) fn new(bytes: &'l [u8], limits: Limits) -> Reader<'l>
        ensures { ⟦<Reader<'l> as Feed>⟧.has_failed result ≡ false }
    {
        Reader {
            bytes: SliceFeed::new(bytes),
            limits,
            calls: 0,
            failed: false,
        }
    }
}

impl Feed for Reader<'_> {
    ghost rest = { λ _. None };

    ghost has_failed = { λ s. s.failed };

    fn read(&mut self, buf: &mut [u8]) -> Result<usize, Failed> {
        self.calls = self.calls.saturating_add(1);
        if self.calls >= self.limits.fails_at {
            self.failed = true;
            return Err(Failed);
        }
        let room = buf.len().min(self.limits.most);
        let Ok(count) = self.bytes.read(&mut buf[..room]) else {
            self.failed = true;
            return Err(Failed);
        };
        Ok(count)
    }

    fn failed(&self) -> bool {
        self.failed
    }
}

/// A writer of an output, within limits.
#[derive(Drop)]
pub(crate) struct Writer {
    bytes: VecSink,
    limits: Limits,
    calls: usize,
    failed: bool,
}

impl Writer {
    pub(crate) fn new(alloc: Global, limits: Limits) -> Writer
        ensures { ⟦<Writer as Sink>⟧.has_failed result ≡ false }
    {
        Writer {
            bytes: VecSink::new(alloc),
            limits,
            calls: 0,
            failed: false,
        }
    }

    /// Borrows the bytes that were written.
    pub(crate) fn bytes(&self) -> &[u8] {
        self.bytes.bytes()
    }

    /// Returns whether an allocation of the writer failed.
    pub(crate) fn wants_memory(&self) -> bool {
        self.bytes.failed()
    }

    /// Returns whether no call came after one that failed.
    pub(crate) fn is_let_alone(&self) -> bool {
        self.calls <= self.limits.fails_at
    }
}

impl Sink for Writer {
    ghost written = { λ _. None };

    ghost has_failed = { λ s. s.failed };

    fn write(&mut self, bytes: &[u8]) -> Result<usize, Failed> {
        self.calls = self.calls.saturating_add(1);
        if self.calls >= self.limits.fails_at {
            self.failed = true;
            return Err(Failed);
        }
        let room = bytes.len().min(self.limits.most.max(1));
        let Ok(count) = self.bytes.write(&bytes[..room]) else {
            self.failed = true;
            return Err(Failed);
        };
        Ok(count)
    }

    fn failed(&self) -> bool {
        self.failed
    }
}
