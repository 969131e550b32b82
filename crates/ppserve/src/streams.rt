//! The streams of a run: where the bytes of a list come from, and where its output goes.
//!
//! `Feed` and `Sink` are smaller than std's `Read` and `Write`, and promise more: a call says whether it failed and stays
//! so, and each names its bytes if they are known. std's traits leave it open what an interrupted or an empty transfer
//! means, so `ReaderFeed` and `WriterSink` decide it once, for any reader and writer. Streams in memory know their bytes,
//! and a theorem about them is one about `serve`. Those of the system don't: no contract of the kit says which bytes
//! standard output took. A ghost field can't record them either, since it holds facts and no values.
ghost use Rattle.std.specs.Prelude.{◌≡◌, [], ◌<◌, ◌≤◌, ℕ, List, Bool, false, Option, Some, length, IfOk, ◌||◌, is_err};
ghost use Rattle.std.specs.Io.KnownBytes.{ReadConsumes, WriteAppends};

use std::alloc::Global;
use std::io::{Read, Write};

/// The error of a read or a write.
#[derive(Clone, Copy, Debug, PartialEq, Eq)]
pub struct Failed;

/// A source of bytes.
pub trait Feed {
    // The remaining bytes, if the feed knows them.
    ghost rest: { Self → Option (List ℕ) };

    // A read has failed.
    ghost has_failed: { Self → Bool };

    /// Reads some bytes into `buf`, and returns their number. It is 0 only at the end of the input, or if `buf` is
    /// empty.
    fn read(&mut self, buf: &mut [u8]) -> Result<usize, Failed>
        ensures bound { IfOk result (λ n. n ≤ length buf.new) }
        ensures bytes { ReadConsumes (rest self.old) (rest self.new) result buf.new }
        ensures fails { has_failed self.new ≡ (has_failed self.old || is_err result) };

    /// Returns whether a read has failed.
    fn failed(&self) -> bool
        ensures { result ≡ has_failed self.now };
}

/// A destination of bytes.
pub trait Sink {
    // The bytes that were written, if the sink knows them.
    ghost written: { Self → Option (List ℕ) };

    // A write has failed.
    ghost has_failed: { Self → Bool };

    /// Writes a prefix of the bytes, and returns its length. It is 0 only if there are no bytes.
    fn write(&mut self, bytes: &[u8]) -> Result<usize, Failed>
        ensures bound { IfOk result (λ n. n ≤ length bytes.now) }
        ensures progress { IfOk result (λ n. 0 < length bytes.now → 0 < n) }
        ensures bytes { WriteAppends (written self.old) (written self.new) result bytes.now }
        ensures fails { has_failed self.new ≡ (has_failed self.old || is_err result) };

    /// Returns whether a write has failed.
    fn failed(&self) -> bool
        ensures { result ≡ has_failed self.now };
}

/// A feed of bytes in memory. It never fails.
#[derive(Drop)]
pub struct SliceFeed<'a> {
    bytes: &'a [u8],
}

impl<'a> SliceFeed<'a> {
    /// Creates a feed of these bytes.
    pub fn new(bytes: &'a [u8]) -> SliceFeed<'a>
        ensures rest { ⟦<SliceFeed<'a> as Feed>⟧.rest result ≡ Some bytes.entry.now }
        ensures unfailed { ⟦<SliceFeed<'a> as Feed>⟧.has_failed result ≡ false }
    {
        SliceFeed { bytes }
    }
}

impl Feed for SliceFeed<'_> {
    ghost rest = { λ s. Some s.bytes.now };

    ghost has_failed = { λ _. false };

    fn read(&mut self, buf: &mut [u8]) -> Result<usize, Failed> {
        let count = self.bytes.len().min(buf.len());
        let (prefix, suffix) = self.bytes.split_at(count);
        buf[..count].copy_from_slice(prefix);
        self.bytes = suffix;
        Ok(count)
    }

    fn failed(&self) -> bool {
        false
    }
}

/// A sink that keeps all bytes in memory. It fails only if an allocation fails.
#[derive(Drop)]
pub struct VecSink {
    bytes: Vec<u8>,
    failed: bool,
}

impl VecSink {
    /// Creates an empty sink.
    pub fn new(alloc: Global) -> VecSink
        ensures written { ⟦<VecSink as Sink>⟧.written result ≡ Some [] }
        ensures unfailed { ⟦<VecSink as Sink>⟧.has_failed result ≡ false }
    {
        VecSink {
            bytes: Vec::new(alloc),
            failed: false,
        }
    }

    /// Borrows the bytes that were written.
    pub fn bytes(&self) -> &[u8]
        ensures { ⟦<VecSink as Sink>⟧.written self.now ≡ Some result.now }
    {
        self.bytes.as_slice()
    }

    /// Returns the bytes that were written.
    pub fn into_bytes(self) -> Vec<u8>
        ensures { ⟦<VecSink as Sink>⟧.written self ≡ Some result.items }
    {
        self.bytes
    }
}

impl Sink for VecSink {
    ghost written = { λ s. Some s.bytes.items };

    ghost has_failed = { λ s. s.failed };

    fn write(&mut self, bytes: &[u8]) -> Result<usize, Failed> {
        if self.bytes.extend_from_slice(bytes).is_err() {
            self.failed = true;
            return Err(Failed);
        }
        Ok(bytes.len())
    }

    fn failed(&self) -> bool {
        self.failed
    }
}

/// A feed that reads from a reader. Every error of the reader is a failure.
#[derive(Drop)]
pub struct ReaderFeed<R> {
    reader: R,
    failed: bool,
}

impl<R: Read + Drop> ReaderFeed<R> {
    /// Creates a feed that reads from `reader`.
    pub fn new(reader: R) -> ReaderFeed<R>
        ensures rest { ⟦<ReaderFeed<R> as Feed>⟧.rest result ≡ R.remaining reader }
        ensures unfailed { ⟦<ReaderFeed<R> as Feed>⟧.has_failed result ≡ false }
    {
        ReaderFeed {
            reader,
            failed: false,
        }
    }
}

impl<R: Read + Drop> Feed for ReaderFeed<R> {
    ghost rest = { λ s. R.remaining s.reader };

    ghost has_failed = { λ s. s.failed };

    fn read(&mut self, buf: &mut [u8]) -> Result<usize, Failed> {
        let Ok(count) = self.reader.read(buf) else {
            self.failed = true;
            return Err(Failed);
        };
        Ok(count)
    }

    fn failed(&self) -> bool {
        self.failed
    }
}

/// A sink that writes to a writer. Every error of the writer is a failure, and so is a write of no bytes. What it knows of
/// its bytes is what the writer knows: of standard output that is nothing.
#[derive(Drop)]
pub struct WriterSink<W> {
    writer: W,
    failed: bool,
}

impl<W: Write + Drop> WriterSink<W> {
    /// Creates a sink that writes to `writer`.
    pub fn new(writer: W) -> WriterSink<W>
        ensures written { ⟦<WriterSink<W> as Sink>⟧.written result ≡ W.contents writer }
        ensures unfailed { ⟦<WriterSink<W> as Sink>⟧.has_failed result ≡ false }
    {
        WriterSink {
            writer,
            failed: false,
        }
    }
}

impl<W: Write + Drop> Sink for WriterSink<W> {
    ghost written = { λ s. W.contents s.writer };

    ghost has_failed = { λ s. s.failed };

    fn write(&mut self, bytes: &[u8]) -> Result<usize, Failed> {
        match self.writer.write(bytes) {
            Ok(count) if count > 0 || bytes.is_empty() => Ok(count),
            _ => {
                self.failed = true;
                Err(Failed)
            }
        }
    }

    fn failed(&self) -> bool {
        self.failed
    }
}
