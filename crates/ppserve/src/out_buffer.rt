//! A 1 MiB output buffer.
ghost use Rattle.std.specs.Prelude.{◌≡◌, ◌+◌, ◌<◌, ◌≤◌, ◌++◌, ◌∷◌, [], codes, length, take, true, false, IfOk};
ghost use Rattle.ppserve.specs.code.LinePrefix.{before_spelling, max_prefix};
ghost use Rattle.ppserve.specs.Output.{percent_encoded};
ghost use Rattle.ppserve.specs.code.Printing.{Puts, buffer_size, max_short, max_short_line};
ghost use Rattle.ppserve.specs.code.TextPieces.{bar, token_bytes};

use crate::formatting::{as_is_prefix, put_byte, put_prefix};
use crate::line_prefix::{LastPrefixes, LineFields, MAX_PREFIX};
use crate::streams::Sink;
use std::alloc::{AllocError, Global};
use std::marker::Model;

/// The size of a buffer, in bytes.
pub(crate) const SIZE: usize = 1_048_576;

/// The limit that keeps a buffer in a processor's cache.
const SMALL: usize = 65_536;

/// The largest number of bytes of a short spelling.
const SHORT: usize = 14;

/// The largest number of bytes of the line of a token with a short spelling.
const LONGEST: usize = MAX_PREFIX + SHORT + 1;

/// A buffer of 1 MiB with the bytes that aren't written yet. It is allocated once, so that later calls can't run out
/// of memory.
#[derive(Drop)]
pub(crate) struct OutBuffer {
    bytes: Vec<u8>,
    filled: usize,
    /// The buffer is flushed before the line of a token if it has more bytes than this.
    limit: usize,
    prefixes: LastPrefixes,
}

impl Model for OutBuffer {
    ghost use Rattle.std.specs.Prelude.{◌≡◌, ◌+◌, ◌≤◌, ℕ, List, take, vec_len};
    ghost use Rattle.ppserve.specs.code.Printing.{buffer_size, max_short_line};

    ghost Value = { List ℕ };

    ghost view = { λ p. take p.filled p.bytes.items };

    ghost invariant = { λ p. (vec_len p.bytes ≡ buffer_size) × (p.filled ≤ buffer_size) × (p.limit + max_short_line ≤ buffer_size) };
}

impl OutBuffer {
    /// Allocates an empty buffer, which is flushed when it has about 64 KiB: then it stays in a processor's cache.
    pub(crate) fn new(alloc: Global) -> Result<OutBuffer, AllocError>
        ensures { IfOk result (λ buf. buf ≡ []) }
    {
        OutBuffer::with_limit(alloc, SMALL)
    }

    /// Allocates an empty buffer, which is flushed when it is nearly full.
    pub(crate) fn with_full_size(alloc: Global) -> Result<OutBuffer, AllocError>
        ensures { IfOk result (λ buf. buf ≡ []) }
    {
        OutBuffer::with_limit(alloc, SIZE - LONGEST)
    }

    /// Allocates an empty buffer, which is flushed when it has more than `limit` bytes.
    fn with_limit(alloc: Global, limit: usize) -> Result<OutBuffer, AllocError>
        requires { limit + max_short_line ≤ buffer_size }
        ensures { IfOk result (λ buf. buf ≡ []) }
    {
        let bytes = vec![in alloc; 0u8; SIZE]?;
        Ok(OutBuffer {
            bytes,
            filled: 0,
            limit,
            prefixes: LastPrefixes::new(),
        })
    }

    /// Appends bytes. If they don't fit, the buffer is flushed first; bytes that are longer than the buffer are written
    /// directly.
    pub(crate) fn put<W: Sink>(&mut self, writer: &mut W, bytes: &[u8])
        ensures { Puts W.written W.has_failed writer.old writer.new self.old self.new bytes.now }
    {
        if bytes.len() <= SIZE - self.filled {
            return self.add(bytes);
        }
        self.flush(writer);
        if bytes.len() <= SIZE {
            return self.add(bytes);
        }
        write_out(writer, bytes);
    }

    /// Flushes the buffer unless it has capacity for the line of a token with a short spelling.
    #[inline(always)]
    pub(crate) fn ensure_capacity<W: Sink>(&mut self, writer: &mut W)
        ensures out { Puts W.written W.has_failed writer.old writer.new self.old self.new [] }
        ensures capacity { length self.new + max_short_line ≤ buffer_size }
    {
        if self.filled > self.limit {
            self.flush(writer);
        }
    }

    /// Appends what is before the spelling of a token.
    #[inline(always)]
    pub(crate) fn add_line_prefix(&mut self, fields: LineFields)
        requires { length self.old + max_prefix ≤ buffer_size }
        ensures text { self.new ≡ self.old ++ codes "tok" ++ before_spelling fields.at fields.used fields.kind fields.space }
        ensures within { length self.new ≤ length self.old + max_prefix }
    {
        let bytes = self.bytes.as_mut_slice();
        self.filled = self.prefixes.put(bytes, self.filled, fields);
    }

    /// Appends the spelling in the first `len` bytes of `inline` and the end of its line. Returns false, without
    /// effect, if a byte of the spelling can't be printed as it is. All bytes of `inline` are copied, so that no branch
    /// depends on the spelling's length, which is hard to predict.
    #[inline(always)]
    pub(crate) fn add_short_spelling(&mut self, inline: &[u8; SHORT], len: usize) -> bool
        requires capacity { length self.old + max_short + 1 ≤ buffer_size }
        requires len { len ≤ max_short }
        ensures added { result ≡ true → self.new ≡ self.old ++ percent_encoded (take len inline.now) ++ (10 ∷ []) }
        ensures refused { result ≡ false → self.new ≡ self.old }
    {
        if as_is_prefix(inline) < len {
            return false;
        }
        let bytes = self.bytes.as_mut_slice();
        let end = put_prefix(bytes, self.filled, inline, len);
        self.filled = put_byte(bytes, end, b'\n');
        true
    }

    /// Appends what the text of a unit has for a token: `|` if it is the first of its line, spaces, and the spelling in
    /// the first `len` bytes of `inline`. Returns false, without effect, if there are more than 16 spaces, if the token
    /// begins with `\\`, since that alone is followed by a space, or if a byte of it can't be printed as it is: after a
    /// new-line there is a `|`.
    #[inline(always)]
    pub(crate) fn add_short_token(
        &mut self,
        is_first: bool,
        spaces: usize,
        inline: &[u8; SHORT],
        len: usize,
    ) -> bool
        requires capacity { length self.old + max_short_line ≤ buffer_size }
        requires len { len ≤ max_short }
        ensures added { result ≡ true → self.new ≡ self.old ++ token_bytes is_first spaces (take len inline.now) }
        ensures refused { result ≡ false → self.new ≡ self.old }
    {
        if spaces > 16 || inline[0] == b'\\' || as_is_prefix(inline) < len {
            return false;
        }
        let bytes = self.bytes.as_mut_slice();
        let end = put_bar(bytes, self.filled, is_first);
        let end = put_prefix(bytes, end, b"                ", spaces);
        self.filled = put_prefix(bytes, end, inline, len);
        true
    }

    /// Appends bytes that fit.
    fn add(&mut self, bytes: &[u8])
        requires { length self.old + length bytes.now ≤ buffer_size }
        ensures { self.new ≡ self.old ++ bytes.now }
    {
        let end = self.filled + bytes.len();
        self.bytes.as_mut_slice()[self.filled..end].copy_from_slice(bytes);
        self.filled = end;
    }

    /// Empties the buffer.
    pub(crate) fn clear(&mut self)
        ensures { self.new ≡ [] }
    {
        self.filled = 0;
    }

    /// Writes the buffer and empties it.
    #[inline(never)]
    pub(crate) fn flush<W: Sink>(&mut self, writer: &mut W)
        ensures out { Puts W.written W.has_failed writer.old writer.new self.old self.new [] }
        ensures empty { self.new ≡ [] }
    {
        write_out(writer, &self.bytes.as_slice()[..self.filled]);
        self.filled = 0;
    }
}

/// Writes the `|` of a line that begins.
#[inline(always)]
fn put_bar(bytes: &mut [u8], end: usize, begins: bool) -> usize
    requires { end < length bytes.old }
    ensures text { take result bytes.new ≡ take end bytes.old ++ bar begins }
    ensures end { end ≤ result }
    ensures within { result ≤ end + 1 }
{
    if begins {
        put_byte(bytes, end, b'|')
    } else {
        end
    }
}

/// Writes all bytes, or a prefix of them if a write fails. After a failed write nothing more is written.
fn write_out<W: Sink>(writer: &mut W, bytes: &[u8])
    ensures { Puts W.written W.has_failed writer.old writer.new [] [] bytes.now }
{
    if writer.failed() {
        return;
    }
    let mut done = 0;
    while done < bytes.len() {
        let Ok(count) = writer.write(&bytes[done..]) else {
            return;
        };
        done += count;
    }
}
