//! Prints in rounds: workers fill a buffer each, then one thread writes the buffers in order.
//!
//! Formatting takes far longer than writing, so it is what several threads share. A worker can't know where its lines
//! begin in the output, but it knows its records: a round gives each page the next records, a number that nearly fills
//! its buffer. The page formats them in front of a `RefusingSink`, which fails if they don't fit. Then the page's
//! records are formatted again while they are written, and the next rounds give out fewer. All buffers are allocated
//! before the first round, so that no allocation can fail once a byte was written.
ghost use Rattle.std.specs.Prelude.{◌≡◌, ◌<◌, ◌++◌, [], All, IfOk, length, min, flat_map};
ghost use Rattle.ppserve.specs.code.Records.{Alike, IsOver, record_lines, remaining_records};
ghost use Rattle.ppserve.specs.declared.line_cursor.LineCursor.{LineCursor};
ghost use Rattle.ppserve.specs.code.Printing.{Puts};
ghost use Rattle.ppserve.specs.code.Rounds.{page_records, IsAlike, IsEmpty, IsFilled};

use crate::line_cursor::LineCursor;
use crate::out_buffer::{OutBuffer, SIZE};
use crate::output::{Output, put_next};
use crate::streams::{Failed, Sink};
use ppshelf::FileName;
use std::alloc::{AllocError, Global};
use std::thread::{Threads, for_each_mut};

/// The least number of tokens that a worker formats in a round.
const MIN_TOKENS: usize = 256;

/// The largest number of pages. More gain nothing, because one thread writes them.
const MAX_PAGES: usize = 16;

/// A sink that refuses all bytes. A buffer in front of it keeps all that is put into it; if the buffer overflows, the
/// sink has failed.
#[derive(Drop)]
struct RefusingSink {
    failed: bool,
}

impl Sink for RefusingSink {
    ghost use Rattle.std.specs.Prelude.{Some, []};

    ghost written = { λ _. Some [] };

    ghost has_failed = { λ s. s.failed };

    fn write(&mut self, bytes: &[u8]) -> Result<usize, Failed> {
        if bytes.is_empty() {
            return Ok(0);
        }
        self.failed = true;
        Err(Failed)
    }

    fn failed(&self) -> bool {
        self.failed
    }
}

/// What one worker formats in a round: a buffer, and the records whose lines go into it.
#[derive(Drop)]
pub(crate) struct Page<'a> {
    buf: OutBuffer,
    sink: RefusingSink,
    start: LineCursor<'a>,
    /// The position while the lines are formatted.
    cursor: LineCursor<'a>,
    /// The number of records.
    count: usize,
}

impl<'a> Page<'a> {
    /// Allocates an empty page.
    fn new(alloc: Global, output: Output<'a>) -> Result<Page<'a>, AllocError>
        ensures empty { IfOk result (λ page. IsEmpty page) }
        ensures over { IfOk result (λ page. IsOver output.entry page.start) }
    {
        Ok(Page {
            buf: OutBuffer::with_full_size(alloc)?,
            sink: RefusingSink { failed: false },
            start: LineCursor::new(alloc, output)?,
            cursor: LineCursor::new(alloc, output)?,
            count: 0,
        })
    }

    /// Assigns the next records to the page, with about this number of tokens, and moves the cursor over them.
    fn assign(&mut self, cursor: &mut LineCursor<'a>, tokens: usize)
        requires { Alike self.old.start cursor.old }
        ensures records { remaining_records cursor.old ≡ page_records self.new ++ remaining_records cursor.new }
        ensures fewer { 0 < tokens → 0 < length (remaining_records cursor.old) → length (remaining_records cursor.new) < length (remaining_records cursor.old) }
        ensures empty { IsEmpty self.old → IsEmpty self.new }
        ensures start { Alike self.new.start self.old.start }
        ensures alike { Alike cursor.new cursor.old }
    {
        self.start.move_to(cursor);
        self.count = cursor.skip(tokens);
    }

    /// Puts the lines of the page's records into its buffer, as far as they fit.
    fn fill(&mut self, names: &[FileName])
        requires { IsEmpty self.old }
        ensures records { page_records self.new ≡ page_records self.old }
        ensures start { self.new.start ≡ self.old.start }
        ensures filled { IsFilled names.now self.new }
    {
        self.cursor.move_to(&self.start);
        put_next(
            &mut self.buf,
            &mut self.sink,
            names,
            &mut self.cursor,
            self.count,
        );
    }

    /// Writes the lines of the page's records, and empties it. If they didn't fit, they are formatted once more. Returns
    /// whether they fit.
    fn write_out<W: Sink>(&mut self, writer: &mut W, names: &[FileName]) -> bool
        requires { IsFilled names.now self.old }
        ensures out { Puts W.written W.has_failed writer.old writer.new [] [] (flat_map (record_lines names.now) (page_records self.old)) }
        ensures empty { IsEmpty self.new }
        ensures start { self.new.start ≡ self.old.start }
    {
        let fits = !self.sink.failed;
        if !fits {
            self.buf.clear();
            self.sink.failed = false;
            self.cursor.move_to(&self.start);
            put_next(&mut self.buf, writer, names, &mut self.cursor, self.count);
        }
        self.buf.flush(writer);
        fits
    }
}

/// Allocates a page for each worker, at most 16.
pub(crate) fn new_pages<'a>(
    alloc: Global,
    output: Output<'a>,
    workers: usize,
) -> Result<Vec<Page<'a>>, AllocError>
    ensures count { IfOk result (λ pages. length pages.items ≡ min workers 16) }
    ensures empty { IfOk result (λ pages. All IsEmpty pages.items) }
    ensures over { IfOk result (λ pages. All (λ page. IsOver output.entry page.start) pages.items) }
{
    let count = workers.min(MAX_PAGES);
    let mut pages = Vec::with_capacity(alloc, count)?;
    for _ in 0..count {
        pages.push(Page::new(alloc, output)?)?;
    }
    Ok(pages)
}

/// Assigns the next records to pages, with about this number of tokens to each.
fn assign_all<'a>(pages: &mut [Page<'a>], cursor: &mut LineCursor<'a>, tokens: usize)
    requires pages { 0 < length pages.old }
    requires tokens { 0 < tokens }
    requires alike { All (IsAlike cursor.old) pages.old }
    ensures records { remaining_records cursor.old ≡ flat_map page_records pages.new ++ remaining_records cursor.new }
    ensures fewer { 0 < length (remaining_records cursor.old) → length (remaining_records cursor.new) < length (remaining_records cursor.old) }
    ensures empty { All IsEmpty pages.old → All IsEmpty pages.new }
    ensures alike { All (IsAlike cursor.old) pages.new }
    ensures cursor { Alike cursor.new cursor.old }
{
    for page in pages.iter_mut() {
        page.assign(cursor, tokens);
    }
}

/// Writes pages in order. Returns whether all lines fit.
fn write_all<W: Sink>(pages: &mut [Page], writer: &mut W, names: &[FileName]) -> bool
    requires { All (IsFilled names.now) pages.old }
    ensures out { Puts W.written W.has_failed writer.old writer.new [] [] (flat_map (record_lines names.now) (flat_map page_records pages.old)) }
    ensures empty { All IsEmpty pages.new }
    ensures alike { (c : LineCursor) → All (IsAlike c) pages.old → All (IsAlike c) pages.new }
{
    let mut all_fit = true;
    for page in pages.iter_mut() {
        if !page.write_out(writer, names) {
            all_fit = false;
        }
    }
    all_fit
}

/// Fills pages with the lines of their records, as far as they fit, with one thread per page.
fn fill_all<T: Threads + Sync>(threads: &T, pages: &mut [Page], names: &[FileName])
    requires pages { 0 < length pages.old }
    requires empty { All IsEmpty pages.old }
    ensures records { flat_map page_records pages.new ≡ flat_map page_records pages.old }
    ensures filled { All (IsFilled names.now) pages.new }
    ensures alike { (c : LineCursor) → All (IsAlike c) pages.old → All (IsAlike c) pages.new }
{
    let fill = |_index: usize, page: &mut Page|
        requires { IsEmpty page.now }
        ensures { (page_records page.exit.now ≡ page_records page.entry.now) × (page.exit.now.start ≡ page.entry.now.start) × IsFilled names.entry.now page.exit.now }
    { page.fill(names) };
    let count = pages.len();
    for_each_mut(threads, pages, count, &fill);
}

/// Prints all lines in rounds, through empty pages, with one worker per page, without allocating. After a failed write
/// nothing more is formatted or written.
pub(crate) fn put_in_rounds<'a, T: Threads + Sync, W: Sink>(
    threads: &T,
    pages: &mut [Page<'a>],
    writer: &mut W,
    output: Output<'a>,
    cursor: &mut LineCursor<'a>,
)
    requires pages { 0 < length pages.old }
    requires empty { All IsEmpty pages.old }
    requires alike { All (IsAlike cursor.old) pages.old }
    ensures { Puts W.written W.has_failed writer.old writer.new [] [] (flat_map (record_lines output.entry.names.now) (remaining_records cursor.old)) }
{
    let mut tokens = output.mode.tokens_in(SIZE);
    while !cursor.is_at_end() {
        if writer.failed() {
            return;
        }
        assign_all(pages, cursor, tokens);
        fill_all(threads, pages, output.names);
        if !write_all(pages, writer, output.names) {
            tokens = (tokens / 2).max(MIN_TOKENS);
        }
    }
}
