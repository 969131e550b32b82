//! Tests of whole runs, from the bytes of a list to the bytes of its output.
ghost use Rattle.std.specs.Prelude.{◌≡◌};

mod answers;
mod devices;
mod in_memory;
mod streams;

use devices::{Limits, Reader, UNLIMITED, Writer};
use ppserve::{
    AtEnd, Block, Feed, Mode, RunFault, RunOptions, Sink, Workers, serve, status, words,
};
use ppshelf::MemoryDisk;
use pptext::{Hashing, Memory};
use std::process::Abort;
use std::test::Fail;
use std::thread::Threads;

/// The result of a run, and its streams afterwards.
#[derive(Drop)]
struct RunEnd<'l> {
    outcome: Result<bool, RunFault>,
    reader: Reader<'l>,
    writer: Writer,
}

/// Returns the options of four workers that print everything.
fn by_four() -> Result<RunOptions, Fail> {
    let (Some(workers), Some(block)) = (Workers::new(4), Block::new(8)) else {
        return Err(Fail::new("too many workers, or too large a block"));
    };
    Ok(RunOptions {
        mode: Mode::Dump,
        workers,
        block,
        hashing: Hashing::fixed(),
        at_end: AtEnd::Free,
    })
}

/// Runs a list that holds its files with four workers, through a reader and a writer with these limits.
fn run_list<'l, R: Threads + AllocGlobal + Sync>(
    rt: &R,
    list: &'l str,
    reading: Limits,
    writing: Limits,
) -> Result<RunEnd<'l>, Fail> {
    let options = by_four()?;
    let mut reader = Reader::new(list.as_bytes(), reading);
    let mut writer = Writer::new(rt.alloc(), writing);
    let disk: Option<&MemoryDisk> = None;
    let outcome = serve(rt, rt.alloc(), &mut reader, &mut writer, disk, options);
    Ok(RunEnd {
        outcome,
        reader,
        writer,
    })
}

/// The status and the message of a run whose writer failed.
const WRITE_FAILED: (u8, &str) = (5, "cppunits: write failed");

/// Returns whether an allocation failed in a run or in its writer.
fn wants_memory(run: &RunEnd) -> bool {
    matches!(run.outcome, Err(RunFault::Memory)) || run.writer.wants_memory()
}

/// Returns whether a run wrote a prefix of `want`. It must be empty if an allocation of the run failed.
fn writes_beginning(run: &RunEnd, want: &[u8]) -> bool {
    let went = run.writer.bytes();
    want.starts_with(went) && (went.is_empty() || !matches!(run.outcome, Err(RunFault::Memory)))
}

/// Returns whether a run ended with this status and message, its streams failed only if these say so, and nothing was
/// written after a failed write.
fn ends_so(run: &RunEnd, (code, said): (u8, &str)) -> bool {
    let says_so = match &run.outcome {
        Ok(_) => said.is_empty(),
        Err(fault) => words(fault) == said,
    };
    says_so
        && status(&run.outcome) == code
        && run.reader.failed() == (said == "cppunits: read failed")
        && run.writer.failed() == (said == "cppunits: write failed")
        && run.writer.is_let_alone()
}

/// Asserts what a run wrote, and how it ended. A failed allocation is an error of the test, before which a prefix was
/// written.
fn assert_ended(rt: &impl Abort, run: &RunEnd, want: &[u8], end: (u8, &str)) -> Result<(), Fail> {
    let begins = writes_beginning(run, want);
    if begins && wants_memory(run) {
        return Err(Fail::from(Memory));
    }
    let went = run.writer.bytes();
    let ends = begins && went.len() == want.len() && ends_so(run, end);
    assert!(rt; ends, "{went:?} for {want:?}, {}", end.1);
    Ok(())
}

/// Asserts how many bytes are written of the output of a list without faults, if the writer then fails. In both texts
/// each tilde stands for the filler.
fn assert_sends<R: Threads + AllocGlobal + Abort + Sync>(
    rt: &R,
    (list, want): (&str, &str),
    filler: &str,
    writing: Limits,
    len: usize,
) -> Result<(), Fail> {
    let list = list.replace(rt.alloc(), "~", filler)?;
    let want = want.replace(rt.alloc(), "~", filler)?;
    let want = want.as_bytes();
    let end = if len < want.len() {
        WRITE_FAILED
    } else {
        (0, "")
    };
    let len = len.min(want.len());
    let run = run_list(rt, list.as_str(), UNLIMITED, writing)?;
    assert_ended(rt, &run, &want[..len], end)
}
