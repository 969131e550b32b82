//! Tests of streams that fail, that transfer few bytes at a time, and those of the system.
use super::devices::{Limits, UNLIMITED};
use super::{assert_ended, assert_sends, by_four, run_list};
use ppserve::{AtEnd, ReaderFeed, RunFault, RunOptions, WriterSink, serve, status};
use ppshelf::{File, MemoryDisk};
use pptext::Memory;
use std::alloc::{AllocError, Global};
use std::process::Abort;
use std::test::Fail;
use std::thread::Threads;

pub(super) const EXAMPLE: &str =
    r#"{"date":"Feb  9 2024","time":"08:05:03","files":[{"name":"a.c","text":"a+b/**/c\n"}],"units":[{"file":"a.c"}]}"#;

pub(super) const EXAMPLE_OUTPUT: &str =
    "unit 0 a.c\ntok 0:1:1 0:1:1 i+ a\ntok 0:1:2 0:1:2 p- +\ntok 0:1:3 0:1:3 i- b\ntok 0:1:8 0:1:8 i+ c\ndep 0 a.c\nok\n";

#[test]
fn writes_nothing_after_a_failed_read(rt: HostRuntime) -> Result<(), Fail> {
    let reading = Limits {
        most: 30,
        fails_at: 2,
    };
    let run = run_list(&rt, EXAMPLE, reading, UNLIMITED)?;
    assert_ended(&rt, &run, b"", (5, "cppunits: read failed"))
}

/// A list with a file of two names, each on a line of its own, that two units preprocess.
const NAMES: &str =
    r#"{"date":"Feb  9 2024","time":"08:05:03","files":[{"name":"a.c","text":"~\n~"}],"units":[{"file":"a.c"},{"file":"a.c"}]}"#;

const NAMES_OUTPUT: &str = concat!(
    "unit 0 a.c\ntok 0:1:1 0:1:1 i+ ~\ntok 0:2:1 0:2:1 i+ ~\ndep 0 a.c\nok\n",
    "unit 1 a.c\ntok 0:1:1 0:1:1 i+ ~\ntok 0:2:1 0:2:1 i+ ~\ndep 0 a.c\nok\n"
);

/// A list with a file of one name.
const NAME: &str =
    r#"{"date":"Feb  9 2024","time":"08:05:03","files":[{"name":"a.c","text":"~"}],"units":[{"file":"a.c"}]}"#;

const NAME_OUTPUT: &str = "unit 0 a.c\ntok 0:1:1 0:1:1 i+ ~\ndep 0 a.c\nok\n";

/// The number of bytes that are written through a writer with a limit for each call, if one call fails: of the example,
/// of a page, of long names that overflow a page, and of a name that is longer than a page, which is written by itself,
/// between what is before it and what is after it.
const SENT: &[(&str, &str, usize, (usize, usize), usize)] = &[
    (EXAMPLE, EXAMPLE_OUTPUT, 0, (5, 3), 10),
    (NAMES, NAMES_OUTPUT, 40_000, (20_000, 1), 0),
    (NAMES, NAMES_OUTPUT, 40_000, (20_000, 2), 20_000),
    (NAMES, NAMES_OUTPUT, 40_000, (20_000, 9), 160_000),
    (NAMES, NAMES_OUTPUT, 40_000, (20_000, 100), 160_128),
    (NAMES, NAMES_OUTPUT, 40_000, (1_000_000, 100), 160_128),
    (NAMES, NAMES_OUTPUT, 40_000, (7, 100_000), 160_128),
    (NAMES, NAMES_OUTPUT, 600_000, (1_000_000, 1), 0),
    (NAMES, NAMES_OUTPUT, 600_000, (1_000_000, 2), 600_050),
    (NAMES, NAMES_OUTPUT, 600_000, (1_000_000, 3), 1_200_094),
    (NAMES, NAMES_OUTPUT, 600_000, (1_000_000, 4), 1_800_114),
    (NAMES, NAMES_OUTPUT, 600_000, (1_000_000, 5), 2_400_128),
    (NAME, NAME_OUTPUT, 1_048_577, (2_000_000, 1), 0),
    (NAME, NAME_OUTPUT, 1_048_577, (2_000_000, 2), 30),
    (NAME, NAME_OUTPUT, 1_048_577, (2_000_000, 3), 1_048_607),
    (NAME, NAME_OUTPUT, 1_048_577, (2_000_000, 4), 1_048_621),
];

#[test]
fn breaks_off_at_each_write(rt: HostRuntime) -> Result<(), Fail> {
    for &(list, whole, times, (most, fails_at), len) in SENT {
        let writing = Limits { most, fails_at };
        let name = "n".repeat(rt.alloc(), times)?;
        assert_sends(&rt, (list, whole), name.as_str(), writing, len)?;
    }
    Ok(())
}

/// The example with only the name of its file, and a disk that has the file.
const NAMED: &str =
    r#"{"date":"Feb  9 2024","time":"08:05:03","files":[{"name":"a.c"}],"units":[{"file":"a.c"}]}"#;

fn disk_of(alloc: Global) -> Result<MemoryDisk, AllocError> {
    let mut files = Vec::new(alloc);
    files.push(File {
        name: String::from_str(alloc, "a.c")?,
        bytes: Vec::from_slice(alloc, b"a+b/**/c\n")?,
    })?;
    Ok(MemoryDisk { files })
}

/// Runs it with four workers, from the system's reader to the system's writer.
fn run_between<R: Threads + AllocGlobal + Sync>(
    rt: &R,
    disk: &MemoryDisk,
    bytes: &mut Vec<u8>,
    options: RunOptions,
) -> Result<bool, RunFault> {
    let mut reader = ReaderFeed::new(NAMED.as_bytes());
    let mut writer = WriterSink::new(bytes);
    serve(
        rt,
        rt.alloc(),
        &mut reader,
        &mut writer,
        Some(disk),
        options,
    )
}

#[test]
fn serves_from_a_disk_over_a_reader_and_a_writer(rt: HostRuntime) -> Result<(), Fail> {
    let disk = disk_of(rt.alloc())?;
    let mut bytes = Vec::new(rt.alloc());
    let mut options = by_four()?;
    options.at_end = AtEnd::Leave;
    let outcome = run_between(&rt, &disk, &mut bytes, options);
    assert!(&rt; EXAMPLE_OUTPUT.as_bytes().starts_with(bytes.as_slice()));
    if matches!(outcome, Err(RunFault::Memory) | Err(RunFault::Write)) {
        return Err(Fail::from(Memory));
    }
    assert!(&rt; status(&outcome) == 0 && bytes.len() == EXAMPLE_OUTPUT.len());
    Ok(())
}
