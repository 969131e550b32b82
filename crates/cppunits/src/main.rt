//! Preprocesses the translation units of the list on standard input.
#![tactic(auto)]

mod command_line;
mod stack_reserve;

use command_line::Request;
use ppserve::{AtEnd, ReaderFeed, RunFault, RunOptions, WriterSink, serve, status, words};
use ppshelf::DirDisk;
use pptext::Hashing;
use stack_reserve::reserve;
use std::hash::RandomState;
use std::process::ExitCode;
use std::random::RandomSource;

/// Returns the hash function of names, with a random key for this run, so that nobody can choose names that collide.
fn hashing(rt: &impl RandomSource) -> Result<Hashing, RunFault> {
    match RandomState::new(rt) {
        Ok(key) => Ok(Hashing::keyed(key)),
        Err(_) => Err(RunFault::Read),
    }
}

/// Prints the error message of a run that failed. Returns the exit status.
fn exit_with(rt: &impl Eprint, outcome: &Result<bool, RunFault>) -> ExitCode {
    if let Err(fault) = outcome {
        let _ = eprintln!(rt; "{}", words(fault));
    }
    ExitCode::from(status(outcome))
}

/// Runs the program.
///
/// What `serve` promises of bytes says nothing here, since no contract names those of the system's streams: it holds of
/// the program as far as the system's reads and writes do what `ReaderFeed` and `WriterSink` ask of them.
///
/// It calls `serve` itself. A function with the runtime as a parameter can't: it would need a bound that the runtime
/// may be sent to a thread, and the kit's borrow checker doesn't accept that bound.
fn main(rt: HostRuntime) -> ExitCode {
    if reserve(rt.alloc()).is_err() {
        return exit_with(&rt, &Err(RunFault::Memory));
    }
    let options = match command_line::parse_request(&rt) {
        Ok(Request::Run(options)) => options,
        Ok(Request::Exit(status)) => return ExitCode::from(status),
        Err(fault) => return exit_with(&rt, &Err(fault)),
    };
    let mut reader = ReaderFeed::new(rt.stdin());
    let mut writer = WriterSink::new(rt.stdout());
    let hashing = match hashing(&rt) {
        Ok(hashing) => hashing,
        Err(fault) => return exit_with(&rt, &Err(fault)),
    };
    let run = RunOptions {
        mode: options.mode,
        workers: options.workers,
        block: options.block,
        hashing,
        // The program exits next.
        at_end: AtEnd::Leave,
    };
    let disk = match &options.root {
        Some(directory) => Some(DirDisk {
            files: &rt,
            directory: directory.as_str(),
        }),
        None => None,
    };
    let outcome = serve(
        &rt,
        rt.alloc(),
        &mut reader,
        &mut writer,
        disk.as_ref(),
        run,
    );
    exit_with(&rt, &outcome)
}
