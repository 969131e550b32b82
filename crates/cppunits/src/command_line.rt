//! Parses the command line, before any input is read.
ghost use Rattle.std.specs.Prelude.{◌≤◌};

#[cfg(test)]
mod tests;

use clap::error::ErrorKind;
use clap::{Arg, ArgMatches, Command, Error};
use ppserve::{Block, Mode, RunFault, Workers};
use std::alloc::{AllocError, Global};
use std::rt::Env;
use std::{env, io};

/// The options of a run.
#[derive(Drop)]
pub struct Options {
    /// What is printed of each unit.
    pub mode: Mode,
    /// The number of workers, which preprocess units in parallel.
    pub workers: Workers,
    /// The largest number of units that a worker claims at a time.
    pub block: Block,
    /// The directory that files are read from. Without one the list holds their contents.
    pub root: Option<String>,
}

/// The result of parsing the command line.
#[derive(Drop)]
pub enum Request {
    /// Run with these options.
    Run(Options),
    /// Exit with this status: the help, the version or a usage error was printed.
    Exit(u8),
}

/// The largest number of workers.
const MAX_WORKERS: usize = 64;

/// The largest number of units that a worker claims at a time.
const MAX_BLOCK: usize = 1024;

/// The exit status of a usage error.
const USAGE: u8 = 2;

const VERSION: &str = "0.1.0";

const ABOUT: &str = "Preprocess the C11 translation units of the list on standard input";

const ABOUT_DUMP: &str =
    "Print each unit's tokens with their locations, its pragmas, its dependencies and its first fault";

const ABOUT_DEPS: &str = "Print each unit's dependencies and its first fault";

const ABOUT_TEXT: &str =
    "Print each unit as text with line markers, which a compiler takes, its dependencies and its first fault";

const ABOUT_FAULTS: &str =
    "Print each unit's first fault, and the include lines that lead to the file in which it stops";

const MORE: &str = "\
The list is read from standard input: a JSON object with `date`, `time`, `files` and `units`. The output goes to standard output,
when all units are done. docs/FORMAT.md of the sources has the format of both, docs/FAULTS.md explains the numbers of faults and
refusals.
Status: 0 no unit has a fault, 1 some unit has one, 2 usage, 3 the list is refused, 4 out of memory or of file descriptors,
5 a read or write failed, or the system has no random bytes.";

/// Parses the command line, and prints the help, the version or a usage error if there is one. Fails if an allocation
/// fails, or if the help or the version can't be written.
pub fn parse_request<R: Env + AllocGlobal + Print + Eprint>(rt: &R) -> Result<Request, RunFault> {
    match parse(rt) {
        Ok(options) => Ok(Request::Run(options)),
        Err(error) => Ok(Request::Exit(stop_status(rt, &error)?)),
    }
}

/// Prints the help, the version or the usage error. Returns the exit status.
fn stop_status<R: Print + Eprint>(rt: &R, error: &Error) -> Result<u8, RunFault> {
    if error.kind() == ErrorKind::OutOfMemory {
        return Err(RunFault::Memory);
    }
    let printed = error.print(rt);
    if error.use_stderr() {
        return Ok(USAGE);
    }
    match printed {
        Ok(()) => Ok(0),
        Err(_) => Err(RunFault::Write),
    }
}

/// Parses the command line.
fn parse<R: Env + AllocGlobal>(rt: &R) -> Result<Options, Error> {
    let mut command = command(rt.alloc())?;
    let words = arguments(rt, &mut command)?;
    let matches = command.try_get_matches_from(words.as_slice())?;
    Ok(read_options(rt.alloc(), &matches)?)
}

/// Returns the command-line arguments.
fn arguments<R: Env + AllocGlobal>(
    rt: &R,
    command: &mut Command<'_>,
) -> Result<Vec<String>, Error> {
    match env::args(rt) {
        Ok(words) => Ok(words.collect(rt.alloc())?),
        Err(error) if error.kind() == io::ErrorKind::OutOfMemory => Err(Error::from(AllocError)),
        Err(_) => Err(command.error(ErrorKind::InvalidValue, "an argument is no UTF-8 text")?),
    }
}

/// Returns the options that were parsed.
fn read_options(alloc: Global, matches: &ArgMatches<'_>) -> Result<Options, AllocError> {
    let root = match matches.get_str("root") {
        Some(directory) => Some(String::from_str(alloc, directory)?),
        None => None,
    };
    let mode = match matches.subcommand_name() {
        Some("deps") => Mode::Deps,
        Some("text") => Mode::Text,
        Some("faults") => Mode::Faults,
        _ => Mode::Dump,
    };
    let Some(workers) = Workers::new(number(matches, "workers", MAX_WORKERS)) else {
        unreachable!()
    };
    let Some(block) = Block::new(number(matches, "block", MAX_BLOCK)) else {
        unreachable!()
    };
    Ok(Options {
        mode,
        workers,
        block,
        root,
    })
}

/// Returns the value of an option, 1 to `most`, or its default; clap refuses other values.
fn number(matches: &ArgMatches<'_>, option: &str, most: usize) -> usize
    requires { 1 ≤ most }
    ensures { (1 ≤ result) × (result ≤ most) }
{
    matches.get_one::<usize>(option).unwrap_or(1).clamp(1, most)
}

/// Builds the parser.
fn command<'a>(alloc: Global) -> Result<Command<'a>, AllocError> {
    Command::new(alloc, "cppunits")
        .version(VERSION)
        .about(ABOUT)
        .after_help(MORE)
        .arg(workers_option(alloc))?
        .arg(block_option(alloc))?
        .arg(root_option(alloc))?
        .subcommand_required(true)
        .disable_help_subcommand(true)
        .subcommand(subcommand(alloc, "dump", ABOUT_DUMP))?
        .subcommand(subcommand(alloc, "deps", ABOUT_DEPS))?
        .subcommand(subcommand(alloc, "faults", ABOUT_FAULTS))?
        .subcommand(subcommand(alloc, "text", ABOUT_TEXT))
}

/// Builds the option `--workers`.
fn workers_option<'a>(alloc: Global) -> Arg<'a> {
    Arg::new(alloc, "workers")
        .long("workers")
        .global(true)
        .value_name("N")
        .help("Preprocess N units in parallel, 1 to 64")
        .default_value("4")
        .value_parser(clap::value_parser!(usize).range(1..=MAX_WORKERS as i64))
}

/// Builds the option `--block`.
fn block_option<'a>(alloc: Global) -> Arg<'a> {
    Arg::new(alloc, "block")
        .long("block")
        .global(true)
        .value_name("K")
        .help("Give a worker at most K units at a time, 1 to 1024")
        .default_value("8")
        .value_parser(clap::value_parser!(usize).range(1..=MAX_BLOCK as i64))
}

/// Builds the option `--root`.
fn root_option<'a>(alloc: Global) -> Arg<'a> {
    Arg::new(alloc, "root")
        .long("root")
        .global(true)
        .value_name("DIR")
        .help("Read each listed file below this directory; the list then has names only")
}

/// Builds a subcommand.
fn subcommand<'a>(alloc: Global, name: &'a str, about: &'a str) -> Command<'a> {
    Command::new(alloc, name).about(about).after_help(MORE)
}
