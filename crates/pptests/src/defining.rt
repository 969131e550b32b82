//! Helpers: source files of short texts, macro tables, and environments.
use ppexpand::{Env, FileName};
use ppmacro::{Table, define, undef};
use pptext::{
    Directive, Error, Hashing, LONGEST, Memory, Profile, Source, Spelling, Token, read_source,
};
use std::alloc::Global;
use std::hash::RandomState;
use std::process::Abort;
use std::test::Fail;

/// Reads a text as a source file.
pub(crate) fn source_of(rt: &impl Abort, alloc: Global, text: &[u8]) -> Result<Source, Fail> {
    assert!(rt; text.len() <= LONGEST);
    Ok(read_source(alloc, text, 1, Profile::C11)?)
}

/// Returns the tokens of a file from one index up to another.
pub(crate) fn tokens_at(source: &Source, start: usize, end: usize) -> &[Token] {
    source.tokens().get(start..end).unwrap_or(&[])
}

/// Returns an environment in which lines are shifted by `shift`. No test uses the file's name, the date or the time. The rules are those of C11.
pub(crate) fn env(shift: i64) -> Env<'static> {
    Env {
        name: FileName::spelled(Spelling::empty()),
        shift,
        date: Spelling::empty(),
        time: Spelling::empty(),
        profile: Profile::C11,
    }
}

/// Applies a `#define` or `#undef` line to a table.
pub(crate) fn direct<'a>(
    alloc: Global,
    table: &mut Table<'a>,
    profile: Profile,
    line: &'a [Token],
) -> Result<(), Error> {
    let [hash, name, rest @ ..] = line else {
        return Ok(());
    };
    if name.is_identifier_named(b"undef") {
        return undef(alloc, table, profile, hash.at, rest);
    }
    define(alloc, table, profile, hash.at, rest)
}

/// Applies a valid `#define` or `#undef` line to a table. Fails if an allocation fails.
pub(crate) fn define_valid<'a>(
    rt: &impl Abort,
    alloc: Global,
    table: &mut Table<'a>,
    profile: Profile,
    line: &'a [Token],
) -> Result<(), Memory> {
    let answer = direct(alloc, table, profile, line);
    if matches!(&answer, Err(Error::Memory)) {
        return Err(Memory);
    }
    assert!(rt; answer.is_ok());
    Ok(())
}

/// Adds the macros of a file's lines to a table. Returns the tokens after the last directive.
pub(crate) fn directed<'a>(
    rt: &impl Abort,
    alloc: Global,
    table: &mut Table<'a>,
    source: &'a Source,
) -> Result<&'a [Token], Memory> {
    let mut after_name = 0;
    for line in source.lines() {
        if matches!(line.directive, Some(Directive::Define | Directive::Undef)) {
            let tokens = tokens_at(source, line.start, line.end);
            define_valid(rt, alloc, table, Profile::C11, tokens)?;
            after_name = line.end;
        }
    }
    Ok(tokens_at(source, after_name, source.tokens().len()))
}

/// Returns a hash function with a random key.
pub(crate) fn drawn(rt: &HostRuntime) -> Result<Hashing, Fail> {
    match RandomState::new(rt) {
        Ok(key) => Ok(Hashing::keyed(key)),
        Err(_) => Err(Fail::new("no key was drawn")),
    }
}
