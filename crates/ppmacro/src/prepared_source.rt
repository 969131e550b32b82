//! Files prepared for phase 4.
ghost use Rattle.std.specs.Prelude.{◌≡◌, ◌<◌, IfOk, IfSome, drop, length};
ghost use Rattle.std.specs.List.{list_any};
ghost use Rattle.pptext.specs.Tokens.{is_unmatched_quote};
ghost use Rattle.pptext.specs.IndexedLines.{line_at};
ghost use Rattle.pptext.specs.Tree.{hash_place};
ghost use Rattle.ppmacro.specs.DefineLines as spec;
ghost use Rattle.ppmacro.specs.DefineLines.{IsDefineLine};
ghost use Rattle.ppmacro.specs.code.PreparedDefinitions.{AreReadFrom, IsReadFrom};

use crate::define_lines::{DefineLine, ReadDefinition};
use pptext::{Directive, Hashing, Memory, Place, Profile, Source, Token};
use std::alloc::Global;
use std::marker::Model;

/// A file without fault, with what its `#define` lines define. Contracts see the list of its lines.
#[derive(Drop)]
pub struct PreparedSource {
    source: Source,
    /// What the line at each index defines, if it is a `#define` line without an unmatched quote.
    definitions: Vec<Option<Box<ReadDefinition>>>,
}

impl Model for PreparedSource {
    ghost use Rattle.std.specs.Prelude.{List};
    ghost use Rattle.pptext.specs.Lines.{LogicalLine};
    ghost use Rattle.ppmacro.specs.code.PreparedDefinitions.{AreReadFrom};

    ghost Value = { List LogicalLine };

    ghost view = { λ p. p.source };

    ghost invariant = { λ p. AreReadFrom p.source p.definitions.items };
}

/// Returns whether one of the tokens is an unmatched quote.
fn has_unmatched_quote(tokens: &[Token]) -> bool
    ensures { result ≡ list_any is_unmatched_quote tokens.now }
{
    tokens.iter().any(|token| token.is_unmatched_quote())
}

/// Returns the location of the `#` of a directive line, and the tokens after the directive's name.
fn split_directive(tokens: &[Token]) -> Option<(Place, &[Token])>
    ensures at { IfSome result (λ d. d.0 ≡ hash_place tokens.now) }
    ensures tokens { IfSome result (λ d. d.1.now ≡ drop 2 tokens.now) }
{
    match tokens {
        [hash, _, line @ ..] => Some((hash.at, line)),
        _ => None,
    }
}

/// Returns the location of the `#` of a `#define` line, and the tokens after `define`, unless the line has an unmatched quote.
fn split_define(source: &Source, index: usize) -> Option<(Place, &[Token])>
    requires { index < length source.now }
    ensures { IfSome result (λ d. IsDefineLine (line_at source.now index) (record { at = d.0; tokens = d.1.now })) }
{
    let Some(Directive::Define) = source.line(index).directive else {
        return None;
    };
    let tokens = source.line_tokens(index);
    if has_unmatched_quote(tokens) {
        return None;
    }
    split_directive(tokens)
}

/// Reads what the line at an index says by itself, if it is a `#define` line without an unmatched quote.
fn read_line(
    alloc: Global,
    source: &Source,
    index: usize,
    profile: Profile,
    hashing: Hashing,
) -> Result<Option<Box<ReadDefinition>>, Memory>
    requires { index < length source.now }
    ensures { IfOk result (λ read. IfSome read (λ r. (d : spec.DefineLine) × IsDefineLine (line_at source.now index) d × IsReadFrom r.value d.at d.tokens)) }
{
    let Some((at, line)) = split_define(source, index) else {
        return Ok(None);
    };
    let read = ReadDefinition::new(alloc, profile, at, line, hashing)?;
    Ok(Some(Box::new(alloc, read)?))
}

/// Reads what each line says by itself, if it is a `#define` line without an unmatched quote.
fn read_lines(
    alloc: Global,
    source: &Source,
    profile: Profile,
    hashing: Hashing,
) -> Result<Vec<Option<Box<ReadDefinition>>>, Memory>
    ensures { IfOk result (λ reads. AreReadFrom source.now reads.items) }
{
    let count = source.line_count();
    let mut reads = Vec::with_capacity(alloc, count)?;
    for index in 0..count {
        reads.push(read_line(alloc, source, index, profile, hashing)?)?;
    }
    Ok(reads)
}

impl PreparedSource {
    /// Reads what the lines of a file define in a profile. Many parameters are indexed with hash function `hashing`.
    pub fn new(
        alloc: Global,
        source: Source,
        profile: Profile,
        hashing: Hashing,
    ) -> Result<PreparedSource, Memory>
        ensures { IfOk result (λ p. p ≡ source) }
    {
        let definitions = read_lines(alloc, &source, profile, hashing)?;
        Ok(PreparedSource {
            source,
            definitions,
        })
    }

    /// Returns the file.
    pub fn source(&self) -> &Source
        ensures { result.now ≡ self.now }
    {
        &self.source
    }

    /// Returns the line at an index, from 0, if it is a `#define` line without an unmatched quote.
    pub fn define_line(&self, index: usize) -> Option<DefineLine<'_>>
        requires { index < length self.now }
        ensures { IfSome result (IsDefineLine (line_at self.now index)) }
    {
        let Some(read) = &self.definitions[index] else {
            return None;
        };
        // Only a `#define` line without an unmatched quote was read.
        let Some((at, line)) = split_directive(self.source.line_tokens(index)) else {
            return None;
        };
        Some(DefineLine::new(at, line, read))
    }
}
