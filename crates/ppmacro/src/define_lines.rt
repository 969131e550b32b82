//! `#define` lines of a file, which are read once for all units that share the file.
//!
//! What a line says by itself, a definition or a fault, is kept beside the file's lines. A unit that executes the line asks only
//! whether the name has a different definition.
ghost use Rattle.std.specs.Prelude.{◌≡◌, ◌≤◌, Err, IfOk, IfSome, MatchResult, OnErr, drop, length};
ghost use Rattle.pptext.specs.Errors.{Raises, UnlessOutOfMemory};
ghost use Rattle.std.specs.FinMap as finite_map;
ghost use Rattle.ppmacro.specs.Define.{after_define, check_define, Leaves};
ghost use Rattle.ppmacro.specs.code.Defining.{IsEnd};
ghost use Rattle.ppmacro.specs.code.PreparedDefinitions.{IsDefinedBy, IsPrepared, IsReadFrom};

use crate::defining::{Named, define, insert_definition, read_define};
use crate::definition::Definition;
use crate::macros::Macro;
use crate::prepared_macro::PreparedMacro;
use crate::tables::Table;
use pptext::{Error, Fault, Hashing, Memory, Place, Profile, Token};
use std::alloc::Global;
use std::marker::Model;

/// A definition that was read, and the index of the first token of its replacement list among the tokens after `define`.
#[derive(Drop)]
pub(crate) struct Defined {
    definition: Definition,
    body_at: usize,
}

/// What a `#define` line says by itself in a profile: a definition, or a fault.
#[derive(Drop)]
pub(crate) struct ReadDefinition {
    profile: Profile,
    outcome: Result<Defined, Fault>,
}

/// A `#define` line that was read: the location of its `#`, and the tokens after `define`. Contracts see these.
#[derive(Drop)]
pub struct DefineLine<'a> {
    at: Place,
    tokens: &'a [Token],
    read: &'a ReadDefinition,
}

impl<'a> Model for DefineLine<'a> {
    ghost use Rattle.ppmacro.specs.DefineLines.{DefineLine};
    ghost use Rattle.ppmacro.specs.code.PreparedDefinitions.{IsReadFrom};

    ghost Value = { DefineLine };

    ghost view = { λ l. record { at = l.at; tokens = l.tokens.now } };

    ghost invariant = { λ l. IsReadFrom l.read.now l.at l.tokens.now };
}

/// Prepares a definition for expansion. `line` holds the tokens after `define`.
fn prepare(
    alloc: Global,
    line: &[Token],
    definition: Macro<'_>,
    hashing: Hashing,
) -> Result<Defined, Memory>
    requires { IsEnd definition.body line.now }
    ensures kind { IfOk result (λ d. d.definition.kind ≡ definition.entry.kind) }
    ensures within { IfOk result (λ d. d.body_at ≤ length line.now) }
    ensures body { IfOk result (λ d. drop d.body_at line.now ≡ definition.entry.body) }
    ensures prepared { IfOk result (λ d. IsPrepared d.definition definition.entry.body) }
{
    let Macro { kind, body } = definition;
    let body = body.as_slice();
    Ok(Defined {
        definition: Definition::new(alloc, kind, body, hashing)?,
        body_at: line.len() - body.len(),
    })
}

/// Reads the definition of a line, or its fault, as if its name had no other definition. `at` is the location of `#`, and `line`
/// holds the tokens after `define`. Many parameters are indexed with hash function `hashing`.
fn read_defined(
    alloc: Global,
    profile: Profile,
    at: Place,
    line: &[Token],
    hashing: Hashing,
) -> Result<Defined, Error>
    ensures { UnlessOutOfMemory result (λ r. MatchResult r (IsDefinedBy profile at line.now) (λ f. check_define profile finite_map.empty at line.now ≡ Err f)) }
{
    let Named {
        name: _,
        definition,
    } = read_define(alloc, profile, at, line, hashing)?;
    let defined = prepare(alloc, line, definition, hashing)?;
    Ok(defined)
}

impl ReadDefinition {
    /// Reads what a line says by itself. `at` is the location of `#`, and `line` holds the tokens after `define`. Many parameters
    /// are indexed with hash function `hashing`.
    pub(crate) fn new(
        alloc: Global,
        profile: Profile,
        at: Place,
        line: &[Token],
        hashing: Hashing,
    ) -> Result<ReadDefinition, Memory>
        ensures { IfOk result (λ r. IsReadFrom r at line.now) }
    {
        let outcome = match read_defined(alloc, profile, at, line, hashing) {
            Ok(defined) => Ok(defined),
            Err(Error::Fault(fault)) => Err(fault.into_fault()),
            Err(Error::Memory) => return Err(Memory),
        };
        Ok(ReadDefinition { profile, outcome })
    }
}

impl<'a> DefineLine<'a> {
    /// Bundles a line with what it says by itself.
    pub(crate) fn new(at: Place, tokens: &'a [Token], read: &'a ReadDefinition) -> DefineLine<'a>
        requires { IsReadFrom read.now at tokens.now }
        ensures { result ≡ record { at = at; tokens = tokens.now } }
    {
        DefineLine { at, tokens, read }
    }

    /// Returns the location of the `#`.
    fn at(&self) -> Place
        ensures { result ≡ self.now.at }
    {
        self.at
    }

    /// Returns the tokens after `define`.
    fn tokens(&self) -> &'a [Token]
        ensures { result.now ≡ self.now.tokens }
    {
        self.tokens
    }

    /// Returns what the line says by itself in this profile, or `None` if it was read in another one.
    fn outcome(&self, profile: Profile) -> Option<Result<&'a Defined, &'a Fault>>
        ensures { IfSome result (λ r. MatchResult r
            (λ d. IsDefinedBy profile self.now.at self.now.tokens d.now)
            (λ f. check_define profile finite_map.empty self.now.at self.now.tokens ≡ Err f.now)) }
    {
        if self.read.profile == profile {
            Some(self.read.outcome.as_ref())
        } else {
            None
        }
    }
}

/// Defines what a line says by itself, unless its name has a different definition. `at` is the location of `#`, and `line` holds the
/// tokens after `define`.
fn define_as<'a>(
    alloc: Global,
    table: &mut Table<'a>,
    profile: Profile,
    at: Place,
    line: &'a [Token],
    defined: &'a Defined,
) -> Result<(), Error>
    requires { IsDefinedBy profile at line.now defined.now }
    ensures defined { UnlessOutOfMemory result (λ r. Leaves table.old.macros table.new.macros r (after_define profile table.old.macros at line.now)) }
    ensures hashing { table.new.hashing ≡ table.old.hashing }
    ensures unchanged { OnErr result (table.new ≡ table.old) }
{
    let name = line[0].text.as_bytes();
    let body = &line[defined.body_at..];
    let definition = PreparedMacro::shared(&defined.definition, body);
    insert_definition(alloc, table, profile, at, name, definition)
}

/// Returns the error of a copy of this fault, or `Memory` if an allocation fails.
fn refuse(alloc: Global, fault: &Fault) -> Error
    ensures { Raises result fault.now }
{
    match fault.clone() {
        Ok(fault) => Error::of(alloc, fault),
        Err(_) => Error::Memory,
    }
}

/// Executes a `#define` line of a file, as `define` does.
#[inline(never)]
pub fn define_line<'a>(
    alloc: Global,
    table: &mut Table<'a>,
    profile: Profile,
    line: DefineLine<'a>,
) -> Result<(), Error>
    ensures defined { UnlessOutOfMemory result (λ r. Leaves table.old.macros table.new.macros r (after_define profile table.old.macros line.entry.at line.entry.tokens)) }
    ensures hashing { table.new.hashing ≡ table.old.hashing }
    ensures unchanged { OnErr result (table.new ≡ table.old) }
{
    let (at, tokens) = (line.at(), line.tokens());
    match line.outcome(profile) {
        Some(Ok(defined)) => define_as(alloc, table, profile, at, tokens, defined),
        Some(Err(fault)) => Err(refuse(alloc, fault)),
        None => define(alloc, table, profile, at, tokens),
    }
}
