//! `#define` and `#undef` (6.10.3, 6.10.3.5).
//!
//! A line is checked whole before the table changes, so the table is as it was after a fault. The checks come in the order of the
//! specification, which decides the fault of a line that breaks several rules: the name, the parameter list, the replacement list,
//! and last the definition that the name has. All but the last need no table. So a file's lines are read once for all units
//! (`define_lines`), and only the last check is made for each.
//!
//! All faults of a definition but the first have the macro's name as their text, and all are located at the `#`. So the private
//! functions pass `Defined`, which has both.
ghost use Rattle.std.specs.Prelude.{◌≡◌, ◌&&◌, IfOk, OnErr};
ghost use Rattle.std.specs.Option.{option_map};
ghost use Rattle.std.specs.FinMap as finite_map;
ghost use Rattle.ppmacro.specs.declared.macros.MacroKind.TheVariants.{ObjectLike};
ghost use Rattle.pptext.specs.Tokens.{fault};
ghost use Rattle.pptext.specs.Errors.{Raises, Returns, UnlessOutOfMemory};
ghost use Rattle.ppmacro.specs.Define.{misplaces_hash, read_parameter_list, read_definition, function_like, plain_refusal, va_opt_refusal, refusal_of, check_body, number_of, with_macro_name, check_define, insert_definition, after_define, undefined, after_undef, Leaves};
ghost use Rattle.ppmacro.specs.code.Defining.{named_by, unless_conflicting};
ghost use Rattle.ppmacro.specs.Chains.{is_function_like};
ghost use Rattle.ppmacro.specs.VaOpt.{separated};
ghost use Rattle.ppmacro.specs.Names.{Name};

mod body_checks;
mod parameter_lists;
mod redefinition;
mod reserved_names;

use self::body_checks::{
    misplaces_hash, misplaces_paste, misplaces_paste_inside, misplaces_variable_arguments,
};
use self::parameter_lists::{
    all_parameters, has_barred_name, read_parameter_list, repeats, variadic_by,
};
use self::redefinition::is_conflicting;
use self::reserved_names::is_reserved;
use crate::chains::is_function_like;
use crate::macros::{Macro, MacroKind};
use crate::name_key::NameKey;
use crate::prepared_macro::PreparedMacro;
use crate::replacement_list::ReplacementList;
use crate::tables::Table;
use crate::va_opt::{has_va_opt, separated};
use crate::va_opt_chains::with_va_opt;
use pptext::{Error, Hashing, Memory, Place, Profile, Token};
use std::alloc::Global;
use std::marker::Model;

/// A definition with the macro's name.
#[derive(Drop)]
pub(crate) struct Named<'a> {
    pub(crate) name: NameKey<'a>,
    pub(crate) definition: Macro<'a>,
}

impl<'a> Model for Named<'a> {
    ghost use Rattle.ppmacro.specs.Define.{Named};

    ghost Value = { Named };

    ghost view = { λ n. record { name = n.name; definition = n.definition } };
}

/// The name of a macro that is defined, and the location of `#`, where its faults are.
#[derive(Clone, Copy)]
struct Defined<'a> {
    name: &'a Token,
    at: Place,
}

impl<'a> Defined<'a> {
    /// Returns the error of the fault with this number. Its text is the name.
    fn refuse(self, alloc: Global, number: u8) -> Error
        ensures { Raises result (fault number self.entry.at self.entry.name.now.text) }
    {
        Error::of_token(alloc, number, self.at, self.name)
    }
}

/// Reads a function-like definition from the tokens after `(`. `hashing` is for the index of the parameters.
fn function_like<'a>(
    alloc: Global,
    profile: Profile,
    defined: Defined<'a>,
    line: &'a [Token],
    hashing: Hashing,
) -> Result<Macro<'a>, Error>
    ensures { Returns result (named_by defined.entry.name.now) (with_macro_name defined.entry.at defined.entry.name.now.text (function_like profile (read_parameter_list profile line.now))) }
{
    let Some(parsed) = read_parameter_list(alloc, profile, line)? else {
        return Err(defined.refuse(alloc, 11));
    };
    if repeats(alloc, parsed.names.as_slice(), hashing)? {
        return Err(defined.refuse(alloc, 11));
    }
    if has_barred_name(profile.is_gnu(), parsed.names.as_slice()) {
        return Err(defined.refuse(alloc, 15));
    }
    Ok(Macro {
        kind: MacroKind::FunctionLike {
            parameters: all_parameters(alloc, parsed.ending, parsed.names)?,
            variadic: variadic_by(profile.is_gnu(), parsed.ending),
        },
        body: parsed.body,
    })
}

/// Returns an object-like definition with this replacement list.
fn object_like<'a>(body: &'a [Token]) -> Macro<'a>
    ensures { result ≡ record { kind = ObjectLike; body = body.now } }
{
    Macro {
        kind: MacroKind::ObjectLike,
        body: ReplacementList::new(body),
    }
}

/// Reads a definition from the tokens after the macro's name.
fn read_definition<'a>(
    alloc: Global,
    profile: Profile,
    defined: Defined<'a>,
    line: &'a [Token],
    hashing: Hashing,
) -> Result<Macro<'a>, Error>
    ensures { Returns result (named_by defined.entry.name.now) (with_macro_name defined.entry.at defined.entry.name.now.text (read_definition profile line.now)) }
{
    let Some(first) = line.first() else {
        return Ok(object_like(line));
    };
    if first.space {
        return Ok(object_like(line));
    }
    if !first.is_punct(b"(") {
        return Err(defined.refuse(alloc, 12));
    }
    function_like(alloc, profile, defined, &line[1..], hashing)
}

/// Returns whether there is a `#` operator without a parameter directly after it. In an object-like macro `#` is no operator.
fn misplaces_operator_hash(
    alloc: Global,
    kind: &MacroKind,
    body: &[Token],
    hashing: Hashing,
) -> Result<bool, Memory>
    ensures { IfOk result (λ r. r ≡ (is_function_like kind.now && misplaces_hash kind.now body.now)) }
{
    if !is_function_like(kind) {
        return Ok(false);
    }
    misplaces_hash(alloc, kind, body, hashing)
}

/// Returns the number of the fault of a definition without `__VA_OPT__` that no other definition of its name causes, if it has one.
fn plain_refusal(
    alloc: Global,
    kind: &MacroKind,
    body: &[Token],
    hashing: Hashing,
) -> Result<Option<u8>, Memory>
    ensures { IfOk result (λ r. (profile : Profile) (name : Name) → r ≡ option_map number_of (plain_refusal profile finite_map.empty name (record { kind = kind.now; body = body.now }))) }
{
    if misplaces_variable_arguments(kind, body) {
        return Ok(Some(15));
    }
    if misplaces_paste(body) {
        return Ok(Some(13));
    }
    if misplaces_operator_hash(alloc, kind, body, hashing)? {
        return Ok(Some(14));
    }
    Ok(None)
}

/// Returns the number of the fault of a definition with `__VA_OPT__`, if it has one.
fn va_opt_refusal(
    alloc: Global,
    kind: &MacroKind,
    body: &[Token],
    hashing: Hashing,
) -> Result<Option<u8>, Memory>
    ensures { IfOk result (λ r. r ≡ option_map number_of (va_opt_refusal (record { kind = kind.now; body = body.now }) (separated (record { kind = kind.now; body = body.now })))) }
{
    let Some(list) = separated(alloc, kind, body)? else {
        return Ok(Some(15));
    };
    if misplaces_variable_arguments(kind, body) {
        return Ok(Some(15));
    }
    if misplaces_paste(body) || misplaces_paste_inside(body, list.contents.as_slice()) {
        return Ok(Some(13));
    }
    let extended = with_va_opt(alloc, kind)?;
    if misplaces_hash(alloc, &extended, body, hashing)? {
        return Ok(Some(14));
    }
    Ok(None)
}

/// Returns the number of the fault of a definition that no other definition of its name causes, if it has one.
fn refusal_of(
    alloc: Global,
    profile: Profile,
    kind: &MacroKind,
    body: &[Token],
    hashing: Hashing,
) -> Result<Option<u8>, Memory>
    ensures { IfOk result (λ r. (name : Name) → r ≡ option_map number_of (refusal_of profile finite_map.empty name (record { kind = kind.now; body = body.now }))) }
{
    if profile.is_gnu() && has_va_opt(body) {
        return va_opt_refusal(alloc, kind, body, hashing);
    }
    plain_refusal(alloc, kind, body, hashing)
}

/// Returns the definition of a permitted name from the tokens after the name, or its fault.
fn read_body<'a>(
    alloc: Global,
    profile: Profile,
    defined: Defined<'a>,
    line: &'a [Token],
    hashing: Hashing,
) -> Result<Named<'a>, Error>
    ensures { UnlessOutOfMemory result (λ r. r ≡ with_macro_name defined.entry.at defined.entry.name.now.text (check_body profile finite_map.empty defined.entry.name.now.text (read_definition profile line.now))) }
{
    let definition = read_definition(alloc, profile, defined, line, hashing)?;
    let kind = &definition.kind;
    let body = definition.body.as_slice();
    match refusal_of(alloc, profile, kind, body, hashing)? {
        Some(number) => Err(defined.refuse(alloc, number)),
        None => Ok(Named {
            name: NameKey::of(defined.name),
            definition,
        }),
    }
}

/// Returns the definition from the tokens after `define`, or its fault, as if its name had no other definition. `at` is the
/// location of `#`. Many parameters are indexed with hash function `hashing`.
pub(crate) fn read_define<'a>(
    alloc: Global,
    profile: Profile,
    at: Place,
    line: &'a [Token],
    hashing: Hashing,
) -> Result<Named<'a>, Error>
    ensures { UnlessOutOfMemory result (λ r. r ≡ check_define profile finite_map.empty at line.now) }
{
    let Some(name) = line.first() else {
        return Err(Error::new(alloc, 9, at, b"define"));
    };
    if !name.is_identifier() {
        return Err(Error::new(alloc, 9, at, b"define"));
    }
    if is_reserved(profile, name.text.as_bytes()) {
        return Err(Error::of_token(alloc, 10, at, name));
    }
    read_body(alloc, profile, Defined { name, at }, &line[1..], hashing)
}

/// Inserts a definition into the table, unless the name has a different one. `at` is the location of `#`.
pub(crate) fn insert_definition<'a>(
    alloc: Global,
    table: &mut Table<'a>,
    profile: Profile,
    at: Place,
    name: &'a [u8],
    definition: PreparedMacro<'a>,
) -> Result<(), Error>
    ensures defined { UnlessOutOfMemory result (λ r. Leaves table.old.macros table.new.macros r
        (insert_definition table.old.macros (unless_conflicting profile table.old.macros at (record { name = name.now; definition = definition.entry })))) }
    ensures hashing { table.new.hashing ≡ table.old.hashing }
    ensures unchanged { OnErr result (table.new ≡ table.old) }
{
    if !profile.is_gnu() && is_conflicting(table, name, &definition) {
        return Err(Error::new(alloc, 16, at, name));
    }
    table.insert(name, definition)?;
    Ok(())
}

/// Defines a macro (6.10.3). `at` is the location of `#`, and `line` holds the tokens after `define`. An identical definition
/// replaces the one before (6.10.3p2).
///
/// The location of a fault is `at`. Its text is the macro's name, except that the text of fault 9 is `define`. The first of these
/// faults is returned:
/// - 9: the first token isn't an identifier;
/// - 10: the name is reserved (6.10.8p2, 6.10.3p5);
/// - 12: neither white space nor `(` follows the name (6.10.3p3);
/// - 11: the parameter list has a syntax error or repeats a name (6.10.3p6, p10);
/// - 15: `__VA_ARGS__` is in the parameter list, or it is in the replacement list without being a parameter, which it is if `...`
///   is in the parameter list and follows no name (6.10.3p5);
/// - 13: `##` is the first or the last token, or follows another `##` (6.10.3.3p1, p3);
/// - 14: no parameter follows a `#` in a function-like macro (6.10.3.2p1);
/// - 16: the name has a different definition (6.10.3p2).
///
/// In GNU C `...` may follow the name of the last parameter (gcc's manual, "Variadic Macros"), a different definition replaces
/// the one before, so that there is no fault 16, and `__STDC_VERSION__` isn't reserved.
///
/// After an error the table is unchanged.
#[inline(never)]
pub fn define<'a>(
    alloc: Global,
    table: &mut Table<'a>,
    profile: Profile,
    at: Place,
    line: &'a [Token],
) -> Result<(), Error>
    ensures defined { UnlessOutOfMemory result (λ r. Leaves table.old.macros table.new.macros r (after_define profile table.old.macros at line.now)) }
    ensures hashing { table.new.hashing ≡ table.old.hashing }
    ensures unchanged { OnErr result (table.new ≡ table.old) }
{
    let hashing = table.hashing();
    let Named { name, definition } = read_define(alloc, profile, at, line, hashing)?;
    let Macro { kind, body } = definition;
    let prepared = PreparedMacro::new(alloc, kind, body.as_slice(), hashing)?;
    insert_definition(alloc, table, profile, at, name.bytes, prepared)
}

/// Returns the name that the tokens after `undef` remove, or the fault. `at` is the location of `#`.
fn undefined<'a>(
    alloc: Global,
    profile: Profile,
    at: Place,
    line: &'a [Token],
) -> Result<NameKey<'a>, Error>
    ensures { UnlessOutOfMemory result (λ r. r ≡ undefined profile at line.now) }
{
    let [name] = line else {
        return Err(Error::new(alloc, 9, at, b"undef"));
    };
    if !name.is_identifier() {
        return Err(Error::new(alloc, 9, at, b"undef"));
    }
    if is_reserved(profile, name.text.as_bytes()) {
        return Err(Error::of_token(alloc, 10, at, name));
    }
    Ok(NameKey::of(name))
}

/// Removes the macro of a name, if there is one (6.10.3.5p2). `at` is the location of `#`, and `line` holds the tokens after
/// `undef`.
///
/// The location of a fault is `at`. Fault 9, with the text `undef`: `line` isn't one identifier. Fault 10, with the name: the
/// name is reserved (6.10.8p2, 6.10.3p5). In GNU C `__STDC_VERSION__` isn't reserved.
///
/// After an error the table is unchanged.
pub fn undef<'a>(
    alloc: Global,
    table: &mut Table<'a>,
    profile: Profile,
    at: Place,
    line: &'a [Token],
) -> Result<(), Error>
    ensures undefined { UnlessOutOfMemory result (λ r. Leaves table.old.macros table.new.macros r (after_undef profile table.old.macros at line.now)) }
    ensures hashing { table.new.hashing ≡ table.old.hashing }
    ensures unchanged { OnErr result (table.new ≡ table.old) }
{
    let name = undefined(alloc, profile, at, line)?;
    table.remove(name.bytes);
    Ok(())
}
