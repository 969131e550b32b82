//! The parameter list of a function-like macro (6.10.3p10).
ghost use Rattle.std.specs.Prelude.{◌≡◌, ◌||◌, ◌&&◌, IfOk, IfSome, is_none, false};
ghost use Rattle.std.specs.HashSet.{hasher_of};
ghost use Rattle.std.specs.List.{list_any};
ghost use Rattle.std.specs.Option.{option_map};
ghost use Rattle.std.specs.Str.{bytes_eq};
ghost use Rattle.ppmacro.specs.Define.{close_parameters, after_parameter_name, parameters_from, read_parameter_list, repeats, all_parameters, variadic_by, has_variable_arguments, has_va_opt};
ghost use Rattle.ppmacro.specs.code.ChainParts.{with_names};

use crate::macros::{Names, Variadic};
use crate::name_key::NameKey;
use crate::parameter_index::{MAX_SCANNED, index_names};
use crate::replacement_list::ReplacementList;
use indexmap::IndexSet;
use pptext::{Hashing, Memory, Profile, Spelling, Token};
use std::alloc::Global;
use std::marker::Model;

/// The end of a parameter list.
#[derive(Clone, Copy)]
pub(crate) enum Ending {
    /// There is no `...`.
    NoEllipsis,
    /// The list ends in `...`.
    Ellipsis,
    /// The list ends in a name and `...` (gcc's manual, "Variadic Macros").
    NamedEllipsis,
}

/// A parameter list that was read: the names, how they end, and the replacement list after `)`.
#[derive(Drop)]
pub(crate) struct ParsedParameters<'a> {
    pub(crate) names: Names,
    pub(crate) ending: Ending,
    pub(crate) body: ReplacementList<'a>,
}

impl<'a> Model for ParsedParameters<'a> {
    ghost use Rattle.ppmacro.specs.ParsedParameters.{ParsedParameters};

    ghost Value = { ParsedParameters };

    ghost view = { λ h. record { names = h.names; ending = h.ending; body = h.body } };
}

/// Returns the parameter list with these names, if `line` begins with `)`.
fn close_parameters<'a>(
    names: Vec<Spelling>,
    ending: Ending,
    line: &'a [Token],
) -> Option<ParsedParameters<'a>>
    ensures { result ≡ option_map (with_names names.items) (close_parameters ending line.now) }
{
    let Some(first) = line.first() else {
        return None;
    };
    if !first.is_punct(b")") {
        return None;
    }
    Some(ParsedParameters {
        names: Names::new(names),
        ending,
        body: ReplacementList::new(&line[1..]),
    })
}

/// Returns the parameter list with these names. `line` is what follows the last name; in GNU C it may begin with `...`.
fn after_parameter_name<'a>(
    names: Vec<Spelling>,
    gnu: bool,
    line: &'a [Token],
) -> Option<ParsedParameters<'a>>
    ensures { result ≡ option_map (with_names names.items) (after_parameter_name gnu line.now) }
{
    let Some(first) = line.first() else {
        return None;
    };
    if gnu && first.is_punct(b"...") {
        return close_parameters(names, Ending::NamedEllipsis, &line[1..]);
    }
    close_parameters(names, Ending::NoEllipsis, line)
}

/// Reads a parameter list that isn't empty.
fn parameters<'a>(
    alloc: Global,
    gnu: bool,
    line: &'a [Token],
) -> Result<Option<ParsedParameters<'a>>, Memory>
    ensures { IfOk result (λ h. h ≡ parameters_from gnu false line.now) }
{
    let mut names = Vec::new(alloc);
    let mut named = false;
    for (i, token) in line.iter().enumerate() {
        if named {
            if !token.is_punct(b",") {
                return Ok(after_parameter_name(names, gnu, &line[i..]));
            }
            named = false;
            continue;
        }
        if token.is_punct(b"...") {
            return Ok(close_parameters(names, Ending::Ellipsis, &line[i + 1..]));
        }
        if !token.is_identifier() {
            return Ok(None);
        }
        names.push(token.text.clone()?)?;
        named = true;
    }
    Ok(None)
}

/// Reads the parameter list from the tokens after `(`. Returns `None` if there is a syntax error.
pub(crate) fn read_parameter_list<'a>(
    alloc: Global,
    profile: Profile,
    line: &'a [Token],
) -> Result<Option<ParsedParameters<'a>>, Memory>
    ensures { IfOk result (λ h. h ≡ read_parameter_list profile line.now) }
{
    let Some(first) = line.first() else {
        return Ok(None);
    };
    if first.is_punct(b")") {
        return Ok(close_parameters(Vec::new(alloc), Ending::NoEllipsis, line));
    }
    parameters(alloc, profile.is_gnu(), line)
}

/// Returns whether `names` contains a name.
fn is_among(names: &[Spelling], name: &[u8]) -> bool
    ensures { result ≡ list_any (λ n. bytes_eq n name.now) names.now }
{
    names.iter().any(|n| n.as_bytes() == name)
}

/// Returns whether a name occurs twice. Compares each name with each other.
fn repeats_few(names: &[Spelling]) -> bool
    ensures { result ≡ repeats names.now }
{
    for (i, name) in names.iter().enumerate() {
        if is_among(&names[i + 1..], name.as_bytes()) {
            return true;
        }
    }
    false
}

/// Returns whether there is no index of names because a name occurs twice. The index hashes with `_hashing`, which only the
/// contract reads.
fn is_missing(index: &Option<IndexSet<NameKey<'_>, Hashing>>, _hashing: Hashing) -> bool
    requires { IfSome index.now (λ s. hasher_of s ≡ _hashing) }
    ensures { result ≡ is_none index.now }
{
    index.is_none()
}

/// Returns whether a name occurs twice. Many names are indexed with hash function `hashing`.
pub(crate) fn repeats(alloc: Global, names: &[Spelling], hashing: Hashing) -> Result<bool, Memory>
    ensures { IfOk result (λ r. r ≡ repeats names.now) }
{
    if names.len() <= MAX_SCANNED {
        return Ok(repeats_few(names));
    }
    let index = index_names(alloc, names, hashing)?;
    Ok(is_missing(&index, hashing))
}

/// Returns whether `__VA_ARGS__` is among the names.
pub(crate) fn has_variable_arguments(names: &[Spelling]) -> bool
    ensures { result ≡ has_variable_arguments names.now }
{
    is_among(names, b"__VA_ARGS__")
}

/// Returns whether `__VA_OPT__` is among the names.
fn has_va_opt(names: &[Spelling]) -> bool
    ensures { result ≡ has_va_opt names.now }
{
    is_among(names, b"__VA_OPT__")
}

/// Returns whether a name that can't be a parameter is among the names: `__VA_ARGS__`, or in GNU C `__VA_OPT__`.
pub(crate) fn has_barred_name(gnu: bool, names: &[Spelling]) -> bool
    ensures { result ≡ (has_variable_arguments names.now || (gnu && has_va_opt names.now)) }
{
    has_variable_arguments(names) || (gnu && has_va_opt(names))
}

/// Returns all parameters. `__VA_ARGS__` is the last if the list ends in `...` (6.10.3.1p2).
pub(crate) fn all_parameters(alloc: Global, ending: Ending, names: Names) -> Result<Names, Memory>
    ensures { IfOk result (λ all. all ≡ all_parameters ending names) }
{
    match ending {
        Ending::NoEllipsis | Ending::NamedEllipsis => Ok(names),
        Ending::Ellipsis => {
            let mut all = names.into_vec();
            all.push(Spelling::from_slice(alloc, b"__VA_ARGS__")?)?;
            Ok(Names::new(all))
        }
    }
}

/// Returns how the last parameter takes arguments. In GNU C a variable argument may be absent.
pub(crate) fn variadic_by(gnu: bool, ending: Ending) -> Variadic
    ensures { result ≡ variadic_by gnu ending }
{
    match (ending, gnu) {
        (Ending::NoEllipsis, _) => Variadic::No,
        (Ending::Ellipsis | Ending::NamedEllipsis, false) => Variadic::Strict,
        (Ending::Ellipsis | Ending::NamedEllipsis, true) => Variadic::Lenient,
    }
}
