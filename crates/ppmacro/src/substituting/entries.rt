//! Substitution in a replacement list without `#` and `##` (6.10.3.1).
ghost use Rattle.std.specs.Prelude.{◌≡◌, IfOk, OnOk, Ok, true, map};
ghost use Rattle.std.specs.FinSet as set;
ghost use Rattle.pptext.specs.declared.tokens.Place.{Place};
ghost use Rattle.pptext.specs.Errors.{Returns};
ghost use Rattle.ppmacro.specs.HideSets.{set_at, IsKnown, hidings, AllKnown, KeepsSets};
ghost use Rattle.ppmacro.specs.Entries.{entry_chain};
ghost use Rattle.ppmacro.specs.Patterns.{pattern_chains};
ghost use Rattle.ppmacro.specs.Substitution.{chain_tokens, chains_tokens, chains_replacement, replacement_by};
ghost use Rattle.ppmacro.specs.Substituting.{ArgumentsKnown, arguments_in, as_replacement};
ghost use Rattle.ppmacro.specs.code.Replacing.{pushed};

use crate::hidden_token::Hidden;
use crate::hide_sets::HideSets;
use crate::invocation::{Arguments, MacroName};
use crate::patterns::{Entry, Pattern, PlainList};
use crate::substituting::contents::substitute_va_opt;
use crate::substituting::hsadd::hsadd_names;
use crate::substituting::operands::expansion;
use crate::substituting::{push_spaced, push_token, space_before, substitute_chains};
use pptext::{Error, Memory};

/// Returns the leading-space flag of an entry.
fn space_of(entry: &Entry) -> bool
    ensures { result ≡ (entry_chain entry.now).space }
{
    match entry {
        Entry::Tok(token) => token.token().space,
        Entry::Param(space, _) => *space,
    }
}

/// Returns the number of tokens that an entry contributes.
fn count_of(arguments: Arguments, entry: &Entry) -> usize {
    match entry {
        Entry::Tok(_) => 1,
        Entry::Param(_, index) => expansion(arguments.given, arguments.expanded, *index).len(),
    }
}

/// Returns the number of tokens that all entries contribute.
fn count_all(arguments: Arguments, list: &PlainList) -> usize {
    let mut count: usize = 0;
    for index in 0..list.len() {
        count = count.saturating_add(count_of(arguments, &list.at(index)));
    }
    count
}

/// Appends the tokens of an entry. The first gets the leading-space flag `space`. Returns the leading-space flag that is pending
/// afterwards.
fn push_entry<'x, 'a: 'x>(
    sets: &HideSets,
    arguments: Arguments<'_, 'x>,
    space: bool,
    entry: &Entry<'a>,
    tokens: &mut Vec<Hidden<'x>>,
) -> Result<bool, Memory>
    requires arguments { ArgumentsKnown sets.now arguments.given.now arguments.expanded.now }
    requires tokens { AllKnown sets.now tokens.old.items }
    ensures is { IfOk result (λ pending. (used : Place) → Ok (as_replacement sets.now tokens.new.items pending)
        ≡ pushed (hidings sets.now tokens.old.items) space (chain_tokens (arguments_in sets.now arguments.entry.given.now arguments.entry.expanded.now) used (entry_chain entry.now))) }
    ensures known { OnOk result (AllKnown sets.now tokens.new.items) }
{
    match entry {
        Entry::Tok(token) => {
            push_token(sets, tokens, space, token.token())?;
            Ok(false)
        }
        Entry::Param(_, index) => {
            let pending = push_spaced(
                tokens,
                space,
                expansion(arguments.given, arguments.expanded, *index),
            )?;
            Ok(pending)
        }
    }
}

/// Returns the tokens of all entries, in the vector `room`, and the leading-space flag that is pending afterwards.
fn entries_tokens<'x, 'a: 'x>(
    room: Vec<Hidden<'x>>,
    sets: &HideSets,
    arguments: Arguments<'_, 'x>,
    space: bool,
    list: &PlainList<'_, 'a>,
) -> Result<(Vec<Hidden<'x>>, bool), Memory>
    requires { ArgumentsKnown sets.now arguments.given.now arguments.expanded.now }
    ensures is { IfOk result (λ m. (used : Place) → Ok (as_replacement sets.now m.0.items m.1)
        ≡ chains_tokens (arguments_in sets.now arguments.entry.given.now arguments.entry.expanded.now) used space true (map entry_chain list.now)) }
    ensures known { IfOk result (λ m. AllKnown sets.now m.0.items) }
{
    let mut tokens = room;
    tokens.clear();
    tokens.reserve(count_all(arguments, list))?;
    let mut pending = space;
    let mut first = true;
    for index in 0..list.len() {
        let entry = list.at(index);
        let leading = space_before(pending, first, space_of(&entry));
        pending = push_entry(sets, arguments, leading, &entry, &mut tokens)?;
        first = false;
    }
    Ok((tokens, pending))
}

/// Returns the replacement of an invocation, and the leading-space flag that is pending afterwards.
fn substitute_entries<'x, 'a: 'x>(
    room: Vec<Hidden<'x>>,
    list: &PlainList<'_, 'a>,
    arguments: Arguments<'_, 'x>,
    macro_name: &MacroName,
    sets: &mut HideSets,
) -> Result<(Vec<Hidden<'x>>, bool), Memory>
    requires arguments { ArgumentsKnown sets.old arguments.given.now arguments.expanded.now }
    requires base { IsKnown sets.old macro_name.now.base }
    ensures is { IfOk result (λ m. Ok (as_replacement sets.new m.0.items m.1)
        ≡ chains_replacement (map entry_chain list.now) (arguments_in sets.old arguments.entry.given.now arguments.entry.expanded.now)
        (set.insert (set_at sets.old macro_name.now.base) macro_name.now.name.now) macro_name.now.used macro_name.now.space) }
    ensures known { IfOk result (λ m. AllKnown sets.new m.0.items) }
    ensures keeps { KeepsSets sets.old sets.new }
{
    let MacroName {
        base,
        name,
        used,
        space,
    } = *macro_name;
    let (mut tokens, pending) = entries_tokens(room, sets, arguments, space, list)?;
    hsadd_names(sets, &mut tokens, base, name, used)?;
    Ok((tokens, pending))
}

/// Returns what a macro's name or invocation is replaced by (6.10.3.1 to 6.10.3.3), and whether white space is pending for the
/// token after it. `pattern` is the replacement list of the macro. The tokens are in the vector `room`, which loses what it has.
///
/// If a `#` or `##` fails, returns the first of these faults, at the location of the macro name: 19, two pasted tokens aren't
/// one token, with both spellings as its text; 20, a stringized argument isn't a string literal, with that text.
pub fn substitute_pattern<'x, 'a: 'x>(
    room: Vec<Hidden<'x>>,
    pattern: &Pattern<'_, 'a>,
    arguments: Arguments<'_, 'x>,
    macro_name: &MacroName,
    sets: &mut HideSets,
) -> Result<(Vec<Hidden<'x>>, bool), Error>
    requires arguments { ArgumentsKnown sets.old arguments.given.now arguments.expanded.now }
    requires base { IsKnown sets.old macro_name.now.base }
    ensures is { Returns result (λ m. as_replacement sets.new m.0.items m.1)
        (replacement_by (pattern_chains pattern.now) (arguments_in sets.old arguments.entry.given.now arguments.entry.expanded.now)
        (set.insert (set_at sets.old macro_name.now.base) macro_name.now.name.now) macro_name.now.used macro_name.now.space) }
    ensures known { IfOk result (λ m. AllKnown sets.new m.0.items) }
    ensures keeps { KeepsSets sets.old sets.new }
{
    match pattern {
        Pattern::Plain(list) => {
            let tokens_and_pending = substitute_entries(room, list, arguments, macro_name, sets)?;
            Ok(tokens_and_pending)
        }
        Pattern::Pasted(chains) => substitute_chains(room, chains, arguments, macro_name, sets),
        Pattern::VaOpt(list) => substitute_va_opt(room, list, arguments, macro_name, sets),
    }
}
