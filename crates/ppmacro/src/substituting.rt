//! Substitution: what a macro's name or invocation is replaced by (6.10.3.1 to 6.10.3.3).
//!
//! A chain of the replacement list becomes tokens in three steps. Each `#` makes a literal, `##` joins the operands from the left,
//! and then comes the variable argument after a comma. The chains follow one another. White space before a chain without tokens is
//! pending for the next token, so that it isn't lost. Last, each token gets the names that the invocation adds to its hide set,
//! and the location of the macro name.
//!
//! Most chains are one token or one parameter. Their tokens go straight to the result, without a list of their own.
ghost use Rattle.std.specs.Prelude.{◌≡◌, ◌≤◌, ◌⊎◌, ◌++◌, ◌∷◌, IfOk, OnOk, [], true, not, ◌||◌, ◌&&◌, length, take};
ghost use Rattle.std.specs.FinSet as set;
ghost use Rattle.ppmacro.specs.HideSetPool.{HideSetPool};
ghost use Rattle.ppmacro.specs.HideSets.{set_at, IsKnown, hidings, AllKnown, KeepsSets};
ghost use Rattle.ppmacro.specs.Substitution.{is_joined, before_variadic, variadic_of, with_variadic_tokens, chain_tokens, space_first, with_space, unhidden, chains_tokens, chains_replacement};
ghost use Rattle.pptext.specs.Errors.{Returns};
ghost use Rattle.ppmacro.specs.Substituting.{lists_of, ArgumentsKnown, arguments_in, as_replacement};
ghost use Rattle.ppmacro.specs.code.Replacing.{pushed};

mod contents;
mod entries;
mod hsadd;
mod joining;
mod lexing;
mod operands;
mod pasting;
mod stringizing;

pub use self::entries::substitute_pattern;
use self::hsadd::hsadd_names;
use self::joining::push_all;
pub use self::lexing::decides_each_kind;
pub use self::operands::argument_of;
use self::operands::{check_literals, expansion, join_operands};
pub use self::pasting::paste;
pub use self::stringizing::{push_escaped, stringize};
use crate::hidden_token::Hidden;
use crate::hide_sets::HideSets;
use crate::invocation::{Arguments, MacroName};
use crate::macros::{Chain, Operand, Operands};
use crate::patterns::PastedList;
use pptext::{Error, Memory, Place, Token, push};
use std::alloc::Global;

/// Splits the operands of a chain: returns the number of those that `##` joins, and the argument index of a variable argument after
/// a comma.
fn split_variadic(operands: &Operands) -> (usize, Option<usize>)
    ensures front { take result.0 operands.now ≡ before_variadic operands.now }
    ensures count { result.0 ≤ length operands.now }
    ensures variadic { result.1 ≡ variadic_of operands.now }
{
    let count = operands.len();
    let Some(last) = count.checked_sub(1) else {
        return (count, None);
    };
    match operands.at(last) {
        Operand::VariadicAfterComma(index) => (last, Some(index)),
        _ => (count, None),
    }
}

/// Appends the variable argument after a comma to the tokens of a chain, or removes the comma if the argument is absent.
fn append_variadic<'a>(
    tokens: &mut Vec<Hidden<'a>>,
    given: &[Vec<Hidden<'a>>],
    variadic: Option<usize>,
) -> Result<(), Memory>
    ensures { OnOk result (tokens.new.items ≡ with_variadic_tokens (lists_of given.now) variadic tokens.old.items) }
{
    let Some(index) = variadic else {
        return Ok(());
    };
    match given.get(index) {
        Some(argument) => push_all(tokens, argument.as_slice()),
        None => {
            tokens.pop();
            Ok(())
        }
    }
}

/// Returns the tokens of a chain that isn't one operand. Each `#` comes first, then `##` from the left, and then the variable
/// argument after a comma.
fn chain_tokens<'x, 'a: 'x>(
    alloc: Global,
    sets: &mut HideSets,
    arguments: Arguments<'_, 'x>,
    used: Place,
    chain: &Chain<'_, 'a>,
) -> Result<Vec<Hidden<'x>>, Error>
    requires arguments { ArgumentsKnown sets.old arguments.given.now arguments.expanded.now }
    requires joined { is_joined chain.now.operands ≡ true ⊎ chain.now.operands ≡ [] }
    ensures is { Returns result (λ v. hidings sets.new v.items) (chain_tokens (arguments_in sets.old arguments.entry.given.now arguments.entry.expanded.now) used chain.now) }
    ensures known { IfOk result (λ v. AllKnown sets.new v.items) }
    ensures keeps { KeepsSets sets.old sets.new }
{
    let operands = &chain.operands;
    let (count, variadic) = split_variadic(operands);
    check_literals(alloc, sets, arguments, used, operands, count)?;
    let mut tokens = join_operands(alloc, sets, arguments, used, operands, count)?;
    append_variadic(&mut tokens, arguments.given, variadic)?;
    Ok(tokens)
}

/// Returns a copy of a token with this leading-space flag.
fn copy_with_space<'a>(token: &Hidden<'a>, space: bool) -> Result<Hidden<'a>, Memory>
    ensures { IfOk result (λ h. h ≡ record token.now { token = record token.now.token { space = space } }) }
{
    let mut hidden = token.clone()?;
    hidden.set_space(space);
    Ok(hidden)
}

/// Appends the tokens of a chain. The first gets the pending leading-space flag. Returns the flag that is pending afterwards.
fn push_spaced<'a>(
    tokens: &mut Vec<Hidden<'a>>,
    pending: bool,
    more: &[Hidden<'a>],
) -> Result<bool, Memory>
    ensures tokens { IfOk result (λ p. (s : HideSetPool) → hidings s tokens.new.items ≡ hidings s tokens.old.items ++ (space_first pending (hidings s more.now)).tokens) }
    ensures pending { IfOk result (λ p. (s : HideSetPool) → p ≡ (space_first pending (hidings s more.now)).pending) }
    ensures known { OnOk result ((s : HideSetPool) → AllKnown s tokens.old.items → AllKnown s more.now → AllKnown s tokens.new.items) }
{
    let Some((first, others)) = more.split_first() else {
        return Ok(pending);
    };
    tokens.reserve(more.len())?;
    push(tokens, copy_with_space(first, pending)?)?;
    push_all(tokens, others)?;
    Ok(false)
}

/// Appends a token of the replacement list with this leading-space flag.
fn push_token<'a>(
    sets: &HideSets,
    tokens: &mut Vec<Hidden<'a>>,
    space: bool,
    token: &'a Token,
) -> Result<(), Memory>
    ensures tokens { OnOk result (hidings sets.now tokens.new.items ≡ hidings sets.now tokens.old.items ++ with_space space (unhidden token.now) ∷ []) }
    ensures known { OnOk result (AllKnown sets.now tokens.old.items → AllKnown sets.now tokens.new.items) }
{
    let mut hidden = Hidden::new(token, sets.empty());
    hidden.set_space(space);
    push(tokens, hidden)
}

/// Appends the tokens of a list, which are moved. The first gets the pending leading-space flag. Returns the flag that is pending
/// afterwards.
fn append_spaced<'a>(
    tokens: &mut Vec<Hidden<'a>>,
    pending: bool,
    more: Vec<Hidden<'a>>,
) -> Result<bool, Memory>
    ensures tokens { IfOk result (λ p. (s : HideSetPool) → hidings s tokens.new.items ≡ hidings s tokens.old.items ++ (space_first pending (hidings s more.entry.items)).tokens) }
    ensures pending { IfOk result (λ p. (s : HideSetPool) → p ≡ (space_first pending (hidings s more.entry.items)).pending) }
    ensures known { OnOk result ((s : HideSetPool) → AllKnown s tokens.old.items → AllKnown s more.entry.items → AllKnown s tokens.new.items) }
{
    let mut more = more;
    let Some(first) = more.first_mut() else {
        return Ok(pending);
    };
    first.set_space(pending);
    tokens.append(&mut more)?;
    Ok(false)
}

/// Appends the tokens of a chain of one operand. The first gets the leading-space flag `space`. Returns the leading-space flag that
/// is pending afterwards, or fault 20.
fn push_operand<'x, 'a: 'x>(
    sets: &HideSets,
    arguments: Arguments<'_, 'x>,
    used: Place,
    space: bool,
    operand: &Operand<'a>,
    tokens: &mut Vec<Hidden<'x>>,
) -> Result<bool, Error>
    requires arguments { ArgumentsKnown sets.now arguments.given.now arguments.expanded.now }
    requires tokens { AllKnown sets.now tokens.old.items }
    ensures is { Returns result (as_replacement sets.now tokens.new.items)
        (pushed (hidings sets.now tokens.old.items) space
        (chain_tokens (arguments_in sets.now arguments.entry.given.now arguments.entry.expanded.now) used (record { space = space; operands = operand.now ∷ [] }))) }
    ensures known { OnOk result (AllKnown sets.now tokens.new.items) }
{
    match operand {
        Operand::Tok(token) => {
            push_token(sets, tokens, space, token.token())?;
            Ok(false)
        }
        Operand::Param(index) => {
            let argument = expansion(arguments.given, arguments.expanded, *index);
            let pending = push_spaced(tokens, space, argument)?;
            Ok(pending)
        }
        Operand::Str(index, at) => {
            let alloc = *tokens.allocator();
            let argument = argument_of(arguments.given, *index);
            let mut literal = stringize(alloc, argument, *at, used, sets)?;
            literal.set_space(space);
            push(tokens, literal)?;
            Ok(false)
        }
        Operand::VariadicAfterComma(index) => {
            let pending = push_spaced(tokens, space, argument_of(arguments.given, *index))?;
            Ok(pending)
        }
    }
}

/// Appends the tokens of a chain. The first gets the leading-space flag `space`. Returns the leading-space flag that is pending
/// afterwards, or fault 19 or 20.
fn push_chain<'x, 'a: 'x>(
    sets: &mut HideSets,
    arguments: Arguments<'_, 'x>,
    used: Place,
    space: bool,
    chain: &Chain<'_, 'a>,
    tokens: &mut Vec<Hidden<'x>>,
) -> Result<bool, Error>
    requires arguments { ArgumentsKnown sets.old arguments.given.now arguments.expanded.now }
    requires tokens { AllKnown sets.old tokens.old.items }
    ensures is { Returns result (as_replacement sets.new tokens.new.items)
        (pushed (hidings sets.old tokens.old.items) space (chain_tokens (arguments_in sets.old arguments.entry.given.now arguments.entry.expanded.now) used chain.now)) }
    ensures known { OnOk result (AllKnown sets.new tokens.new.items) }
    ensures keeps { KeepsSets sets.old sets.new }
{
    // Most chains are one token or one parameter; their tokens need no list of their own.
    if chain.operands.len() == 1 {
        let operand = chain.operands.at(0);
        return push_operand(sets, arguments, used, space, &operand, tokens);
    }
    let alloc = *tokens.allocator();
    let more = chain_tokens(alloc, sets, arguments, used, chain)?;
    let pending = append_spaced(tokens, space, more)?;
    Ok(pending)
}

/// Returns the leading-space flag before a chain. The first chain's own flag doesn't count.
fn space_before(pending: bool, first: bool, own: bool) -> bool
    ensures { result ≡ (pending || (not first && own)) }
{
    pending || (!first && own)
}

/// Returns the tokens of all chains, in the vector `room`, and the leading-space flag that is pending afterwards.
pub(crate) fn chains_tokens<'x, 'a: 'x>(
    room: Vec<Hidden<'x>>,
    sets: &mut HideSets,
    arguments: Arguments<'_, 'x>,
    used: Place,
    space: bool,
    chains: &PastedList<'_, 'a>,
) -> Result<(Vec<Hidden<'x>>, bool), Error>
    requires { ArgumentsKnown sets.old arguments.given.now arguments.expanded.now }
    ensures is { Returns result (λ m. as_replacement sets.new m.0.items m.1)
        (chains_tokens (arguments_in sets.old arguments.entry.given.now arguments.entry.expanded.now) used space true chains.now) }
    ensures known { IfOk result (λ m. AllKnown sets.new m.0.items) }
    ensures keeps { KeepsSets sets.old sets.new }
{
    let mut tokens = room;
    tokens.clear();
    tokens.reserve(chains.len())?;
    let mut pending = space;
    let mut first = true;
    for index in 0..chains.len() {
        let chain = chains.at(index);
        let leading = space_before(pending, first, chain.space);
        pending = push_chain(sets, arguments, used, leading, &chain, &mut tokens)?;
        first = false;
    }
    Ok((tokens, pending))
}

/// Returns what `substitute_pattern` returns for a list with `#` or `##`.
pub(crate) fn substitute_chains<'x, 'a: 'x>(
    room: Vec<Hidden<'x>>,
    chains: &PastedList<'_, 'a>,
    arguments: Arguments<'_, 'x>,
    macro_name: &MacroName,
    sets: &mut HideSets,
) -> Result<(Vec<Hidden<'x>>, bool), Error>
    requires arguments { ArgumentsKnown sets.old arguments.given.now arguments.expanded.now }
    requires base { IsKnown sets.old macro_name.now.base }
    ensures is { Returns result (λ m. as_replacement sets.new m.0.items m.1)
        (chains_replacement chains.now (arguments_in sets.old arguments.entry.given.now arguments.entry.expanded.now)
        (set.insert (set_at sets.old macro_name.now.base) macro_name.now.name.now) macro_name.now.used macro_name.now.space) }
    ensures known { IfOk result (λ m. AllKnown sets.new m.0.items) }
    ensures keeps { KeepsSets sets.old sets.new }
{
    let MacroName {
        base,
        name,
        used,
        space,
    } = *macro_name;
    let (mut tokens, pending) = chains_tokens(room, sets, arguments, used, space, chains)?;
    hsadd_names(sets, &mut tokens, base, name, used)?;
    Ok((tokens, pending))
}
