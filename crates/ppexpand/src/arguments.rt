//! Collects the arguments of an invocation (6.10.3p4, p11, p12).
ghost use Rattle.std.specs.Prelude.{◌≡◌, ◌∷◌, ◌++◌, [], IfOk, OnOk};
ghost use Rattle.ppmacro.specs.HideSetPool.{HideSetPool};
ghost use Rattle.ppmacro.specs.HideSets.{HasSets, hiding, hidings, AllKnown};
ghost use Rattle.ppmacro.specs.Substituting.{ListsKnown};
ghost use Rattle.ppexpand.specs.Arguments.{Closed, UnmatchedQuote, Unclosed, separates, fewer, separators, needed, gather, fit_arguments};
ghost use Rattle.ppexpand.specs.code.ProgramValues.{given_in, fitting_in, FittingKnown, is_bare};

use crate::token_roles::{ArgumentRole, argument_role};
use crate::token_stack::TokenStack;
use crate::vec_pool::VecPool;
use ppmacro::{Hidden, Variadic};
use pptext::{Memory, Spelling, push};
use std::alloc::Global;
use std::mem;

/// The initial capacity of an argument, in tokens. Few arguments have more.
const ARGUMENT_CAPACITY: usize = 8;

/// The number of arguments after the first that get this capacity. Few invocations have more, and the arguments of those are mostly short.
const RESERVED_ARGUMENTS: usize = 63;

/// The result of the search for the `)` of an invocation.
#[derive(Drop)]
pub(crate) enum Gathered<'a> {
    /// The arguments and the matching `)`.
    Closed(Vec<Vec<Hidden<'a>>>, Hidden<'a>),
    /// An unmatched quote before any matching `)`.
    UnmatchedQuote(Hidden<'a>),
    /// No matching `)`.
    Unclosed,
}

/// Returns how many commas separate arguments: one for each parameter before the variable argument, or `None` if all do.
pub(crate) fn separators(names: &[Spelling], variadic: Variadic) -> Option<usize>
    ensures { result ≡ separators names.now variadic }
{
    match variadic {
        Variadic::No => None,
        Variadic::Strict | Variadic::Lenient => Some(names.len().saturating_sub(1)),
    }
}

/// Returns the least number of arguments.
fn needed(names: &[Spelling], variadic: Variadic) -> usize
    ensures { result ≡ needed names.now variadic }
{
    match variadic {
        Variadic::No | Variadic::Strict => names.len(),
        Variadic::Lenient => names.len().saturating_sub(1),
    }
}

/// Returns whether a comma inside `depth` parentheses separates arguments. `commas` is the number of commas that still may; `None` means all.
fn separates(depth: usize, commas: Option<usize>) -> bool
    ensures { result ≡ separates depth commas }
{
    depth == 0 && !matches!(commas, Some(0))
}

/// Returns how many commas may separate arguments after one more has.
fn fewer(commas: Option<usize>) -> Option<usize>
    ensures { result ≡ fewer commas }
{
    match commas {
        Some(commas) => Some(commas.saturating_sub(1)),
        None => None,
    }
}

/// Appends an argument to the others, and begins the next one.
#[inline]
fn end_argument<'a>(
    pool: &mut VecPool<'a>,
    arguments: &mut Vec<Vec<Hidden<'a>>>,
    argument: &mut Vec<Hidden<'a>>,
) -> Result<(), Memory>
    ensures ended { OnOk result (arguments.new.items ≡ arguments.old.items ++ argument.old ∷ []) }
    ensures begun { OnOk result (argument.new.items ≡ []) }
{
    let capacity = if arguments.len() < RESERVED_ARGUMENTS {
        ARGUMENT_CAPACITY
    } else {
        0
    };
    let begun = pool.list(capacity)?;
    push(arguments, mem::replace(argument, begun))
}

/// Removes the arguments of an invocation and the matching `)` from the list, which begins after the `(`.
pub(crate) fn gather<'a>(
    pool: &mut VecPool<'a>,
    list: &mut TokenStack<'a>,
    commas: Option<usize>,
) -> Result<Gathered<'a>, Memory>
    ensures is { IfOk result (λ g. (sets : HideSetPool) → (elim g [
      | Gathered.Closed arguments close ↦ Closed (given_in sets arguments.items) (hiding sets close) (hidings sets list.new)
      | Gathered.UnmatchedQuote quote ↦ UnmatchedQuote (hiding sets quote)
      | Gathered.Unclosed ↦ Unclosed
    ]) ≡ gather 0 commas (hidings sets list.old)) }
    ensures known { IfOk result (λ g. (sets : HideSetPool) → AllKnown sets list.old → elim g [
      | Gathered.Closed arguments close ↦ ListsKnown sets arguments.items × HasSets sets close × AllKnown sets list.new
      | Gathered.UnmatchedQuote quote ↦ Unit {0}
      | Gathered.Unclosed ↦ Unit {0}
    ]) }
{
    let mut argument = pool.list(ARGUMENT_CAPACITY)?;
    let mut arguments = pool.arguments();
    let mut depth: usize = 0;
    let mut commas = commas;
    while let Some(hidden) = list.next() {
        match argument_role(&hidden) {
            ArgumentRole::Quote => return Ok(Gathered::UnmatchedQuote(hidden)),
            ArgumentRole::Close if depth == 0 => {
                push(&mut arguments, argument)?;
                return Ok(Gathered::Closed(arguments, hidden));
            }
            ArgumentRole::Comma if separates(depth, commas) => {
                // The comma belongs to no argument. It is dropped before anything can fail.
                drop(hidden);
                end_argument(pool, &mut arguments, &mut argument)?;
                commas = fewer(commas);
                continue;
            }
            ArgumentRole::Open => depth += 1,
            ArgumentRole::Close => depth -= 1,
            ArgumentRole::Comma => {}
            ArgumentRole::Inner => {}
        }
        push(&mut argument, hidden)?;
    }
    Ok(Gathered::Unclosed)
}

/// Returns whether there are no tokens between the parentheses.
fn is_bare(arguments: &[Vec<Hidden>]) -> bool
    ensures { result ≡ is_bare arguments.now }
{
    match arguments {
        [argument] => argument.as_slice().is_empty(),
        _ => false,
    }
}

/// Returns the arguments by parameter, or `None` if their number is wrong. An absent variable argument has no entry.
pub(crate) fn fit_arguments<'a>(
    alloc: Global,
    arguments: Vec<Vec<Hidden<'a>>>,
    names: &[Spelling],
    variadic: Variadic,
) -> Option<Vec<Vec<Hidden<'a>>>>
    ensures is { (sets : HideSetPool) → fitting_in sets result ≡ fit_arguments names.now variadic (given_in sets arguments.entry.items) }
    ensures known { (sets : HideSetPool) → ListsKnown sets arguments.entry.items → FittingKnown sets result }
{
    let least = needed(names, variadic);
    if least == 0 && is_bare(arguments.as_slice()) {
        return Some(Vec::new(alloc));
    }
    let count = arguments.len();
    if least <= count && count <= names.len() {
        Some(arguments)
    } else {
        None
    }
}
