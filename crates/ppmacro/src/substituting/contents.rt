//! Substitution in a replacement list with `__VA_OPT__` (C23, 6.10.5.2).
//!
//! If the variable argument has tokens, those of the contents become arguments after the others. This copies the arguments, but only for
//! macros with `__VA_OPT__`.
ghost use Rattle.std.specs.Prelude.{◌≡◌, ◌++◌, IfOk, OnOk, List, [], Some, Vec, map, length, get_or};
ghost use Rattle.std.specs.Global.{Global};
ghost use Rattle.std.specs.FinSet as set;
ghost use Rattle.pptext.specs.Errors.{Returns};
ghost use Rattle.ppmacro.specs.HideSetPool.{HideSetPool};
ghost use Rattle.ppmacro.specs.HideSets.{set_at, IsKnown, hidings, AllKnown, KeepsSets};
ghost use Rattle.ppmacro.specs.Substitution.{contents_tokens, with_contents, filled_replacement, va_opt_replacement};
ghost use Rattle.ppmacro.specs.Substituting.{lists_of, expansion_if_computed, expansions_if_computed, ListsKnown, ArgumentsKnown, arguments_in, as_replacement};
ghost use Rattle.ppmacro.specs.declared.hidden_token.Hidden.{Hidden};

use crate::hidden_token::{ArgumentExpansion, Hidden};
use crate::hide_sets::HideSets;
use crate::invocation::{Arguments, MacroName};
use crate::substituting::operands::{argument_of, expansion};
use crate::substituting::{chains_tokens, substitute_chains};
use crate::va_opt_chains::VaOptList;
use pptext::{Error, Memory, Place};
use std::alloc::Global;

/// The arguments of an invocation, the placemarker of `__VA_OPT__`, and the contents.
#[derive(Drop)]
struct AllArguments<'x> {
    given: Vec<Vec<Hidden<'x>>>,
    expanded: Vec<ArgumentExpansion<'x>>,
}

/// Returns a copy of tokens.
fn copy_tokens<'x>(alloc: Global, tokens: &[Hidden<'x>]) -> Result<Vec<Hidden<'x>>, Memory>
    ensures { IfOk result (λ v. v.items ≡ tokens.now) }
{
    let mut copy = Vec::new(alloc);
    copy.extend_with_clones(tokens)?;
    Ok(copy)
}

/// Appends copies of arguments.
fn push_given<'x>(copy: &mut Vec<Vec<Hidden<'x>>>, given: &[Vec<Hidden<'x>>]) -> Result<(), Memory>
    ensures { OnOk result (lists_of copy.new.items ≡ lists_of copy.old.items ++ lists_of given.now) }
{
    let alloc = *copy.allocator();
    for tokens in given {
        copy.push(copy_tokens(alloc, tokens.as_slice())?)?;
    }
    Ok(())
}

/// Returns a copy of the expansion of an argument, which doesn't refer to the argument.
fn copy_expansion<'x>(
    alloc: Global,
    argument: &[Hidden<'x>],
    expansion: &ArgumentExpansion<'x>,
) -> Result<ArgumentExpansion<'x>, Memory>
    ensures { IfOk result (λ e. (given : List Hidden) → expansion_if_computed given e ≡ expansion_if_computed argument.now expansion.now) }
{
    match expansion {
        ArgumentExpansion::Unused => Ok(ArgumentExpansion::Unused),
        ArgumentExpansion::AsGiven => Ok(ArgumentExpansion::Owned(copy_tokens(alloc, argument)?)),
        ArgumentExpansion::Owned(tokens) => {
            let copy = copy_tokens(alloc, tokens.as_slice())?;
            Ok(ArgumentExpansion::Owned(copy))
        }
    }
}

/// Appends copies of the expansions of arguments.
fn push_expanded<'x>(
    copy: &mut Vec<ArgumentExpansion<'x>>,
    arguments: Arguments<'_, 'x>,
) -> Result<(), Memory>
    requires { copy.old.items ≡ [] }
    ensures { OnOk result ((given : List (Vec Hidden Global)) → expansions_if_computed given copy.new.items ≡ expansions_if_computed arguments.entry.given.now arguments.entry.expanded.now) }
{
    let alloc = *copy.allocator();
    for index in 0..arguments.expanded.len() {
        let Some(expansion) = arguments.expanded.get(index) else {
            continue;
        };
        let argument = argument_of(arguments.given, index);
        let owned = copy_expansion(alloc, argument, expansion)?;
        copy.push(owned)?;
    }
    Ok(())
}

/// Appends these lists as expansions.
fn push_lists<'x>(
    expanded: &mut Vec<ArgumentExpansion<'x>>,
    lists: &[Vec<Hidden<'x>>],
) -> Result<(), Memory>
    ensures { OnOk result ((given : List (Vec Hidden Global))
        → expansions_if_computed given expanded.new.items ≡ expansions_if_computed given expanded.old.items ++ map Some (lists_of lists.now)) }
{
    let alloc = *expanded.allocator();
    for tokens in lists {
        let copy = copy_tokens(alloc, tokens.as_slice())?;
        expanded.push(ArgumentExpansion::Owned(copy))?;
    }
    Ok(())
}

/// Returns the arguments with these lists after them.
fn with_contents<'x>(
    alloc: Global,
    arguments: Arguments<'_, 'x>,
    lists: &[Vec<Hidden<'x>>],
) -> Result<AllArguments<'x>, Memory>
    ensures is { IfOk result (λ all. (sets : HideSetPool)
        → arguments_in sets all.given.items all.expanded.items ≡ with_contents (arguments_in sets arguments.entry.given.now arguments.entry.expanded.now) (map (hidings sets) (lists_of lists.now))) }
    ensures known { IfOk result (λ all. (sets : HideSetPool)
        → ArgumentsKnown sets arguments.entry.given.now arguments.entry.expanded.now → ListsKnown sets lists.now → ArgumentsKnown sets all.given.items all.expanded.items) }
{
    let mut given = Vec::new(alloc);
    push_given(&mut given, arguments.given)?;
    given.push(Vec::new(alloc))?;
    push_given(&mut given, lists)?;
    let mut expanded = Vec::new(alloc);
    push_expanded(&mut expanded, arguments)?;
    expanded.push(ArgumentExpansion::Unused)?;
    push_lists(&mut expanded, lists)?;
    Ok(AllArguments { given, expanded })
}

/// Returns the tokens of the contents, or fault 19 or 20.
fn contents_tokens<'x, 'a: 'x>(
    alloc: Global,
    sets: &mut HideSets,
    arguments: Arguments<'_, 'x>,
    used: Place,
    list: &VaOptList<'_, 'a>,
) -> Result<Vec<Vec<Hidden<'x>>>, Error>
    requires { ArgumentsKnown sets.old arguments.given.now arguments.expanded.now }
    ensures is { Returns result (λ v. map (hidings sets.new) (lists_of v.items))
        (contents_tokens (arguments_in sets.old arguments.entry.given.now arguments.entry.expanded.now) used list.now.contents) }
    ensures known { IfOk result (λ v. ListsKnown sets.new v.items) }
    ensures keeps { KeepsSets sets.old sets.new }
{
    let mut lists = Vec::with_capacity(alloc, list.content_count())?;
    for index in 0..list.content_count() {
        let content = list.content(index);
        let room = Vec::new(alloc);
        let (tokens, _) = chains_tokens(room, sets, arguments, used, false, &content)?;
        lists.push(tokens)?;
    }
    Ok(lists)
}

/// Returns what `substitute_va_opt` returns if the variable argument has tokens.
fn substitute_filled<'x, 'a: 'x>(
    room: Vec<Hidden<'x>>,
    list: &VaOptList<'_, 'a>,
    arguments: Arguments<'_, 'x>,
    macro_name: &MacroName,
    sets: &mut HideSets,
) -> Result<(Vec<Hidden<'x>>, bool), Error>
    requires arguments { ArgumentsKnown sets.old arguments.given.now arguments.expanded.now }
    requires base { IsKnown sets.old macro_name.now.base }
    ensures is { Returns result (λ m. as_replacement sets.new m.0.items m.1)
        (filled_replacement list.now (arguments_in sets.old arguments.entry.given.now arguments.entry.expanded.now)
        (set.insert (set_at sets.old macro_name.now.base) macro_name.now.name.now) macro_name.now.used macro_name.now.space) }
    ensures known { IfOk result (λ m. AllKnown sets.new m.0.items) }
    ensures keeps { KeepsSets sets.old sets.new }
{
    let alloc = *room.allocator();
    let lists = contents_tokens(alloc, sets, arguments, macro_name.used, list)?;
    let all = with_contents(alloc, arguments, lists.as_slice())?;
    let arguments = Arguments {
        given: all.given.as_slice(),
        expanded: all.expanded.as_slice(),
    };
    substitute_chains(room, &list.if_filled(), arguments, macro_name, sets)
}

/// Returns what `substitute_pattern` returns for a list with `__VA_OPT__`.
#[inline(never)]
pub(crate) fn substitute_va_opt<'x, 'a: 'x>(
    room: Vec<Hidden<'x>>,
    list: &VaOptList<'_, 'a>,
    arguments: Arguments<'_, 'x>,
    macro_name: &MacroName,
    sets: &mut HideSets,
) -> Result<(Vec<Hidden<'x>>, bool), Error>
    requires arguments { ArgumentsKnown sets.old arguments.given.now arguments.expanded.now }
    requires base { IsKnown sets.old macro_name.now.base }
    ensures is { Returns result (λ m. as_replacement sets.new m.0.items m.1)
        (va_opt_replacement list.now (arguments_in sets.old arguments.entry.given.now arguments.entry.expanded.now)
        (set.insert (set_at sets.old macro_name.now.base) macro_name.now.name.now) macro_name.now.used macro_name.now.space) }
    ensures known { IfOk result (λ m. AllKnown sets.new m.0.items) }
    ensures keeps { KeepsSets sets.old sets.new }
{
    let variable = expansion(arguments.given, arguments.expanded, list.variadic());
    if variable.is_empty() {
        return substitute_chains(room, &list.if_empty(), arguments, macro_name, sets);
    }
    substitute_filled(room, list, arguments, macro_name, sets)
}
