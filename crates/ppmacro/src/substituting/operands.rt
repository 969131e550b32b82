//! The tokens of an operand (6.10.3.1, 6.10.3.2).
ghost use Rattle.std.specs.Prelude.{◌≡◌, ◌≤◌, IfOk, OnOk, IsTrue, [], Ok, true, length, take, unwrap_or};
ghost use Rattle.ppmacro.specs.HideSets.{hidings, AllKnown, KeepsSets};
ghost use Rattle.ppmacro.specs.Substitution.{argument_at, expanded_at, after_ok, join, operand_tokens};
ghost use Rattle.pptext.specs.Errors.{Returns};
ghost use Rattle.ppmacro.specs.Substituting.{lists_of, expansion_if_computed, expansions_if_computed, ArgumentsKnown, arguments_in};
ghost use Rattle.ppmacro.specs.code.Replacing.{EndsWithSpelledKind, join_operands, operands_fault};

use crate::hidden_token::{ArgumentExpansion, Hidden};
use crate::hide_sets::HideSets;
use crate::invocation::Arguments;
use crate::macros::{Operand, Operands};
use crate::substituting::joining::join;
use crate::substituting::stringizing::stringize;
use pptext::{Error, Place};
use std::alloc::Global;
use std::slice;

/// Returns the argument of the parameter with this index. An absent argument has no tokens.
pub fn argument_of<'g, 'a>(given: &'g [Vec<Hidden<'a>>], index: usize) -> &'g [Hidden<'a>]
    ensures { result.now ≡ argument_at (lists_of given.now) index }
{
    let Some(tokens) = given.get(index) else {
        let none: &'g [Hidden<'a>] = Default::default();
        return none;
    };
    tokens.as_slice()
}

/// Returns the tokens of an argument's expansion.
fn expansion_tokens<'g, 'a>(
    argument: &'g [Hidden<'a>],
    expansion: &'g ArgumentExpansion<'a>,
) -> &'g [Hidden<'a>]
    ensures { result.now ≡ unwrap_or (expansion_if_computed argument.now expansion.now) [] }
{
    match expansion {
        ArgumentExpansion::Unused => {
            let none: &'g [Hidden<'a>] = Default::default();
            none
        }
        ArgumentExpansion::AsGiven => argument,
        ArgumentExpansion::Owned(tokens) => tokens.as_slice(),
    }
}

/// Returns the tokens of the expansion of the argument with this index.
pub(crate) fn expansion<'g, 'a>(
    given: &'g [Vec<Hidden<'a>>],
    expanded: &'g [ArgumentExpansion<'a>],
    index: usize,
) -> &'g [Hidden<'a>]
    ensures { result.now ≡ expanded_at (expansions_if_computed given.now expanded.now) index }
{
    let Some(expansion) = expanded.get(index) else {
        let none: &'g [Hidden<'a>] = Default::default();
        return none;
    };
    expansion_tokens(argument_of(given, index), expansion)
}

/// Returns fault 20 if an operand is a `#` whose text isn't a string literal.
fn check_literal(
    alloc: Global,
    sets: &HideSets,
    arguments: Arguments,
    used: Place,
    operand: &Operand,
) -> Result<(), Error>
    ensures { Returns result (λ u. u) (after_ok (operand_tokens true (arguments_in sets.now arguments.entry.given.now arguments.entry.expanded.now) used operand.now) (λ ts. Ok tt)) }
{
    let Operand::Str(index, at) = operand else {
        return Ok(());
    };
    let _literal = stringize(alloc, argument_of(arguments.given, *index), *at, used, sets)?;
    Ok(())
}

/// Returns the first fault 20 of the first `count` operands.
pub(crate) fn check_literals(
    alloc: Global,
    sets: &HideSets,
    arguments: Arguments,
    used: Place,
    operands: &Operands,
    count: usize,
) -> Result<(), Error>
    requires { count ≤ length operands.now }
    ensures { Returns result (λ u. u) (operands_fault (arguments_in sets.now arguments.entry.given.now arguments.entry.expanded.now) used (take count operands.now)) }
{
    for index in 0..count {
        check_literal(alloc, sets, arguments, used, &operands.at(index))?;
    }
    Ok(())
}

/// Joins the tokens of an operand, which is next to `##`, to those before it, or returns fault 19 or 20. `has_spelled_kind`, as a
/// parameter and as the result: the last token is the result of a paste.
fn join_operand<'x, 'a: 'x>(
    sets: &mut HideSets,
    arguments: Arguments<'_, 'x>,
    used: Place,
    left: &mut Vec<Hidden<'x>>,
    has_spelled_kind: bool,
    operand: &Operand<'a>,
) -> Result<bool, Error>
    requires arguments { ArgumentsKnown sets.old arguments.given.now arguments.expanded.now }
    requires left { AllKnown sets.old left.old.items }
    requires has_spelled_kind { IsTrue has_spelled_kind → EndsWithSpelledKind left.old.items }
    ensures is { Returns result (λ _. hidings sets.new left.new.items)
        (after_ok (operand_tokens true (arguments_in sets.old arguments.entry.given.now arguments.entry.expanded.now) used operand.now) (λ ts. join (hidings sets.old left.old.items) ts used)) }
    ensures known { OnOk result (AllKnown sets.new left.new.items) }
    ensures has_spelled_kind { IfOk result (λ w. IsTrue w → EndsWithSpelledKind left.new.items) }
    ensures keeps { KeepsSets sets.old sets.new }
{
    let alloc = *left.allocator();
    match operand {
        Operand::Tok(token) => {
            let hidden = Hidden::new(token.token(), sets.empty());
            join(
                alloc,
                sets,
                left,
                has_spelled_kind,
                slice::from_ref(&hidden),
                used,
            )
        }
        Operand::Str(index, at) => {
            let argument = argument_of(arguments.given, *index);
            let hidden = stringize(alloc, argument, *at, used, sets)?;
            join(
                alloc,
                sets,
                left,
                has_spelled_kind,
                slice::from_ref(&hidden),
                used,
            )
        }
        Operand::Param(index) | Operand::VariadicAfterComma(index) => {
            let argument = argument_of(arguments.given, *index);
            join(alloc, sets, left, has_spelled_kind, argument, used)
        }
    }
}

/// Returns the tokens of the first `count` operands, joined from the left, or returns fault 19 or 20.
pub(crate) fn join_operands<'x, 'a: 'x>(
    alloc: Global,
    sets: &mut HideSets,
    arguments: Arguments<'_, 'x>,
    used: Place,
    operands: &Operands<'_, 'a>,
    count: usize,
) -> Result<Vec<Hidden<'x>>, Error>
    requires arguments { ArgumentsKnown sets.old arguments.given.now arguments.expanded.now }
    requires count { count ≤ length operands.now }
    ensures is { Returns result (λ v. hidings sets.new v.items)
        (join_operands (arguments_in sets.old arguments.entry.given.now arguments.entry.expanded.now) used [] (take count operands.now)) }
    ensures known { IfOk result (λ v. AllKnown sets.new v.items) }
    ensures keeps { KeepsSets sets.old sets.new }
{
    let mut left = Vec::new(alloc);
    let mut has_spelled_kind = false;
    for index in 0..count {
        let operand = operands.at(index);
        has_spelled_kind = join_operand(
            sets,
            arguments,
            used,
            &mut left,
            has_spelled_kind,
            &operand,
        )?;
    }
    Ok(left)
}
