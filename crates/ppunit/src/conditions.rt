//! Decides whether a line of an if-section takes the group after it (6.10.1; for `#elifdef` and `#elifndef`, 6.10.2 of
//! ISO/IEC 9899:2024).
ghost use Rattle.std.specs.Prelude.{◌≡◌, ◌<◌, ℕ, true, false, length};
ghost use Rattle.pptext.specs.Errors.{UnlessOutOfMemory};
ghost use Rattle.pptext.specs.Tree.{hash_place};
ghost use Rattle.ppexpr.specs.Conditions.{IsCondition};
ghost use Rattle.ppunit.specs.Conditions as spec;
ghost use Rattle.ppunit.specs.DirectiveLines as spec_lines;
ghost use Rattle.ppunit.specs.code.Lines.{directed, IsConditional};
ghost use Rattle.ppunit.specs.States.{with_meter};
ghost use Rattle.ppunit.specs.code.Contexts.{search_in_unit};

use crate::directive_line::{DirectiveTokens, line_fault, one_identifier, refuse_unmatched_quote};
use crate::open_file::UnitContext;
use crate::probing::{needs_probing, probe};
use crate::states::State;
use ppexpand::{Env, Meter, Scratch};
use ppexpr::evaluate;
use ppmacro::Table;
use ppshelf::Disk;
use pptext::{Directive, Error, Place, Question, Token, Tokens};
use std::alloc::Global;

/// Decides whether the group after a line of the file at index `row` is taken. Fails with the line's fault: 7, 9, 30,
/// or a fault of its condition. Changes nothing in `state` but the meter.
pub(crate) fn decide<'x, D: Disk>(
    context: &UnitContext<'_, '_, D>,
    state: &mut State<'x>,
    row: usize,
    directive: Directive,
    line: &DirectiveTokens<'x>,
) -> Result<bool, Error>
    requires rows { 0 < length context.now.shelf.names }
    requires condition { IsConditional directive }
    ensures rest { state.new ≡ with_meter state.old state.new.meter }
    ensures decides { UnlessOutOfMemory result (λ taken.
        (number : ℕ)
        → spec.Decides (search_in_unit context.now) row state.old (directed directive line.now number) state.new.meter taken) }
{
    refuse_unmatched_quote(context.alloc, line)?;
    match directive.question() {
        Some(Question::Value) => by_condition(context, state, row, line),
        Some(Question::Defined(wanted)) => by_name(context.alloc, wanted, &state.macros, line),
        // The line of a conditional directive asks for one of them.
        None => Ok(true),
    }
}

/// Returns whether the macro table has the line's name, compared with `wanted`. Fault 9 unless the operand is one identifier.
fn by_name(
    alloc: Global,
    wanted: bool,
    macros: &Table,
    line: &DirectiveTokens<'_>,
) -> Result<bool, Error>
    ensures { UnlessOutOfMemory result (λ taken. taken ≡ spec.by_name wanted macros.now.macros line.now (spec_lines.one_identifier (spec_lines.operands line.now))) }
{
    let Some(name) = one_identifier(line.operands()) else {
        return Err(line_fault(alloc, 9, line, line.name()));
    };
    Ok(macros.get(name).is_some() == wanted)
}

/// Evaluates the line's condition.
fn by_condition<'x, D: Disk>(
    context: &UnitContext<'_, '_, D>,
    state: &mut State<'x>,
    row: usize,
    line: &DirectiveTokens<'x>,
) -> Result<bool, Error>
    requires { 0 < length context.now.shelf.names }
    ensures rest { state.new ≡ with_meter state.old state.new.meter }
    ensures is { UnlessOutOfMemory result (λ taken.
        spec.DecidesByValue (search_in_unit context.now) row state.old line.now state.new.meter taken) }
{
    let at = line.hash_place();
    let operands = line.operands();
    // Most conditions have no `__has_include`, so that their tokens are not copied.
    if !needs_probing(context.profile(), operands) {
        return value(state, at, operands);
    }
    let tokens = probe(context, state, row, line)?;
    value_of_probed(state, at, tokens)
}

/// Evaluates a condition of a file with the meter of the unit.
fn value<'x>(state: &mut State<'x>, at: Place, tokens: &'x [Token]) -> Result<bool, Error>
    ensures rest { state.new ≡ with_meter state.old state.new.meter }
    ensures is { UnlessOutOfMemory result (λ taken.
        IsCondition state.old.macros state.old.env at tokens.now state.old.meter taken state.new.meter) }
{
    evaluate(
        &state.macros,
        &state.file_context.env,
        &mut state.meter,
        at,
        tokens,
        &mut state.scratch,
    )
}

/// Evaluates a condition whose tokens are of no file, with a scratch of its own, since they are dropped before those of the unit's.
#[inline(never)]
fn evaluate_probed(
    alloc: Global,
    table: &Table,
    env: &Env,
    meter: &mut Meter,
    at: Place,
    tokens: Tokens,
) -> Result<bool, Error>
    ensures { UnlessOutOfMemory result (λ taken.
        IsCondition table.now.macros env.now at tokens meter.old taken meter.new) }
{
    let probed = tokens;
    let mut scratch = Scratch::new(alloc, table.hashing())?;
    evaluate(table, env, meter, at, probed.as_slice(), &mut scratch)
}

/// Evaluates a condition in which each `__has_include` is replaced, with the meter of the unit.
fn value_of_probed(state: &mut State, at: Place, tokens: Tokens) -> Result<bool, Error>
    ensures rest { state.new ≡ with_meter state.old state.new.meter }
    ensures is { UnlessOutOfMemory result (λ taken.
        IsCondition state.old.macros state.old.env at tokens state.old.meter taken state.new.meter) }
{
    evaluate_probed(
        state.scratch.alloc(),
        &state.macros,
        &state.file_context.env,
        &mut state.meter,
        at,
        tokens,
    )
}
