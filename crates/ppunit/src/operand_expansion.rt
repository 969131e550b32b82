//! Macro replacement in the operands of a directive (6.10.2, 6.10.4).
ghost use Rattle.std.specs.Prelude.{◌≡◌};
ghost use Rattle.pptext.specs.Errors.{UnlessOutOfMemory};
ghost use Rattle.ppunit.specs.code.OperandExpansion.{ExpandsOperands};
ghost use Rattle.ppunit.specs.States.{with_meter};

use crate::states::State;
use ppexpand::{Expanded, expand};
use pptext::{Error, Token, Tokens};

/// Returns a copy of the expansion of the operands, or the fault of the expansion. Changes nothing in `state` but the
/// meter.
pub(crate) fn expand_operands<'x>(
    state: &mut State<'x>,
    operands: &'x [Token],
) -> Result<Tokens, Error>
    ensures rest { state.new ≡ with_meter state.old state.new.meter }
    ensures replaces { UnlessOutOfMemory result (λ r. ExpandsOperands state.old operands.now state.new.meter r) }
{
    let Expanded { prefix, fault } = expand(
        &state.macros,
        &state.file_context.env,
        &mut state.meter,
        operands,
        &mut state.scratch,
    )?;
    if let Some(fault) = fault {
        return Err(Error::Fault(fault));
    }
    Ok(Tokens::new(state.scratch.to_vec(prefix)?))
}
