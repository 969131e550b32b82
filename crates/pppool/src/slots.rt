//! Slots: one for each unit of the list, for the unit's output.
ghost use Rattle.std.specs.Prelude.{◌≡◌, ◌<◌, length, All, IfOk, IsSome, Some, None, map, replicate, slice_set};
ghost use Rattle.pppool.specs.code.Workers.{filled_slots};

use crate::workers::UnitResult;
use pptext::Memory;
use ppunit::UnitOut;
use std::alloc::Global;

/// Creates `count` empty slots.
pub(crate) fn empty_slots<'a>(
    alloc: Global,
    count: usize,
) -> Result<Vec<Option<UnitOut<'a>>>, Memory>
    ensures { IfOk result (λ v. v.items ≡ replicate count None) }
{
    let mut slots = Vec::with_capacity(alloc, count)?;
    for _ in 0..count {
        slots.push(None)?;
    }
    Ok(slots)
}

/// Moves each output into its unit's slot.
pub(crate) fn fill_slots<'a>(results: Vec<UnitResult<'a>>, slots: &mut Vec<Option<UnitOut<'a>>>)
    requires { All (λ a. a.unit < length slots.old.items) results.items }
    ensures { slots.new.items ≡ filled_slots slots.old.items results.entry.items }
{
    for unit_result in results {
        fill_slot(slots, unit_result);
    }
}

/// Moves an output into its unit's slot.
fn fill_slot<'a>(slots: &mut Vec<Option<UnitOut<'a>>>, unit_result: UnitResult<'a>)
    requires { unit_result.unit < length slots.old.items }
    ensures { slots.new.items ≡ slice_set slots.old.items unit_result.entry.unit (Some unit_result.entry.out) }
{
    let UnitResult { unit, out } = unit_result;
    slots[unit] = Some(out);
}

/// Takes the outputs out of full slots.
pub(crate) fn take_all<'a>(
    alloc: Global,
    slots: Vec<Option<UnitOut<'a>>>,
) -> Result<Vec<UnitOut<'a>>, Memory>
    requires { All (λ s. IsSome s) slots.items }
    ensures { IfOk result (λ v. slots.entry.items ≡ map Some v.items) }
{
    let mut all = Vec::with_capacity(alloc, slots.len())?;
    for slot in slots {
        let Some(out) = slot else { unreachable!() };
        all.push(out)?;
    }
    Ok(all)
}
