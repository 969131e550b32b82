//! Appends to vectors.
ghost use Rattle.std.specs.Prelude.{◌≡◌, ◌∷◌, ◌++◌, [], OnOk};

use crate::error::Memory;

/// Appends an item. The common case, a vector with spare capacity, is compiled in place.
#[inline(always)]
pub fn push<T: Drop>(items: &mut Vec<T>, item: T) -> Result<(), Memory>
    ensures { OnOk result (items.new.items ≡ items.old.items ++ item ∷ []) }
{
    if items.len() == items.capacity() {
        return grow_and_push(items, item);
    }
    items.push_reserved(item);
    Ok(())
}

/// Appends an item to a vector without spare capacity.
#[inline(never)]
fn grow_and_push<T: Drop>(items: &mut Vec<T>, item: T) -> Result<(), Memory>
    ensures { OnOk result (items.new.items ≡ items.old.items ++ item ∷ []) }
{
    items.push(item)?;
    Ok(())
}
