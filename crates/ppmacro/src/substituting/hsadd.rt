//! Adds names to the hide sets of a replacement, and sets its expansion location (6.10.3.4p2; Prosser's hsadd).
ghost use Rattle.std.specs.Prelude.{◌≡◌, true, map, Some, None, OnOk};
ghost use Rattle.std.specs.FinSet as set;
ghost use Rattle.ppmacro.specs.HideSetPool.{HideSetPool};
ghost use Rattle.ppmacro.specs.HideSets.{set_at, IsKnown, HasSets, hiding, hidings, AllKnown, KeepsSets};
ghost use Rattle.ppmacro.specs.Substitution.{hsadd};
ghost use Rattle.ppmacro.specs.code.Replacing.{HasSubset};

use crate::hidden_token::Hidden;
use crate::hide_sets::{HideSets, Set};
use pptext::{Memory, Place};

/// Returns whether a set is known to be a subset of the names to hide, `added`, which are the names of `base` and one more.
fn is_subset(set: Set, base: Set, added: Set) -> bool
    ensures { result ≡ true → (sets : HideSetPool) → HasSubset sets added base → HasSubset sets added set }
{
    if set == base {
        return true;
    }
    set == added
}

/// Adds the names to a token with one set, and sets its expansion location.
fn hsadd_to_one(sets: &HideSets, hidden: &mut Hidden, base: Set, added: Set, used: Place)
    requires hidden { HasSets sets.now hidden.old }
    requires one { hidden.old.extra ≡ None }
    requires added { IsKnown sets.now added }
    requires within { HasSubset sets.now added base }
    ensures is { hiding sets.now hidden.new ≡ hsadd (set_at sets.now added) used (hiding sets.now hidden.old) }
    ensures known { HasSets sets.now hidden.new }
{
    let hide = hidden.hide();
    if hide == sets.empty() {
        hidden.set_use(used, added);
        return;
    }
    if is_subset(hide, base, added) {
        hidden.set_use(used, added);
        return;
    }
    hidden.set_use_with_extra(used, hide, added);
}

/// Adds the names to a token with two sets, and sets its expansion location. Computes the union of its sets if neither is a
/// subset of the names.
fn hsadd_to_two(
    sets: &mut HideSets,
    hidden: &mut Hidden,
    extra: Set,
    base: Set,
    added: Set,
    used: Place,
) -> Result<(), Memory>
    requires hidden { HasSets sets.old hidden.old }
    requires two { hidden.old.extra ≡ Some extra }
    requires added { IsKnown sets.old added }
    requires within { HasSubset sets.old added base }
    ensures is { OnOk result (hiding sets.new hidden.new ≡ hsadd (set_at sets.old added) used (hiding sets.old hidden.old)) }
    ensures known { OnOk result (HasSets sets.new hidden.new) }
    ensures keeps { KeepsSets sets.old sets.new }
{
    let hide = hidden.hide();
    if is_subset(extra, base, added) {
        hidden.set_use_with_extra(used, hide, added);
        return Ok(());
    }
    if is_subset(hide, base, added) {
        hidden.set_use_with_extra(used, extra, added);
        return Ok(());
    }
    let both = sets.union(hide, extra)?;
    hidden.set_use_with_extra(used, both, added);
    Ok(())
}

/// Adds the names to a token, and sets its expansion location.
fn hsadd_one(
    sets: &mut HideSets,
    hidden: &mut Hidden,
    base: Set,
    added: Set,
    used: Place,
) -> Result<(), Memory>
    requires hidden { HasSets sets.old hidden.old }
    requires added { IsKnown sets.old added }
    requires within { HasSubset sets.old added base }
    ensures is { OnOk result (hiding sets.new hidden.new ≡ hsadd (set_at sets.old added) used (hiding sets.old hidden.old)) }
    ensures known { OnOk result (HasSets sets.new hidden.new) }
    ensures keeps { KeepsSets sets.old sets.new }
{
    // Fast path: a token with one set.
    let Some(extra) = hidden.extra() else {
        hsadd_to_one(sets, hidden, base, added, used);
        return Ok(());
    };
    hsadd_to_two(sets, hidden, extra, base, added, used)
}

/// Adds the names to each token, and sets its expansion location.
fn hsadd_all(
    sets: &mut HideSets,
    tokens: &mut Vec<Hidden>,
    base: Set,
    added: Set,
    used: Place,
) -> Result<(), Memory>
    requires tokens { AllKnown sets.old tokens.old.items }
    requires base { IsKnown sets.old base }
    requires added { IsKnown sets.old added }
    requires within { HasSubset sets.old added base }
    ensures is { OnOk result (hidings sets.new tokens.new.items ≡ map (hsadd (set_at sets.old added) used) (hidings sets.old tokens.old.items)) }
    ensures known { OnOk result (AllKnown sets.new tokens.new.items) }
    ensures keeps { KeepsSets sets.old sets.new }
{
    for hidden in tokens.iter_mut() {
        hsadd_one(sets, hidden, base, added, used)?;
    }
    Ok(())
}

/// Adds the names of `base` and one more name to each token, and sets its expansion location.
pub(crate) fn hsadd_names(
    sets: &mut HideSets,
    tokens: &mut Vec<Hidden>,
    base: Set,
    name: &[u8],
    used: Place,
) -> Result<(), Memory>
    requires tokens { AllKnown sets.old tokens.old.items }
    requires base { IsKnown sets.old base }
    ensures is { OnOk result (hidings sets.new tokens.new.items ≡ map (hsadd (set.insert (set_at sets.old base) name.now) used) (hidings sets.old tokens.old.items)) }
    ensures known { OnOk result (AllKnown sets.new tokens.new.items) }
    ensures keeps { KeepsSets sets.old sets.new }
{
    let added = sets.with(base, name)?;
    hsadd_all(sets, tokens, base, added, used)
}
