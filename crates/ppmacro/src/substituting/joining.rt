//! Joins lists of tokens with `##` (6.10.3.3).
ghost use Rattle.std.specs.Prelude.{◌≡◌, ◌++◌, ◌∷◌, IfOk, OnOk, IsTrue, []};
ghost use Rattle.pptext.specs.Continuations.{ContinuesToken};
ghost use Rattle.ppmacro.specs.HideSets.{hiding, hidings, HasSets, AllKnown, KeepsSets};
ghost use Rattle.ppmacro.specs.Substitution.{pasted, join};
ghost use Rattle.pptext.specs.Errors.{Returns};
ghost use Rattle.ppmacro.specs.code.Replacing.{HasSpelledKind, EndsWithSpelledKind};

use crate::hidden_token::Hidden;
use crate::hide_sets::HideSets;
use crate::substituting::pasting::paste;
use pptext::{Error, Memory, Place, continues};
use std::alloc::Global;

/// Appends copies of tokens.
pub(crate) fn push_all<'a>(tokens: &mut Vec<Hidden<'a>>, more: &[Hidden<'a>]) -> Result<(), Memory>
    ensures { OnOk result (tokens.new.items ≡ tokens.old.items ++ more.now) }
{
    tokens.extend_with_clones(more)
}

/// Appends a token and copies of others.
fn push_joined<'a>(
    tokens: &mut Vec<Hidden<'a>>,
    hidden: Hidden<'a>,
    more: &[Hidden<'a>],
) -> Result<(), Memory>
    ensures { OnOk result (tokens.new.items ≡ tokens.old.items ++ hidden.entry ∷ more.now) }
{
    tokens.push(hidden)?;
    push_all(tokens, more)
}

/// Returns whether these bytes continue the last token, whose kind is the kind of its spelling if `has_spelled_kind`.
fn is_continued(last: &Hidden, has_spelled_kind: bool, more: &[u8]) -> bool
    ensures has_spelled_kind { IsTrue result → IsTrue has_spelled_kind }
    ensures more { IsTrue result → ContinuesToken last.now.token.kind last.now.token.text more.now }
{
    has_spelled_kind && continues(last.kind(), last.text(), more)
}

/// Pastes two tokens, like `paste`. `has_spelled_kind`: the kind of the last token is the kind of its spelling, as after a paste. Such an
/// identifier or number is extended in place, so that a long chain costs only its bytes.
fn paste_onto<'a>(
    alloc: Global,
    sets: &mut HideSets,
    last: Hidden<'a>,
    has_spelled_kind: bool,
    first: &Hidden,
    used: Place,
) -> Result<Hidden<'a>, Error>
    requires last { HasSets sets.old last }
    requires first { HasSets sets.old first.now }
    requires has_spelled_kind { IsTrue has_spelled_kind → HasSpelledKind last }
    ensures is { Returns result (hiding sets.new) (pasted (hiding sets.old last.entry) (hiding sets.old first.now) used) }
    ensures known { IfOk result (λ h. HasSets sets.new h) }
    ensures has_spelled_kind { IfOk result HasSpelledKind }
    ensures keeps { KeepsSets sets.old sets.new }
{
    let mut last = last;
    if is_continued(&last, has_spelled_kind, first.text()) && last.extend(alloc, first.text())? {
        let hide = sets.common_hide_set(&last, first)?;
        last.set_use(used, hide);
        return Ok(last);
    }
    paste(alloc, &last, first, used, sets)
}

/// Joins the last token of one list with the first of the other, or returns fault 19. `has_spelled_kind`, as a parameter and as the result:
/// the last token is the result of a paste.
pub(crate) fn join<'a>(
    alloc: Global,
    sets: &mut HideSets,
    left: &mut Vec<Hidden<'a>>,
    has_spelled_kind: bool,
    right: &[Hidden<'a>],
    used: Place,
) -> Result<bool, Error>
    requires left { AllKnown sets.old left.old.items }
    requires has_spelled_kind { IsTrue has_spelled_kind → EndsWithSpelledKind left.old.items }
    requires right { AllKnown sets.old right.now }
    ensures is { Returns result (λ _. hidings sets.new left.new.items) (join (hidings sets.old left.old.items) (hidings sets.old right.now) used) }
    ensures known { OnOk result (AllKnown sets.new left.new.items) }
    ensures has_spelled_kind { IfOk result (λ w. IsTrue w → EndsWithSpelledKind left.new.items) }
    ensures keeps { KeepsSets sets.old sets.new }
{
    let first = match right.first() {
        Some(first) => first,
        None => return Ok(has_spelled_kind),
    };
    let last = match left.pop() {
        Some(last) => last,
        None => {
            push_all(left, right)?;
            return Ok(false);
        }
    };
    let hidden = paste_onto(alloc, sets, last, has_spelled_kind, first, used)?;
    push_joined(left, hidden, &right[1..])?;
    Ok(right.len() == 1)
}
