//! The operator `##` (6.10.3.3).
ghost use Rattle.std.specs.Prelude.{◌≡◌, ◌++◌, IfOk};
ghost use Rattle.ppmacro.specs.HideSets.{hiding, HasSets, KeepsSets};
ghost use Rattle.ppmacro.specs.Substitution.{pasted};
ghost use Rattle.pptext.specs.Errors.{Returns};

use crate::hidden_token::Hidden;
use crate::hide_sets::HideSets;
use crate::substituting::lexing::kind_of;
use pptext::{Error, Kind, Memory, Place, Spelling, Token};
use std::alloc::Global;

/// Returns the concatenated spellings of two tokens.
fn joined_text(alloc: Global, left: &Hidden, right: &Hidden) -> Result<Vec<u8>, Memory>
    ensures { IfOk result (λ v. v.items ≡ left.now.token.text ++ right.now.token.text) }
{
    let mut text = Vec::from_slice(alloc, left.text())?;
    text.extend_from_slice(right.text())?;
    Ok(text)
}

/// Returns a token of this kind and spelling, with the spelling location and the leading-space flag of the left token.
fn synthesize(kind: Kind, text: Vec<u8>, left: &Hidden, used: Place) -> Result<Token, Memory>
    ensures { IfOk result (λ t. t ≡ record { kind = kind; text = text.items; space = left.now.token.space; at = left.now.token.at; used = used }) }
{
    Ok(Token {
        kind,
        text: Spelling::new(text)?,
        space: left.space(),
        at: left.at(),
        used,
    })
}

/// Pastes two tokens (6.10.3.3). The result has the spelling location and the leading-space flag of the left token, and the
/// intersection of the hide sets. `used` is the location of the macro name.
///
/// Fault 19, at `used` and with both spellings: the result isn't one token, or is an unmatched quote. Existing sets never change.
pub fn paste<'a>(
    alloc: Global,
    left: &Hidden,
    right: &Hidden,
    used: Place,
    sets: &mut HideSets,
) -> Result<Hidden<'a>, Error>
    requires left { HasSets sets.old left.now }
    requires right { HasSets sets.old right.now }
    ensures is { Returns result (hiding sets.new) (pasted (hiding sets.old left.now) (hiding sets.old right.now) used) }
    ensures known { IfOk result (λ h. HasSets sets.new h) }
    ensures keeps { KeepsSets sets.old sets.new }
{
    let text = joined_text(alloc, left, right)?;
    let Some(kind) = kind_of(text.as_slice()) else {
        return Err(Error::new(alloc, 19, used, text.as_slice()));
    };
    let hide = sets.common_hide_set(left, right)?;
    let token = synthesize(kind, text, left, used)?;
    Ok(Hidden::synthesized(alloc, token, hide)?)
}
