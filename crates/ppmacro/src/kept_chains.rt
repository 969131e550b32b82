//! The chains of a replacement list as a definition keeps them.
//!
//! A definition may be shared by many macros, and has no tokens of its own. So a kept operand has the index of its token in the
//! replacement list, and reads as an `Operand` only beside the list.
ghost use Rattle.std.specs.Prelude.{◌≡◌};
ghost use Rattle.ppmacro.specs.code.KeptOperands.{operand_at};

use crate::macros::Operand;
use crate::replacement_list::BodyToken;
use pptext::{Place, Token};

/// An operand.
#[derive(Drop)]
pub enum KeptOperand {
    /// A token, by its index in the replacement list.
    Tok(usize),
    /// A parameter, by its index.
    Param(usize),
    /// A stringized parameter, by its index, with the location of the `#`.
    Str(usize, Place),
    /// A variable argument that may be absent, after a comma at the end of a chain (gcc's manual, "Variadic Macros").
    VariadicAfterComma(usize),
}

/// Operands that `##` joins, with the leading-space flag of the first token.
#[derive(Drop)]
pub struct KeptChain {
    pub(crate) space: bool,
    pub(crate) operands: Vec<KeptOperand>,
}

/// Returns a kept operand of a replacement list. An index that the list doesn't have, which no definition keeps, gives the default
/// operand.
pub(crate) fn operand_at<'a>(body: &'a [Token], kept: &KeptOperand) -> Operand<'a>
    ensures { result ≡ operand_at body.now kept.now }
{
    match kept {
        KeptOperand::Tok(index) => match body.get(*index) {
            Some(token) => Operand::Tok(BodyToken::new(token)),
            None => Operand::default(),
        },
        KeptOperand::Param(index) => Operand::Param(*index),
        KeptOperand::Str(index, at) => Operand::Str(*index, *at),
        KeptOperand::VariadicAfterComma(index) => Operand::VariadicAfterComma(*index),
    }
}
