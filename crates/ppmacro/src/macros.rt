//! Macro definitions.
//!
//! A macro has its replacement list as it stands in the file, and not in the form that substitution reads: most macros of a unit
//! are never used, and reading a list costs more than keeping it. An invocation asks for the cheapest form that fits. `lone_tokens`
//! are for an object-like macro without `##`, and `pattern` is for all others. The contracts of both refer to the chains.
ghost use Rattle.std.specs.Prelude.{◌≡◌, ◌<◌, IfOk, length, get_or, if◌then◌else◌};
ghost use Rattle.std.specs.List.{list_any};
ghost use Rattle.ppmacro.specs.Chains.{is_comma, variadic_after};
ghost use Rattle.ppmacro.specs.code.KeptOperands.{operands_at};
ghost use Rattle.ppmacro.specs.declared.macros.Operand as spec;
ghost use Rattle.ppmacro.specs.declared.macros.Operand.TheVariants.{VariadicAfterComma};
ghost use Rattle.ppmacro.specs.PasteFree.{is_object_like};
ghost use Rattle.ppmacro.specs.HashOperators.{is_paste};

use crate::hash_operators::is_paste;
use crate::kept_chains::{KeptOperand, operand_at};
use crate::replacement_list::{BodyToken, ReplacementList};
use pptext::{Memory, Place, Sequence, Spelling, Token};
use std::marker::Model;

/// The predefined macros (6.10.8.1).
#[derive(Clone, Copy, Debug, PartialEq, Eq)]
pub enum PredefinedMacro {
    File,
    Line,
    Date,
    Time,
    Stdc,
    StdcHosted,
    StdcVersion,
}

/// A list of names. Contracts see the list of their spellings.
pub type Names = Sequence<Spelling>;

/// Whether the last parameter takes a variable number of arguments, as one list (6.10.3p12).
#[derive(Clone, Copy, Debug, PartialEq, Eq)]
pub enum Variadic {
    /// It takes one argument, like the others.
    No,
    /// It takes the remaining arguments, at least one (6.10.3p4).
    Strict,
    /// It takes the remaining arguments, possibly none (gcc's manual, "Variadic Macros").
    Lenient,
}

/// The kind of a macro.
#[derive(Drop)]
pub enum MacroKind {
    Predefined(PredefinedMacro),
    /// `__COUNTER__` (gcc's manual, "Common Predefined Macros").
    Counter,
    ObjectLike,
    /// Has the names of its parameters. `__VA_ARGS__` is the last if the parameter list ends in `...`.
    FunctionLike {
        parameters: Names,
        variadic: Variadic,
    },
}

impl MacroKind {
    /// Returns a copy. Fails only if an allocation fails.
    pub(crate) fn duplicate(&self) -> Result<MacroKind, Memory>
        ensures { IfOk result (λ k. k ≡ self.now) }
    {
        match self {
            MacroKind::Predefined(predefined) => Ok(MacroKind::Predefined(*predefined)),
            MacroKind::Counter => Ok(MacroKind::Counter),
            MacroKind::ObjectLike => Ok(MacroKind::ObjectLike),
            MacroKind::FunctionLike {
                parameters,
                variadic,
            } => Ok(MacroKind::FunctionLike {
                parameters: parameters.clone()?,
                variadic: *variadic,
            }),
        }
    }
}

/// The kind and the replacement list of a macro, as its definition says them.
#[derive(Drop)]
pub struct Macro<'a> {
    pub kind: MacroKind,
    pub body: ReplacementList<'a>,
}

/// An operand of `##` (6.10.3.3), or a part that isn't joined.
#[derive(Drop)]
pub enum Operand<'a> {
    /// A token of the replacement list.
    Tok(BodyToken<'a>),
    /// A parameter, by its index.
    Param(usize),
    /// A stringized parameter, by its index, with the location of the `#`.
    Str(usize, Place),
    /// A variable argument that may be absent, after a comma at the end of a chain (gcc's manual, "Variadic Macros").
    VariadicAfterComma(usize),
}

impl<'a> Default for Operand<'a> {
    ghost use Rattle.std.specs.Prelude.{◌≡◌};
    ghost use Rattle.ppmacro.specs.declared.macros.Operand.TheVariants.{Param};

    ghost is_default = { λ o. o ≡ Param 0 };

    /// Returns the operand that stands for a missing token.
    fn default() -> Operand<'a> {
        Operand::Param(0)
    }
}

/// Returns whether an operand is the token `,`.
fn is_comma(operand: &Operand) -> bool
    ensures { result ≡ is_comma operand.now }
{
    match operand {
        Operand::Tok(token) => token.token().is_punct(b","),
        _ => false,
    }
}

/// Returns whether the last operand is this parameter and follows a comma.
pub(crate) fn is_variadic(before: &Operand, last: &Operand, index: usize) -> bool
    ensures { variadic_after index before.now last.now ≡ (if result then VariadicAfterComma index else last.now) }
{
    match last {
        Operand::Param(parameter) => *parameter == index && is_comma(before),
        _ => false,
    }
}

/// The operands of a chain, beside the replacement list. Contracts see the list of operands.
#[derive(Drop)]
pub struct Operands<'p, 'a> {
    kept: &'p [KeptOperand],
    body: &'a [Token],
}

impl<'p, 'a> Model for Operands<'p, 'a> {
    ghost use Rattle.std.specs.Prelude.{List};
    ghost use Rattle.ppmacro.specs.declared.macros.Operand.{Operand};
    ghost use Rattle.ppmacro.specs.code.KeptOperands.{operands_at};

    ghost Value = { List Operand };

    ghost view = { λ s. operands_at s.body.now s.kept.now };
}

impl<'p, 'a> Operands<'p, 'a> {
    /// Bundles kept operands with their replacement list.
    pub(crate) fn new(kept: &'p [KeptOperand], body: &'a [Token]) -> Operands<'p, 'a>
        ensures { result ≡ operands_at body.now kept.now }
    {
        Operands { kept, body }
    }

    /// Returns the number of operands.
    pub fn len(&self) -> usize
        ensures { result ≡ length self.now }
    {
        self.kept.len()
    }

    /// Returns the operand at an index.
    pub fn at(&self, index: usize) -> Operand<'a>
        requires { index < length self.now }
        ensures { (default : spec.Operand) → result ≡ get_or self.now index default }
    {
        let (kept, body) = (self.kept, self.body);
        let operand = &kept[index];
        operand_at(body, operand)
    }
}

/// Operands that `##` joins, with the leading-space flag of the first token.
#[derive(Drop)]
pub struct Chain<'p, 'a> {
    pub space: bool,
    pub operands: Operands<'p, 'a>,
}

/// Returns whether a macro is object-like. Predefined macros aren't.
pub(crate) fn is_object_like(kind: &MacroKind) -> bool
    ensures { result ≡ is_object_like kind.now }
{
    matches!(kind, MacroKind::ObjectLike)
}

/// Returns whether the tokens contain `##`.
pub(crate) fn has_paste(tokens: &[Token]) -> bool
    ensures { result ≡ list_any is_paste tokens.now }
{
    tokens.iter().any(|token| is_paste(token))
}
