//! Parses and evaluates an expression by operator precedence (6.5), with a stack of what waits for its last operand.
//!
//! The parser builds no tree and does not call itself. A stack on the heap bounds the memory by the number of symbols, whatever the nesting, and
//! each entry holds evaluations in place of subtrees. It reads each symbol once.
//!
//! Before it reads an operator, it completes the entries of that level or a tighter one, so operators of one level group from the left. `?` and `:`
//! group from the right: `:` completes the middle operand and leaves the condition on the stack. A `(`, or a `?` without its `:`, has level 0, and
//! only its closing symbol removes it. `finish` completes the rest, and any entry that stays shows a missing symbol.
//!
//! An entry is generic in what it holds: proofs run the same machine over trees, which shows that an expression has one tree.
ghost use Rattle.std.specs.Prelude.{◌≡◌, Some, None, IfOk, MatchOption, ◌∷◌, MatchBool, reverse};
ghost use Rattle.ppexpr.specs.Grammar.{IsExpression};
ghost use Rattle.ppexpr.specs.declared.symbols.Evaluation.{Evaluation};
ghost use Rattle.ppexpr.specs.code.Pending.{frame_level, evaluations, completed, unreduced, reduced, after_colon, after_close, ParserTakes, finish};
ghost use Rattle.ppexpr.specs.Values.{Denotes};

use crate::operators::{Infix, Unary};
use crate::symbols::{Evaluation, Symbol};
use std::alloc::{AllocError, Global};
use std::marker::Model;

/// The level of a conditional expression (6.5.15).
const CONDITIONAL: u8 = 1;

/// The capacity of the stack at first. Few expressions need more.
const USUAL_DEPTH: usize = 8;

/// The level of a logical OR expression (6.5.14), such as the condition of a conditional expression.
const LOGICAL_OR: u8 = 2;

/// An entry of the stack: it waits for its last operand, or for the symbol that closes it.
#[derive(Clone, Copy)]
enum Frame<A> {
    /// A `(` that waits for its `)`.
    Group,
    /// A unary operator.
    Sign(Unary),
    /// A binary operator with its left operand.
    Left(Infix, A),
    /// The condition before a `?` that waits for its `:`.
    Test(A),
    /// The condition before a `?` and the operand before its `:`.
    Arms(A, A),
}

/// The state of the parser: the stack, the innermost entry last, and the operand that was just read, if any.
#[derive(Drop)]
struct Parser {
    frames: Vec<Frame<Evaluation>>,
    operand: Option<Evaluation>,
}

impl Model for Parser {
    ghost use Rattle.std.specs.Prelude.{reverse};
    ghost use Rattle.ppexpr.specs.declared.symbols.Evaluation.{Evaluation};
    ghost use Rattle.ppexpr.specs.code.Pending.{State};

    ghost Value = { State Evaluation };

    ghost view = { λ p. (reverse p.frames.items, p.operand) };
}

impl Frame<Evaluation> {
    /// Returns the level of the expression that the entry becomes; 0 if the entry needs a closing symbol first.
    fn level(self) -> u8
        ensures { result ≡ frame_level self }
    {
        match self {
            Frame::Group | Frame::Test(_) => 0,
            Frame::Arms(_, _) => CONDITIONAL,
            Frame::Left(operator, _) => operator.level,
            Frame::Sign(_) => 12,
        }
    }

    /// Returns the evaluation that the entry becomes with its last operand.
    fn complete(self, operand: Evaluation) -> Evaluation
        ensures { result ≡ completed evaluations self operand }
    {
        match self {
            Frame::Group | Frame::Test(_) => operand,
            Frame::Sign(operator) => Evaluation::unary(operator, operand),
            Frame::Left(operator, left) => Evaluation::binary(operator.operation, left, operand),
            Frame::Arms(test, yes) => Evaluation::choice(test, yes, operand),
        }
    }
}

/// Applies the entries at this level or a tighter one to the operand, and removes them.
fn reduce(frames: &mut Vec<Frame<Evaluation>>, level: u8, mut operand: Evaluation) -> Evaluation
    ensures stay { reverse frames.new.items ≡ unreduced level (reverse frames.old.items) }
    ensures value { result ≡ reduced evaluations level (reverse frames.old.items) operand }
{
    while let Some(last) = frames.pop_if(|last| last.level() >= level) {
        operand = last.complete(operand);
    }
    operand
}

/// Removes the innermost entry. Returns whether it was a `(`.
fn pop_group(frames: &mut Vec<Frame<Evaluation>>) -> bool
    ensures { MatchBool result (reverse frames.old.items ≡ Frame.Group ∷ reverse frames.new.items) ((z : Evaluation) → after_close (reverse frames.old.items) z ≡ None) }
{
    let Some(last) = frames.pop() else {
        return false;
    };
    matches!(last, Frame::Group)
}

/// Removes the innermost entry. Returns its condition if it was a `?`.
fn pop_test(frames: &mut Vec<Frame<Evaluation>>) -> Option<Evaluation>
    ensures { MatchOption result ((z : Evaluation) → after_colon (reverse frames.old.items) z ≡ None) (λ x. reverse frames.old.items ≡ Frame.Test x ∷ reverse frames.new.items) }
{
    let last = frames.pop()?;
    match last {
        Frame::Test(test) => Some(test),
        _ => None,
    }
}

impl Parser {
    /// Reads a symbol where an operand is expected. Returns false if no operand begins with it.
    fn begin(&mut self, symbol: Symbol) -> Result<bool, AllocError>
        requires { self.old.1 ≡ None }
        ensures { IfOk result (λ accepted. ParserTakes self.old symbol accepted self.new) }
    {
        match symbol {
            Symbol::Constant(value) => self.operand = Some(Evaluation::constant(value)),
            Symbol::Open => {
                self.frames.push(Frame::Group)?;
            }
            Symbol::Operator(operator) => {
                let Some(sign) = operator.unary() else {
                    return Ok(false);
                };
                self.frames.push(Frame::Sign(sign))?;
            }
            _ => return Ok(false),
        }
        Ok(true)
    }

    /// Reads a symbol after an operand. Returns false if no expression continues with it.
    fn read_after_operand(
        &mut self,
        operand: Evaluation,
        symbol: Symbol,
    ) -> Result<bool, AllocError>
        requires { self.old.1 ≡ Some operand }
        ensures { IfOk result (λ accepted. ParserTakes self.old symbol accepted self.new) }
    {
        match symbol {
            Symbol::Operator(sign) => {
                let Some(operator) = sign.binary() else {
                    return Ok(false);
                };
                let left = reduce(&mut self.frames, operator.level, operand);
                self.frames.push(Frame::Left(operator, left))?;
            }
            Symbol::Question => {
                let test = reduce(&mut self.frames, LOGICAL_OR, operand);
                self.frames.push(Frame::Test(test))?;
            }
            Symbol::Colon => {
                let yes = reduce(&mut self.frames, CONDITIONAL, operand);
                let Some(test) = pop_test(&mut self.frames) else {
                    return Ok(false);
                };
                self.frames.push(Frame::Arms(test, yes))?;
            }
            Symbol::Close => {
                let inside = reduce(&mut self.frames, CONDITIONAL, operand);
                self.operand = Some(inside);
                return Ok(pop_group(&mut self.frames));
            }
            _ => return Ok(false),
        }
        self.operand = None;
        Ok(true)
    }

    /// Reads the next symbol. Returns false if no expression continues with it.
    fn take(&mut self, symbol: Symbol) -> Result<bool, AllocError>
        ensures { IfOk result (λ accepted. ParserTakes self.old symbol accepted self.new) }
    {
        match self.operand {
            None => self.begin(symbol),
            Some(operand) => self.read_after_operand(operand, symbol),
        }
    }

    /// Returns the evaluation after the last symbol, or `None` if an operand or a closing symbol is missing.
    fn finish(self) -> Option<Evaluation>
        ensures { result ≡ finish evaluations self }
    {
        let Parser {
            mut frames,
            operand,
        } = self;
        let whole = reduce(&mut frames, CONDITIONAL, operand?);
        frames.is_empty().then_some(whole)
    }
}

/// Evaluates an expression. Returns `None` if the symbols are no expression (6.5, 6.6).
///
/// Each symbol is on the stack at most once, so the time is linear in the number of symbols.
pub(crate) fn parse(alloc: Global, symbols: &[Symbol]) -> Result<Option<Evaluation>, AllocError>
    ensures { IfOk result (λ r. MatchOption r (¬ IsExpression symbols.now) (Denotes symbols.now)) }
{
    let mut parser = Parser {
        frames: Vec::with_capacity(alloc, symbols.len().min(USUAL_DEPTH))?,
        operand: None,
    };
    for symbol in symbols {
        if !parser.take(*symbol)? {
            return Ok(None);
        }
    }
    Ok(parser.finish())
}
