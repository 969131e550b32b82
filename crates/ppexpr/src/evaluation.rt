//! Evaluates an expression from the evaluations of its operands.
ghost use Rattle.std.specs.Prelude.{◌≡◌, Ok};
ghost use Rattle.ppexpr.specs.Values.{decides, binary_result, with_type, unary_unsigned, binary_unsigned, constant_evaluation, unary_evaluation};
ghost use Rattle.ppexpr.specs.Values.{binary_evaluation, choice_evaluation};

use crate::operators::{Binary, Unary};
use crate::symbols::{Evaluation, Failure, Value};
use crate::values::{binary_value, unary_value};

impl Unary {
    /// Returns whether the result has the unsigned type.
    fn is_unsigned(self, operand: bool) -> bool
        ensures { result ≡ unary_unsigned self operand }
    {
        match self {
            Unary::Not => false,
            _ => operand,
        }
    }
}

impl Binary {
    /// Returns whether the result has the unsigned type.
    fn is_unsigned(self, left: bool, right: bool) -> bool
        ensures { result ≡ binary_unsigned self left right }
    {
        match self {
            Binary::Multiply
            | Binary::Divide
            | Binary::Remainder
            | Binary::Add
            | Binary::Subtract
            | Binary::BitAnd
            | Binary::BitXor
            | Binary::BitOr => left || right,
            Binary::ShiftLeft | Binary::ShiftRight => left,
            _ => false,
        }
    }

    /// Returns whether the left operand alone decides the result (6.5.13p4, 6.5.14p4).
    fn decides(self, left: Value) -> bool
        ensures { result ≡ decides self left }
    {
        match self {
            Binary::And => left.is_zero(),
            Binary::Or => !left.is_zero(),
            _ => false,
        }
    }

    /// Returns the value of the expression, if the left operand has a value.
    fn result(self, left: Value, right: Result<Value, Failure>) -> Result<Value, Failure>
        ensures { result ≡ binary_result self (Ok left) right }
    {
        if self.decides(left) {
            return Ok(Value::truth(!left.is_zero()));
        }
        binary_value(self, left, right?)
    }
}

/// Converts a value to the type of a conditional expression (6.5.15p5).
fn with_type(unsigned: bool, value: Result<Value, Failure>) -> Result<Value, Failure>
    ensures { result ≡ with_type unsigned value }
{
    if !unsigned {
        return value;
    }
    Ok(Value::Unsigned(value?.as_unsigned()))
}

#[tactic(auto, unfolding(crate::specs::Values::constant_evaluation, crate::specs::Values::unary_evaluation, crate::specs::Values::binary_evaluation, crate::specs::Values::choice_evaluation))]
impl Evaluation {
    /// Returns the evaluation of a constant.
    pub(crate) fn constant(value: Value) -> Evaluation
        ensures { result ≡ constant_evaluation value }
    {
        Evaluation {
            unsigned: matches!(value, Value::Unsigned(_)),
            value: Ok(value),
        }
    }

    /// Returns the evaluation of a unary operator with its operand.
    pub(crate) fn unary(operator: Unary, operand: Evaluation) -> Evaluation
        ensures { result ≡ unary_evaluation operator operand }
    {
        Evaluation {
            unsigned: operator.is_unsigned(operand.unsigned),
            value: match operand.value {
                Ok(value) => unary_value(operator, value),
                Err(failure) => Err(failure),
            },
        }
    }

    /// Returns the evaluation of a binary operator with its operands.
    pub(crate) fn binary(operator: Binary, left: Evaluation, right: Evaluation) -> Evaluation
        ensures { result ≡ binary_evaluation operator left right }
    {
        Evaluation {
            unsigned: operator.is_unsigned(left.unsigned, right.unsigned),
            value: match left.value {
                Ok(value) => operator.result(value, right.value),
                Err(failure) => Err(failure),
            },
        }
    }

    /// Returns the evaluation of `test ? yes : no`.
    pub(crate) fn choice(test: Evaluation, yes: Evaluation, no: Evaluation) -> Evaluation
        ensures { result ≡ choice_evaluation test yes no }
    {
        let unsigned = yes.unsigned || no.unsigned;
        let value = match test.value {
            Ok(value) if value.is_zero() => with_type(unsigned, no.value),
            Ok(_) => with_type(unsigned, yes.value),
            Err(failure) => Err(failure),
        };
        Evaluation { unsigned, value }
    }
}
