//! Applies operators to values (6.5.3.3, 6.5.5 to 6.5.14).
//!
//! Each operator is a function with one clause: the operation on whole numbers, and the range of the result. A signed result out of range is a
//! failure, and an unsigned one is taken modulo 2^64, so the code uses `checked_` methods for the one and `wrapping_` methods for the other.
//!
//! `converted` applies the usual arithmetic conversions once, for every operator but shifts, whose type is the left operand's. `/` and `%` test
//! the divisor first and then the quotient: `checked_rem` fails exactly if the quotient is out of range, as the standard has it (6.5.5p6).
ghost use Rattle.std.specs.Prelude.{◌≡◌, ℤ, pos, FitsSigned, ◌+ℤ◌, ◌-ℤ◌, ◌*ℤ◌, ◌<◌, int_lt, int_le, int_div, int_rem, bit_and, bit_or};
ghost use Rattle.std.specs.Prelude.{bit_xor, not, MatchOption, Ok, false};
ghost use Rattle.std.specs.Int.{w64, int_bit_and, int_bit_or, int_bit_xor};
ghost use Rattle.std.specs.Ordering.{int_eq};
ghost use Rattle.std.specs.Option.{SomeIff};
ghost use Rattle.ppexpr.specs.Values.{is_zero, as_unsigned, truth, is_amount, whole, signed, negative, complement, unary_value, converted};
ghost use Rattle.ppexpr.specs.Values.{arithmetic, division, comparison, bitwise, shift, left_shift, right_shift, binary_value};

use crate::operators::{Binary, Operator, Unary};
use crate::symbols::{Failure, Value};

/// Two operands after the usual arithmetic conversions.
#[derive(Clone, Copy)]
enum Operands {
    BothSigned(i64, i64),
    BothUnsigned(u64, u64),
}

impl Value {
    /// Returns whether the value is 0.
    pub(crate) fn is_zero(self) -> bool
        ensures { result ≡ is_zero self }
    {
        match self {
            Value::Signed(n) => n == 0,
            Value::Unsigned(n) => n == 0,
        }
    }

    /// Returns the value modulo 2^64 (6.3.1.3p2).
    pub(crate) fn as_unsigned(self) -> u64
        ensures { result ≡ as_unsigned self }
    {
        match self {
            Value::Signed(n) => n.cast_unsigned(),
            Value::Unsigned(n) => n,
        }
    }

    /// Returns the result of a comparison: 1 or 0, signed (6.5.8p6).
    pub(crate) fn truth(holds: bool) -> Value
        ensures { result ≡ truth holds }
    {
        Value::Signed(if holds { 1 } else { 0 })
    }
}

/// Returns a signed result, or fault 27 if it is out of range.
fn signed(operator: Operator, value: Option<i64>) -> Result<Value, Failure>
    ensures { (z : ℤ) → SomeIff value (FitsSigned w64 z) z → result ≡ signed operator z }
{
    match value {
        Some(value) => Ok(Value::Signed(value)),
        None => Err(Failure::Overflow(operator)),
    }
}

/// Computes unary `-` (6.5.3.3p3).
fn negative(value: Value) -> Result<Value, Failure>
    ensures { result ≡ negative value }
{
    match value {
        Value::Signed(n) => signed(Operator::Minus, n.checked_neg()),
        Value::Unsigned(n) => Ok(Value::Unsigned(n.wrapping_neg())),
    }
}

/// Computes `~` (6.5.3.3p4).
fn complement(value: Value) -> Result<Value, Failure>
    ensures { result ≡ complement value }
{
    Ok(match value {
        Value::Signed(n) => Value::Signed(!n),
        Value::Unsigned(n) => Value::Unsigned(!n),
    })
}

/// Applies a unary operator to a value.
pub(crate) fn unary_value(operator: Unary, value: Value) -> Result<Value, Failure>
    ensures { result ≡ unary_value operator value }
{
    match operator {
        Unary::Plus => Ok(value),
        Unary::Minus => negative(value),
        Unary::Complement => complement(value),
        Unary::Not => Ok(Value::truth(value.is_zero())),
    }
}

/// Applies the usual arithmetic conversions (6.3.1.8).
fn converted(left: Value, right: Value) -> Operands
    ensures { result ≡ converted left right }
{
    if let Value::Signed(a) = left {
        if let Value::Signed(b) = right {
            return Operands::BothSigned(a, b);
        }
    }
    Operands::BothUnsigned(left.as_unsigned(), right.as_unsigned())
}

/// Computes `*` (6.5.5p4).
fn product(left: Value, right: Value) -> Result<Value, Failure>
    ensures { result ≡ arithmetic Operator.Star (λ a b. a *ℤ b) (converted left right) }
{
    match converted(left, right) {
        Operands::BothSigned(a, b) => signed(Operator::Star, a.checked_mul(b)),
        Operands::BothUnsigned(a, b) => Ok(Value::Unsigned(a.wrapping_mul(b))),
    }
}

/// Computes binary `+` (6.5.6p5).
fn sum(left: Value, right: Value) -> Result<Value, Failure>
    ensures { result ≡ arithmetic Operator.Plus (λ a b. a +ℤ b) (converted left right) }
{
    match converted(left, right) {
        Operands::BothSigned(a, b) => signed(Operator::Plus, a.checked_add(b)),
        Operands::BothUnsigned(a, b) => Ok(Value::Unsigned(a.wrapping_add(b))),
    }
}

/// Computes binary `-` (6.5.6p6).
fn difference(left: Value, right: Value) -> Result<Value, Failure>
    ensures { result ≡ arithmetic Operator.Minus (λ a b. a -ℤ b) (converted left right) }
{
    match converted(left, right) {
        Operands::BothSigned(a, b) => signed(Operator::Minus, a.checked_sub(b)),
        Operands::BothUnsigned(a, b) => Ok(Value::Unsigned(a.wrapping_sub(b))),
    }
}

/// Computes `/` (6.5.5p5).
fn quotient(left: Value, right: Value) -> Result<Value, Failure>
    ensures { result ≡ division Operator.Slash int_div (converted left right) }
{
    match converted(left, right) {
        Operands::BothSigned(_, 0) | Operands::BothUnsigned(_, 0) => {
            Err(Failure::ZeroDivisor(Operator::Slash))
        }
        Operands::BothSigned(a, b) => match a.checked_div(b) {
            Some(value) => Ok(Value::Signed(value)),
            None => Err(Failure::Overflow(Operator::Slash)),
        },
        Operands::BothUnsigned(a, b) => Ok(Value::Unsigned(a / b)),
    }
}

/// Computes `%` (6.5.5p5, p6).
fn remainder(left: Value, right: Value) -> Result<Value, Failure>
    ensures { result ≡ division Operator.Percent int_rem (converted left right) }
{
    match converted(left, right) {
        Operands::BothSigned(_, 0) | Operands::BothUnsigned(_, 0) => {
            Err(Failure::ZeroDivisor(Operator::Percent))
        }
        Operands::BothSigned(a, b) => match a.checked_rem(b) {
            Some(value) => Ok(Value::Signed(value)),
            None => Err(Failure::Overflow(Operator::Percent)),
        },
        Operands::BothUnsigned(a, b) => Ok(Value::Unsigned(a % b)),
    }
}

/// Computes `<` (6.5.8p6).
fn less(left: Value, right: Value) -> Value
    ensures { Ok result ≡ comparison int_lt (converted left right) }
{
    Value::truth(match converted(left, right) {
        Operands::BothSigned(a, b) => a < b,
        Operands::BothUnsigned(a, b) => a < b,
    })
}

/// Computes `<=` (6.5.8p6).
fn less_or_equal(left: Value, right: Value) -> Value
    ensures { Ok result ≡ comparison int_le (converted left right) }
{
    Value::truth(match converted(left, right) {
        Operands::BothSigned(a, b) => a <= b,
        Operands::BothUnsigned(a, b) => a <= b,
    })
}

/// Computes `>` (6.5.8p6).
fn greater(left: Value, right: Value) -> Value
    ensures { Ok result ≡ comparison (λ a b. int_lt b a) (converted left right) }
{
    Value::truth(match converted(left, right) {
        Operands::BothSigned(a, b) => a > b,
        Operands::BothUnsigned(a, b) => a > b,
    })
}

/// Computes `>=` (6.5.8p6).
fn greater_or_equal(left: Value, right: Value) -> Value
    ensures { Ok result ≡ comparison (λ a b. int_le b a) (converted left right) }
{
    Value::truth(match converted(left, right) {
        Operands::BothSigned(a, b) => a >= b,
        Operands::BothUnsigned(a, b) => a >= b,
    })
}

/// Computes `==` (6.5.9p3).
fn equal(left: Value, right: Value) -> Value
    ensures { Ok result ≡ comparison int_eq (converted left right) }
{
    Value::truth(match converted(left, right) {
        Operands::BothSigned(a, b) => a == b,
        Operands::BothUnsigned(a, b) => a == b,
    })
}

/// Computes `!=` (6.5.9p3).
fn not_equal(left: Value, right: Value) -> Value
    ensures { Ok result ≡ comparison (λ a b. not (int_eq a b)) (converted left right) }
{
    Value::truth(match converted(left, right) {
        Operands::BothSigned(a, b) => a != b,
        Operands::BothUnsigned(a, b) => a != b,
    })
}

/// Computes binary `&` (6.5.10p4).
fn bit_and(left: Value, right: Value) -> Value
    ensures { Ok result ≡ bitwise (int_bit_and w64) bit_and (converted left right) }
{
    match converted(left, right) {
        Operands::BothSigned(a, b) => Value::Signed(a & b),
        Operands::BothUnsigned(a, b) => Value::Unsigned(a & b),
    }
}

/// Computes `^` (6.5.11p4).
fn bit_xor(left: Value, right: Value) -> Value
    ensures { Ok result ≡ bitwise (int_bit_xor w64) bit_xor (converted left right) }
{
    match converted(left, right) {
        Operands::BothSigned(a, b) => Value::Signed(a ^ b),
        Operands::BothUnsigned(a, b) => Value::Unsigned(a ^ b),
    }
}

/// Computes `|` (6.5.12p4).
fn bit_or(left: Value, right: Value) -> Value
    ensures { Ok result ≡ bitwise (int_bit_or w64) bit_or (converted left right) }
{
    match converted(left, right) {
        Operands::BothSigned(a, b) => Value::Signed(a | b),
        Operands::BothUnsigned(a, b) => Value::Unsigned(a | b),
    }
}

/// Returns the amount of a shift, if it is from 0 to 63.
fn amount(value: Value) -> Option<u32>
    ensures { MatchOption result (is_amount (whole value) ≡ false) (λ n. (whole value ≡ pos n) × (n < 64)) }
{
    match value {
        Value::Signed(n) if 0 <= n && n < 64 => Some(n as u32),
        Value::Unsigned(n) if n < 64 => Some(n as u32),
        _ => None,
    }
}

/// Computes `<<` by an amount in range (6.5.7p4).
fn left_shift(value: Value, amount: u32) -> Result<Value, Failure>
    requires { amount < 64 }
    ensures { result ≡ left_shift value amount }
{
    let number = match value {
        Value::Signed(number) => number,
        Value::Unsigned(number) => return Ok(Value::Unsigned(number << amount)),
    };
    if number < 0 {
        return Err(Failure::Shift(Operator::ShiftLeft));
    }
    if number > i64::MAX >> amount {
        return Err(Failure::Shift(Operator::ShiftLeft));
    }
    Ok(Value::Signed(number << amount))
}

/// Computes `>>` by an amount in range (6.5.7p5).
fn right_shift(value: Value, amount: u32) -> Value
    requires { amount < 64 }
    ensures { Ok result ≡ right_shift value amount }
{
    match value {
        Value::Signed(number) => Value::Signed(number >> amount),
        Value::Unsigned(number) => Value::Unsigned(number >> amount),
    }
}

/// Computes `<<` by any amount (6.5.7p3).
fn shifted_left(left: Value, right: Value) -> Result<Value, Failure>
    ensures { result ≡ shift Operator.ShiftLeft left_shift left right }
{
    match amount(right) {
        Some(amount) => left_shift(left, amount),
        None => Err(Failure::Shift(Operator::ShiftLeft)),
    }
}

/// Computes `>>` by any amount (6.5.7p3).
fn shifted_right(left: Value, right: Value) -> Result<Value, Failure>
    ensures { result ≡ shift Operator.ShiftRight right_shift left right }
{
    match amount(right) {
        Some(amount) => Ok(right_shift(left, amount)),
        None => Err(Failure::Shift(Operator::ShiftRight)),
    }
}

/// Applies a binary operator to two values.
pub(crate) fn binary_value(operator: Binary, left: Value, right: Value) -> Result<Value, Failure>
    ensures { result ≡ binary_value operator left right }
{
    match operator {
        Binary::Multiply => product(left, right),
        Binary::Divide => quotient(left, right),
        Binary::Remainder => remainder(left, right),
        Binary::Add => sum(left, right),
        Binary::Subtract => difference(left, right),
        Binary::ShiftLeft => shifted_left(left, right),
        Binary::ShiftRight => shifted_right(left, right),
        Binary::Less => Ok(less(left, right)),
        Binary::Greater => Ok(greater(left, right)),
        Binary::LessOrEqual => Ok(less_or_equal(left, right)),
        Binary::GreaterOrEqual => Ok(greater_or_equal(left, right)),
        Binary::Equal => Ok(equal(left, right)),
        Binary::NotEqual => Ok(not_equal(left, right)),
        Binary::BitAnd => Ok(bit_and(left, right)),
        Binary::BitXor => Ok(bit_xor(left, right)),
        Binary::BitOr => Ok(bit_or(left, right)),
        Binary::And => Ok(Value::truth(!left.is_zero() && !right.is_zero())),
        Binary::Or => Ok(Value::truth(!left.is_zero() || !right.is_zero())),
    }
}
