//! The symbols of a controlling expression (6.10.1), values, and what an expression evaluates to.
//!
//! Specifications cite these types as they are. A number is an `i64` or a `u64` and no `i128`, because `intmax_t` and `uintmax_t` have 64 bits and
//! wrap or overflow there.
//!
//! An expression has a type even if it has no value, because an operand that is not evaluated contributes its type (6.5.15p5). So an `Evaluation`
//! is the type beside a `Result`, and the first failure stays in it until the whole expression is read: `0 && 1 / 0` has a value.

use crate::operators::Operator;

/// An integer as `intmax_t` or `uintmax_t` of 64 bits (6.10.1p4).
#[derive(Clone, Copy)]
pub(crate) enum Value {
    Signed(i64),
    Unsigned(u64),
}

/// A token of an expression, with identifiers and constants as numbers.
#[derive(Clone, Copy)]
pub(crate) enum Symbol {
    Constant(Value),
    Operator(Operator),
    Open,
    Close,
    Question,
    Colon,
    /// Any token that no expression contains.
    Other,
}

/// Why an expression has no value: the fault, and the operator at which it occurs.
#[derive(Clone, Copy)]
pub(crate) enum Failure {
    /// 26: a divisor is 0.
    ZeroDivisor(Operator),
    /// 27: a signed result is out of range.
    Overflow(Operator),
    /// 28: a shift amount is out of range, or a left shift is of a negative value or makes a signed value too large (6.5.7p3, p4).
    Shift(Operator),
}

/// What an expression evaluates to: its type, which it has even without a value, and its value or the first failure.
#[derive(Clone, Copy)]
pub(crate) struct Evaluation {
    pub(crate) unsigned: bool,
    pub(crate) value: Result<Value, Failure>,
}
