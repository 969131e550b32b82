//! Checks how deep an expression is nested.
ghost use Rattle.std.specs.Prelude.{◌≡◌, ◌↔◌, IsTrue, count_by};
ghost use Rattle.ppexpr.specs.Nesting.{is_question, is_sign, NestsParentheses, NestsSigns, IsTooNested};

use crate::symbols::Symbol;

/// The greatest depth of parentheses, and the greatest number of conditional operators and of consecutive signs.
pub(crate) const MOST_LEVELS: usize = 256;

/// Returns whether some prefix has more than `MOST_LEVELS` more `(` than `)`.
fn nests_parentheses(symbols: &[Symbol]) -> bool
    ensures { IsTrue result ↔ NestsParentheses symbols.now }
{
    let mut open: usize = 0;
    let mut close: usize = 0;
    for symbol in symbols {
        match symbol {
            Symbol::Open => open += 1,
            Symbol::Close => close += 1,
            _ => {}
        }
        if open.saturating_sub(close) > MOST_LEVELS {
            return true;
        }
    }
    false
}

/// Returns the number of conditional operators.
fn questions(symbols: &[Symbol]) -> usize
    ensures { result ≡ count_by is_question symbols.now }
{
    symbols
        .iter()
        .filter(|symbol| matches!(symbol, Symbol::Question))
        .count()
}

/// Returns whether a symbol is `+`, `-`, `~` or `!`.
fn is_sign(symbol: &Symbol) -> bool
    ensures { result ≡ is_sign symbol.now }
{
    match *symbol {
        Symbol::Operator(operator) => operator.unary().is_some(),
        _ => false,
    }
}

/// Returns whether there are more than 256 consecutive signs.
fn nests_signs(symbols: &[Symbol]) -> bool
    ensures { IsTrue result ↔ NestsSigns symbols.now }
{
    let mut signs: usize = 0;
    for symbol in symbols {
        if !is_sign(symbol) {
            signs = 0;
            continue;
        }
        signs += 1;
        if signs > MOST_LEVELS {
            return true;
        }
    }
    false
}

/// Returns whether an expression has parentheses nested more than 256 deep, more than 256 conditional operators, or more than 256
/// consecutive signs (`+`, `-`, `~`, `!`).
pub(crate) fn is_too_nested(symbols: &[Symbol]) -> bool
    ensures { IsTrue result ↔ IsTooNested symbols.now }
{
    // A list of at most 256 symbols cannot be nested too deep.
    if symbols.len() <= MOST_LEVELS {
        return false;
    }
    if nests_parentheses(symbols) {
        return true;
    }
    if questions(symbols) > MOST_LEVELS {
        return true;
    }
    nests_signs(symbols)
}
