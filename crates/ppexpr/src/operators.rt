//! The operators of controlling expressions, in one table: the spelling, the unary operator, and the binary operator with its level.
//!
//! A token's operator is known by its spelling alone, so `+` is one `Operator` whether it has one operand or two. The parser knows which of the
//! two it reads, and asks for the `Unary` or the `Infix` there. `Operator` is the key of the table, and a fault prints its spelling.
//!
//! The table is a function of the operator and no array, because a match needs no bound on an index. The search by spelling is a match, too, and
//! its contract cites the table.
ghost use Rattle.std.specs.Prelude.{◌≡◌, ◌∷◌, [], Some, None};
ghost use Rattle.ppexpr.specs.Operators as specification;

/// An operator by its spelling (6.4.6). `+` and `-` are unary or binary.
#[derive(Clone, Copy)]
pub(crate) enum Operator {
    Plus,
    Minus,
    Tilde,
    Bang,
    Star,
    Slash,
    Percent,
    ShiftLeft,
    ShiftRight,
    Less,
    Greater,
    LessOrEqual,
    GreaterOrEqual,
    Equal,
    NotEqual,
    Ampersand,
    Caret,
    Bar,
    And,
    Or,
}

/// A unary operator (6.5.3.3).
#[derive(Clone, Copy)]
pub(crate) enum Unary {
    Plus,
    Minus,
    Complement,
    Not,
}

/// A binary operator (6.5.5 to 6.5.14).
#[derive(Clone, Copy)]
pub(crate) enum Binary {
    Multiply,
    Divide,
    Remainder,
    Add,
    Subtract,
    ShiftLeft,
    ShiftRight,
    Less,
    Greater,
    LessOrEqual,
    GreaterOrEqual,
    Equal,
    NotEqual,
    BitAnd,
    BitXor,
    BitOr,
    And,
    Or,
}

/// A binary operator with the level of an expression with it: from 2 for `||` to 11 for `*`.
#[derive(Clone, Copy)]
pub(crate) struct Infix {
    pub(crate) operation: Binary,
    pub(crate) level: u8,
}

/// A row of the table: what an operator is before an operand, and between operands.
#[derive(Clone, Copy)]
struct Row {
    spelling: &'static [u8],
    unary: Option<Unary>,
    binary: Option<Infix>,
}

/// Creates the row of an operator that is only unary.
fn unary_row(spelling: &'static [u8], unary: Unary) -> Row
    ensures spelling { result.spelling.now ≡ spelling.now }
    ensures unary { result.unary ≡ Some unary }
    ensures binary { result.binary ≡ None }
{
    Row {
        spelling,
        unary: Some(unary),
        binary: None,
    }
}

/// Creates the row of an operator that is only binary.
fn binary_row(spelling: &'static [u8], operation: Binary, level: u8) -> Row
    ensures spelling { result.spelling.now ≡ spelling.now }
    ensures unary { result.unary ≡ None }
    ensures binary { result.binary ≡ Some (record { operation = operation; level = level }) }
{
    Row {
        spelling,
        unary: None,
        binary: Some(Infix { operation, level }),
    }
}

/// Creates the row of an operator that is unary or binary.
fn either_row(spelling: &'static [u8], unary: Unary, operation: Binary, level: u8) -> Row
    ensures spelling { result.spelling.now ≡ spelling.now }
    ensures unary { result.unary ≡ Some unary }
    ensures binary { result.binary ≡ Some (record { operation = operation; level = level }) }
{
    Row {
        spelling,
        unary: Some(unary),
        binary: Some(Infix { operation, level }),
    }
}

impl Operator {
    /// Returns the row of the table (6.4.6, 6.5.3.3, 6.5.5 to 6.5.14).
    fn row(self) -> Row
        ensures spelling { result.spelling.now ≡ specification.spelling_of self }
        ensures unary { result.unary ≡ specification.unary_of self }
        ensures binary { result.binary ≡ specification.binary_of self }
    {
        match self {
            Operator::Plus => either_row(b"+", Unary::Plus, Binary::Add, 10),
            Operator::Minus => either_row(b"-", Unary::Minus, Binary::Subtract, 10),
            Operator::Tilde => unary_row(b"~", Unary::Complement),
            Operator::Bang => unary_row(b"!", Unary::Not),
            Operator::Star => binary_row(b"*", Binary::Multiply, 11),
            Operator::Slash => binary_row(b"/", Binary::Divide, 11),
            Operator::Percent => binary_row(b"%", Binary::Remainder, 11),
            Operator::ShiftLeft => binary_row(b"<<", Binary::ShiftLeft, 9),
            Operator::ShiftRight => binary_row(b">>", Binary::ShiftRight, 9),
            Operator::Less => binary_row(b"<", Binary::Less, 8),
            Operator::Greater => binary_row(b">", Binary::Greater, 8),
            Operator::LessOrEqual => binary_row(b"<=", Binary::LessOrEqual, 8),
            Operator::GreaterOrEqual => binary_row(b">=", Binary::GreaterOrEqual, 8),
            Operator::Equal => binary_row(b"==", Binary::Equal, 7),
            Operator::NotEqual => binary_row(b"!=", Binary::NotEqual, 7),
            Operator::Ampersand => binary_row(b"&", Binary::BitAnd, 6),
            Operator::Caret => binary_row(b"^", Binary::BitXor, 5),
            Operator::Bar => binary_row(b"|", Binary::BitOr, 4),
            Operator::And => binary_row(b"&&", Binary::And, 3),
            Operator::Or => binary_row(b"||", Binary::Or, 2),
        }
    }

    /// Returns the operator with this spelling, if there is one.
    pub(crate) fn of_spelling(text: &[u8]) -> Option<Operator>
        ensures { result ≡ specification.operator_of text.now }
    {
        match text {
            [byte] => Operator::of_byte(*byte),
            [first, second] => Operator::of_bytes(*first, *second),
            _ => None,
        }
    }

    /// Returns the operator whose spelling is one byte.
    fn of_byte(byte: u8) -> Option<Operator>
        ensures { result ≡ specification.operator_of (byte ∷ []) }
    {
        match byte {
            b'+' => Some(Operator::Plus),
            b'-' => Some(Operator::Minus),
            b'~' => Some(Operator::Tilde),
            b'!' => Some(Operator::Bang),
            b'*' => Some(Operator::Star),
            b'/' => Some(Operator::Slash),
            b'%' => Some(Operator::Percent),
            b'<' => Some(Operator::Less),
            b'>' => Some(Operator::Greater),
            b'&' => Some(Operator::Ampersand),
            b'^' => Some(Operator::Caret),
            b'|' => Some(Operator::Bar),
            _ => None,
        }
    }

    /// Returns the operator whose spelling is these two bytes.
    fn of_bytes(first: u8, second: u8) -> Option<Operator>
        ensures { result ≡ specification.operator_of (first ∷ second ∷ []) }
    {
        match (first, second) {
            (b'<', b'<') => Some(Operator::ShiftLeft),
            (b'>', b'>') => Some(Operator::ShiftRight),
            (b'<', b'=') => Some(Operator::LessOrEqual),
            (b'>', b'=') => Some(Operator::GreaterOrEqual),
            (b'=', b'=') => Some(Operator::Equal),
            (b'!', b'=') => Some(Operator::NotEqual),
            (b'&', b'&') => Some(Operator::And),
            (b'|', b'|') => Some(Operator::Or),
            _ => None,
        }
    }

    /// Returns the spelling (6.4.6).
    pub(crate) fn spelling(self) -> &'static [u8]
        ensures { result.now ≡ specification.spelling_of self }
    {
        self.row().spelling
    }

    /// Returns the unary operator with this spelling (6.5.3.3), if there is one.
    pub(crate) fn unary(self) -> Option<Unary>
        ensures { result ≡ specification.unary_of self }
    {
        self.row().unary
    }

    /// Returns the binary operator with this spelling (6.5.5 to 6.5.14), if there is one.
    pub(crate) fn binary(self) -> Option<Infix>
        ensures { result ≡ specification.binary_of self }
    {
        self.row().binary
    }
}
