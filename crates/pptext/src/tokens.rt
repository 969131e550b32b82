//! Locations, preprocessing tokens and faults.
//!
//! A spelling owns its bytes, so a token can be stored, copied and returned by itself. Up to 14 bytes are in the token,
//! which is enough for nearly all spellings: they allocate nothing, and copying them can't fail. A longer spelling is a
//! boxed vector: with the box, an owner of any length has the size of a short spelling. Contracts see only the list of
//! the bytes, so no caller depends on the two forms.
//!
//! The tests of a token and the constructors of a fault are defined here once. All crates use them, and their contracts
//! cite the predicates of `specs/Tokens.antt`.
ghost use Rattle.std.specs.Prelude.{◌≡◌, ◌<◌, ◌≤◌, List, ℕ, IfOk, IfSome, IfNone, OnErr, OnOk, length, take, [], ◌++◌, Some, None};
ghost use Rattle.std.specs.Str.{bytes_eq};
ghost use Rattle.pptext.specs.Tokens.{is_identifier, is_identifier_named, is_punct, is_unmatched_quote, fault};

use crate::sequences::Sequence;
use std::alloc::{AllocError, Global};
use std::marker::Model;

/// The maximum length of a spelling that is stored in the token itself. Nearly all spellings are this short.
const SHORT: usize = 14;

/// A location in a file: the file's number, the line from 1, and the byte in the line from 1.
#[derive(Clone, Copy, PartialEq, Eq, Debug)]
pub struct Place {
    /// The file's number.
    pub file: u32,
    /// The physical line, from 1.
    pub line: u32,
    /// The byte in the line, from 1.
    pub col: u32,
}

/// The kinds of preprocessing tokens (6.4).
#[derive(Clone, Copy, PartialEq, Eq, Debug)]
pub enum Kind {
    /// An identifier (6.4.2).
    Ident,
    /// A preprocessing number (6.4.8).
    Number,
    /// A character constant (6.4.4.4).
    CharConst,
    /// A string literal (6.4.5).
    Str,
    /// A punctuator (6.4.6).
    Punct,
    /// A header name (6.4.7).
    Header,
    /// Each other character that is no white space (6.4).
    Other,
}

/// The bytes of a spelling: a length and an array that begins with them, or all of them on the heap.
#[derive(Drop, Debug)]
enum Bytes {
    Short(u8, [u8; SHORT]),
    Long(Box<Vec<u8>>),
}

/// A spelling, which contracts see as the list of its bytes. A spelling of up to 14 bytes allocates nothing.
#[derive(Drop, Debug)]
pub struct Spelling {
    bytes: Bytes,
}

impl Model for Spelling {
    ghost use Rattle.std.specs.Prelude.{List, ℕ, ◌<◌, ◌≤◌, length, take};
    ghost use Rattle.pptext.specs.declared.tokens.Bytes.TheVariants.{Short, Long};

    ghost Value = { List ℕ };

    ghost view = { λ s. elim s.bytes [ Short n inline ↦ take n inline | Long v ↦ v.value.items ] };

    ghost invariant = { λ s. elim s.bytes [ Short n inline ↦ n ≤ 14 | Long v ↦ 14 < length v.value.items ] };
}

/// Copies at most 14 bytes into a spelling.
fn short(bytes: &[u8]) -> Spelling
    requires { length bytes.now ≤ 14 }
    ensures { result ≡ bytes.now }
{
    let mut inline = [0; SHORT];
    inline[..bytes.len()].copy_from_slice(bytes);
    Spelling {
        bytes: Bytes::Short(bytes.len() as u8, inline),
    }
}

impl Spelling {
    /// Creates a spelling of no bytes.
    pub fn empty() -> Spelling
        ensures { result ≡ [] }
    {
        Self {
            bytes: Bytes::Short(0, [0; SHORT]),
        }
    }

    /// Makes a spelling of these bytes.
    pub fn new(bytes: Vec<u8>) -> Result<Spelling, AllocError>
        ensures { IfOk result (λ s. s ≡ bytes.items) }
    {
        if bytes.len() <= SHORT {
            return Ok(short(bytes.as_slice()));
        }
        let bytes = Box::new(*bytes.allocator(), bytes)?;
        Ok(Self {
            bytes: Bytes::Long(bytes),
        })
    }

    /// Copies bytes into a spelling.
    pub fn from_slice(alloc: Global, bytes: &[u8]) -> Result<Spelling, AllocError>
        ensures { IfOk result (λ s. s ≡ bytes.now) }
    {
        if bytes.len() <= SHORT {
            return Ok(short(bytes));
        }
        Spelling::new(Vec::from_slice(alloc, bytes)?)
    }

    /// Copies the first n bytes of a text into a spelling, if it allocates nothing and the text has at least 14 bytes.
    #[inline(always)]
    pub(crate) fn prefix_in_place(text: &[u8], n: usize) -> Option<Spelling>
        requires { n ≤ length text.now }
        ensures { IfSome result (λ s. s ≡ take n text.now) }
    {
        if n > SHORT || text.len() < SHORT {
            return None;
        }
        // Bytes after the spelling are copied too: a copy of constant length is faster.
        let mut inline = [0; SHORT];
        inline.copy_from_slice(&text[..SHORT]);
        Some(Self {
            bytes: Bytes::Short(n as u8, inline),
        })
    }

    /// Copies the first n bytes of a text into a spelling.
    pub(crate) fn prefix(alloc: Global, text: &[u8], n: usize) -> Result<Spelling, AllocError>
        requires { n ≤ length text.now }
        ensures { IfOk result (λ s. s ≡ take n text.now) }
    {
        match Spelling::prefix_in_place(text, n) {
            Some(spelling) => Ok(spelling),
            None => Spelling::from_slice(alloc, &text[..n]),
        }
    }

    /// Appends bytes. A long spelling seldom moves as it grows. On an error the spelling is unchanged.
    pub fn extend(&mut self, alloc: Global, more: &[u8]) -> Result<(), AllocError>
        ensures ok { OnOk result (self.new ≡ self.old ++ more.now) }
        ensures err { OnErr result (self.new ≡ self.old) }
    {
        if let Bytes::Long(bytes) = &mut self.bytes {
            bytes.extend_from_slice(more)?;
            return Ok(());
        }
        let mut text = Vec::from_slice(alloc, self.as_bytes())?;
        text.extend_from_slice(more)?;
        *self = Spelling::new(text)?;
        Ok(())
    }

    /// Returns the bytes.
    pub fn as_bytes(&self) -> &[u8]
        ensures { result.now ≡ self.now }
    {
        match &self.bytes {
            Bytes::Short(len, inline) => &inline[..*len as usize],
            Bytes::Long(bytes) => bytes.as_slice(),
        }
    }

    /// Returns the array in the value itself, which begins with the spelling, and the spelling's length. Returns None
    /// if the spelling is longer than 14 bytes and is on the heap.
    pub fn in_place(&self) -> Option<(&[u8; 14], usize)>
        ensures some { IfSome result (λ inline. (inline.1 ≤ 14) × (take inline.1 inline.0.now ≡ self.now)) }
        ensures none { IfNone result (14 < length self.now) }
    {
        match &self.bytes {
            Bytes::Short(len, inline) => Some((inline, *len as usize)),
            Bytes::Long(_) => None,
        }
    }
}

impl Clone for Spelling {
    ghost is_clone = { λ a b. b ≡ a };

    fn clone(&self) -> Result<Spelling, AllocError> {
        match &self.bytes {
            Bytes::Short(len, inline) => Ok(Self {
                bytes: Bytes::Short(*len, *inline),
            }),
            Bytes::Long(bytes) => Spelling::from_slice(*bytes.allocator(), bytes.as_slice()),
        }
    }
}

impl PartialEq for Spelling {
    ghost use Rattle.std.specs.Cmp as Cmp;
    ghost use Rattle.std.specs.Cmp.Lexicographic.{nat_list_eq_equiv};

    ghost eq = { bytes_eq };

    ghost laws = { Cmp.partial_equiv_from_equiv nat_list_eq_equiv };

    fn eq(&self, other: &Spelling) -> bool {
        self.as_bytes() == other.as_bytes()
    }
}

impl Eq for Spelling {
    ghost use Rattle.std.specs.Cmp.Lexicographic.{nat_list_eq_equiv};

    ghost laws = { nat_list_eq_equiv };
}

/// Returns whether the bytes are equal to this text.
#[inline]
pub(crate) fn is_spelled(bytes: &[u8], text: &[u8]) -> bool
    ensures { result ≡ bytes_eq bytes.now text.now }
{
    bytes == text
}

/// A preprocessing token.
#[derive(Clone, PartialEq, Eq, Drop, Debug)]
pub struct Token {
    /// Its spelling.
    pub text: Spelling,
    /// Its spelling location.
    pub at: Place,
    /// Its expansion location. For a token that a macro's replacement made, it is the location of the macro's name.
    pub used: Place,
    /// Its kind.
    pub kind: Kind,
    /// Its leading-space flag: whether white space or the beginning of a line precedes it.
    pub space: bool,
}

impl Token {
    /// Returns whether it is an identifier.
    pub fn is_identifier(&self) -> bool
        ensures { result ≡ is_identifier self.now }
    {
        matches!(self.kind, Kind::Ident)
    }

    /// Returns whether it is the identifier with this spelling.
    pub fn is_identifier_named(&self, text: &[u8]) -> bool
        ensures { result ≡ is_identifier_named text.now self.now }
    {
        self.is_identifier() && self.text.as_bytes() == text
    }

    /// Returns whether it is the punctuator with this spelling.
    pub fn is_punct(&self, text: &[u8]) -> bool
        ensures { result ≡ is_punct text.now self.now }
    {
        matches!(self.kind, Kind::Punct) && self.text.as_bytes() == text
    }

    /// Returns whether it is an unmatched `'` or `"` (6.4p3).
    pub fn is_unmatched_quote(&self) -> bool
        ensures { result ≡ is_unmatched_quote self.now }
    {
        matches!(self.kind, Kind::Other)
            && (is_spelled(self.text.as_bytes(), b"'") || is_spelled(self.text.as_bytes(), b"\""))
    }
}

/// A fault of a file or a unit.
#[derive(Clone, PartialEq, Eq, Drop, Debug)]
pub struct Fault {
    /// Its number.
    pub number: u8,
    /// Its location.
    pub at: Place,
    /// The name or spelling that it is about, or a message. May be empty.
    pub text: Spelling,
}

impl Fault {
    /// Makes the fault with this number, location and text.
    pub fn new(alloc: Global, number: u8, at: Place, text: &[u8]) -> Result<Fault, AllocError>
        ensures { IfOk result (λ f. f ≡ fault number at text.now) }
    {
        Ok(Fault {
            number,
            at,
            text: Spelling::from_slice(alloc, text)?,
        })
    }

    /// Makes the fault with this number and location, and an empty text. Allocates nothing.
    pub fn bare(number: u8, at: Place) -> Fault
        ensures { result ≡ fault number at [] }
    {
        Fault {
            number,
            at,
            text: Spelling::empty(),
        }
    }

    /// Makes the fault with this number and location, whose text is the spelling of a token.
    pub fn of_token(number: u8, at: Place, token: &Token) -> Result<Fault, AllocError>
        ensures { IfOk result (λ f. f ≡ fault number at token.now.text) }
    {
        Ok(Fault {
            number,
            at,
            text: token.text.clone()?,
        })
    }
}

/// A sequence of tokens, which contracts see as their list.
pub type Tokens = Sequence<Token>;
