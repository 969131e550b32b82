//! Slices of an expanded list, and the tokens in them one by one, borrowed as they are stored.
//!
//! Tokens are stored in two forms, as tokens of a file and as tokens with hide sets, so there are two kinds of borrowed tokens and slices
//! (`TokenRef`, `TokenSlice`). The model of the iterator is the list of tokens that it has still to yield. So the contract of `next` only says
//! that it removes the first token of that list.
ghost use Rattle.std.specs.Prelude.{◌≡◌, ◌<◌, ◌≤◌, ◌++◌, [], true, false, length, take, drop, flat_map, IfOk};
ghost use Rattle.std.specs.Iterator.{YieldsFirstBy, item_count};
ghost use Rattle.ppmacro.specs.Substituting.{tokens_of};
ghost use Rattle.ppexpand.specs.Slices.{slice_tokens, ref_token, piece_list, YieldsSlice};

use crate::emitted::Piece;
use ppmacro::Hidden;
use pptext::{Kind, Memory, Place, Token};
use std::marker::Model;

/// A borrowed token of an expanded list: a token of a file, or a token with a hide set.
#[derive(Clone, Copy)]
pub enum TokenRef<'r, 'a> {
    /// A token of a file.
    InFile(&'a Token),
    /// A token with a hide set.
    Hidden(&'r Hidden<'a>),
}

impl<'r, 'a> TokenRef<'r, 'a> {
    /// Returns the kind (6.4).
    pub fn kind(&self) -> Kind
        ensures { result ≡ (ref_token self.now).kind }
    {
        match self {
            TokenRef::InFile(token) => token.kind,
            TokenRef::Hidden(hidden) => hidden.kind(),
        }
    }

    /// Returns the bytes of the spelling.
    pub fn text(&self) -> &[u8]
        ensures { result.now ≡ (ref_token self.now).text }
    {
        match self {
            TokenRef::InFile(token) => token.text.as_bytes(),
            TokenRef::Hidden(hidden) => hidden.text(),
        }
    }

    /// Returns the spelling location.
    pub fn at(&self) -> Place
        ensures { result ≡ (ref_token self.now).at }
    {
        match self {
            TokenRef::InFile(token) => token.at,
            TokenRef::Hidden(hidden) => hidden.at(),
        }
    }

    /// Returns the expansion location.
    pub fn used(&self) -> Place
        ensures { result ≡ (ref_token self.now).used }
    {
        match self {
            TokenRef::InFile(token) => token.used,
            TokenRef::Hidden(hidden) => hidden.used(),
        }
    }

    /// Returns the leading-space flag: whether the token follows white space or begins a line.
    pub fn space(&self) -> bool
        ensures { result ≡ (ref_token self.now).space }
    {
        match self {
            TokenRef::InFile(token) => token.space,
            TokenRef::Hidden(hidden) => hidden.space(),
        }
    }

    /// Returns a copy of the token. Fails only if an allocation fails.
    pub fn to_token(&self) -> Result<Token, Memory>
        ensures { IfOk result (λ t. t ≡ ref_token self.now) }
    {
        match self {
            TokenRef::InFile(token) => (*token).clone(),
            TokenRef::Hidden(hidden) => hidden.to_token(),
        }
    }
}

/// Consecutive tokens of an expanded list, borrowed as they are stored.
#[derive(Clone, Copy)]
pub enum TokenSlice<'r, 'a> {
    /// Tokens of a file.
    InFile(&'a [Token]),
    /// Tokens with hide sets.
    Hidden(&'r [Hidden<'a>]),
}

impl<'r, 'a> TokenSlice<'r, 'a> {
    /// Returns an iterator over the tokens.
    pub fn iter(self) -> SliceIter<'r, 'a>
        ensures { result ≡ slice_tokens self.entry }
    {
        SliceIter { rest: self }
    }

    /// Returns the number of tokens.
    pub fn len(self) -> usize
        ensures { result ≡ length (slice_tokens self.entry) }
    {
        match self {
            TokenSlice::InFile(tokens) => tokens.len(),
            TokenSlice::Hidden(tokens) => tokens.len(),
        }
    }

    /// Returns whether there are no tokens.
    pub fn is_empty(self) -> bool
        ensures yes { result ≡ true → slice_tokens self.entry ≡ [] }
        ensures no { result ≡ false → 0 < length (slice_tokens self.entry) }
    {
        match self {
            TokenSlice::InFile(tokens) => tokens.is_empty(),
            TokenSlice::Hidden(tokens) => tokens.is_empty(),
        }
    }

    /// Returns the first `count` tokens, and the others.
    pub fn split_at(self, count: usize) -> (TokenSlice<'r, 'a>, TokenSlice<'r, 'a>)
        requires { count ≤ length (slice_tokens self) }
        ensures first { slice_tokens result.0 ≡ take count (slice_tokens self.entry) }
        ensures others { slice_tokens result.1 ≡ drop count (slice_tokens self.entry) }
    {
        match self {
            TokenSlice::InFile(tokens) => {
                let (first, others) = tokens.split_at(count);
                (TokenSlice::InFile(first), TokenSlice::InFile(others))
            }
            TokenSlice::Hidden(tokens) => {
                let (first, others) = tokens.split_at(count);
                (TokenSlice::Hidden(first), TokenSlice::Hidden(others))
            }
        }
    }
}

/// Iterates over the tokens of a slice. Contracts see the list of the remaining tokens.
#[derive(Drop)]
pub struct SliceIter<'r, 'a> {
    rest: TokenSlice<'r, 'a>,
}

impl<'r, 'a> Model for SliceIter<'r, 'a> {
    ghost use Rattle.std.specs.Prelude.{List};
    ghost use Rattle.pptext.specs.declared.tokens.Token.{Token};
    ghost use Rattle.ppexpand.specs.Slices.{slice_tokens};

    ghost Value = { List Token };

    ghost view = { λ i. slice_tokens i.rest };
}

impl<'r, 'a> Iterator for SliceIter<'r, 'a> {
    type Item = TokenRef<'r, 'a>;

    ghost next_gives = { YieldsFirstBy ref_token (λ rest. rest) };

    ghost remaining = { item_count (λ rest. rest) };

    fn next(&mut self) -> Option<TokenRef<'r, 'a>> {
        match self.rest {
            TokenSlice::InFile(tokens) => {
                let (first, others) = tokens.split_first()?;
                self.rest = TokenSlice::InFile(others);
                Some(TokenRef::InFile(first))
            }
            TokenSlice::Hidden(tokens) => {
                let (first, others) = tokens.split_first()?;
                self.rest = TokenSlice::Hidden(others);
                Some(TokenRef::Hidden(first))
            }
        }
    }
}

/// Iterates in order over nonempty slices of the emitted tokens of an expansion, without a copy. Contracts see the list of the tokens in the
/// remaining slices.
#[derive(Drop)]
pub struct Slices<'r, 'a> {
    pieces: &'r [Piece<'a>],
    /// The tokens after the last piece.
    last: &'r [Hidden<'a>],
}

impl<'r, 'a> Model for Slices<'r, 'a> {
    ghost use Rattle.std.specs.Prelude.{List, flat_map, ◌++◌};
    ghost use Rattle.pptext.specs.declared.tokens.Token.{Token};
    ghost use Rattle.ppmacro.specs.Substituting.{tokens_of};

    ghost Value = { List Token };

    ghost use Rattle.ppexpand.specs.Slices.{piece_list};

    ghost view = { λ s. tokens_of (flat_map piece_list s.pieces.now ++ s.last.now) };
}

impl<'r, 'a> Slices<'r, 'a> {
    /// Creates an iterator over pieces and the tokens after them.
    pub(crate) fn new(pieces: &'r [Piece<'a>], last: &'r [Hidden<'a>]) -> Slices<'r, 'a>
        ensures { result ≡ tokens_of (flat_map piece_list pieces.now ++ last.now) }
    {
        Slices { pieces, last }
    }
}

impl<'r, 'a> Iterator for Slices<'r, 'a> {
    type Item = TokenSlice<'r, 'a>;

    ghost next_gives = { YieldsSlice slice_tokens };

    ghost remaining = { item_count (λ rest. rest) };

    fn next(&mut self) -> Option<TokenSlice<'r, 'a>> {
        while let Some((piece, pieces)) = self.pieces.split_first() {
            *self = Slices {
                pieces,
                last: self.last,
            };
            let slice = piece.tokens();
            if !slice.is_empty() {
                return Some(slice);
            }
        }
        let (last, none) = self.last.split_at(self.last.len());
        if last.is_empty() {
            return None;
        }
        *self = Slices {
            pieces: self.pieces,
            last: none,
        };
        Some(TokenSlice::Hidden(last))
    }
}
