//! The emitted tokens of an expansion.
//!
//! Most tokens are emitted unchanged, many at a time. So the output is a list of pieces: a span borrows tokens of the file, and a vector
//! has tokens that were emitted one by one. A short span is copied to the vector instead, since a piece costs more than a few copies.
//! While a list is expanded, tokens are only appended. Whoever keeps them takes the pieces: their vectors have no unused capacity, and the
//! vector for the next tokens stays.
//! Contracts see the tokens as one list, and say nothing of its pieces.
ghost use Rattle.std.specs.Prelude.{◌≡◌, ◌∷◌, ◌++◌, [], flat_map, true, IfOk, OnOk};
ghost use Rattle.ppexpand.specs.Slices.{piece_list, slice_tokens};
ghost use Rattle.ppmacro.specs.Substituting.{tokens_of};

use crate::token_slice::{Slices, TokenSlice};
use crate::token_span::TokenSpan;
use ppmacro::Hidden;
use pptext::{Memory, push};
use std::alloc::Global;
use std::marker::Model;
use std::mem;

/// The largest number of tokens of a span that are copied. A longer span becomes a piece, and the tokens after it need a new vector.
const MAX_COPIED: usize = 12;

/// The capacity, in tokens, above which a vector is not kept for later tokens.
pub(crate) const MOST_KEPT: usize = 4096;

/// A piece of the emitted tokens: a span of a file, or tokens that were emitted one by one.
#[derive(Drop)]
pub enum Piece<'a> {
    /// A span of a file.
    Span(TokenSpan<'a>),
    /// Tokens that were emitted one by one.
    Singles(Vec<Hidden<'a>>),
}

impl<'a> Piece<'a> {
    /// Returns the tokens.
    pub fn tokens(&self) -> TokenSlice<'_, 'a>
        ensures { slice_tokens result ≡ tokens_of (piece_list self.now) }
    {
        match self {
            Piece::Span(span) => TokenSlice::InFile(span.tokens()),
            Piece::Singles(singles) => TokenSlice::Hidden(singles.as_slice()),
        }
    }
}

/// The emitted tokens: pieces, then the tokens that were emitted one by one since the last piece. Contracts see them as one list.
#[derive(Drop)]
pub(crate) struct Emitted<'a> {
    pieces: Vec<Piece<'a>>,
    singles: Vec<Hidden<'a>>,
}

impl<'a> Model for Emitted<'a> {
    ghost use Rattle.std.specs.Prelude.{List, flat_map, ◌++◌};
    ghost use Rattle.ppmacro.specs.declared.hidden_token.Hidden.{Hidden};

    ghost Value = { List Hidden };

    ghost use Rattle.ppexpand.specs.Slices.{piece_list};

    ghost view = { λ p. flat_map piece_list p.pieces.items ++ p.singles.items };
}

/// Moves tokens to a vector without spare capacity. The old vector keeps its capacity for the tokens that follow, unless it is large.
fn exact_vec<'a>(singles: &mut Vec<Hidden<'a>>) -> Result<Vec<Hidden<'a>>, Memory>
    ensures same { IfOk result (λ v. v.items ≡ singles.old.items) }
    ensures none { OnOk result (singles.new.items ≡ []) }
{
    if singles.capacity() > MOST_KEPT {
        let mut large = mem::replace(singles, Vec::new(*singles.allocator()));
        large.shrink_to_fit();
        return Ok(large);
    }
    let mut exact_vec = Vec::with_capacity(*singles.allocator(), singles.len())?;
    exact_vec.append(singles)?;
    Ok(exact_vec)
}

/// Turns the tokens that were emitted one by one into a piece, if there are any.
fn end_piece<'a>(pieces: &mut Vec<Piece<'a>>, singles: &mut Vec<Hidden<'a>>) -> Result<(), Memory>
    ensures same { OnOk result (flat_map piece_list pieces.new.items ≡ flat_map piece_list pieces.old.items ++ singles.old.items) }
    ensures closed { OnOk result (singles.new.items ≡ []) }
{
    if singles.is_empty() {
        return Ok(());
    }
    push(pieces, Piece::Singles(exact_vec(singles)?))
}

impl<'a> Emitted<'a> {
    /// Creates an empty list.
    pub(crate) fn new(alloc: Global) -> Emitted<'a>
        ensures { result ≡ [] }
    {
        Emitted {
            pieces: Vec::new(alloc),
            singles: Vec::new(alloc),
        }
    }

    /// Creates an empty list, which uses the memory of this vector.
    pub(crate) fn over(singles: Vec<Hidden<'a>>) -> Emitted<'a>
        ensures { result ≡ [] }
    {
        let mut singles = singles;
        singles.clear();
        Emitted {
            pieces: Vec::new(*singles.allocator()),
            singles,
        }
    }

    /// Removes all tokens.
    pub(crate) fn clear(&mut self)
        ensures { self.new ≡ [] }
    {
        self.pieces.clear();
        self.singles.clear();
    }

    /// Appends a span of a file.
    pub(crate) fn extend(&mut self, span: TokenSpan<'a>) -> Result<(), Memory>
        ensures { OnOk result (self.new ≡ self.old ++ span.entry) }
    {
        if span.len() <= MAX_COPIED {
            return push_span(&mut self.singles, span);
        }
        end_piece(&mut self.pieces, &mut self.singles)?;
        push(&mut self.pieces, Piece::Span(span))
    }

    /// Appends a token.
    #[inline(always)]
    pub(crate) fn push_single(&mut self, hidden: Hidden<'a>) -> Result<(), Memory>
        ensures { OnOk result (self.new ≡ self.old ++ hidden.entry ∷ []) }
    {
        push(&mut self.singles, hidden)
    }

    /// Returns the number of tokens that were emitted one by one since the last piece.
    pub(crate) fn singles_len(&self) -> usize {
        self.singles.len()
    }

    /// Removes all tokens, and returns their pieces in order.
    pub(crate) fn take_pieces(&mut self) -> Result<Vec<Piece<'a>>, Memory>
        ensures same { IfOk result (λ v. flat_map piece_list v.items ≡ self.old) }
        ensures none { OnOk result (self.new ≡ []) }
    {
        end_piece(&mut self.pieces, &mut self.singles)?;
        let alloc = *self.pieces.allocator();
        Ok(mem::replace(&mut self.pieces, Vec::new(alloc)))
    }

    /// Returns an iterator over slices of the tokens, in order.
    pub(crate) fn slices(&self) -> Slices<'_, 'a>
        ensures { result ≡ tokens_of self.now }
    {
        Slices::new(self.pieces.as_slice(), self.singles.as_slice())
    }

    /// Returns true only if no tokens were emitted.
    pub(crate) fn is_empty(&self) -> bool
        ensures { result ≡ true → self.now ≡ [] }
    {
        self.pieces.is_empty() && self.singles.is_empty()
    }

    /// Returns the tokens as one vector.
    #[inline(never)]
    pub(crate) fn into_vec(self, alloc: Global) -> Result<Vec<Hidden<'a>>, Memory>
        ensures { IfOk result (λ v. v.items ≡ self.entry) }
    {
        let Emitted { pieces, singles } = self;
        if pieces.is_empty() {
            return Ok(singles);
        }
        let mut tokens = Vec::new(alloc);
        for piece in pieces {
            push_piece(&mut tokens, piece)?;
        }
        push_all(&mut tokens, singles)?;
        Ok(tokens)
    }
}

/// Appends tokens.
fn push_all<'a>(tokens: &mut Vec<Hidden<'a>>, more: Vec<Hidden<'a>>) -> Result<(), Memory>
    ensures { OnOk result (tokens.new.items ≡ tokens.old.items ++ more.entry.items) }
{
    let mut more = more;
    tokens.append(&mut more)?;
    Ok(())
}

/// Appends the tokens of a span.
fn push_span<'a>(tokens: &mut Vec<Hidden<'a>>, span: TokenSpan<'a>) -> Result<(), Memory>
    ensures { OnOk result (tokens.new.items ≡ tokens.old.items ++ span.entry) }
{
    let mut span = span;
    while let Some(hidden) = span.next() {
        push(tokens, hidden)?;
    }
    Ok(())
}

/// Appends the tokens of a piece.
fn push_piece<'a>(tokens: &mut Vec<Hidden<'a>>, piece: Piece<'a>) -> Result<(), Memory>
    ensures { OnOk result (tokens.new.items ≡ tokens.old.items ++ piece_list piece.entry) }
{
    match piece {
        Piece::Span(span) => push_span(tokens, span),
        Piece::Singles(singles) => push_all(tokens, singles),
    }
}
