//! File indices and items. Their models are lists.
ghost use Rattle.ppunit.specs.BorrowedItems.{ref_item};
ghost use Rattle.ppunit.specs.States.{kept};
ghost use Rattle.ppunit.specs.code.Chunks.{chunk_items};
ghost use Rattle.ppmacro.specs.Substituting.{tokens_of};
ghost use Rattle.ppexpand.specs.Slices.{piece_list, slice_tokens};
ghost use Rattle.std.specs.Prelude.{flat_map, ◌≡◌, map, IfOk, OnOk, ◌++◌, ◌∷◌, []};
ghost use Rattle.ppunit.specs.declared.units.Item.TheVariants as item;
ghost use Rattle.ppunit.specs.Dependencies.{has_row, with_row};

use crate::items::ItemRef;
use crate::units::{Item, Mark};
use indexmap::IndexSet;
use ppexpand::{Piece, Scratch, TokenSlice};
use ppmacro::Hidden;
use pptext::{Memory, Place, Token};
use std::alloc::Global;
use std::marker::Model;

/// A set of file indices in insertion order. Its model is their list.
#[derive(Drop)]
pub struct Rows {
    rows: IndexSet<usize>,
}

impl Model for Rows {
    ghost use Rattle.std.specs.Prelude.{ℕ, List};

    ghost Value = { List ℕ };

    ghost view = { λ r. r.rows.keys };
}

impl Rows {
    /// Creates an empty set.
    pub fn new(alloc: Global) -> Rows
        ensures { result ≡ [] }
    {
        Rows {
            rows: IndexSet::new(alloc),
        }
    }

    /// Returns whether the set has the index.
    pub(crate) fn contains(&self, row: usize) -> bool
        ensures { result ≡ has_row row self.now }
    {
        self.rows.contains(&row)
    }

    /// Inserts an index, unless the set has it. Fails if an allocation fails.
    pub fn join(&mut self, row: usize) -> Result<(), Memory>
        ensures { OnOk result (self.new ≡ with_row row self.old) }
    {
        match self.rows.insert(row) {
            Ok(_) => Ok(()),
            Err(_) => Err(Memory),
        }
    }

    /// Borrows the indices, in insertion order.
    pub fn as_slice(&self) -> &[usize]
        ensures { result.now ≡ self.now }
    {
        self.rows.as_slice()
    }
}

/// A chunk of the items: consecutive tokens of a file, tokens that were emitted one by one, a pragma with its location and its
/// tokens, which are those of the file or were expanded, or a mark.
#[derive(Drop)]
pub(crate) enum Chunk<'a> {
    InFile(&'a [Token]),
    Singles(Vec<Hidden<'a>>),
    Pragma(Place, &'a [Token]),
    Expanded(Place, Vec<Token>),
    Mark(Mark),
}

/// The items of a unit's output. Its model is their list.
#[derive(Drop)]
pub struct Items<'a> {
    chunks: Vec<Chunk<'a>>,
}

impl<'a> Model for Items<'a> {
    ghost use Rattle.std.specs.Prelude.{List, flat_map};
    ghost use Rattle.ppunit.specs.declared.units.Item.{Item};

    ghost Value = { List Item };

    ghost use Rattle.ppunit.specs.code.Chunks.{chunk_items};

    ghost view = { λ s. flat_map chunk_items s.chunks.items };
}

impl<'a> Items<'a> {
    /// Creates an empty list.
    pub fn new(alloc: Global) -> Items<'a>
        ensures { result ≡ [] }
    {
        Items {
            chunks: Vec::new(alloc),
        }
    }

    /// Frees the unused capacity: items are kept until all units are done.
    pub(crate) fn trim(self) -> Items<'a>
        ensures { result ≡ self.entry }
    {
        let mut chunks = self.chunks;
        chunks.shrink_to_fit();
        Items { chunks }
    }

    /// Borrows the chunks.
    pub(crate) fn chunks(&self) -> &[Chunk<'a>]
        ensures { flat_map chunk_items result.now ≡ self.now }
    {
        self.chunks.as_slice()
    }

    /// Copies the items into one vector. Fails if an allocation fails.
    pub fn to_vec(&self, alloc: Global) -> Result<Vec<Item>, Memory>
        ensures { IfOk result (λ v. v.items ≡ self.now) }
    {
        let mut items = Vec::new(alloc);
        for chunk in &self.chunks {
            copy_chunk(alloc, &mut items, chunk)?;
        }
        Ok(items)
    }

    /// Appends a pragma.
    pub(crate) fn push_pragma(&mut self, at: Place, tokens: &'a [Token]) -> Result<(), Memory>
        ensures { OnOk result (self.new ≡ self.old ++ item.Pragma at tokens.now ∷ []) }
    {
        self.chunks.push(Chunk::Pragma(at, tokens))?;
        Ok(())
    }

    /// Appends a pragma whose tokens were expanded.
    pub(crate) fn push_expanded(&mut self, at: Place, tokens: Vec<Token>) -> Result<(), Memory>
        ensures { OnOk result (self.new ≡ self.old ++ item.Pragma at tokens.items ∷ []) }
    {
        self.chunks.push(Chunk::Expanded(at, tokens))?;
        Ok(())
    }

    /// Appends a mark.
    pub(crate) fn push_mark(&mut self, mark: Mark) -> Result<(), Memory>
        ensures { OnOk result (self.new ≡ self.old ++ item.Mark mark ∷ []) }
    {
        self.chunks.push(Chunk::Mark(mark))?;
        Ok(())
    }

    /// Appends tokens of a file, if there are any.
    fn push_in_file(&mut self, tokens: &'a [Token]) -> Result<(), Memory>
        ensures { OnOk result (self.new ≡ self.old ++ map item.Token tokens.now) }
    {
        if tokens.is_empty() {
            return Ok(());
        }
        self.chunks.push(Chunk::InFile(tokens))?;
        Ok(())
    }

    /// Appends a piece of an expansion.
    fn push_piece(&mut self, piece: Piece<'a>) -> Result<(), Memory>
        ensures { OnOk result (self.new ≡ self.old ++ map item.Token (tokens_of (piece_list piece.entry))) }
    {
        match piece {
            Piece::Span(span) => self.push_in_file(span.tokens()),
            Piece::Singles(singles) => {
                self.chunks.push(Chunk::Singles(singles))?;
                Ok(())
            }
        }
    }

    /// Appends the pieces of an expansion.
    fn push_pieces(&mut self, pieces: Vec<Piece<'a>>) -> Result<(), Memory>
        ensures { OnOk result (self.new ≡ self.old ++ map item.Token (tokens_of (flat_map piece_list pieces.entry.items))) }
    {
        for piece in pieces {
            self.push_piece(piece)?;
        }
        Ok(())
    }

    /// Appends an expansion if items are kept.
    pub(crate) fn extend_if(
        &mut self,
        keeps: bool,
        prefix: &'a [Token],
        scratch: &mut Scratch<'a>,
    ) -> Result<(), Memory>
        ensures { OnOk result (self.new ≡ kept keeps self.old (map item.Token (prefix.now ++ scratch.old))) }
    {
        if !keeps {
            return Ok(());
        }
        self.extend(prefix, scratch)
    }

    /// Appends an expansion: a prefix, and the tokens of a scratch after it. They are removed from the scratch.
    fn extend(&mut self, prefix: &'a [Token], scratch: &mut Scratch<'a>) -> Result<(), Memory>
        ensures { OnOk result (self.new ≡ self.old ++ map item.Token (prefix.now ++ scratch.old)) }
    {
        self.push_in_file(prefix)?;
        // Most text lines name no macro.
        if scratch.is_empty() {
            return Ok(());
        }
        let pieces = scratch.take_pieces()?;
        self.push_pieces(pieces)
    }
}

/// Appends copies of a chunk's items.
fn copy_chunk(alloc: Global, items: &mut Vec<Item>, chunk: &Chunk) -> Result<(), Memory>
    ensures { OnOk result (items.new.items ≡ items.old.items ++ chunk_items chunk.now) }
{
    match chunk {
        Chunk::InFile(tokens) => push_tokens(items, TokenSlice::InFile(tokens)),
        Chunk::Singles(tokens) => push_tokens(items, TokenSlice::Hidden(tokens.as_slice())),
        Chunk::Pragma(at, tokens) => push_copy(alloc, items, ItemRef::Pragma(*at, tokens)),
        Chunk::Expanded(at, tokens) => {
            push_copy(alloc, items, ItemRef::Pragma(*at, tokens.as_slice()))
        }
        Chunk::Mark(mark) => push_copy(alloc, items, ItemRef::Mark(mark)),
    }
}

/// Appends a copy of an item.
fn push_copy(alloc: Global, items: &mut Vec<Item>, item: ItemRef) -> Result<(), Memory>
    ensures { OnOk result (items.new.items ≡ items.old.items ++ ref_item item.entry ∷ []) }
{
    items.push(item.to_item(alloc)?)?;
    Ok(())
}

/// Appends copies of tokens.
fn push_tokens(items: &mut Vec<Item>, tokens: TokenSlice) -> Result<(), Memory>
    ensures { OnOk result (items.new.items ≡ items.old.items ++ map item.Token (slice_tokens tokens.entry)) }
{
    let mut tokens = tokens.iter();
    while let Some(token) = tokens.next() {
        items.push(Item::Token(token.to_token()?))?;
    }
    Ok(())
}
