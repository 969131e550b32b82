//! Iterates over items: over slices of them, or one by one.
ghost use Rattle.std.specs.Prelude.{◌≡◌, ◌<◌, ◌≤◌, [], true, false, length, IfOk};
ghost use Rattle.std.specs.Iterator.{YieldsFirstBy, item_count};
ghost use Rattle.ppexpand.specs.Slices.{YieldsSlice};
ghost use Rattle.ppunit.specs.BorrowedItems.{marks, ref_item, slice_items};
ghost use Rattle.ppunit.specs.code.Chunks.{chunk_items};

use crate::collections::{Chunk, Items};
use crate::units::{Item, Mark};
use ppexpand::{SliceIter, TokenRef, TokenSlice};
use pptext::{Memory, Place, Token, Tokens};
use std::alloc::Global;
use std::marker::Model;

/// A borrowed item: a token, the location and the tokens of a pragma (6.10.6), or a mark.
#[derive(Clone, Copy)]
pub enum ItemRef<'r, 'a> {
    Token(TokenRef<'r, 'a>),
    Pragma(Place, &'r [Token]),
    Mark(&'r Mark),
}

impl<'r, 'a> ItemRef<'r, 'a> {
    /// Copies the item. Fails only if an allocation fails.
    pub fn to_item(&self, alloc: Global) -> Result<Item, Memory>
        ensures { IfOk result (λ i. i ≡ ref_item self.now) }
    {
        match self {
            ItemRef::Token(token) => Ok(Item::Token(token.to_token()?)),
            ItemRef::Pragma(at, tokens) => {
                let tokens = Tokens::new(Vec::from_clones(alloc, tokens)?);
                Ok(Item::Pragma(*at, tokens))
            }
            ItemRef::Mark(mark) => Ok(Item::Mark(mark.copy()?)),
        }
    }
}

/// Consecutive items, borrowed as they are stored: tokens, the location and the tokens of one pragma (6.10.6), or a mark.
#[derive(Clone, Copy)]
pub enum ItemSlice<'r, 'a> {
    Tokens(TokenSlice<'r, 'a>),
    Pragma(Place, &'r [Token]),
    Mark(&'r Mark),
}

impl<'a> Chunk<'a> {
    /// Returns the items.
    fn slice(&self) -> ItemSlice<'_, 'a>
        ensures { slice_items result ≡ chunk_items self.now }
    {
        match self {
            Chunk::InFile(tokens) => ItemSlice::Tokens(TokenSlice::InFile(tokens)),
            Chunk::Singles(tokens) => ItemSlice::Tokens(TokenSlice::Hidden(tokens.as_slice())),
            Chunk::Pragma(at, tokens) => ItemSlice::Pragma(*at, tokens),
            Chunk::Expanded(at, tokens) => ItemSlice::Pragma(*at, tokens.as_slice()),
            Chunk::Mark(mark) => ItemSlice::Mark(mark),
        }
    }
}

impl<'r, 'a> ItemSlice<'r, 'a> {
    /// Returns whether there are no items.
    fn is_empty(self) -> bool
        ensures yes { result ≡ true → slice_items self.entry ≡ [] }
        ensures no { result ≡ false → 0 < length (slice_items self.entry) }
    {
        match self {
            ItemSlice::Tokens(tokens) => tokens.is_empty(),
            ItemSlice::Pragma(_, _) => false,
            ItemSlice::Mark(_) => false,
        }
    }
}

/// Iterates in order over nonempty slices of items, without allocating. Its model is the list of the items in the remaining
/// slices.
#[derive(Drop)]
pub struct ItemSlices<'r, 'a> {
    chunks: &'r [Chunk<'a>],
}

impl<'r, 'a> Model for ItemSlices<'r, 'a> {
    ghost use Rattle.std.specs.Prelude.{List, flat_map};
    ghost use Rattle.ppunit.specs.declared.units.Item.{Item};

    ghost Value = { List Item };

    ghost use Rattle.ppunit.specs.code.Chunks.{chunk_items};

    ghost view = { λ i. flat_map chunk_items i.chunks.now };
}

impl<'r, 'a> ItemSlices<'r, 'a> {
    /// Returns another iterator over the remaining slices.
    pub fn duplicate(&self) -> ItemSlices<'r, 'a>
        ensures { result ≡ self.now }
    {
        ItemSlices {
            chunks: self.chunks,
        }
    }

    /// Returns a number that is no less than the number of the remaining marks.
    pub fn most_marks(&self) -> usize
        ensures { marks self.now ≤ result }
    {
        self.chunks.len()
    }
}

impl<'r, 'a> Iterator for ItemSlices<'r, 'a> {
    type Item = ItemSlice<'r, 'a>;

    ghost next_gives = { YieldsSlice slice_items };

    ghost remaining = { item_count (λ rest. rest) };

    fn next(&mut self) -> Option<ItemSlice<'r, 'a>> {
        loop {
            let (chunk, chunks) = self.chunks.split_first()?;
            *self = ItemSlices { chunks };
            let slice = chunk.slice();
            if !slice.is_empty() {
                return Some(slice);
            }
        }
    }
}

/// Iterates over items in order, each borrowed from their list, without allocating. Its model is the list of the
/// remaining items.
#[derive(Drop)]
pub struct ItemsIter<'r, 'a> {
    tokens: SliceIter<'r, 'a>,
    slices: ItemSlices<'r, 'a>,
}

impl<'r, 'a> Model for ItemsIter<'r, 'a> {
    ghost use Rattle.std.specs.Prelude.{List, ◌++◌, map};
    ghost use Rattle.ppunit.specs.declared.units.Item.{Item};
    ghost use Rattle.ppunit.specs.declared.units.Item.TheVariants as item;

    ghost Value = { List Item };

    ghost view = { λ i. map item.Token i.tokens ++ i.slices };
}

impl<'r, 'a> Iterator for ItemsIter<'r, 'a> {
    type Item = ItemRef<'r, 'a>;

    ghost next_gives = { YieldsFirstBy ref_item (λ rest. rest) };

    ghost remaining = { item_count (λ rest. rest) };

    fn next(&mut self) -> Option<ItemRef<'r, 'a>> {
        loop {
            if let Some(token) = self.tokens.next() {
                return Some(ItemRef::Token(token));
            }
            match self.slices.next()? {
                ItemSlice::Tokens(tokens) => self.tokens = tokens.iter(),
                ItemSlice::Pragma(at, tokens) => return Some(ItemRef::Pragma(at, tokens)),
                ItemSlice::Mark(mark) => return Some(ItemRef::Mark(mark)),
            }
        }
    }
}

impl<'a> Items<'a> {
    /// Returns an iterator over slices of the items, in order. No slice is empty.
    pub fn slices(&self) -> ItemSlices<'_, 'a>
        ensures { result ≡ self.now }
    {
        ItemSlices {
            chunks: self.chunks(),
        }
    }

    /// Returns an iterator over the items, in order, each borrowed.
    pub fn iter(&self) -> ItemsIter<'_, 'a>
        ensures { result ≡ self.now }
    {
        ItemsIter {
            tokens: TokenSlice::InFile(Default::default()).iter(),
            slices: self.slices(),
        }
    }
}
