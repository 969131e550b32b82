//! What the expansions of a unit reuse.
ghost use Rattle.std.specs.Prelude.{◌≡◌, ◌++◌, [], flat_map, true, IfOk, OnOk};
ghost use Rattle.ppmacro.specs.Substituting.{tokens_of};
ghost use Rattle.ppexpand.specs.Slices.{piece_list};

use crate::emitted::{Emitted, Piece};
use crate::expand_step::Replacer;
use crate::expansion::Expander;
use crate::meter::Meter;
use crate::token_list::TokenList;
use crate::token_slice::{SliceIter, Slices};
use crate::vec_pool::VecPool;
use ppmacro::{Hidden, HideSets};
use pptext::{Hashing, Memory, Token, push};
use std::alloc::Global;
use std::marker::Model;
use std::mem;

/// What the expansions of a unit reuse, hide sets and vectors, and the tokens that the last expansion emitted after the prefix of its list
/// before the first macro name. Contracts see the list of these tokens.
#[derive(Drop)]
pub struct Scratch<'x> {
    /// On the heap, since a scratch lies on the stack below all levels of arguments.
    pub(crate) expander: Box<Expander<'x>>,
    pub(crate) emitted: Emitted<'x>,
    /// A vector for the stack of the next expansion.
    pub(crate) stack: Vec<Hidden<'x>>,
}

impl<'x> Model for Scratch<'x> {
    ghost use Rattle.std.specs.Prelude.{List};
    ghost use Rattle.pptext.specs.declared.tokens.Token.{Token};

    ghost Value = { List Token };

    ghost use Rattle.ppmacro.specs.Substituting.{tokens_of};

    ghost view = { λ s. tokens_of s.emitted };
}

impl<'x> Scratch<'x> {
    /// Creates a scratch without tokens. Hide sets are hashed with `hashing`.
    pub fn new(alloc: Global, hashing: Hashing) -> Result<Scratch<'x>, Memory>
        ensures { IfOk result (λ s. s ≡ []) }
    {
        let sets = HideSets::with_hasher(alloc, hashing)?;
        let replacer = Replacer {
            pool: VecPool::new(alloc),
            sets,
        };
        let meter = Meter::new(None);
        Ok(Scratch {
            expander: Box::new(alloc, Expander { replacer, meter })?,
            emitted: Emitted::new(alloc),
            stack: Vec::new(alloc),
        })
    }

    /// Returns an empty list for tokens to be expanded with this scratch, which lends its memory.
    pub fn list(&mut self) -> TokenList<'x>
        ensures none { result ≡ [] }
        ensures same { self.new ≡ self.old }
    {
        let alloc = self.alloc();
        let tokens = mem::replace(&mut self.stack, Vec::new(alloc));
        TokenList::over(tokens, self.expander.replacer.sets.empty())
    }

    /// Returns the allocator.
    pub fn alloc(&self) -> Global {
        self.expander.replacer.pool.alloc()
    }

    /// Returns true only if there are no tokens.
    pub fn is_empty(&self) -> bool
        ensures { result ≡ true → self.now ≡ [] }
    {
        self.emitted.is_empty()
    }

    /// Removes the tokens.
    pub(crate) fn clear(&mut self)
        ensures { self.new ≡ [] }
    {
        self.emitted.clear();
    }

    /// Removes the tokens, and returns their pieces in order.
    pub fn take_pieces(&mut self) -> Result<Vec<Piece<'x>>, Memory>
        ensures same { IfOk result (λ v. tokens_of (flat_map piece_list v.items) ≡ self.old) }
        ensures none { OnOk result (self.new ≡ []) }
    {
        self.emitted.take_pieces()
    }

    /// Returns an iterator over nonempty slices of the tokens, in order, as they are stored.
    pub fn slices(&self) -> Slices<'_, 'x>
        ensures { result ≡ self.now }
    {
        self.emitted.slices()
    }

    /// Returns a copy of a prefix and of the tokens after it as one vector.
    pub fn to_vec(&self, prefix: &[Token]) -> Result<Vec<Token>, Memory>
        ensures { IfOk result (λ v. v.items ≡ prefix.now ++ self.now) }
    {
        let mut tokens = Vec::from_clones(self.alloc(), prefix)?;
        tokens.reserve(self.emitted.singles_len())?;
        copy_slices(&mut tokens, self.slices())?;
        Ok(tokens)
    }
}

/// Appends copies of the tokens of slices.
fn copy_slices(tokens: &mut Vec<Token>, slices: Slices) -> Result<(), Memory>
    ensures { OnOk result (tokens.new.items ≡ tokens.old.items ++ slices.entry) }
{
    let mut slices = slices;
    while let Some(slice) = slices.next() {
        copy_slice(tokens, slice.iter())?;
    }
    Ok(())
}

/// Appends copies of the tokens of a slice.
fn copy_slice(tokens: &mut Vec<Token>, slice: SliceIter) -> Result<(), Memory>
    ensures { OnOk result (tokens.new.items ≡ tokens.old.items ++ slice.entry) }
{
    let mut slice = slice;
    while let Some(token) = slice.next() {
        push(tokens, token.to_token()?)?;
    }
    Ok(())
}
