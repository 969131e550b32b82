//! A pool of vectors, which expansions reuse.
ghost use Rattle.std.specs.Prelude.{◌≡◌, [], IfOk};

use ppmacro::{ArgumentExpansion, Hidden};
use pptext::{Memory, push};
use std::alloc::Global;

/// The most vectors of one kind in the pool. Few nested invocations have more arguments together.
const MOST: usize = 64;

/// The largest capacity of a vector that is put in the pool. Larger ones are freed.
const LARGE: usize = 256;

/// The allocator, and vectors for the next invocations: for tokens, for arguments, and for the expansions of arguments.
#[derive(Drop)]
pub(crate) struct VecPool<'x> {
    alloc: Global,
    lists: Vec<Vec<Hidden<'x>>>,
    arguments: Vec<Vec<Vec<Hidden<'x>>>>,
    expansions: Vec<Vec<ArgumentExpansion<'x>>>,
}

impl<'x> VecPool<'x> {
    /// Creates an empty pool.
    pub(crate) fn new(alloc: Global) -> VecPool<'x> {
        VecPool {
            alloc,
            lists: Vec::new(alloc),
            arguments: Vec::new(alloc),
            expansions: Vec::new(alloc),
        }
    }

    /// Returns the allocator.
    pub(crate) fn alloc(&self) -> Global {
        self.alloc
    }

    /// Returns an empty vector for tokens: one of the pool, or a new one with capacity for `capacity` tokens.
    pub(crate) fn list(&mut self, capacity: usize) -> Result<Vec<Hidden<'x>>, Memory>
        ensures { IfOk result (λ list. list.items ≡ []) }
    {
        // Saves an allocation for most arguments.
        if let Some(mut list) = self.lists.pop() {
            list.clear();
            return Ok(list);
        }
        Vec::with_capacity(self.alloc, capacity)
    }

    /// Returns an empty vector for arguments.
    pub(crate) fn arguments(&mut self) -> Vec<Vec<Hidden<'x>>>
        ensures { result.items ≡ [] }
    {
        let Some(mut arguments) = self.arguments.pop() else {
            return Vec::new(self.alloc);
        };
        arguments.clear();
        arguments
    }

    /// Returns an empty vector for the expansions of arguments.
    pub(crate) fn expansions(&mut self) -> Vec<ArgumentExpansion<'x>>
        ensures { result.items ≡ [] }
    {
        let Some(mut expansions) = self.expansions.pop() else {
            return Vec::new(self.alloc);
        };
        expansions.clear();
        expansions
    }

    /// Puts a vector of tokens that are no longer used in the pool, if there is memory for it.
    pub(crate) fn keep_list(&mut self, list: Vec<Hidden<'x>>) {
        if self.lists.len() < MOST && list.capacity() <= LARGE {
            let _kept = push(&mut self.lists, list);
        }
    }

    /// Puts the vectors of arguments that are no longer used in the pool.
    pub(crate) fn keep_arguments(&mut self, arguments: Vec<Vec<Hidden<'x>>>) {
        let mut arguments = arguments;
        while let Some(list) = arguments.pop() {
            self.keep_list(list);
        }
        if self.arguments.len() < MOST && arguments.capacity() <= LARGE {
            let _kept = push(&mut self.arguments, arguments);
        }
    }

    /// Puts the vectors of expansions that are no longer used in the pool.
    pub(crate) fn keep_expansions(&mut self, expansions: Vec<ArgumentExpansion<'x>>) {
        let mut expansions = expansions;
        while let Some(expansion) = expansions.pop() {
            if let ArgumentExpansion::Owned(list) = expansion {
                self.keep_list(list);
            }
        }
        if self.expansions.len() < MOST && expansions.capacity() <= LARGE {
            let _kept = push(&mut self.expansions, expansions);
        }
    }
}
