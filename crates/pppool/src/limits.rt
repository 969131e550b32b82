//! How a list is divided among workers. Each type has its bounds as its invariant, so that no contract of a run states
//! them: `get` tells them.
ghost use Rattle.std.specs.Prelude.{◌≡◌, ◌<◌, ◌≤◌, ◌⊎◌, IfSome, IfNone};

use std::marker::Model;

/// A number of workers, 1 to 64. Its model is the number.
#[derive(Clone, Copy, Debug, Drop)]
pub struct Workers {
    count: usize,
}

impl Model for Workers {
    ghost use Rattle.std.specs.Prelude.{◌≤◌, ℕ};

    ghost Value = { ℕ };

    ghost view = { λ w. w.count };

    ghost invariant = { λ w. (1 ≤ w.count) × (w.count ≤ 64) };

    ghost inverse = { λ n. record { count = n } };
}

impl Workers {
    /// Returns this number of workers if it is from 1 to 64.
    pub fn new(count: usize) -> Option<Workers>
        ensures some { IfSome result (λ w. w ≡ count) }
        ensures none { IfNone result ((count < 1) ⊎ (64 < count)) }
    {
        if count < 1 || count > 64 {
            return None;
        }
        Some(Workers { count })
    }

    /// Returns the number.
    pub fn get(self) -> usize
        ensures value { result ≡ self }
        ensures bounds { (1 ≤ result) × (result ≤ 64) }
    {
        self.count
    }
}

/// A number of units that a worker claims at a time, 1 to 1024. Its model is the number.
#[derive(Clone, Copy, Debug, Drop)]
pub struct Block {
    size: usize,
}

impl Model for Block {
    ghost use Rattle.std.specs.Prelude.{◌≤◌, ℕ};

    ghost Value = { ℕ };

    ghost view = { λ b. b.size };

    ghost invariant = { λ b. (1 ≤ b.size) × (b.size ≤ 1024) };

    ghost inverse = { λ n. record { size = n } };
}

/// How often each worker claims units if there are too few for blocks of full size.
const CLAIMS_PER_WORKER: usize = 16;

impl Block {
    /// Returns a block of this size, if one may have it.
    pub fn new(size: usize) -> Option<Block>
        ensures some { IfSome result (λ b. b ≡ size) }
        ensures none { IfNone result ((size < 1) ⊎ (1024 < size)) }
    {
        if size < 1 || size > 1024 {
            return None;
        }
        Some(Block { size })
    }

    /// Returns the size.
    pub fn get(self) -> usize
        ensures value { result ≡ self }
        ensures bounds { (1 ≤ result) × (result ≤ 1024) }
    {
        self.size
    }

    /// Returns a block of at most this size for a list with this number of units. It is small for a short list, so that
    /// all workers end at about the same time.
    pub fn fitted(self, units: usize, workers: Workers) -> Block
        ensures { result ≤ self }
    {
        let fair = units.div_ceil(workers.get() * CLAIMS_PER_WORKER);
        Block {
            size: fair.clamp(1, self.size),
        }
    }
}
