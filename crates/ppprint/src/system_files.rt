//! Which files are system headers.
ghost use Rattle.std.specs.Prelude.{◌≡◌, true, false, length, set, slice_index_or, replicate, IfOk};

use std::alloc::{AllocError, Global};
use std::marker::Model;

/// For each file of a list, whether it is a system header in the unit that is printed. Contracts see the list of these
/// flags.
#[derive(Drop)]
pub struct SystemFiles {
    flags: Vec<bool>,
}

impl Model for SystemFiles {
    ghost use Rattle.std.specs.Prelude.{Bool, List};

    ghost Value = { List Bool };

    ghost view = { λ f. f.flags.items };
}

impl SystemFiles {
    /// Creates flags for this number of files, none of which is a system header.
    pub fn new(alloc: Global, count: usize) -> Result<SystemFiles, AllocError>
        ensures { IfOk result (λ f. f ≡ replicate count false) }
    {
        Ok(SystemFiles {
            flags: vec![in alloc; false; count]?,
        })
    }

    /// Unmarks all files, for the next unit.
    pub fn clear(&mut self)
        ensures { self.new ≡ replicate (length self.old) false }
    {
        self.flags.as_mut_slice().fill(false);
    }

    /// Marks a file as a system header.
    pub fn insert(&mut self, row: usize)
        ensures { self.new ≡ set self.old row true }
    {
        if let Some(flag) = self.flags.get_mut(row) {
            *flag = true;
        }
    }

    /// Returns whether a file is a system header.
    #[inline(always)]
    pub fn contains(&self, row: usize) -> bool
        ensures { result ≡ slice_index_or self.now row false }
    {
        match self.flags.get(row) {
            Some(flag) => *flag,
            None => false,
        }
    }

    /// Copies the flags of as many files.
    pub fn copy_from(&mut self, other: &SystemFiles)
        requires { length self.old ≡ length other.now }
        ensures { self.new ≡ other.now }
    {
        self.flags
            .as_mut_slice()
            .copy_from_slice(other.flags.as_slice());
    }
}
