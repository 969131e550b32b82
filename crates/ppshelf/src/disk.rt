//! Where files are read from.
ghost use Rattle.std.specs.Prelude.{ℕ, List, IfOk, IfErr};
ghost use Rattle.ppshelf.specs.Content.{Content, unreadable, readable};
ghost use Rattle.ppshelf.specs.Faults.{IfUnreadable};

use std::alloc::Global;

/// The reason why a read returns no bytes.
#[derive(Clone, Copy, PartialEq, Eq, Debug, Drop)]
pub enum ReadFault {
    /// No file of this name can be read.
    Unreadable,
    /// An allocation fails, or the system lacks something else that a read needs, such as a file descriptor. Says
    /// nothing about the file.
    Memory,
}

/// Files by name. Two reads of one name may differ.
pub trait Disk {
    /// What some disk of this type may return for a name.
    ghost may: { List ℕ → Content → Type 0 };

    /// What this disk may return for a name.
    ghost may_return: { Self → List ℕ → Content → Type 0 };

    /// Reads the file of this name. A file of more than `LONGEST` bytes may be cut off anywhere above that length.
    ///
    /// # Errors
    ///
    /// `Unreadable` if there is no such file or it can't be read. `Memory` if the system lacks memory or something else
    /// that a read needs.
    fn read(&self, alloc: Global, name: &str) -> Result<Vec<u8>, ReadFault>
        ensures bytes { IfOk result (λ v. may_return self.now name.now (readable v.items)) }
        ensures fault { IfErr result (λ e. IfUnreadable e (may_return self.now name.now unreadable)) };

    /// What one disk may return, some disk of its type may return.
    ghost may_return_by_type: { (disk : Self) (name : List ℕ) (c : Content) → may_return disk name c → may name c };
}
