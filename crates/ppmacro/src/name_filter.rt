//! A filter of fingerprints of macro names. It rejects most identifiers that name no macro, and guesses the index of a macro in
//! the table.
ghost use Rattle.std.specs.Prelude.{◌≡◌, ◌+◌, ◌<◌, ℕ, List, length, min};
ghost use Rattle.ppmacro.specs.code.NameFilter.{fingerprint_of, short_fingerprint, slot_of};

use pptext::{Memory, u32_at};
use std::alloc::Global;
use std::marker::Model;

/// The number of slots. A fingerprint is the index of a slot.
const SLOTS: usize = 32_768;

/// Returns the fingerprint of a name.
#[tactic(auto, unfolding(crate::specs::code::NameFilter::fingerprint_of))]
pub(crate) fn fingerprint_of(name: &[u8]) -> usize
    ensures value { result ≡ fingerprint_of name.now }
    ensures bound { result < 32_768 }
{
    let length = name.len();
    if length < 4 {
        return short_fingerprint(name);
    }
    let rest = length - 4;
    let sum = u32_at(name, rest / 2) * 506_952_113
        + u32_at(name, rest) * 625_341_585
        + (length % 64) as u64 * 461_845_907;
    (sum / 16_777_216 % 32_768) as usize
}

/// Returns the fingerprint of a name of fewer than four bytes.
#[tactic(auto, unfolding(crate::specs::code::NameFilter::short_fingerprint))]
fn short_fingerprint(name: &[u8]) -> usize
    requires { length name.now < 4 }
    ensures value { result ≡ short_fingerprint name.now }
    ensures bound { result < 32_768 }
{
    let length = name.len();
    if length == 0 {
        return 0;
    }
    let first = usize::from(name[0]);
    let last = usize::from(name[length - 1]);
    first * 125 + last * 2 + length
}

/// One slot for each fingerprint: 0, or one more than the table index of the name that was inserted last. The name may have moved
/// since.
#[derive(Drop)]
pub(crate) struct NameFilter {
    filter: Vec<u16>,
}

impl Model for NameFilter {
    ghost use Rattle.std.specs.Prelude.{◌≡◌, ℕ, List, vec_len};

    ghost Value = { List ℕ };

    ghost view = { λ s. s.filter.items };

    ghost invariant = { λ s. vec_len s.filter ≡ 32_768 };
}

/// Returns the slot value for a table index. Indexes over 65,534 have the highest value.
fn slot_value(position: usize) -> u16
    ensures value { result ≡ min position 65_534 + 1 }
    ensures positive { 0 < result }
{
    position.min(65_534) as u16 + 1
}

impl NameFilter {
    /// Creates an empty filter.
    pub(crate) fn new(alloc: Global) -> Result<NameFilter, Memory> {
        Ok(NameFilter {
            filter: vec![in alloc; 0; SLOTS]?,
        })
    }

    /// Returns the slot for a name.
    pub(crate) fn slot_of(&self, name: &[u8]) -> u16
        ensures { result ≡ slot_of self.now name.now }
    {
        self.filter[fingerprint_of(name)]
    }

    /// Inserts a name that has this table index.
    pub(crate) fn put(&mut self, name: &[u8], position: usize)
        ensures here { 0 < slot_of self.new name.now }
        ensures grows { (other : List ℕ) → slot_of self.new other ≡ 0 → slot_of self.old other ≡ 0 }
    {
        self.filter[fingerprint_of(name)] = slot_value(position);
    }
}
