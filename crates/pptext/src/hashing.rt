//! The hash function for tables of names.
ghost use Rattle.std.specs.Prelude.{◌≡◌, ◌+◌, ◌<◌, ◌≤◌, length};
ghost use Rattle.std.specs.Hash.FoldHasher.{folded_multiply, read_u32, read_u64, read_short};
ghost use Rattle.pptext.specs.NameHash as hashed;
ghost use Rattle.pptext.specs.NameHash.{hash_after, key_word};

use std::hash::{BuildHasher, Hasher, RandomState};

/// A hash function for the names of a table, with a secret or a public key. The key affects how long operations take,
/// and not their results. Whoever knows the key can choose names that collide.
///
/// The function multiplies the name by the key, eight bytes at a time, and folds each product by exclusive or. It
/// resists names that were chosen before the key was drawn. It is no cryptographic hash, and nothing is proved about
/// how rarely names collide.
#[derive(Clone, Copy, PartialEq, Eq)]
pub struct Hashing {
    initial: NameHasher,
}

impl Hashing {
    /// Creates a hash function with a public key.
    pub fn fixed() -> Hashing
        ensures { result.initial ≡ record { state = 0x243f_6a88_85a3_08d3; key = 0x9e37_79b9_7f4a_7c15 } }
    {
        Hashing {
            initial: NameHasher {
                state: 0x243f_6a88_85a3_08d3,
                key: 0x9e37_79b9_7f4a_7c15,
            },
        }
    }

    /// Creates a hash function with this key.
    pub fn keyed(key: RandomState) -> Hashing
        ensures { result.initial ≡ record { state = key_word key 0; key = key_word key 1 } }
    {
        Hashing {
            initial: NameHasher {
                state: key.hash_one(0u64),
                key: key.hash_one(1u64),
            },
        }
    }
}

impl BuildHasher for Hashing {
    type Hasher = NameHasher;

    ghost build_hasher = { λ h. h.initial };

    fn build_hasher(&self) -> NameHasher {
        self.initial
    }
}

/// The hash of the bytes written so far, and the key.
#[derive(Clone, Copy, PartialEq, Eq)]
pub struct NameHasher {
    state: u64,
    key: u64,
}

/// Returns the product of two words, its halves joined by exclusive or.
fn product(left: u64, right: u64) -> u64
    ensures { result ≡ folded_multiply left right }
{
    let product = left as u128 * right as u128;
    (product & 0xFFFF_FFFF_FFFF_FFFF) as u64 ^ (product >> 64) as u64
}

/// Returns the four bytes from an index on as a number, the lowest first.
pub fn u32_at(bytes: &[u8], at: usize) -> u64
    requires { at + 4 ≤ length bytes.now }
    ensures value { result ≡ read_u32 bytes.now at }
    ensures bound { result < 4_294_967_296 }
{
    u32::from_le_bytes([bytes[at], bytes[at + 1], bytes[at + 2], bytes[at + 3]]) as u64
}

/// Reads the eight bytes from an index on, the lowest first.
fn word(bytes: &[u8], at: usize) -> u64
    requires { at + 8 ≤ length bytes.now }
    ensures { result ≡ read_u64 bytes.now at }
{
    u32_at(bytes, at) | u32_at(bytes, at + 4) << 32
}

/// Reads fewer than eight bytes as one word, by reads that may overlap.
fn short_word(bytes: &[u8]) -> u64
    ensures { result ≡ read_short bytes.now }
{
    let len = bytes.len();
    if len >= 4 {
        return u32_at(bytes, 0) | u32_at(bytes, len - 4) << 32;
    }
    if len > 0 {
        return bytes[0] as u64 | (bytes[len / 2] as u64) << 8 | (bytes[len - 1] as u64) << 16;
    }
    0
}

/// Returns the hash after these bytes.
fn hash_after(state: u64, factor: u64, bytes: &[u8]) -> u64
    ensures { result ≡ hash_after state factor bytes.now }
{
    let len = bytes.len();
    if len < 8 {
        return product(state ^ short_word(bytes), factor);
    }
    let mut state = state;
    let mut at = 0;
    while len - at > 8 {
        state = product(state ^ word(bytes, at), factor);
        at += 8;
    }
    product(state ^ word(bytes, len - 8), factor)
}

impl Hasher for NameHasher {
    ghost write = { hashed.write };

    ghost finish = { λ h. h.state };

    fn finish(&self) -> u64 {
        self.state
    }

    fn write(&mut self, bytes: &[u8]) {
        let factor = self.key ^ bytes.len() as u64;
        self.state = hash_after(self.state, factor, bytes);
    }
}
