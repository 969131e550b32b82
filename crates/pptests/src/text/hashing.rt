//! Tests of hashing with random keys.
use crate::defining::drawn;
use pptext::{Hashing, u32_at};
use std::hash::BuildHasher;
use std::test::Fail;

/// Returns whether two hash functions agree on a text of `len` bytes.
fn agree(left: Hashing, right: Hashing, len: usize) -> bool {
    let text = &b"a name that is longer than four words"[..len.min(37)];
    left.hash_one(text) == right.hash_one(text)
}

#[test]
fn keys_tell_hashes(rt: HostRuntime) -> Result<(), Fail> {
    let (one, two) = (drawn(&rt)?, drawn(&rt)?);
    for len in 0..=37 {
        assert!(rt; agree(one, one, len) && agree(Hashing::fixed(), Hashing::fixed(), len));
        assert!(rt; !agree(one, two, len) && !agree(one, Hashing::fixed(), len));
    }
    Ok(())
}

#[test]
fn four_bytes_are_a_number(rt: HostRuntime) -> Result<(), Fail> {
    assert!(rt; u32_at(b"\x01\x02\x03\x04\x05", 1) == 0x0504_0302);
    Ok(())
}
