//! Hashes of names with the fixed key, as bench/colliding.py computes them.
use pptext::Hashing;
use std::hash::{BuildHasher, Hasher};

/// A name that collides with the next one.
const COLLIDING: &str =
    "aaaaabkDZlJeGuI7aaaaasv0Hp5QKjqTaaaaasv0Hp5QKjqTaaaaasv0Hp5QKjqTaaaaasv0Hp5QKjqT";

/// The name that `COLLIDING` collides with.
const ALSO_COLLIDING: &str =
    "aaaaabkDZlJeGuI7aaaaasv0Hp5QKjqTaaaaasv0Hp5QKjqTaaaaasv0Hp5QKjqTaaaaaRCW9dtu4yQE";

#[test]
fn names_hash_as_they_are_made_to_collide(rt: HostRuntime) {
    for (name, hash) in [
        (COLLIDING, 0),
        (ALSO_COLLIDING, 0),
        ("ordinary", 0x96ed_ec01_2a11_ed83),
    ] {
        let mut hasher = Hashing::fixed().build_hasher();
        hasher.write(name.as_bytes());
        assert!(&rt; hasher.finish() == hash, "{name}");
    }
}
