//! The key of the hash function of names, which C hands in: a static library has no random bytes.
use pptext::Hashing;
use std::hash::RandomState;
use std::io;
use std::random::RandomSource;

/// A key of two words.
#[repr(C)]
#[derive(Clone, Copy, Drop)]
pub struct Key {
    pub low: u64,
    pub high: u64,
}

impl RandomSource for Key {
    fn fill_bytes(&self, buf: &mut [u8]) -> io::Result<()> {
        for (index, byte) in buf.iter_mut().enumerate() {
            *byte = self.byte(index);
        }
        Ok(())
    }
}

impl Key {
    /// Returns the byte with this number; after the last comes the first.
    fn byte(&self, number: usize) -> u8 {
        let word = if number % 16 < 8 { self.low } else { self.high };
        word.to_le_bytes()[number % 8]
    }
}

/// Returns the hash function with this key.
pub(crate) fn hashing(key: Key) -> Hashing {
    match RandomState::new(&key) {
        Ok(state) => Hashing::keyed(state),
        Err(_) => Hashing::fixed(),
    }
}
