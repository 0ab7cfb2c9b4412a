//! Hashes of the registers' names, of registers with values, and of large process numbers, under a key.
//!
//! The standard library's hashers have a fixed key, so that names or values which collide under it could be
//! chosen beforehand, and each look-up would then walk over them all. Here its fold starts from one word of a
//! secret key, and the result is folded once more with the other word.
ghost use Rattle.std.specs.Hash as fed;
ghost use Rattle.std.specs.Hash.FoldHasher as folding;
ghost use Rattle.std.specs.List.{fold};
ghost use Rattle.std.specs.Prelude.{◌≡◌};

use crate::event_lists::hash_key::HashKey;
use std::hash::{BuildHasher, FoldHasher, Hasher};

/// A fold under a key of two words: the state begins with the one, and the end is folded with the other.
#[derive(Clone, Copy)]
pub struct KeyedHasher {
    /// What has been read so far.
    pub state: FoldHasher,
    /// What the end is folded with.
    pub multiplier: u64,
}

impl Hasher for KeyedHasher {
    ghost write = { λ h bytes. record h { state = folding.write h.state bytes } };

    ghost finish = { λ h. folding.folded_multiply h.state.state h.multiplier };

    fn finish(&self) -> u64 {
        folded_multiply(self.state.finish(), self.multiplier)
    }

    fn write(&mut self, bytes: &[u8]) {
        self.state.write(bytes);
    }
}

/// The two halves of the product, joined by exclusive or.
fn folded_multiply(a: u64, b: u64) -> u64
    ensures { result ≡ folding.folded_multiply a b }
{
    let product = a as u128 * b as u128;
    (product & 0xFFFF_FFFF_FFFF_FFFF) as u64 ^ (product >> 64) as u64
}

/// Makes hashers with one key.
#[derive(Clone, Copy)]
pub struct Seeded {
    /// What each hasher begins as.
    pub hasher: KeyedHasher,
}

impl BuildHasher for Seeded {
    type Hasher = KeyedHasher;

    ghost build_hasher = { λ s. s.hasher };

    fn build_hasher(&self) -> KeyedHasher {
        self.hasher
    }
}

impl Seeded {
    /// Hashers with this key; each of its words counts.
    pub fn new(key: HashKey) -> Self
        ensures first { result.hasher.state ≡ fold folding.write folding.initial (fed.u64 key.first) }
        ensures second { result.hasher.multiplier ≡ key.second }
    {
        let mut state = FoldHasher::default();
        state.write_u64(key.first);
        Seeded {
            hasher: KeyedHasher {
                state,
                multiplier: key.second,
            },
        }
    }
}
