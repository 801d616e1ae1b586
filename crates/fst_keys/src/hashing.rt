//! A number for any key.

ghost use Rattle.std.specs.Prelude.{◌≡◌};
ghost use Rattle.fst_keys.specs.Hashing.{hash_number};

use std::hash::{FoldHasher, Hash, Hasher};

/// A number of a key, by what its `hash` writes. Keys may have one number. Takes no memory.
#[tactic(auto, unfolding(crate::specs::Hashing::hash_number))]
pub fn hash_of<K: Hash>(key: &K) -> u64
    ensures { result ≡ hash_number (K.hash_input key.now) }
{
    let mut hasher = FoldHasher::default();
    key.hash(&mut hasher);
    hasher.finish()
}
