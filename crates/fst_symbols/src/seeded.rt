//! How names and numbers are hashed.

ghost use Rattle.std.specs.Prelude.{◌≡◌};
ghost use Rattle.fst_symbols.specs.Seeds.{seeded_by};

use sha2::{Digest, Sha256};
use std::hash::{BuildHasher, DefaultHasher, Hasher};

/// A hash that begins with what is read. Who changes a name changes the digest of all that is read, and with it the hashes
/// of all names. So none can be chosen for the hash that it has.
#[derive(Clone, Copy)]
pub struct Seeded {
    begin: DefaultHasher,
}

impl Seeded {
    /// Of nothing that is read.
    pub fn by_nothing() -> Seeded {
        Seeded {
            begin: DefaultHasher::new(),
        }
    }

    /// Of these bytes. Takes time by them, and no memory.
    #[tactic(auto, unfolding(crate::specs::Seeds::seeded_by))]
    pub fn by(bytes: &[u8]) -> Seeded
        ensures { result ≡ seeded_by bytes.now }
    {
        let digest = Sha256::digest(bytes);
        let mut begin = DefaultHasher::new();
        begin.write(digest.as_slice());
        Seeded { begin }
    }
}

impl BuildHasher for Seeded {
    type Hasher = DefaultHasher;

    ghost build_hasher = { λ s. s.begin };

    fn build_hasher(&self) -> DefaultHasher {
        self.begin
    }
}
