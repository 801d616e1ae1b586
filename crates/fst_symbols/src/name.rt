//! Names as the keys of a map, and how they are looked up.

ghost use Rattle.std.specs.Prelude.{◌≡◌, ◌∷◌, [], IfOk};
ghost use Rattle.std.specs.Cmp.Lexicographic.{bytes_decides, nat_list_eq_equiv};
ghost use Rattle.std.specs.Cmp.Rules.{comparing};
ghost use Rattle.std.specs.Str.{bytes_eq};
ghost use Rattle.std.proofs.Common.{ap, rules};

use indexmap::Equivalent;
use std::alloc::{AllocError, Global};
use std::hash::{Hash, Hasher};

/// A name that a table keeps.
#[derive(Drop)]
pub struct Name {
    bytes: Vec<u8>,
}

impl Name {
    /// A copy of these bytes.
    pub fn of(alloc: Global, bytes: &[u8]) -> Result<Name, AllocError>
        ensures { IfOk result (λ n. n.bytes.items ≡ bytes.now) }
    {
        Ok(Name {
            bytes: Vec::from_slice(alloc, bytes)?,
        })
    }

    /// The bytes.
    pub fn as_slice(&self) -> &[u8]
        ensures { result.now ≡ self.now.bytes.items }
    {
        self.bytes.as_slice()
    }
}

impl PartialEq for Name {
    ghost eq = { λ a b. bytes_eq a.bytes.items b.bytes.items };

    ghost laws = { Prim.search (comparing, rules) };

    fn eq(&self, other: &Name) -> bool {
        self.bytes == other.bytes
    }
}

impl Eq for Name {
    ghost laws = { Prim.search (comparing, rules) };
}

// All bytes in one write: a slice would be hashed byte by byte.
impl Hash for Name {
    ghost hash_input = { λ n. n.bytes.items ∷ [] };

    ghost respects_eq = { λ a b same. ap (λ bs. bs ∷ []) ((bytes_decides a.bytes.items b.bytes.items).0 same) };

    fn hash<H: Hasher>(&self, state: &mut H) {
        state.write(self.bytes.as_slice());
    }
}

/// Bytes that are looked up among names.
#[derive(Clone, Copy)]
pub struct Sought<'n> {
    bytes: &'n [u8],
}

impl<'n> Sought<'n> {
    /// These bytes.
    pub fn of(bytes: &'n [u8]) -> Sought<'n>
        ensures { result.bytes.now ≡ bytes.now }
    {
        Sought { bytes }
    }
}

impl<'n> PartialEq for Sought<'n> {
    ghost eq = { λ a b. bytes_eq a.bytes.now b.bytes.now };

    ghost laws = { Prim.search (comparing, rules) };

    fn eq(&self, other: &Sought<'n>) -> bool {
        self.bytes == other.bytes
    }
}

impl<'n> Eq for Sought<'n> {
    ghost laws = { Prim.search (comparing, rules) };
}

impl<'n> Hash for Sought<'n> {
    ghost hash_input = { λ n. n.bytes.now ∷ [] };

    ghost respects_eq = { λ a b same. ap (λ bs. bs ∷ []) ((bytes_decides a.bytes.now b.bytes.now).0 same) };

    fn hash<H: Hasher>(&self, state: &mut H) {
        state.write(self.bytes);
    }
}

impl<'n> Equivalent<Name> for Sought<'n> {
    ghost equivalent = { λ q k. bytes_eq q.bytes.now k.bytes.items };

    ghost respects_hash = { λ q k same. ap (λ bs. bs ∷ []) ((bytes_decides q.bytes.now k.bytes.items).0 same) };

    ghost respects_eq = { λ q x y. nat_list_eq_equiv.congr q.bytes.now x.bytes.items y.bytes.items };

    fn equivalent(&self, key: &Name) -> bool {
        self.bytes == key.bytes.as_slice()
    }
}
