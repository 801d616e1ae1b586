//! Subsets as lists of plain numbers, in an order.

ghost use Rattle.std.specs.Prelude.{Some};
ghost use Rattle.std.proofs.Common.{refl};
ghost use Rattle.std.specs.Cmp.{partial_equiv_from_equiv, po};
ghost use Rattle.std.specs.Cmp.Lexicographic.{lists_ties, lists_total, pointwise, slice_cmp};
ghost use Rattle.fst_determinize.specs.Listing.{listed_laws, ranked_cmp, ranked_ties, ranked_total, same_ranked};

use fst_semiring::Key;
use std::cmp::Ordering;
use std::marker::Model;

/// A member as plain numbers: its state, and the key of its residual.
#[derive(Clone, Copy, PartialEq, Eq, PartialOrd, Ord)]
pub struct Ranked {
    pub(crate) state: u32,
    pub(crate) key: Key,
}

/// The members of a subset as plain numbers. The first that are not the same tell which of two lists is the lesser.
#[derive(Drop)]
pub struct Listed {
    pub(crate) members: Vec<Ranked>,
}

impl Model for Listed {
    ghost use Rattle.std.specs.Prelude.{List};
    ghost use Rattle.fst_determinize.specs.declared.listing.Ranked.{Ranked};

    ghost Value = { List Ranked };

    ghost view = { λ l. l.members.items };
}

impl PartialEq for Listed {
    ghost eq = { pointwise same_ranked };

    ghost laws = { partial_equiv_from_equiv listed_laws };

    fn eq(&self, other: &Listed) -> bool {
        self.members == other.members
    }
}

impl Eq for Listed {
    ghost laws = { listed_laws };
}

impl PartialOrd for Listed {
    ghost partial_cmp = { λ a b. Some (slice_cmp ranked_cmp a b) };

    ghost laws = { po (lists_total ranked_total) (lists_ties ranked_cmp ranked_ties) };

    fn partial_cmp(&self, other: &Listed) -> Option<Ordering> {
        Some(self.cmp(other))
    }
}

impl Ord for Listed {
    ghost cmp = { slice_cmp ranked_cmp };

    ghost total = { lists_total ranked_total };

    ghost matches_partial_cmp = { λ a b. refl };

    ghost matches_eq = { lists_ties ranked_cmp ranked_ties };

    fn cmp(&self, other: &Listed) -> Ordering {
        self.members.cmp(&other.members)
    }
}
