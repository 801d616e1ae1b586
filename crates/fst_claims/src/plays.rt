//! The rule, and what each step tells. These types are for the proofs alone.

ghost use Rattle.fst_claims.specs.Rule.{Kept};
ghost use Rattle.fst_claims.specs.Plays.{Learned, Looked, Took, both_views, first_view, one_part, spent_view, with_less};

use crate::view::View;
use atomic_table::{Join, Play, Split, TableRule};

/// The rule of a claim table.
pub struct Fair;

impl TableRule<(), View, usize> for Fair {
    ghost holds = { Kept };

    ghost first = { first_view };
}

/// A load of a word.
pub struct Look;

impl Play<(), View> for Look {
    ghost then = { Looked };
}

/// An exchange of 0 for a code.
pub struct Take;

impl Play<(), View> for Take {
    ghost then = { Took };
}

/// A load that learns what the rule says.
pub struct Learn;

impl Play<(), View> for Learn {
    ghost then = { Learned };
}

/// One part goes to a new pass.
pub struct Part;

impl Split<View> for Part {
    ghost left = { with_less };

    ghost right = { one_part };
}

/// Two passes become one.
pub struct Both;

impl Join<View> for Both {
    ghost both = { both_views };

    ghost spent = { spent_view };
}
