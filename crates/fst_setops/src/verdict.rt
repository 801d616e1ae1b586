//! What is said of two acceptors.

use fst_fields::List;
use fst_semiring::Weight;

/// A word: its labels in order, with 0 among them.
pub type Labels = List<u32>;

/// Whether two acceptors give each word the same weight.
#[derive(Drop)]
pub enum Verdict<W: Weight> {
    /// They do.
    Equivalent,
    /// They do not: this is the least word whose weights differ, shorter words first, then lexicographically.
    Separated {
        /// The word.
        word: Labels,
        /// Its weight in the first acceptor, Zero where no successful path has it. Its numbers have absolute value at most 2
        /// to the 84.
        first: W::Wide,
        /// Its weight in the second.
        second: W::Wide,
    },
}
