//! Strings as they are listed.

use fst_fields::List;
use fst_semiring::Weight;
use fst_setops::Labels;

/// A string with its weight.
#[derive(Drop)]
pub struct StringWeight<W: Weight> {
    /// The labels of the string, in order.
    pub word: Labels,
    /// Its weight.
    pub weight: W::Wide,
}

/// Strings with their weights, in order.
pub type Strings<W> = List<StringWeight<W>>;
