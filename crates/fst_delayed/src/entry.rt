//! The arcs of a name, as a cache keeps them.

ghost use Rattle.std.specs.Prelude.{◌≡◌, true};
ghost use Rattle.fst_delayed.specs.Ascending.{Ascends};

use crate::run::ascends;
use fst_compose::KeyArc;
use fst_semiring::Weight;

/// The arcs of a name, and whether they ascend by their input labels.
#[derive(Drop)]
pub(crate) struct Entry<W: Weight> {
    pub(crate) arcs: Vec<KeyArc<W>>,
    pub(crate) ascends: bool,
    ghost sorted: { ascends ≡ true → Ascends arcs.items },
}

impl<W: Weight> Entry<W> {
    /// The entry of these arcs.
    pub(crate) fn new(arcs: Vec<KeyArc<W>>) -> Entry<W>
        ensures { result.arcs ≡ arcs }
    {
        let ascends = ascends(arcs.as_slice());
        Entry { arcs, ascends }
    }
}
