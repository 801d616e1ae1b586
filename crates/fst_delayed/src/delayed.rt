//! Delayed composition.

use crate::meter::Meter;
use fst_machine::Fst;
use fst_semiring::Weight;
use std::marker::{Model, PhantomData};

mod calls;

/// The arcs of some state of the first machine do not stand by their output labels, and those of some state of the
/// second do not stand by their input labels.
#[derive(Clone, Copy, Debug, PartialEq, Eq)]
pub struct NotSorted;

/// The composition of two machines, of which a name is expanded when it is asked for. It counts by meters of type `M`,
/// of which it has none itself.
#[derive(Drop)]
pub struct Delayed<'m, W: Weight, M: Meter> {
    a: &'m Fst<W>,
    b: &'m Fst<W>,
    /// Whether the arcs of the first stand by their output labels; else those of the second stand by their input labels.
    by_output: bool,
    meter: PhantomData<M>,
}

impl<'m, W: Weight, M: Meter> Model for Delayed<'m, W, M> {
    ghost use Rattle.std.specs.Prelude.{◌≡◌, true, false};
    ghost use Rattle.fst_machine.specs.Graph.{graph_of};
    ghost use Rattle.fst_machine.specs.Machine.{Machine, valued};
    ghost use Rattle.fst_delayed.specs.Graphs.{IsRanged};
    ghost use Rattle.fst_trim.specs.Sides.{IsSortedOn};
    ghost use Rattle.fst_trim.specs.declared.side.Side.TheVariants as sides;

    ghost Value = { Machine W × Machine W };

    ghost view = { λ d. (d.a.now, d.b.now) };

    ghost invariant = { λ d. (d.by_output ≡ true → IsSortedOn sides.Output d.a.now) × (d.by_output ≡ false → IsSortedOn sides.Input d.b.now) × IsRanged (graph_of (valued W.value d.a.now)) × IsRanged (graph_of (valued W.value d.b.now)) };
}
