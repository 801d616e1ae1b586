//! How large the weights of a machine are.

ghost use Rattle.std.specs.Prelude.{All};
ghost use Rattle.fst_semiring.specs.Semiring.{InRange};
ghost use Rattle.fst_machine.specs.Graph.{graph_of};
ghost use Rattle.fst_machine.specs.Machine.{valued};
ghost use Rattle.fst_delayed.specs.Graphs.{IsRanged};

use fst_machine::{Fst, FstArc};
use fst_semiring::Weight;

/// Goes over the weights of arcs.
fn range_arcs<W: Weight>(arcs: &[FstArc<W>])
    ensures { All (λ a. InRange (W.value a.weight)) arcs.now }
{
    for arc in arcs {
        let _wide = arc.weight.widen();
    }
}

/// Goes over the weights of the arcs of a machine, so that it is known how large they are. It changes nothing, and takes no
/// memory.
pub(crate) fn range_over<W: Weight>(fst: &Fst<W>)
    ensures { IsRanged (graph_of (valued W.value fst.now)) }
{
    for state in 0..fst.states() {
        range_arcs(fst.arcs(state));
    }
}
