//! What each weight of a machine keeps.

ghost use Rattle.std.specs.Prelude.{All};
ghost use Rattle.fst_semiring.specs.Semiring.{InRange, IsCost};
ghost use Rattle.fst_trim.specs.Weighed.{IsWeighed};

use fst_machine::{Fst, FstArc};
use fst_semiring::Weight;

/// Goes over the weights of arcs.
fn weigh_arcs<W: Weight>(arcs: &[FstArc<W>])
    ensures kind { All (λ a. IsCost W.KIND (W.value a.weight)) arcs.now }
    ensures range { All (λ a. InRange (W.value a.weight)) arcs.now }
{
    for arc in arcs {
        let _wide = arc.weight.widen();
    }
}

/// Goes over the weights of a machine, each of which is of the arc type with numbers in range: subsets are taken of
/// machines of which this is known. It changes nothing, and takes no memory.
pub fn weigh<W: Weight>(fst: &Fst<W>)
    ensures { IsWeighed W.KIND W.value fst.now }
{
    for state in 0..fst.states() {
        weigh_arcs(fst.arcs(state));
        let _last = fst.final_weight(state).widen();
    }
}
