//! What keeps a deterministic acceptor from being taken from another: an arc that reads epsilon, and a weight.

ghost use Rattle.std.specs.Prelude.{◌≡◌, ◌⊎◌, ◌≤◌, All, length, map};
ghost use Rattle.std.specs.Bool.{Decides};
ghost use Rattle.fst_semiring.specs.Cost.{infinite};
ghost use Rattle.fst_semiring.specs.Semiring.{one_of};
ghost use Rattle.fst_machine.specs.Machine.{most_arcs, valued, valued_arc};
ghost use Rattle.fst_trim.specs.FirstArcs.{IsFirstArc, IsFirstPlace};
ghost use Rattle.fst_setops.specs.Unweighted.{IsFirstWeighted, IsUnweighted, ReadsEpsilon};

use fst_machine::{Fst, FstArc, Step};
use fst_semiring::{Weight, is_zero};

/// The first of the arcs of a state with label 0.
fn epsilon_in<W>(arcs: &[FstArc<W>]) -> Option<u32>
    requires few { length arcs.now ≤ most_arcs }
    ensures { IsFirstPlace ReadsEpsilon arcs.now result }
{
    for (place, arc) in arcs.iter().enumerate() {
        if arc.ilabel == 0 {
            return Some(place as u32);
        }
    }
    None
}

/// The first arc, by state then place, with label 0. `None` exactly where there is none. Takes no memory.
pub fn epsilon_at<W: Weight>(b: &Fst<W>) -> Option<Step>
    ensures { IsFirstArc ReadsEpsilon b.now result }
{
    for state in 0..b.states() {
        if let Some(place) = epsilon_in(b.arcs(state)) {
            return Some(Step { state, place });
        }
    }
    None
}

/// Whether a weight is One.
fn is_one<W: Weight>(weight: W) -> bool
    ensures { Decides result (W.value weight ≡ one_of W.KIND) }
{
    weight.compare(W::one()).is_eq()
}

/// Whether a final weight is One or Zero.
fn is_plain<W: Weight>(last: W) -> bool
    ensures { Decides result ((W.value last ≡ one_of W.KIND) ⊎ (W.value last ≡ infinite)) }
{
    is_zero(last) || is_one(last)
}

/// Whether each of these arcs has weight One.
fn weigh_one<W: Weight>(arcs: &[FstArc<W>]) -> bool
    ensures { Decides result (All (λ a. W.value a.weight ≡ one_of W.KIND) arcs.now) }
{
    for arc in arcs {
        if !is_one(arc.weight) {
            return false;
        }
    }
    true
}

/// Whether a state with this final weight and these arcs has no weights.
fn is_unweighted<W: Weight>(last: W, arcs: &[FstArc<W>]) -> bool
    ensures { Decides result (IsUnweighted W.KIND (record { final = W.value last; arcs = map (valued_arc W.value) arcs.now })) }
{
    is_plain(last) && weigh_one(arcs)
}

/// The least state with an arc whose weight is not One, or a final weight that is neither One nor Zero. `None` exactly where
/// there is none. Takes no memory.
pub(crate) fn weighted_at<W: Weight>(b: &Fst<W>) -> Option<u32>
    ensures { IsFirstWeighted W.KIND (valued W.value b.now) result }
{
    for state in 0..b.states() {
        if !is_unweighted(b.final_weight(state), b.arcs(state)) {
            return Some(state);
        }
    }
    None
}
