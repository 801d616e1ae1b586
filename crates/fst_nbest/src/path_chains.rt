//! The machine of listed paths.

ghost use Rattle.std.specs.Prelude.{◌≡◌, ◌↔◌, ◌<◌, ◌+◌, ℕ, List, IfOk, IsErrOf, length, map};
ghost use Rattle.fst_machine.specs.Machine.{IsArc, most_states, valued, valued_arc};
ghost use Rattle.fst_machine.specs.Graph.{graph_of};
ghost use Rattle.fst_machine.specs.PathOrder.{WeightedPath};
ghost use Rattle.fst_machine.specs.Steps.{written};
ghost use Rattle.fst_nbest.specs.Chains.{IsChained, arc_at, arcs_written, chain_of, chained};
ghost use Rattle.fst_nbest.specs.Listing.{AreSuccessfulWalks, IsStep, IsSuccessfulWalk, IsWritten};

use crate::chain_source::ChainSource;
use crate::chaining::{ChainsFault, chain_machine};
use fst_machine::{Fst, FstArc, Path, Paths, Step};
use fst_semiring::Weight;
use std::alloc::Global;
use std::marker::Model;

/// Listed paths of a machine as chains: the letters of their arcs, and the final weights of their ends.
struct PathChains<'a, W: Weight> {
    fst: &'a Fst<W>,
    paths: &'a Paths,
}

impl<'a, W: Weight> Drop for PathChains<'a, W> {
    fn drop(self) {
        let PathChains { fst: _, paths: _ } = self;
    }
}

impl<'a, W: Weight> Model for PathChains<'a, W> {
    ghost use Rattle.std.specs.Prelude.{List, map};
    ghost use Rattle.fst_machine.specs.Machine.{valued};
    ghost use Rattle.fst_machine.specs.Graph.{graph_of};
    ghost use Rattle.fst_machine.specs.Steps.{written};
    ghost use Rattle.fst_nbest.specs.Chains.{Chain, chain_of};
    ghost use Rattle.fst_nbest.specs.Listing.{AreSuccessfulWalks};

    ghost Value = { List Chain };

    ghost view = { λ s. map (chain_of (graph_of (valued W.value s.fst.now))) (map written s.paths.now) };

    ghost invariant = { λ s. AreSuccessfulWalks (graph_of (valued W.value s.fst.now)) (map written s.paths.now) };
}

/// The arc of a step.
fn step_arc<W: Weight>(fst: &Fst<W>, step: &Step) -> FstArc<W>
    requires { IsStep (graph_of (valued W.value fst.now)) (step.now.state, step.now.place) }
    ensures value { valued_arc W.value result ≡ arc_at (graph_of (valued W.value fst.now)) (step.now.state, step.now.place) }
    ensures good { IsArc W.value (length fst.now.states) result }
{
    let _states = fst.states();
    let arcs = fst.arcs(step.state);
    arcs[step.place as usize]
}

/// The final weight of the end of a path.
fn end_weight<W: Weight>(fst: &Fst<W>, path: &Path) -> W
    requires { IsSuccessfulWalk (graph_of (valued W.value fst.now)) (written path.now) }
    ensures { W.value result ≡ (chain_of (graph_of (valued W.value fst.now)) (written path.now)).last }
{
    let len = path.len();
    if len > 0 {
        let end = step_arc(fst, path.item(len - 1));
        return fst.final_weight(end.next);
    }
    match fst.start() {
        Some(start) => fst.final_weight(start),
        None => W::zero(),
    }
}

impl<'a, W: Weight> ChainSource<W> for PathChains<'a, W> {
    ghost chains = { λ s. s };

    fn chain_count(&self) -> usize {
        // What holds of the machine that is read.
        let _states = self.fst.states();
        self.paths.len()
    }

    fn letter_count(&self, chain: usize) -> usize {
        self.paths.item(chain).len()
    }

    fn arc(&self, chain: usize, place: usize) -> FstArc<W> {
        step_arc(self.fst, self.paths.item(chain).item(place))
    }

    fn last(&self, chain: usize) -> W {
        end_weight(self.fst, self.paths.item(chain))
    }
}

/// The machine of listed paths. Where none is listed it has no states. Else state 0 is its start, and each path in
/// order adds one state for each of its arcs: its first arc leaves the start, and the others leave the state before.
/// The arcs keep their labels and weights, and a path's last state has the final weight of the path's end; for the
/// path without arcs that is the start. So its successful paths are just the listed ones, in order.
///
/// `TooManyStates` exactly where the paths have more than 4,194,303 arcs together. Time and space: linear in the
/// arcs and the paths listed.
pub fn chains<W: Weight>(alloc: Global, fst: &Fst<W>, paths: &Paths) -> Result<Fst<W>, ChainsFault>
    requires listed { AreSuccessfulWalks (graph_of (valued W.value fst.now)) (map written paths.now) }
    ensures machine { IfOk result (λ m. valued W.value m ≡ chained (map (chain_of (graph_of (valued W.value fst.now))) (map written paths.now))) }
    ensures paths { IfOk result (λ m. (listed : List (WeightedPath ℕ)) → IsWritten W.KIND (graph_of (valued W.value fst.now)) listed (map written paths.now) → IsChained W.KIND listed (graph_of (valued W.value m))) }
    ensures full { IsErrOf result ChainsFault.TooManyStates ↔ (most_states < arcs_written paths.now + 1) }
{
    let source = PathChains { fst, paths };
    chain_machine(alloc, &source)
}
