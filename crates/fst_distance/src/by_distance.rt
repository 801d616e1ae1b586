//! The machine pushed by its own distances.

ghost use Rattle.std.specs.Prelude.{◌≡◌, ◌<◌, ◌≤◌, ◌*◌, ℕ, All, IfErr, IfOk, OnOk, [], Some, length, slice_get, IfSome};
ghost use Rattle.fst_semiring.specs.Semiring.{IsCost, Within};
ghost use Rattle.fst_machine.specs.Cycles.{IsUseful};
ghost use Rattle.fst_machine.specs.Graph.{graph_of};
ghost use Rattle.fst_machine.specs.Machine.{valued};
ghost use Rattle.fst_search.specs.Distances.{IfImproving, IsListed, IsUsefulDistance, NoneImproves};
ghost use Rattle.fst_distance.specs.Pushing.{IsPushed, value_at};
ghost use Rattle.fst_distance.specs.Values.{Picks, most_distance, value_in};
ghost use Rattle.fst_trim.specs.Handed.{machine_of};

use crate::pushing::Pushing;
use fst_machine::Fst;
use fst_queue::StateQueue;
use fst_search::{DistanceFault, useful_distances};
use fst_semiring::Weight;
use fst_trim::{Connected, Handed, connect_kept};
use std::alloc::{AllocError, Global};

/// What stands in these places of a list.
fn pick<X: Copy>(alloc: Global, all: &[X], places: &[u32]) -> Result<Vec<X>, AllocError>
    requires { All (λ p. p < length all.now) places.now }
    ensures { IfOk result (λ picked. Picks places.now all.now picked.items) }
{
    let mut picked = Vec::with_capacity(alloc, places.len())?;
    for place in places {
        picked.push(all[*place as usize])?;
    }
    Ok(picked)
}

/// The value of the start; Zero where there is none.
fn start_value<W: Weight>(start: Option<u32>, distances: &[W::Wide]) -> W::Wide
    requires { IfSome start (λ s. s < length distances.now) }
    ensures { W.wide_value result ≡ value_at (value_in W.wide_value distances.now) start }
{
    match start {
        Some(state) => distances[state as usize],
        None => W::zero().widen(),
    }
}

/// A pushed machine and its total weight.
#[derive(Drop)]
pub struct Totalled<'a, W: Weight> {
    /// The machine.
    pub pushed: Pushing<'a, W>,
    /// The distance of its start to the final states; Zero where there is no start.
    pub total: W::Wide,
}

/// The connected machine, pushed by these distances of the states of the given one.
fn push_connected<'a, W: Weight>(
    alloc: Global,
    fst: Handed<'a, W>,
    all: &[W::Wide],
) -> Result<Totalled<'a, W>, AllocError>
    requires size { length all.now ≡ length (machine_of fst).states }
    requires distances { (q : ℕ) (d : W.Wide) → slice_get all.now q ≡ Some d → IsUsefulDistance W.KIND (graph_of (valued W.value (machine_of fst))) q (W.wide_value d) }
    requires numbers { (q : ℕ) (d : W.Wide) → slice_get all.now q ≡ Some d → Within (length all.now * 1000000000000000000) (W.wide_value d) }
    requires kinds { (q : ℕ) (d : W.Wide) → slice_get all.now q ≡ Some d → IsCost W.KIND (W.wide_value d) }
    ensures pushed { IfOk result (λ t. IsPushed W.KIND (valued W.value (machine_of fst.entry)) t.pushed (W.wide_value t.total)) }
    ensures range { IfOk result (λ t. Within most_distance (W.wide_value t.total)) }
{
    let _states = fst.fst().states();
    let Connected { machine, kept } = connect_kept(alloc, fst)?;
    let distances = pick(alloc, all, &kept)?;
    let total = start_value::<W>(machine.fst().start(), &distances);
    Ok(Totalled {
        pushed: Pushing::new(machine, distances),
        total,
    })
}

/// The connected machine pushed by the distances of its states to the final states, and its total weight. (Mohri 2009,
/// section 3.4, weight pushing; OpenFst manual, "Push".)
///
/// `ImprovingCycle` exactly where a cycle with a product better than One has states that successful paths meet; the
/// fault lists such a cycle, in the states and places of the given machine. `Memory` may come in place of any answer.
/// After an `Ok` the queue is empty.
///
/// Where all states of the machine are useful, no state or arc is copied; where not, a machine that was given away is given
/// up as soon as the connected one stands.
///
/// Time: that of the distances, and linear in the states and the arcs. Space: linear.
pub fn push_lazily<'a, W: Weight, Q: StateQueue>(
    alloc: Global,
    fst: Handed<'a, W>,
    queue: &mut Q,
) -> Result<Totalled<'a, W>, DistanceFault>
    requires { Q.members queue.old ≡ [] }
    ensures pushed { IfOk result (λ t. IsPushed W.KIND (valued W.value (machine_of fst.entry)) t.pushed (W.wide_value t.total)) }
    ensures range { IfOk result (λ t. Within most_distance (W.wide_value t.total)) }
    ensures none { OnOk result (NoneImproves W.KIND (graph_of (valued W.value (machine_of fst.entry))) (IsUseful (graph_of (valued W.value (machine_of fst.entry))))) }
    ensures cycle { IfErr result (λ f. IfImproving f (IsListed W.KIND (graph_of (valued W.value (machine_of fst.entry))) (IsUseful (graph_of (valued W.value (machine_of fst.entry)))))) }
    ensures empty { OnOk result (Q.members queue.new ≡ []) }
{
    let all = useful_distances::<W, W, Fst<W>, Q>(alloc, fst.fst(), queue)?;
    match push_connected(alloc, fst, &all) {
        Ok(totalled) => Ok(totalled),
        Err(_) => Err(DistanceFault::Memory),
    }
}
