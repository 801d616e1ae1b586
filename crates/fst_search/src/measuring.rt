//! Distances by a search: from the start, and to the final states.

ghost use Rattle.std.specs.Prelude.{◌≡◌, ◌≤◌, ◌<◌, ℕ, List, [], All, IfErr, IfOk, OnOk, Some, length, get_or, map, slice_get};
ghost use Rattle.fst_semiring.specs.Cost.{Cost, infinite};
ghost use Rattle.fst_machine.specs.BreadthFirst.{Has};
ghost use Rattle.fst_machine.specs.Graph.{graph_of};
ghost use Rattle.fst_machine.specs.Machine.{Arc, most_states, valued};
ghost use Rattle.fst_trim.specs.Links.{Link as LinkValue};
ghost use Rattle.fst_search.specs.Beginning.{BeginsAt, BeginsFinal, BeginsFinals, IsBegun, IsBlank, Measures};
ghost use Rattle.fst_search.specs.Distances.{Counts, IsDistanceTo, IsListed, IsMarkedDistance, IsMeasured, IsOpenMeasured, IsOpenReached, MarkedCounts};
ghost use Rattle.fst_search.specs.declared.direction.Direction.TheVariants as directions;
ghost use Rattle.fst_search.specs.Hops.{IsHop, IsNet, IsOpen};
ghost use Rattle.fst_search.specs.Searching.{distance_at, valued_node};
ghost use Rattle.fst_search.specs.Trying.{AreBelow};

use crate::beginning::{begin_at, blank_table, distances_of};
use crate::cycle::solve;
use crate::direction::Direction;
use crate::searching::is_open;
use crate::table::{Table, is_zero_wide};
use crate::widens::Widens;
use fst_machine::Path;
use fst_queue::StateQueue;
use fst_semiring::Weight;
use fst_trim::Links;
use std::alloc::{AllocError, Global};

/// Searches from a begun table, and gives the values of all states, or the cycle that is better than One. The links are
/// freed before the values are made.
pub(crate) fn measure<W: Weight, V: Copy, M: Widens<W, V>, Q: StateQueue>(
    alloc: Global,
    table: &mut Table<W>,
    queue: &mut Q,
    links: Links<V>,
    marks: &[bool],
    direction: Direction,
) -> Result<Result<Vec<W::Wide>, Path>, AllocError>
    requires size { length links ≤ most_states }
    requires net { IsNet (IsHop M.value marks.now links) (length links) }
    requires known { (q : ℕ) (l : LinkValue V) → Has (get_or links q []) l → M.known l.weight }
    requires none { table.old.later.items ≡ [] }
    requires begun { IsBegun W.KIND (length links) M.bound (map (valued_node W.wide_value) table.old.nodes.items) (Q.members queue.old) table.old.met.items }
    ensures found { IfOk result (λ r. Measures (λ v. map W.wide_value v.items) (λ path. path) W.KIND (IsHop M.value marks.now links) (distance_at (map (valued_node W.wide_value) table.old.nodes.items)) direction (length links) M.bound (Q.members queue.new) r) }
    ensures below { AreBelow (length links) (Q.members queue.new) }
{
    let cycle = solve::<W, V, M, Q>(alloc, table, queue, &links, marks, direction)?;
    drop(links);
    if let Some(path) = cycle {
        return Ok(Err(path));
    }
    let values = distances_of::<W>(alloc, &table.nodes)?;
    Ok(Ok(values))
}

/// Gives One to the start, if there is one, and puts it.
fn begin_start<W: Weight, V: Copy, M: Widens<W, V>, Q: StateQueue>(
    fst: &M,
    table: &mut Table<W>,
    queue: &mut Q,
) -> Result<(), AllocError>
    requires empty { Q.members queue.old ≡ [] }
    requires blank { IsBlank (length (M.machine fst.now).states) (map (valued_node W.wide_value) table.old.nodes.items) }
    requires met { table.old.met.items ≡ [] }
    ensures begun { OnOk result (IsBegun W.KIND (length (M.machine fst.now).states) M.bound (map (valued_node W.wide_value) table.new.nodes.items) (Q.members queue.new) table.new.met.items) }
    ensures values { OnOk result (BeginsAt W.KIND (M.machine fst.now).start (distance_at (map (valued_node W.wide_value) table.new.nodes.items))) }
    ensures later { table.new.later.items ≡ table.old.later.items }
    ensures below { AreBelow (length (M.machine fst.now).states) (Q.members queue.new) }
{
    let _states = fst.state_count();
    if let Some(start) = fst.start_state() {
        begin_at(table, queue, start, W::one().widen())?;
    }
    Ok(())
}

/// The distances from the start over arcs to marked states; where there are no marks, over all arcs.
pub(crate) fn from_start_over<W: Weight, V: Copy, M: Widens<W, V>, Q: StateQueue>(
    alloc: Global,
    fst: &M,
    marks: &[bool],
    queue: &mut Q,
) -> Result<Result<Vec<W::Wide>, Path>, AllocError>
    requires empty { Q.members queue.old ≡ [] }
    requires known { All (λ s. All (λ a. M.known a.weight) s.arcs) (M.machine fst.now).states }
    ensures made { IfOk result (λ r. IfOk r (λ v. IsOpenMeasured marks.now W.KIND (graph_of (valued M.value (M.machine fst.now))) (length (M.machine fst.now).states) M.bound (map W.wide_value v.items))) }
    ensures cycle { IfOk result (λ r. IfErr r (IsListed W.KIND (graph_of (valued M.value (M.machine fst.now))) (IsOpenReached marks.now (graph_of (valued M.value (M.machine fst.now)))))) }
    ensures empty { IfOk result (λ r. OnOk r (Q.members queue.new ≡ [])) }
    ensures below { AreBelow (length (M.machine fst.now).states) (Q.members queue.new) }
{
    let states = fst.state_count();
    let links = Links::of(alloc, fst)?;
    let mut table = blank_table::<W>(alloc, states as usize)?;
    begin_start(fst, &mut table, queue)?;
    measure::<W, V, M, Q>(alloc, &mut table, queue, links, marks, Direction::FromStart)
}

/// The distances from the start.
pub(crate) fn from_start<W: Weight, V: Copy, M: Widens<W, V>, Q: StateQueue>(
    alloc: Global,
    fst: &M,
    queue: &mut Q,
) -> Result<Result<Vec<W::Wide>, Path>, AllocError>
    requires empty { Q.members queue.old ≡ [] }
    requires known { All (λ s. All (λ a. M.known a.weight) s.arcs) (M.machine fst.now).states }
    ensures made { IfOk result (λ r. IfOk r (λ v. IsMeasured W.KIND (graph_of (valued M.value (M.machine fst.now))) (IsDistanceTo directions.FromStart W.KIND (graph_of (valued M.value (M.machine fst.now)))) (Counts directions.FromStart (graph_of (valued M.value (M.machine fst.now)))) (length (M.machine fst.now).states) M.bound (map W.wide_value v.items))) }
    ensures cycle { IfOk result (λ r. IfErr r (IsListed W.KIND (graph_of (valued M.value (M.machine fst.now))) (Counts directions.FromStart (graph_of (valued M.value (M.machine fst.now)))))) }
    ensures empty { IfOk result (λ r. OnOk r (Q.members queue.new ≡ [])) }
    ensures below { AreBelow (length (M.machine fst.now).states) (Q.members queue.new) }
{
    let marks = Vec::new(alloc);
    from_start_over::<W, V, M, Q>(alloc, fst, marks.as_slice(), queue)
}

/// Gives a state its final weight, if it is final and counts, and puts it.
fn begin_final<W: Weight, V: Copy, M: Widens<W, V>, Q: StateQueue>(
    fst: &M,
    marks: &[bool],
    table: &mut Table<W>,
    queue: &mut Q,
    state: u32,
) -> Result<(), AllocError>
    requires state { state < length (M.machine fst.now).states }
    requires size { length table.old.nodes.items ≡ length (M.machine fst.now).states }
    requires new { distance_at (map (valued_node W.wide_value) table.old.nodes.items) state ≡ infinite }
    requires known { All (λ s. M.known s.final) (M.machine fst.now).states }
    ensures begun { OnOk result (IsBegun W.KIND (length (M.machine fst.now).states) M.bound (map (valued_node W.wide_value) table.old.nodes.items) (Q.members queue.old) table.old.met.items → IsBegun W.KIND (length (M.machine fst.now).states) M.bound (map (valued_node W.wide_value) table.new.nodes.items) (Q.members queue.new) table.new.met.items) }
    ensures here { OnOk result (BeginsFinal marks.now state ((graph_of (valued M.value (M.machine fst.now))).final state) (distance_at (map (valued_node W.wide_value) table.new.nodes.items) state)) }
    ensures others { OnOk result ((q : ℕ) → (q ≡ state → ⊥) → distance_at (map (valued_node W.wide_value) table.new.nodes.items) q ≡ distance_at (map (valued_node W.wide_value) table.old.nodes.items) q) }
    ensures size { length table.new.nodes.items ≡ length table.old.nodes.items }
    ensures later { table.new.later.items ≡ table.old.later.items }
    ensures below { AreBelow (length (M.machine fst.now).states) (Q.members queue.old) → AreBelow (length (M.machine fst.now).states) (Q.members queue.new) }
{
    if !is_open(marks, state) {
        return Ok(());
    }
    let weight = M::widened(fst.final_at(state));
    if is_zero_wide::<W>(weight) {
        return Ok(());
    }
    begin_at(table, queue, state, weight)
}

/// Gives each final state that counts its final weight, and puts it.
fn begin_finals<W: Weight, V: Copy, M: Widens<W, V>, Q: StateQueue>(
    fst: &M,
    marks: &[bool],
    table: &mut Table<W>,
    queue: &mut Q,
) -> Result<(), AllocError>
    requires empty { Q.members queue.old ≡ [] }
    requires known { All (λ s. M.known s.final) (M.machine fst.now).states }
    requires blank { IsBlank (length (M.machine fst.now).states) (map (valued_node W.wide_value) table.old.nodes.items) }
    requires met { table.old.met.items ≡ [] }
    ensures begun { OnOk result (IsBegun W.KIND (length (M.machine fst.now).states) M.bound (map (valued_node W.wide_value) table.new.nodes.items) (Q.members queue.new) table.new.met.items) }
    ensures values { OnOk result (BeginsFinals marks.now (graph_of (valued M.value (M.machine fst.now))) (length (M.machine fst.now).states) (distance_at (map (valued_node W.wide_value) table.new.nodes.items))) }
    ensures later { table.new.later.items ≡ table.old.later.items }
    ensures below { AreBelow (length (M.machine fst.now).states) (Q.members queue.new) }
{
    for state in 0..fst.state_count() {
        begin_final(fst, marks, table, queue, state)?;
    }
    Ok(())
}

/// The distances to the final states where only marked states count, which arcs of marked states lead to; where there
/// are no marks, all states count.
pub(crate) fn to_finals<W: Weight, V: Copy, M: Widens<W, V>, Q: StateQueue>(
    alloc: Global,
    fst: &M,
    marks: &[bool],
    queue: &mut Q,
) -> Result<Result<Vec<W::Wide>, Path>, AllocError>
    requires empty { Q.members queue.old ≡ [] }
    requires known { All (λ s. All (λ a. M.known a.weight) s.arcs) (M.machine fst.now).states }
    requires finals { All (λ s. M.known s.final) (M.machine fst.now).states }
    requires closed { (p k : ℕ) (a : Arc Cost ℕ) → slice_get ((graph_of (valued M.value (M.machine fst.now))).arcs p) k ≡ Some a → IsOpen marks.now p → IsOpen marks.now a.next }
    ensures made { IfOk result (λ r. IfOk r (λ v. IsMeasured W.KIND (graph_of (valued M.value (M.machine fst.now))) (IsMarkedDistance marks.now W.KIND (graph_of (valued M.value (M.machine fst.now)))) (MarkedCounts marks.now (graph_of (valued M.value (M.machine fst.now)))) (length (M.machine fst.now).states) M.bound (map W.wide_value v.items))) }
    ensures cycle { IfOk result (λ r. IfErr r (IsListed W.KIND (graph_of (valued M.value (M.machine fst.now))) (MarkedCounts marks.now (graph_of (valued M.value (M.machine fst.now)))))) }
    ensures empty { IfOk result (λ r. OnOk r (Q.members queue.new ≡ [])) }
    ensures below { AreBelow (length (M.machine fst.now).states) (Q.members queue.new) }
{
    let states = fst.state_count();
    let links = Links::turned(alloc, fst)?;
    let mut table = blank_table::<W>(alloc, states as usize)?;
    begin_finals(fst, marks, &mut table, queue)?;
    measure::<W, V, M, Q>(alloc, &mut table, queue, links, marks, Direction::ToFinals)
}
