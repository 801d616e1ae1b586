//! Distances and counts by one sweep over an order of the states in which each arc leads to a later one.

ghost use Rattle.std.specs.Prelude.{◌≡◌, ◌<◌, ◌≤◌, ◌+◌, ◌*◌, ◌⊎◌, ℕ, true, suc, Some, All, IfOk, IfSome, OnOk, length, get_or};
ghost use Rattle.fst_semiring.specs.Cost.{infinite};
ghost use Rattle.fst_semiring.specs.Semiring.{IsCost, Within, cancels, times};
ghost use Rattle.fst_machine.specs.Machine.{valued};
ghost use Rattle.fst_machine.specs.Graph.{graph_of};
ghost use Rattle.fst_search.specs.Distances.{NoneImproves};
ghost use Rattle.fst_machine.specs.Cycles.{IsUseful};
ghost use Rattle.fst_nbest.specs.Counts.{count_of, uncounted};
ghost use Rattle.fst_nbest.specs.PathWords.{HasSolidArcs};
ghost use Rattle.fst_nbest.specs.Ready.{IsReady, dist_in, most_distance, most_weight};
ghost use Rattle.fst_nbest.specs.Sweep.{IsAheadBelow, IsSwept};
ghost use Rattle.fst_nbest.specs.Words.{NoLess};

use crate::counting::UNCOUNTED;
use crate::distances::Ahead;
use crate::measured::has_better;
use fst_machine::FstArc;
use fst_search::Widens;
use fst_semiring::Weight;
use fst_trim::AsMachine;
use std::alloc::{AllocError, Global};
use std::cmp::Ordering;

/// What is ahead of a state: the weight of a best path to a final state, and how many arcs the shortest of these has.
#[derive(Clone, Copy)]
struct Near<D> {
    total: D,
    arcs: u32,
}

/// The better of two: by weight, then by arcs.
fn nearer<W: Weight>(a: Near<W::Wide>, b: Near<W::Wide>) -> Near<W::Wide>
    ensures picks { (result ≡ a) ⊎ (result ≡ b) }
    ensures first { NoLess (W.wide_value result.total) result.arcs (W.wide_value a.total) a.arcs }
    ensures second { NoLess (W.wide_value result.total) result.arcs (W.wide_value b.total) b.arcs }
    ensures kind { IsCost W.KIND (W.wide_value result.total) }
{
    match W::wide_compare(a.total, b.total) {
        Ordering::Less => a,
        Ordering::Greater => b,
        Ordering::Equal => { if b.arcs < a.arcs { b } else { a } }
    }
}

/// What is ahead by an arc to a state that is swept.
fn by_arc<W: Weight, V: Copy, M: Widens<W, V>>(
    arc: &FstArc<V>,
    dist: &Vec<W::Wide>,
    count: &Vec<u32>,
) -> Near<W::Wide>
    requires known { M.known arc.now.weight }
    requires next { arc.now.next < length dist.now.items }
    requires size { length count.now.items ≡ length dist.now.items }
    requires done { count_of count.now.items arc.now.next < uncounted }
    requires range { Within most_distance (dist_in W.wide_value dist.now.items arc.now.next) }
    ensures total { W.wide_value result.total ≡ times W.KIND (M.value arc.now.weight) (dist_in W.wide_value dist.now.items arc.now.next) }
    ensures arcs { result.arcs ≡ suc (count_of count.now.items arc.now.next) }
    ensures weight { Within most_weight (M.value arc.now.weight) }
    ensures done { count_of count.now.items arc.now.next < uncounted }
{
    let next = arc.next as usize;
    Near {
        total: W::wide_times(M::widened(arc.weight), dist[next]),
        arcs: count[next] + 1,
    }
}

/// What is ahead of a state; `None` where an arc leads to one that is not swept.
fn ahead<W: Weight, V: Copy, M: Widens<W, V>>(
    fst: &M,
    dist: &Vec<W::Wide>,
    count: &Vec<u32>,
    state: u32,
) -> Option<Near<W::Wide>>
    requires cancels { cancels W.KIND ≡ true }
    requires state { state < length (M.machine fst.now).states }
    requires known { All (λ s. All (λ a. M.known a.weight) s.arcs) (M.machine fst.now).states }
    requires finals { All (λ s. M.known s.final) (M.machine fst.now).states }
    requires firm { HasSolidArcs W.KIND (graph_of (valued M.value (M.machine fst.now))) }
    requires swept { (steps : ℕ) × (steps ≤ 4194304) × IsSwept W.KIND M.value W.wide_value (M.machine fst.now) steps dist.now.items count.now.items }
    ensures { IfSome result (λ r. (steps : ℕ) → IsSwept W.KIND M.value W.wide_value (M.machine fst.now) steps dist.now.items count.now.items → IsAheadBelow W.KIND M.value (M.machine fst.now) steps count.now.items (length ((graph_of (valued M.value (M.machine fst.now))).arcs state)) state (W.wide_value r.total) r.arcs) }
{
    // What holds of the machine.
    let _states = fst.state_count();
    let total = M::widened(fst.final_at(state));
    // It is a weight of the arc type.
    let _kind = W::wide_compare(total, total);
    let mut best = Near { total, arcs: 0 };
    for arc in fst.arcs_at(state) {
        if count[arc.next as usize] == UNCOUNTED {
            return None;
        }
        let further = by_arc::<W, V, M>(arc, dist, count);
        best = nearer::<W>(best, further);
    }
    Some(best)
}

/// Zero for each state.
fn zeros<W: Weight>(alloc: Global, states: u32) -> Result<Vec<W::Wide>, AllocError>
    ensures size { IfOk result (λ v. length v.items ≡ states) }
    ensures zero { IfOk result (λ v. (q : ℕ) → dist_in W.wide_value v.items q ≡ infinite) }
{
    let zero = W::zero().widen();
    let mut dist = Vec::with_capacity(alloc, states as usize)?;
    for _ in 0..states {
        dist.push(zero)?;
    }
    Ok(dist)
}

/// Sweeps the states of this order, from the last on, but for those that have an arc to a state that is not swept, whose
/// count is `UNCOUNTED`.
fn sweep<W: Weight, V: Copy, M: Widens<W, V>>(
    alloc: Global,
    fst: &M,
    order: &[u32],
) -> Result<Ahead<W>, AllocError>
    requires cancels { cancels W.KIND ≡ true }
    requires known { All (λ s. All (λ a. M.known a.weight) s.arcs) (M.machine fst.now).states }
    requires finals { All (λ s. M.known s.final) (M.machine fst.now).states }
    requires firm { HasSolidArcs W.KIND (graph_of (valued M.value (M.machine fst.now))) }
    requires low { All (λ q. q < length (M.machine fst.now).states) order.now }
    requires few { length order.now ≤ 4194304 }
    ensures { IfOk result (λ s. (steps : ℕ) × (steps ≤ 4194304) × IsSwept W.KIND M.value W.wide_value (M.machine fst.now) steps s.dist.items s.count.items) }
{
    let states = fst.state_count();
    let mut dist = zeros::<W>(alloc, states)?;
    let mut count = vec![in alloc; UNCOUNTED; states as usize]?;
    let mut left = order.len();
    while 0 < left {
        left -= 1;
        let state = order[left];
        if let Some(near) = ahead::<W, V, M>(fst, &dist, &count, state) {
            dist[state as usize] = near.total;
            count[state as usize] = near.arcs;
        }
    }
    Ok(Ahead { dist, count })
}

/// Counts arcs by the states to which they lead.
fn count_arcs<V: Copy>(waiting: &mut Vec<u32>, arcs: &[FstArc<V>])
    requires within { All (λ a. a.next < length waiting.old.items) arcs.now }
    ensures size { length waiting.new.items ≡ length waiting.old.items }
{
    for arc in arcs {
        let next = arc.next as usize;
        waiting[next] = waiting[next].saturating_add(1);
    }
}

/// For each state how many arcs lead to it.
fn arcs_into<V: Copy, M: AsMachine<V>>(alloc: Global, fst: &M) -> Result<Vec<u32>, AllocError>
    ensures size { IfOk result (λ v. length v.items ≡ length (M.machine fst.now).states) }
{
    let states = fst.state_count();
    let mut waiting = vec![in alloc; 0u32; states as usize]?;
    for state in 0..states {
        count_arcs(&mut waiting, fst.arcs_at(state));
    }
    Ok(waiting)
}

/// The states to which no arc leads.
fn first_states(alloc: Global, waiting: &Vec<u32>) -> Result<Vec<u32>, AllocError>
    requires few { length waiting.now.items ≤ 4194304 }
    ensures low { IfOk result (λ v. All (λ q. q < length waiting.now.items) v.items) }
{
    let mut order = Vec::with_capacity(alloc, waiting.len())?;
    for state in 0..waiting.len() {
        if waiting[state] > 0 {
            continue;
        }
        order.push(state as u32)?;
    }
    Ok(order)
}

/// Puts the states that have no more arcs to wait for, when these arcs are behind.
fn let_go<V: Copy>(
    order: &mut Vec<u32>,
    waiting: &mut Vec<u32>,
    arcs: &[FstArc<V>],
) -> Result<(), AllocError>
    requires within { All (λ a. a.next < length waiting.old.items) arcs.now }
    requires low { All (λ q. q < length waiting.old.items) order.old.items }
    ensures size { length waiting.new.items ≡ length waiting.old.items }
    ensures low { OnOk result (All (λ q. q < length waiting.old.items) order.new.items) }
{
    for arc in arcs {
        let next = arc.next as usize;
        waiting[next] = waiting[next].saturating_sub(1);
        if waiting[next] > 0 {
            continue;
        }
        order.push(arc.next)?;
    }
    Ok(())
}

/// States in an order in which each stands behind those that have arcs to it; all of them where there is no cycle. (Kahn
/// 1962. No clause says so: the sweep finds out.)
fn order_of<V: Copy, M: AsMachine<V>>(alloc: Global, fst: &M) -> Result<Vec<u32>, AllocError>
    ensures low { IfOk result (λ v. All (λ q. q < length (M.machine fst.now).states) v.items) }
{
    let states = fst.state_count();
    let mut waiting = arcs_into::<V, M>(alloc, fst)?;
    let mut order = first_states(alloc, &waiting)?;
    for taken in 0..states as usize {
        if taken >= order.len() {
            return Ok(order);
        }
        let state = order[taken];
        let_go(&mut order, &mut waiting, fst.arcs_at(state))?;
    }
    Ok(order)
}

/// Whether the start was swept, if there is one.
fn is_started<V: Copy, M: AsMachine<V>>(fst: &M, count: &Vec<u32>) -> bool
    requires size { length count.now.items ≡ length (M.machine fst.now).states }
    ensures { result ≡ true → (q : ℕ) → (M.machine fst.now).start ≡ Some q → count_of count.now.items q < uncounted }
{
    match fst.start_state() {
        Some(start) => count[start as usize] < UNCOUNTED,
        None => true,
    }
}

/// The distances and the counts by a sweep of these states; `None` where it does not get to the start.
fn swept_by<W: Weight, V: Copy, M: Widens<W, V>>(
    alloc: Global,
    fst: &M,
    order: &[u32],
) -> Result<Option<Ahead<W>>, AllocError>
    requires cancels { cancels W.KIND ≡ true }
    requires known { All (λ s. All (λ a. M.known a.weight) s.arcs) (M.machine fst.now).states }
    requires finals { All (λ s. M.known s.final) (M.machine fst.now).states }
    requires firm { HasSolidArcs W.KIND (graph_of (valued M.value (M.machine fst.now))) }
    requires low { All (λ q. q < length (M.machine fst.now).states) order.now }
    requires few { length order.now ≤ 4194304 }
    ensures ready { IfOk result (λ o. IfSome o (λ s. IsReady W.KIND M.value W.wide_value M.known (M.machine fst.now) s.dist.items s.count.items)) }
    ensures none { IfOk result (λ o. IfSome o (λ s. NoneImproves W.KIND (graph_of (valued M.value (M.machine fst.now))) (IsUseful (graph_of (valued M.value (M.machine fst.now)))))) }
{
    let swept = sweep::<W, V, M>(alloc, fst, order)?;
    if !is_started::<V, M>(fst, &swept.count) {
        return Ok(None);
    }
    Ok(Some(swept))
}

/// All states by number.
fn by_number(alloc: Global, states: u32) -> Result<Vec<u32>, AllocError>
    ensures low { IfOk result (λ v. All (λ q. q < states) v.items) }
    ensures size { IfOk result (λ v. length v.items ≡ states) }
{
    let mut order = Vec::with_capacity(alloc, states as usize)?;
    for state in 0..states {
        order.push(state)?;
    }
    Ok(order)
}

/// The same by a sweep of all states, from the greatest number on.
fn swept_by_number<W: Weight, V: Copy, M: Widens<W, V>>(
    alloc: Global,
    fst: &M,
) -> Result<Option<Ahead<W>>, AllocError>
    requires cancels { cancels W.KIND ≡ true }
    requires known { All (λ s. All (λ a. M.known a.weight) s.arcs) (M.machine fst.now).states }
    requires finals { All (λ s. M.known s.final) (M.machine fst.now).states }
    requires firm { HasSolidArcs W.KIND (graph_of (valued M.value (M.machine fst.now))) }
    ensures ready { IfOk result (λ o. IfSome o (λ s. IsReady W.KIND M.value W.wide_value M.known (M.machine fst.now) s.dist.items s.count.items)) }
    ensures none { IfOk result (λ o. IfSome o (λ s. NoneImproves W.KIND (graph_of (valued M.value (M.machine fst.now))) (IsUseful (graph_of (valued M.value (M.machine fst.now)))))) }
{
    let order = by_number(alloc, fst.state_count())?;
    swept_by::<W, V, M>(alloc, fst, order.as_slice())
}

/// The distances and the counts, where one sweep finds them: where no cycle can be reached. Most such machines are numbered
/// so that each arc between states that can be reached leads to a later one, which a sweep finds out; only for the others
/// an order is made.
///
/// Time: linear in the states and the arcs.
pub(crate) fn prepared<W: Weight, V: Copy, M: Widens<W, V>>(
    alloc: Global,
    fst: &M,
) -> Result<Option<Ahead<W>>, AllocError>
    requires cancels { cancels W.KIND ≡ true }
    requires known { All (λ s. All (λ a. M.known a.weight) s.arcs) (M.machine fst.now).states }
    requires finals { All (λ s. M.known s.final) (M.machine fst.now).states }
    ensures ready { IfOk result (λ o. IfSome o (λ s. IsReady W.KIND M.value W.wide_value M.known (M.machine fst.now) s.dist.items s.count.items)) }
    ensures none { IfOk result (λ o. IfSome o (λ s. NoneImproves W.KIND (graph_of (valued M.value (M.machine fst.now))) (IsUseful (graph_of (valued M.value (M.machine fst.now)))))) }
{
    let states = fst.state_count();
    let _better = has_better::<W, V, M>(fst);
    if let Some(swept) = swept_by_number::<W, V, M>(alloc, fst)? {
        return Ok(Some(swept));
    }
    let order = order_of::<V, M>(alloc, fst)?;
    if order.len() != states as usize {
        return Ok(None);
    }
    swept_by::<W, V, M>(alloc, fst, order.as_slice())
}
