//! What a state gets from those that epsilon arcs reach from it.

ghost use Rattle.std.specs.Prelude.{◌≡◌, ◌<◌, ◌&&◌, [], nat_eq, true, All, IfOk, IfSome, OnOk, length, map};
ghost use Rattle.fst_semiring.specs.Cost.{plus};
ghost use Rattle.fst_semiring.specs.Semiring.{times, InRange, IsWide};
ghost use Rattle.fst_machine.specs.Graph.{graph_of};
ghost use Rattle.fst_machine.specs.Machine.{valued, valued_arc, valued_state};
ghost use Rattle.fst_machine.specs.Narrowing.{IsInRange};
ghost use Rattle.fst_search.specs.Closure.{Reached as ReachedValue, valued_reached};
ghost use Rattle.fst_epsilon.specs.Construction.{best_final, collected, merged, spoken};
ghost use Rattle.fst_epsilon.specs.Gathering.{pairs_of};
ghost use Rattle.fst_epsilon.specs.Merging.{AreMarked, ArePaired};

use crate::few::Few;
use crate::merged::Merged;
use fst_machine::{Fst, FstArc, WideArc};
use fst_search::Reached;
use fst_semiring::{Weight, is_zero};
use std::alloc::{AllocError, Global};

/// Whether both labels of an arc are 0.
fn is_epsilon<V>(arc: &FstArc<V>) -> bool
    ensures { result ≡ (nat_eq arc.now.ilabel 0 && nat_eq arc.now.olabel 0) }
{
    arc.ilabel == 0 && arc.olabel == 0
}

/// Puts those of these arcs that are not epsilon, each with a distance before its weight, and tells whether all these
/// weights are in range; where one is not, it stops there.
fn put_few<W: Weight>(out: &mut Few<W>, arcs: &[FstArc<W>], distance: W) -> Result<bool, AllocError>
    requires marked { AreMarked out.old.spots out.old.arcs.items }
    requires range { All (λ a. InRange (W.value a.weight)) out.old.arcs.items }
    ensures marked { OnOk result (AreMarked out.new.spots out.new.arcs.items) }
    ensures range { OnOk result (All (λ a. InRange (W.value a.weight)) out.new.arcs.items) }
    ensures arcs { IfOk result (λ fits. fits ≡ true → map (valued_arc W.value) out.new.arcs.items ≡ merged (map (valued_arc W.value) out.old.arcs.items) (spoken W.KIND (W.value distance) (map (valued_arc W.value) arcs.now))) }
{
    out.distance = distance;
    for arc in arcs {
        if is_epsilon(arc) {
            continue;
        }
        let Some(weight) = W::narrow(out.distance.times(arc.weight)) else {
            return Ok(false);
        };
        out.put(FstArc {
            ilabel: arc.ilabel,
            olabel: arc.olabel,
            weight,
            next: arc.next,
        })?;
    }
    Ok(true)
}

/// Puts those of these arcs that are not epsilon, each with a distance before its weight.
fn put_arcs<W: Weight>(
    out: &mut Merged<W>,
    arcs: &[FstArc<W>],
    distance: W::Wide,
) -> Result<(), AllocError>
    requires wide { IsWide (W.wide_value distance) }
    requires paired { ArePaired out.old.keys out.old.arcs.items }
    ensures paired { OnOk result (ArePaired out.new.keys out.new.arcs.items) }
    ensures arcs { OnOk result (map (valued_arc W.wide_value) out.new.arcs.items ≡ merged (map (valued_arc W.wide_value) out.old.arcs.items) (spoken W.KIND (W.wide_value distance) (map (valued_arc W.value) arcs.now))) }
{
    for arc in arcs {
        if is_epsilon(arc) {
            continue;
        }
        out.put(WideArc::<W> {
            ilabel: arc.ilabel,
            olabel: arc.olabel,
            weight: W::wide_times(distance, arc.weight.widen()),
            next: arc.next,
        })?;
    }
    Ok(())
}

/// The better of a weight and a final weight with a distance before it. Most states are not final, and change nothing.
fn better_end<W: Weight>(last: W::Wide, distance: W::Wide, ends: W) -> W::Wide
    requires { IsWide (W.wide_value distance) }
    ensures { W.wide_value result ≡ plus (W.wide_value last) (times W.KIND (W.wide_value distance) (W.value ends)) }
{
    if is_zero(ends) {
        return last;
    }
    W::wide_plus(last, W::wide_times(distance, ends.widen()))
}

/// The arcs of a state by its closure, in order and merged, and its final weight.
pub(crate) fn gather<W: Weight>(
    out: &mut Merged<W>,
    fst: &Fst<W>,
    closure: &[Reached<W::Wide>],
) -> Result<W::Wide, AllocError>
    requires states { All (λ (r : ReachedValue W.Wide). r.state < length fst.now.states) closure.now }
    requires wide { All (λ (r : ReachedValue W.Wide). IsWide (W.wide_value r.distance)) closure.now }
    ensures arcs { OnOk result (map (valued_arc W.wide_value) out.new.arcs.items ≡ merged [] (collected W.KIND (graph_of (valued W.value fst.now)) (pairs_of W.wide_value closure.now))) }
    ensures ends { IfOk result (λ last. W.wide_value last ≡ best_final W.KIND (graph_of (valued W.value fst.now)) (pairs_of W.wide_value closure.now)) }
{
    out.clear();
    let mut last = W::zero().widen();
    for item in closure {
        put_arcs(out, fst.arcs(item.state), item.distance)?;
        last = better_end(last, item.distance, fst.final_weight(item.state));
    }
    Ok(last)
}

/// The better of a final weight and another with a distance before it; `None` where a number is out of range. Most states
/// are not final, and change nothing.
fn better_few<W: Weight>(last: W, distance: W, ends: W) -> Option<W>
    requires { InRange (W.value last) }
    ensures range { IfSome result (λ w. InRange (W.value w)) }
    ensures better { IfSome result (λ w. W.value w ≡ plus (W.value last) (times W.KIND (W.value distance) (W.value ends))) }
{
    if is_zero(ends) {
        return Some(last);
    }
    let weight = W::narrow(distance.times(ends))?;
    let better = last.plus(weight);
    let _range = better.widen();
    Some(better)
}

/// The same where the arcs are few and all weights are in range; `None` where they are not. No weight has the wide form
/// here.
pub(crate) fn gather_few<W: Weight>(
    out: &mut Few<W>,
    fst: &Fst<W>,
    closure: &[Reached<W>],
) -> Result<Option<W>, AllocError>
    requires states { All (λ (r : ReachedValue W). r.state < length fst.now.states) closure.now }
    ensures range { IfOk result (λ o. IfSome o (λ last. IsInRange (valued_state W.value (record { final = last; arcs = out.new.arcs.items })))) }
    ensures arcs { IfOk result (λ o. IfSome o (λ last. map (valued_arc W.value) out.new.arcs.items ≡ merged [] (collected W.KIND (graph_of (valued W.value fst.now)) (pairs_of W.value closure.now)))) }
    ensures ends { IfOk result (λ o. IfSome o (λ last. W.value last ≡ best_final W.KIND (graph_of (valued W.value fst.now)) (pairs_of W.value closure.now))) }
{
    out.clear();
    let mut last = W::zero();
    for item in closure {
        let arcs = fst.arcs(item.state);
        if !out.has_room(arcs.len()) {
            return Ok(None);
        }
        if !put_few(out, arcs, item.distance)? {
            return Ok(None);
        }
        let Some(better) = better_few(last, item.distance, fst.final_weight(item.state)) else {
            return Ok(None);
        };
        last = better;
    }
    Ok(Some(last))
}

/// A closure with the distances in the wide form.
pub(crate) fn widened<W: Weight>(
    alloc: Global,
    closure: &[Reached<W>],
) -> Result<Vec<Reached<W::Wide>>, AllocError>
    ensures same { IfOk result (λ wide. map (valued_reached W.wide_value) wide.items ≡ map (valued_reached W.value) closure.now) }
    ensures wide { IfOk result (λ wide. All (λ (r : ReachedValue W.Wide). IsWide (W.wide_value r.distance)) wide.items) }
{
    let mut wide = Vec::with_capacity(alloc, closure.len())?;
    for item in closure {
        wide.push(Reached {
            state: item.state,
            distance: item.distance.widen(),
        })?;
    }
    Ok(wide)
}
