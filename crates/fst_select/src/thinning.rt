//! A machine with the arcs and final weights alone that good paths have.

ghost use Rattle.std.specs.Prelude.{◌≡◌, ◌<◌, ℕ, All, IfOk, OnOk, Some, filter, length, slice_get};
ghost use Rattle.fst_semiring.specs.Cost.{infinite};
ghost use Rattle.fst_semiring.specs.Semiring.{times, IsWide, Within};
ghost use Rattle.fst_machine.specs.Machine.{valued};
ghost use Rattle.fst_distance.specs.Values.{value_in};
ghost use Rattle.fst_select.specs.Thinned.{arc_passes, is_within, last_of, most_sum, thinned, thinned_states};

use fst_machine::{Fst, FstArc, StateList};
use fst_search::is_zero_wide;
use fst_semiring::Weight;
use std::alloc::{AllocError, Global};
use std::cmp::Ordering;

/// Whether a weight is not Zero, and no worse than the bound.
fn is_within<W: Weight>(bound: W::Wide, weight: W::Wide) -> bool
    ensures { result ≡ is_within (W.wide_value bound) (W.wide_value weight) }
{
    if is_zero_wide::<W>(weight) {
        return false;
    }
    match W::wide_compare(bound, weight) {
        Ordering::Less => false,
        _ => true,
    }
}

/// Whether the best paths by an arc of this weight are within the bound, where its state has the first of these distances
/// from the start, and its end the second to the final states.
fn passes<W: Weight>(bound: W::Wide, own: W::Wide, weight: W, ahead: W::Wide) -> bool
    requires own { Within most_sum (W.wide_value own) }
    requires ahead { Within most_sum (W.wide_value ahead) }
    ensures { result ≡ is_within (W.wide_value bound) (times W.KIND (W.wide_value own) (times W.KIND (W.value weight) (W.wide_value ahead))) }
{
    let rest = W::wide_times(weight.widen(), ahead);
    is_within::<W>(bound, W::wide_times(own, rest))
}

/// Fills a list with the arcs whose best paths are within the bound.
fn keep_arcs<W: Weight>(
    kept: &mut Vec<FstArc<W>>,
    arcs: &[FstArc<W>],
    to_finals: &[W::Wide],
    bound: W::Wide,
    own: W::Wide,
) -> Result<(), AllocError>
    requires ends { All (λ a. a.next < length to_finals.now) arcs.now }
    requires own { Within most_sum (W.wide_value own) }
    requires range { (q : ℕ) (d : W.Wide) → slice_get to_finals.now q ≡ Some d → Within most_sum (W.wide_value d) }
    ensures { OnOk result (kept.new.items ≡ filter (arc_passes W.value W.KIND (W.wide_value bound) (value_in W.wide_value to_finals.now) (W.wide_value own)) arcs.now) }
{
    kept.clear();
    for arc in arcs {
        let ahead = to_finals[arc.next as usize];
        if !passes::<W>(bound, own, arc.weight, ahead) {
            continue;
        }
        kept.push(FstArc {
            ilabel: arc.ilabel,
            olabel: arc.olabel,
            weight: arc.weight,
            next: arc.next,
        })?;
    }
    Ok(())
}

/// The final weight of a state, where the best paths that end with it are within the bound; else Zero.
fn last_weight<W: Weight>(bound: W::Wide, own: W::Wide, last: W, none: W) -> W
    requires { Within most_sum (W.wide_value own) }
    ensures { result ≡ last_of W.value W.KIND (W.wide_value bound) none (W.wide_value own) last }
{
    if is_within::<W>(bound, W::wide_times(own, last.widen())) {
        return last;
    }
    none
}

/// The states with the arcs and final weights that stay.
fn thin_states<W: Weight>(
    alloc: Global,
    fst: &Fst<W>,
    from_start: &[W::Wide],
    to_finals: &[W::Wide],
    bound: W::Wide,
    none: W,
) -> Result<StateList<W>, AllocError>
    requires start_size { length from_start.now ≡ length fst.now.states }
    requires final_size { length to_finals.now ≡ length fst.now.states }
    requires start_range { (q : ℕ) (d : W.Wide) → slice_get from_start.now q ≡ Some d → Within most_sum (W.wide_value d) }
    requires final_range { (q : ℕ) (d : W.Wide) → slice_get to_finals.now q ≡ Some d → Within most_sum (W.wide_value d) }
    ensures { IfOk result (λ states. states ≡ thinned_states W.value W.KIND (W.wide_value bound) none (value_in W.wide_value from_start.now) (value_in W.wide_value to_finals.now) 0 fst.now.states) }
{
    let mut states = StateList::with_capacity(
        alloc,
        fst.states() as usize,
        fst.arc_count() as usize,
    )?;
    let mut kept = Vec::new(alloc);
    for state in 0..fst.states() {
        let own = from_start[state as usize];
        keep_arcs(&mut kept, fst.arcs(state), to_finals, bound, own)?;
        let last = last_weight(bound, own, fst.final_weight(state), none);
        states.push(last, kept.as_slice())?;
    }
    Ok(states)
}

/// The machine with the arcs and final weights that stay.
pub(crate) fn thin<W: Weight>(
    alloc: Global,
    fst: &Fst<W>,
    from_start: &[W::Wide],
    to_finals: &[W::Wide],
    bound: W::Wide,
) -> Result<Fst<W>, AllocError>
    requires start_size { length from_start.now ≡ length fst.now.states }
    requires final_size { length to_finals.now ≡ length fst.now.states }
    requires start_range { (q : ℕ) (d : W.Wide) → slice_get from_start.now q ≡ Some d → Within most_sum (W.wide_value d) }
    requires final_range { (q : ℕ) (d : W.Wide) → slice_get to_finals.now q ≡ Some d → Within most_sum (W.wide_value d) }
    ensures { IfOk result (λ t. valued W.value t ≡ thinned (λ v. v) W.KIND (W.wide_value bound) infinite (value_in W.wide_value from_start.now) (value_in W.wide_value to_finals.now) (valued W.value fst.now)) }
{
    let _states = fst.states();
    let none = W::zero();
    let states = thin_states(alloc, fst, from_start, to_finals, bound, none)?;
    Ok(states.into_machine(fst.start()))
}
