//! The arcs of a subset, of its ways in order.

ghost use Rattle.std.specs.Prelude.{◌≡◌, ◌≢◌, ◌≤◌, ◌++◌, ◌∷◌, [], IfOk, Some, OnOk, All, length, map, slice_get, take};
ghost use Rattle.fst_semiring.specs.Cost.{infinite};
ghost use Rattle.fst_semiring.specs.Semiring.{IsWide};
ghost use Rattle.fst_machine.specs.BreadthFirst.{Has};
ghost use Rattle.fst_walk.specs.Names.{key_arc};
ghost use Rattle.fst_determinize.specs.Kept.{AreDivided, AreGoodWays, IsGoodWay, RisesBy, WayAs, members_as, rank, way_as, ways_as};
ghost use Rattle.fst_determinize.specs.Ways.{arc_by, arcs_by, best_of, members_of, single_arc};

use crate::fault::ArcFault;
use crate::lists::MemberList;
use crate::residual::Residual;
use crate::subset::{Held, SubsetOf, subset_of, subset_of_one};
use crate::way::WayOn;
use fst_semiring::Weight;
use fst_walk::NameArc;
use std::alloc::{AllocError, Global};

/// How many of these ways, from the first on, have a label, and the best weight of these.
fn label_run<W: Weight>(ways: &[WayOn<W::Wide>], label: u32) -> (usize, W::Wide)
    ensures few { result.0 ≤ length ways.now }
    ensures same { All (λ y. y.label ≡ label) (take result.0 ways.now) }
    ensures next { (y : WayAs W.Wide) → slice_get ways.now result.0 ≡ Some y → y.label ≢ label }
    ensures best { W.wide_value result.1 ≡ best_of (ways_as W.wide_value (take result.0 ways.now)) }
{
    let mut count = 0;
    let mut best = W::zero().widen();
    for way in ways {
        if way.label != label {
            return (count, best);
        }
        best = W::wide_plus(best, way.weight);
        count += 1;
    }
    (count, best)
}

/// How many of these ways, from the first on, lead to a state, and the best weight of these.
fn state_run<W: Weight>(ways: &[WayOn<W::Wide>], state: u32) -> (usize, W::Wide)
    ensures few { result.0 ≤ length ways.now }
    ensures same { All (λ y. y.state ≡ state) (take result.0 ways.now) }
    ensures next { (y : WayAs W.Wide) → slice_get ways.now result.0 ≡ Some y → y.state ≢ state }
    ensures best { W.wide_value result.1 ≡ best_of (ways_as W.wide_value (take result.0 ways.now)) }
{
    let mut count = 0;
    let mut least = W::zero().widen();
    for way in ways {
        if way.state != state {
            return (count, least);
        }
        least = W::wide_plus(least, way.weight);
        count += 1;
    }
    (count, least)
}

/// Puts an item after the others.
pub(crate) fn put<T: Drop>(out: &mut Vec<T>, item: T) -> Result<(), AllocError>
    ensures { OnOk result (out.new.items ≡ out.old.items ++ item ∷ []) }
{
    out.push(item)?;
    Ok(())
}

/// Puts the members of the ways of one label after the others: for each state the best weight that reaches it, divided
/// by the best of all.
fn put_members<W: Weight, R: Residual<W>>(
    out: &mut Vec<Held<R>>,
    run: &[WayOn<W::Wide>],
    best: W::Wide,
) -> Result<(), ArcFault>
    requires ways { AreDivided W.wide_value (W.wide_value best) run.now }
    requires not_zero { W.wide_value best ≢ infinite }
    requires wide { IsWide (W.wide_value best) }
    ensures { OnOk result (members_as R.value out.new.items ≡ members_as R.value out.old.items ++ members_of W.KIND (W.wide_value best) (ways_as W.wide_value run.now)) }
{
    let mut rest = run;
    while let Some(first) = rest.first() {
        let (count, least) = state_run::<W>(rest, first.state);
        let (_, others) = rest.split_at(count);
        let Some(residual) = R::keep(W::wide_divide(least, best)) else {
            return Err(ArcFault::NotKept);
        };
        let member = Held {
            state: first.state,
            residual,
        };
        put(out, member)?;
        rest = others;
    }
    Ok(())
}

/// The arc of a way that is the only one with its label: it leads to the subset of its state alone. Takes no memory.
pub(crate) fn single_arc<W: Weight, R: Residual<W>, L: MemberList<R>>(
    way: WayOn<W::Wide>,
    alloc: Global,
) -> Result<NameArc<SubsetOf<R, L>, W>, ArcFault>
    requires not_zero { W.wide_value way.weight ≢ infinite }
    requires wide { IsWide (W.wide_value way.weight) }
    ensures { IfOk result (λ a. key_arc W.wide_value a ≡ single_arc W.KIND (way_as W.wide_value way)) }
{
    let Some(residual) = R::keep(W::wide_divide(way.weight, way.weight)) else {
        return Err(ArcFault::NotKept);
    };
    let member = Held {
        state: way.state,
        residual,
    };
    Ok(NameArc {
        ilabel: way.label,
        olabel: way.label,
        weight: way.weight,
        next: subset_of_one(alloc, member),
    })
}

/// Puts the arcs of these ways after the others, by label. The members of each subset are made in a list.
pub(crate) fn put_arcs<W: Weight, R: Residual<W>, L: MemberList<R>>(
    out: &mut Vec<NameArc<SubsetOf<R, L>, W>>,
    members: &mut Vec<Held<R>>,
    ways: &[WayOn<W::Wide>],
    alloc: Global,
) -> Result<(), ArcFault>
    requires { AreGoodWays W.wide_value ways.now }
    ensures { OnOk result (map (key_arc W.wide_value) out.new.items ≡ map (key_arc W.wide_value) out.old.items ++ arcs_by W.KIND (ways_as W.wide_value ways.now)) }
{
    let mut rest = ways;
    while let Some(first) = rest.first() {
        let (count, best) = label_run::<W>(rest, first.label);
        let (run, others) = rest.split_at(count);
        members.clear();
        put_members(members, run, best)?;
        let next = subset_of(alloc, members.as_slice())?;
        let arc = NameArc {
            ilabel: first.label,
            olabel: first.label,
            weight: best,
            next,
        };
        put(out, arc)?;
        rest = others;
    }
    Ok(())
}
