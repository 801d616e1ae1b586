//! The ways from a subset.

ghost use Rattle.std.specs.Prelude.{◌≡◌, ◌<◌, ◌≤◌, ◌+◌, ◌*◌, ◌++◌, true, OnOk, All, length, map};
ghost use Rattle.fst_semiring.specs.Semiring.{Within, times};
ghost use Rattle.fst_machine.specs.Graph.{graph_of};
ghost use Rattle.fst_machine.specs.Machine.{valued, valued_arc};
ghost use Rattle.fst_determinize.specs.Kept.{IsModest, member_as, members_as, rank, way_as, ways_as};
ghost use Rattle.fst_determinize.specs.Ways.{way_by, ways};
ghost use Rattle.std.specs.List.Sorted.{IsNonDecreasingBy, IsPermutation};

use crate::residual::Residual;
use crate::subset::Held;
use fst_machine::{Fst, FstArc};
use fst_semiring::{Weight, is_zero};
use std::alloc::AllocError;
use std::marker::Model;

/// An arc of a member, with the weight of residual and arc together.
#[derive(Clone, Copy)]
pub(crate) struct WayOn<V> {
    /// The state to which it leads. It stands in front of the label, so that both are read at once as a rank.
    pub(crate) state: u32,
    /// The label.
    pub(crate) label: u32,
    /// The residual Times the weight of the arc.
    pub(crate) weight: V,
}

impl<V> Model for WayOn<V> {
    ghost use Rattle.fst_determinize.specs.Kept.{WayAs};

    ghost Value = { WayAs V };

    ghost view = { λ y. record { label = y.label; state = y.state; weight = y.weight } };

    ghost inverse = { λ y. record { label = y.label; state = y.state; weight = y.weight } };
}

/// A residual Times a weight.
pub(crate) fn further<W: Weight, R: Residual<W>>(residual: R, weight: W) -> W::Wide
    requires { IsModest (R.value residual) }
    ensures { W.wide_value result ≡ times W.KIND (R.value residual) (W.value weight) }
{
    W::wide_times(residual.wide(), weight.widen())
}

/// A residual Times a final weight. Most states are not final, and nothing is computed with their weights.
pub(crate) fn further_final<W: Weight, R: Residual<W>>(residual: R, last: W) -> W::Wide
    requires { IsModest (R.value residual) }
    ensures { W.wide_value result ≡ times W.KIND (R.value residual) (W.value last) }
{
    if is_zero(last) {
        return last.widen();
    }
    further(residual, last)
}

/// The way of a member by an arc.
pub(crate) fn way_of<W: Weight, R: Residual<W>>(member: Held<R>, arc: FstArc<W>) -> WayOn<W::Wide>
    requires { IsModest (R.value member.residual) }
    ensures { way_as W.wide_value result ≡ way_by W.KIND (member_as R.value member) (valued_arc W.value arc) }
{
    WayOn {
        label: arc.ilabel,
        state: arc.next,
        weight: further(member.residual, arc.weight),
    }
}

/// Puts the ways of a member by these arcs after the others.
// Most states have few arcs, so that a call would cost about as much as what it does.
#[inline(always)]
pub(crate) fn put_arc_ways<W: Weight, R: Residual<W>>(
    out: &mut Vec<WayOn<W::Wide>>,
    arcs: &[FstArc<W>],
    member: Held<R>,
) -> Result<(), AllocError>
    requires { IsModest (R.value member.residual) }
    ensures { OnOk result (ways_as W.wide_value out.new.items ≡ ways_as W.wide_value out.old.items ++ map (way_by W.KIND (member_as R.value member)) (map (valued_arc W.value) arcs.now)) }
{
    for arc in arcs {
        out.push(way_of(member, *arc))?;
    }
    Ok(())
}

/// Puts the ways of these members after the others.
pub(crate) fn put_ways<W: Weight, R: Residual<W>>(
    out: &mut Vec<WayOn<W::Wide>>,
    fst: &Fst<W>,
    members: &[Held<R>],
) -> Result<(), AllocError>
    requires states { All (λ h. h.state < length fst.now.states) members.now }
    requires modest { All (λ h. IsModest (R.value h.residual)) members.now }
    ensures { OnOk result (ways_as W.wide_value out.new.items ≡ ways_as W.wide_value out.old.items ++ ways W.KIND (graph_of (valued W.value fst.now)) (members_as R.value members.now)) }
{
    for member in members {
        put_arc_ways(out, fst.arcs(member.state), *member)?;
    }
    Ok(())
}

/// A number by which ways stand by label, and by state where they have one label.
fn rank_of<V: Copy>(way: WayOn<V>) -> u64
    ensures { result ≡ rank way }
{
    u64::from(way.label) * 4_294_967_296 + u64::from(way.state)
}

/// Puts ways in the order of their ranks. Where they stand so, that costs one comparison each. Takes no memory.
pub(crate) fn sort_ways<V: Copy>(ways: &mut Vec<WayOn<V>>)
    ensures same { IsPermutation ways.old.items ways.new.items }
    ensures ranked { IsNonDecreasingBy rank ways.new.items }
{
    ways.sort_unstable_by_key(|way| rank_of(*way));
}
