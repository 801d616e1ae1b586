//! The lattice of a line as a machine.

ghost use Rattle.std.specs.Prelude.{◌≡◌, ◌+◌, ◌<◌, IfOk, MatchBool, MatchOption, OnOk, length};
ghost use Rattle.fst_semiring.specs.Semiring.{Within};
ghost use Rattle.fst_machine.specs.Machine.{most_arcs, valued};
ghost use Rattle.fst_walk.specs.Making.{arcs_of};
ghost use Rattle.fst_delayed.specs.Caches.{IsTrueOf, keys};
ghost use Rattle.fst_delayed.specs.Graphs.{IsKeyOf, delayed_graph};
ghost use Rattle.fst_lattice.specs.Lattice.{lattice, point};
ghost use Rattle.fst_batch.specs.Building.{IsWhole};
ghost use Rattle.fst_batch.specs.Filling.{AreSmall, IsFilling, IsMadeOf};

use crate::filling::{blank_machine, fill_state};
use crate::numbering::number_point;
use fst_delayed::{Cache, ComposeKey, Composed};
use fst_lattice::Points;
use fst_machine::{MOST_ARCS, WideArc, WideFst};
use fst_semiring::Weight;
use std::alloc::{AllocError, Global};

/// The final weight of a name of the lattice of a line.
fn last_weight<W: Weight, D: Composed<W>>(
    delayed: &D,
    line: &[u8],
    position: u64,
    name: ComposeKey,
) -> W::Wide
    requires { IsKeyOf (D.machines delayed.now) name }
    ensures range { Within 2000000000000000000 (W.wide_value result) }
    ensures value { W.wide_value result ≡ (lattice line.now (delayed_graph W.KIND W.value (D.machines delayed.now))).final (point position name) }
{
    if position == line.len() as u64 {
        delayed.last_weight(name)
    } else {
        W::zero().widen()
    }
}

/// Fills the state of the name in a place. False where there are then too many arcs. The list `made` is for the arcs of a name.
fn put_point<W: Weight, D: Composed<W>>(
    fst: &mut WideFst<W>,
    made: &mut Vec<WideArc<W>>,
    delayed: &D,
    line: &[u8],
    cache: &Cache<W>,
    points: &Points,
    place: usize,
) -> Result<bool, AllocError>
    requires entries { IsTrueOf W.wide_value (delayed_graph W.KIND W.value (D.machines delayed.now)) cache.now }
    requires whole { IsWhole W.KIND W.value (D.machines delayed.now) line.now (keys cache.now) points.now }
    requires place { place < length points.now }
    requires filling { IsFilling (lattice line.now (delayed_graph W.KIND W.value (D.machines delayed.now))) points.now place (valued W.wide_value fst.old) }
    requires small { AreSmall (valued W.wide_value fst.old) }
    ensures small { OnOk result (AreSmall (valued W.wide_value fst.new)) }
    ensures filling { IfOk result (λ fits. MatchBool fits (IsFilling (lattice line.now (delayed_graph W.KIND W.value (D.machines delayed.now))) points.now (place + 1) (valued W.wide_value fst.new)) (most_arcs < arcs_of (lattice line.now (delayed_graph W.KIND W.value (D.machines delayed.now))) points.now)) }
{
    delayed.arcs_are_small();
    let (position, name) = points.item(place);
    let Some((arcs, ascends)) = cache.find(name) else {
        unreachable!()
    };
    number_point(made, points, arcs, ascends, line, position)?;
    let room = MOST_ARCS.saturating_sub(fst.arc_count());
    if made.len() > room as usize {
        return Ok(false);
    }
    let last = last_weight(delayed, line, position, name);
    fill_state(fst, place as u32, last, made)?;
    Ok(true)
}

/// The machine of the lattice of a line, whose names these are, numbered in their order; `None` exactly where it has too many arcs.
/// The cache has the arcs of all their names in the composition.
pub(crate) fn lattice_machine<W: Weight, D: Composed<W>>(
    alloc: Global,
    delayed: &D,
    line: &[u8],
    cache: &Cache<W>,
    points: &Points,
) -> Result<Option<WideFst<W>>, AllocError>
    requires entries { IsTrueOf W.wide_value (delayed_graph W.KIND W.value (D.machines delayed.now)) cache.now }
    requires whole { IsWhole W.KIND W.value (D.machines delayed.now) line.now (keys cache.now) points.now }
    requires some { 0 < length points.now }
    ensures { IfOk result (λ made. MatchOption made (most_arcs < arcs_of (lattice line.now (delayed_graph W.KIND W.value (D.machines delayed.now))) points.now) (λ fst. IsMadeOf (lattice line.now (delayed_graph W.KIND W.value (D.machines delayed.now))) points.now (valued W.wide_value fst))) }
{
    let mut fst = blank_machine(alloc, points.len())?;
    let mut made = Vec::new(alloc);
    for place in 0..points.len() {
        if !put_point(&mut fst, &mut made, delayed, line, cache, points, place)? {
            return Ok(None);
        }
    }
    let _states = fst.states();
    Ok(Some(fst))
}
