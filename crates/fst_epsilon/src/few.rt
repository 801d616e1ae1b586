//! Few arcs in the order in which they come, where arcs with equal labels and next states are one: they are looked through
//! one by one, and their weights are in range.

ghost use Rattle.std.specs.Prelude.{◌≡◌, ◌<◌, [], All, MatchOption, OnOk, length, map};
ghost use Rattle.fst_semiring.specs.Semiring.{InRange};
ghost use Rattle.fst_machine.specs.Machine.{valued_arc};
ghost use Rattle.fst_epsilon.specs.Construction.{put_arc};
ghost use Rattle.fst_epsilon.specs.Merging.{AreMarked, Betters, HasNoKey, IsFirstWithKey, same_key, spot_of};

use crate::merged::{ArcKey, arc_key};
use fst_machine::FstArc;
use fst_semiring::Weight;
use std::alloc::{AllocError, Global};

/// Up to so many arcs are looked through one by one.
const FEW: usize = 48;

/// Gives the arc in a place a weight, where it is better than its own.
fn better<W: Weight>(arcs: &mut Vec<FstArc<W>>, place: usize, weight: W)
    requires { place < length arcs.old.items }
    ensures better { Betters W.value place (W.value weight) arcs.old.items arcs.new.items }
    ensures range { All (λ a. InRange (W.value a.weight)) arcs.old.items → All (λ a. InRange (W.value a.weight)) arcs.new.items }
{
    let old = arcs[place];
    let best = old.weight.plus(weight);
    let _range = best.widen();
    arcs[place] = FstArc {
        ilabel: old.ilabel,
        olabel: old.olabel,
        weight: best,
        next: old.next,
    };
}

/// The spot of a key.
fn spot_of(key: ArcKey) -> usize
    ensures spot { result ≡ spot_of key }
    ensures low { result < 64 }
{
    let sum = u64::from(key.ilabel) + 5 * u64::from(key.olabel) + 9 * u64::from(key.next);
    (sum % 64) as usize
}

/// Whether two keys are one.
fn is_same(a: ArcKey, b: ArcKey) -> bool
    ensures { result ≡ same_key a b }
{
    a.ilabel == b.ilabel && a.olabel == b.olabel && a.next == b.next
}

/// The place of the first of these arcs that has a key.
fn place_of<V: Copy>(arcs: &[FstArc<V>], key: ArcKey) -> Option<usize>
    ensures { MatchOption result (HasNoKey key arcs.now) (IsFirstWithKey key arcs.now) }
{
    for (place, arc) in arcs.iter().enumerate() {
        if is_same(key, arc_key(arc)) {
            return Some(place);
        }
    }
    None
}

/// Puts an arc after the others, or its weight into the one that is like it, where it is better. Where the spot of its key
/// is marked, the others are looked through one by one; where it is not, none is like it.
fn put_by_place<W: Weight>(
    spots: &mut [bool; 64],
    arcs: &mut Vec<FstArc<W>>,
    arc: FstArc<W>,
) -> Result<(), AllocError>
    requires marked { AreMarked spots.old arcs.old.items }
    requires range { All (λ a. InRange (W.value a.weight)) arcs.old.items }
    requires own { InRange (W.value arc.weight) }
    ensures marked { OnOk result (AreMarked spots.new arcs.new.items) }
    ensures range { OnOk result (All (λ a. InRange (W.value a.weight)) arcs.new.items) }
    ensures arcs { OnOk result (map (valued_arc W.value) arcs.new.items ≡ put_arc (map (valued_arc W.value) arcs.old.items) (valued_arc W.value arc)) }
{
    let key = arc_key(&arc);
    let spot = spot_of(key);
    if !spots[spot] {
        spots[spot] = true;
        arcs.push(arc)?;
        return Ok(());
    }
    match place_of(arcs.as_slice(), key) {
        Some(place) => better::<W>(arcs, place, arc.weight),
        None => arcs.push(arc)?,
    }
    Ok(())
}

/// Few arcs no two of which are alike, in the order in which the first of each came.
#[derive(Drop)]
pub(crate) struct Few<W: Weight> {
    /// What stands before the weights of the arcs that are put. It stands beside them, so that nothing is worked out of it
    /// for each state which no arc of the state needs.
    pub(crate) distance: W,
    /// Which of 64 spots an arc has.
    pub(crate) spots: [bool; 64],
    /// The arcs.
    pub(crate) arcs: Vec<FstArc<W>>,
}

impl<W: Weight> Few<W> {
    /// No arcs. Takes no memory.
    pub(crate) fn new(alloc: Global) -> Few<W> {
        Few {
            distance: W::one(),
            spots: [false; 64],
            arcs: Vec::new(alloc),
        }
    }

    /// Drops all arcs.
    pub(crate) fn clear(&mut self)
        ensures arcs { self.new.arcs.items ≡ [] }
        ensures marked { AreMarked self.new.spots self.new.arcs.items }
    {
        self.arcs.clear();
        self.spots = [false; 64];
    }

    /// Whether with so many more there are still few.
    pub(crate) fn has_room(&self, count: usize) -> bool {
        count <= FEW && self.arcs.len() <= FEW - count
    }

    /// Puts an arc after the others, or its weight into the one that is like it, where it is better.
    pub(crate) fn put(&mut self, arc: FstArc<W>) -> Result<(), AllocError>
        requires marked { AreMarked self.old.spots self.old.arcs.items }
        requires range { All (λ a. InRange (W.value a.weight)) self.old.arcs.items }
        requires own { InRange (W.value arc.weight) }
        ensures distance { self.new.distance ≡ self.old.distance }
        ensures marked { OnOk result (AreMarked self.new.spots self.new.arcs.items) }
        ensures range { OnOk result (All (λ a. InRange (W.value a.weight)) self.new.arcs.items) }
        ensures arcs { OnOk result (map (valued_arc W.value) self.new.arcs.items ≡ put_arc (map (valued_arc W.value) self.old.arcs.items) (valued_arc W.value arc)) }
    {
        put_by_place::<W>(&mut self.spots, &mut self.arcs, arc)
    }
}
