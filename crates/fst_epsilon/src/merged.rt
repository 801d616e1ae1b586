//! Arcs in the order in which they come, where arcs with equal labels and next states are one.

ghost use Rattle.std.specs.Prelude.{◌≡◌, ◌<◌, [], OnOk, length, map};
ghost use Rattle.fst_machine.specs.Machine.{valued_arc};
ghost use Rattle.fst_epsilon.specs.Construction.{put_arc};
ghost use Rattle.fst_epsilon.specs.Merging.{ArePaired, Betters, key_decides, key_number, key_of};

use fst_keys::{Code, Coded, KeySet};
use fst_machine::{FstArc, WideArc};
use fst_semiring::Weight;
use std::alloc::{AllocError, Global};

/// An odd number whose bits look random.
const FACTOR: u64 = 0x9E3779B97F4A7C15;

/// What makes arcs alike: their labels and their next states.
#[derive(Clone, Copy, PartialEq, Eq, PartialOrd, Ord)]
pub(crate) struct ArcKey {
    pub(crate) ilabel: u32,
    pub(crate) olabel: u32,
    pub(crate) next: u32,
}

/// A number of a key, which others may have: both labels side by side, and a product of the next state.
#[tactic(auto, unfolding(crate::specs::Merging::key_number))]
fn key_number(key: ArcKey) -> u64
    ensures { result ≡ key_number key }
{
    let labels = u64::from(key.ilabel) + u64::from(key.olabel) * 4_294_967_296;
    labels.wrapping_add(u64::from(key.next).wrapping_mul(FACTOR))
}

/// Where another key has its number, a key is found by all its parts.
impl Coded for ArcKey {
    type Whole = ArcKey;

    ghost code = { key_number };

    ghost whole = { λ k. k };

    ghost same = { key_decides };

    ghost apart = { λ a b e. e };

    ghost compared = { key_decides };

    fn code(&self) -> Code {
        Code {
            number: key_number(*self),
            is_alone: false,
        }
    }

    fn whole(&self, _alloc: Global) -> Result<ArcKey, AllocError> {
        Ok(*self)
    }
}

/// Gives the arc in a place a weight, where it is better than its own.
fn better<W: Weight>(arcs: &mut Vec<WideArc<W>>, place: usize, weight: W::Wide)
    requires { place < length arcs.old.items }
    ensures { Betters W.wide_value place (W.wide_value weight) arcs.old.items arcs.new.items }
{
    let old = arcs[place];
    arcs[place] = WideArc::<W> {
        ilabel: old.ilabel,
        olabel: old.olabel,
        weight: W::wide_plus(old.weight, weight),
        next: old.next,
    };
}

/// What makes an arc alike to others.
pub(crate) fn arc_key<V: Copy>(arc: &FstArc<V>) -> ArcKey
    ensures { result ≡ key_of arc.now }
{
    ArcKey {
        ilabel: arc.ilabel,
        olabel: arc.olabel,
        next: arc.next,
    }
}

/// Puts an arc after the others, or its weight into the one that is like it, where it is better. It is looked up by its key.
fn put_by_key<W: Weight>(
    keys: &mut KeySet<ArcKey>,
    arcs: &mut Vec<WideArc<W>>,
    arc: WideArc<W>,
) -> Result<(), AllocError>
    requires paired { ArePaired keys.old arcs.old.items }
    ensures paired { OnOk result (ArePaired keys.new arcs.new.items) }
    ensures arcs { OnOk result (map (valued_arc W.wide_value) arcs.new.items ≡ put_arc (map (valued_arc W.wide_value) arcs.old.items) (valued_arc W.wide_value arc)) }
{
    let (place, new) = keys.put(arc_key(&arc))?;
    if new {
        arcs.push(arc)?;
    } else {
        better::<W>(arcs, place, arc.weight);
    }
    Ok(())
}

/// Arcs no two of which are alike, in the order in which the first of each came.
#[derive(Drop)]
pub(crate) struct Merged<W: Weight> {
    /// What makes them alike, arc for arc.
    pub(crate) keys: KeySet<ArcKey>,
    /// The arcs.
    pub(crate) arcs: Vec<WideArc<W>>,
}

impl<W: Weight> Merged<W> {
    /// No arcs. Takes no memory.
    pub(crate) fn new(alloc: Global) -> Merged<W> {
        Merged {
            keys: KeySet::new(alloc),
            arcs: Vec::new(alloc),
        }
    }

    /// Drops all arcs.
    ///
    /// A table is made anew and not cleared, since clearing takes the time of its greatest length.
    pub(crate) fn clear(&mut self)
        ensures arcs { self.new.arcs.items ≡ [] }
        ensures paired { ArePaired self.new.keys self.new.arcs.items }
    {
        let alloc = *self.arcs.allocator();
        self.arcs.clear();
        self.keys = KeySet::new(alloc);
    }

    /// Puts an arc after the others, or its weight into the one that is like it, where it is better.
    pub(crate) fn put(&mut self, arc: WideArc<W>) -> Result<(), AllocError>
        requires paired { ArePaired self.old.keys self.old.arcs.items }
        ensures paired { OnOk result (ArePaired self.new.keys self.new.arcs.items) }
        ensures arcs { OnOk result (map (valued_arc W.wide_value) self.new.arcs.items ≡ put_arc (map (valued_arc W.wide_value) self.old.arcs.items) (valued_arc W.wide_value arc)) }
    {
        put_by_key::<W>(&mut self.keys, &mut self.arcs, arc)
    }
}
