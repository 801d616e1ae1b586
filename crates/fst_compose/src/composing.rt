//! The machine of all names that the start reaches.

ghost use Rattle.std.specs.Prelude.{◌≡◌, ◌⊎◌, ◌<◌, ◌≤◌, ℕ, IfOk, MatchOption, length};
ghost use Rattle.fst_machine.specs.Cycles.{IsAccessible};
ghost use Rattle.fst_machine.specs.Graph.{graph_of};
ghost use Rattle.fst_machine.specs.Machine.{IsMachine, most_states, valued};
ghost use Rattle.fst_walk.specs.Answers.{IsNamed};
ghost use Rattle.fst_compose.specs.Answers.{IsExact, IsExactly, IsSorted, cause_of};
ghost use Rattle.fst_compose.specs.Composition.{composition};
ghost use Rattle.fst_compose.specs.Matching.{IsOrdered, composition_rest};
ghost use Rattle.fst_compose.specs.Good.{good_arc, rest_whole};
ghost use Rattle.fst_compose.specs.Theorem.{IsComposition};

use crate::expanding::key_final;
use crate::fault::ComposeFault;
use crate::key::{ComposeKey, KeyArc, key_at};
use crate::matching::Ordered;
use crate::parts::put_part;
use fst_machine::Fst;
use fst_semiring::Weight;
use fst_trim::{Side, is_sorted};
use fst_walk::{Names, Room, WalkFault, Walked, walk};
use std::alloc::{AllocError, Global};
use std::marker::Brand;
use std::sync::ledger::Blank;

/// A composition: its machine, and the names of the states of this in the order of their numbers.
pub type Composed<W> = Walked<ComposeKey, W>;

/// The graph of the composition of two machines.
#[derive(Drop)]
struct Composing<'a, W: Weight> {
    a: &'a Fst<W>,
    b: &'a Fst<W>,
    ordered: Ordered,
    alloc: Global,
}

impl<'a, W: Weight> Names<W> for Composing<'a, W> {
    type Key = ComposeKey;

    type Fault = AllocError;

    type Scratch = ();

    ghost graph = { λ s. composition W.KIND W.value s.a.now s.b.now };

    ghost rest = { λ s n from. composition_rest s.ordered W.KIND W.value s.a.now s.b.now n from };

    ghost holds = { λ s. IsMachine W.value s.a.now × IsMachine W.value s.b.now × IsOrdered s.ordered s.a.now s.b.now };

    fn start(&self) -> Option<ComposeKey> {
        let (Some(first), Some(second)) = (self.a.start(), self.b.start()) else {
            return None;
        };
        Some(key_at(first, second, 0))
    }

    fn scratch(_alloc: Global) {}

    fn put_part(
        &self,
        _scratch: &mut (),
        out: &mut Vec<KeyArc<W>>,
        key: &ComposeKey,
        from: u32,
    ) -> Result<Option<u32>, AllocError> {
        put_part::<W, Brand>(
            self.alloc,
            out,
            self.a,
            self.b,
            *key,
            self.ordered,
            from,
            Blank::new(1),
        )
    }

    fn final_weight(&self, key: &ComposeKey) -> W::Wide {
        key_final(self.a, self.b, *key)
    }

    ghost whole = { λ s n. rest_whole s.ordered W.KIND W.value s.a.now s.b.now n };

    ghost good = { λ s h n near k arc e. good_arc W.KIND W.value s.a.now s.b.now h.0 h.1 n near k arc e };
}

/// Which of two machines have their arcs in order; `None` where neither has, and they may not be composed.
fn order_of<W: Weight>(a: &Fst<W>, b: &Fst<W>) -> Option<Ordered>
    ensures { MatchOption result (IsSorted a.now b.now → ⊥) (λ ordered. IsOrdered ordered a.now b.now) }
{
    match (is_sorted(a, Side::Output), is_sorted(b, Side::Input)) {
        (true, true) => Some(Ordered::Both),
        (true, false) => Some(Ordered::First),
        (false, true) => Some(Ordered::Second),
        (false, false) => None,
    }
}

/// Why there is no composition, where the walk was stopped.
fn stopped(fault: WalkFault) -> ComposeFault
    ensures { result ≡ cause_of fault }
{
    match fault {
        WalkFault::StateLimit { limit } => ComposeFault::StateLimit { limit },
        WalkFault::TooManyArcs => ComposeFault::TooManyArcs,
        WalkFault::Overflow { state } => ComposeFault::Overflow { state },
    }
}

/// The composition or why there is none, with memory apart. Room is made for as many states and arcs as both machines
/// have.
fn composed<W: Weight>(
    alloc: Global,
    a: &Fst<W>,
    b: &Fst<W>,
    max_states: u32,
) -> Result<Result<Composed<W>, ComposeFault>, AllocError>
    requires some { 0 < max_states }
    requires few { max_states ≤ most_states }
    ensures made { IfOk result (λ r. IfOk r (λ c. IsNamed (composition W.KIND W.value a.now b.now) c.names (valued W.value c.fst))) }
    ensures exact { IfOk result (IsExact W.KIND (valued W.value a.now) (valued W.value b.now) max_states) }
{
    let Some(ordered) = order_of(a, b) else {
        return Ok(Err(ComposeFault::NotSorted));
    };
    let room = Room {
        states: a.states() as usize + b.states() as usize,
        arcs: a.arc_count() as usize + b.arc_count() as usize,
    };
    let graph = Composing {
        a,
        b,
        ordered,
        alloc,
    };
    match walk(alloc, &graph, room, max_states)? {
        Ok(made) => Ok(Ok(made)),
        Err(fault) => Ok(Err(stopped(fault))),
    }
}

/// The composition of two machines, of which the first has its arcs by their output labels or the second by their
/// input labels: the machine of all names that the start reaches, numbered in breadth-first order. Where a machine has
/// no start, the result has no states. (Mohri 2009, section 4.1; OpenFst manual, "Compose".)
///
/// Each successful path of the result is read off to one path of each machine, of which the first writes what the second
/// reads, and each such pair is read off from one path. So the result relates what `a` does, followed by what `b` does,
/// with the product of the weights. The start of the result reaches all its states.
///
/// `NotSorted` exactly where neither machine has its arcs in this order; else `StateLimit` exactly where the start
/// reaches more than `max_states` names, which is answered as soon as so many are found; else `TooManyArcs` exactly
/// where these have more than 33,554,432 arcs; else `Overflow` exactly where a weight has a number of absolute value
/// above 10 to the 18, with the first state that has such a weight. `Memory` may come in place of any answer. States
/// after the first that does not fit are not kept.
///
/// Time: where both machines have their arcs in order, for each name one look at the arcs of both its states, or a search
/// of the longer of the two for each label or arc of the other where it has many times as many arcs; where one machine
/// has, as `expand_counted` by its side. And a look-up for each arc of the result. Space: the result, and the arcs of one
/// name. Where the second machine has its arcs in order and the two states of a name have more than 262,144 pairs of arcs,
/// which have one label where the first machine has too, its arcs are put in parts, and there is room for a part beside the
/// result: for 16,384 arcs and those that 16 arcs of the first state give. Then the arcs of the second state are searched
/// for each arc of the first.
pub fn compose<W: Weight>(
    alloc: Global,
    a: &Fst<W>,
    b: &Fst<W>,
    max_states: u32,
) -> Result<Composed<W>, ComposeFault>
    requires some { 0 < max_states }
    requires few { max_states ≤ most_states }
    ensures made { IfOk result (λ c. IsNamed (composition W.KIND W.value a.now b.now) c.names (valued W.value c.fst)) }
    ensures composes { IfOk result (λ c. IsComposition W.KIND (graph_of (valued W.value a.now)) (graph_of (valued W.value b.now)) c.names (valued W.value c.fst)) }
    ensures accessible { IfOk result (λ c. (p : ℕ) → p < length c.fst.states → IsAccessible (graph_of (valued W.value c.fst)) p) }
    ensures exact { IsExactly W.KIND (valued W.value a.now) (valued W.value b.now) max_states result }
{
    match composed(alloc, a, b, max_states) {
        Ok(made) => made,
        // A lack of memory becomes a fault here alone.
        Err(_) => Err(ComposeFault::Memory),
    }
}
