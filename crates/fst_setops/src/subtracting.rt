//! The strings of one machine that another does not have.

ghost use Rattle.std.specs.Prelude.{◌≡◌, ◌↔◌, ◌<◌, ◌≤◌, ℕ, List, IfOk, IfSome, MatchOption, length, refl};
ghost use Rattle.fst_semiring.specs.Cost.{Cost};
ghost use Rattle.fst_semiring.specs.Semiring.{InRange};
ghost use Rattle.fst_machine.specs.Cycles.{IsAccessible};
ghost use Rattle.fst_machine.specs.Graph.{graph_of};
ghost use Rattle.fst_machine.specs.Machine.{IsMachine, most_states, valued};
ghost use Rattle.fst_machine.specs.Relation.{Rel};
ghost use Rattle.fst_trim.specs.Sides.{IsSortedOn};
ghost use Rattle.fst_trim.specs.declared.side.Side.TheVariants as sides;
ghost use Rattle.fst_walk.specs.Answers as walked;
ghost use Rattle.fst_walk.specs.declared.fault.WalkFault.TheVariants as walk;
ghost use Rattle.fst_setops.specs.Answers.{AreSubtractable, IsCause, IsExactly, RefusesDifference};
ghost use Rattle.fst_setops.specs.Difference.{is_final, subtraction};
ghost use Rattle.fst_setops.specs.Good.{good_rest};
ghost use Rattle.fst_setops.specs.Named.{HasNames};
ghost use Rattle.fst_setops.specs.Subtracting.{NumberedParts, Remains, Subtracts};

use crate::acceptors::split_at;
use crate::fault::DifferenceFault;
use crate::following::{RestArc, put_rests};
use crate::key::RestKey;
use crate::unweighted::{epsilon_at, weighted_at};
use fst_machine::Fst;
use fst_semiring::{Weight, is_zero};
use fst_trim::{Side, arcsort, is_sorted, not_deterministic_at, weigh};
use fst_walk::{Names, Room, WalkFault, walk};
use std::alloc::{AllocError, Global};
use std::marker::Brand;
use std::sync::ledger::Blank;

/// Whether a second part is a final state of the second machine.
fn ends<W: Weight>(b: &Fst<W>, second: Option<u32>) -> bool
    requires { IfSome second (λ q. q < length b.now.states) }
    ensures { result ≡ is_final (graph_of (valued W.value b.now)) second }
{
    match second {
        Some(state) => !is_zero(b.final_weight(state)),
        None => false,
    }
}

/// The graph of the difference of two machines, of which the second has its arcs by their labels.
#[derive(Drop)]
struct Subtracting<'a, W: Weight> {
    a: &'a Fst<W>,
    b: &'a Fst<W>,
}

impl<'a, W: Weight> Names<W> for Subtracting<'a, W> {
    type Key = RestKey;

    type Fault = AllocError;

    type Scratch = ();

    ghost graph = { λ s. subtraction W.value s.a.now s.b.now };

    ghost rest = { λ s n from. (subtraction W.value s.a.now s.b.now).arcs n };

    ghost holds = { λ s. IsMachine W.value s.a.now × IsMachine W.value s.b.now × IsSortedOn sides.Input s.b.now };

    fn start(&self) -> Option<RestKey> {
        let first = self.a.start()?;
        let second = self.b.start();
        Some(RestKey { first, second })
    }

    fn scratch(_alloc: Global) {}

    fn put_part(
        &self,
        _scratch: &mut (),
        out: &mut Vec<RestArc<W>>,
        key: &RestKey,
        _from: u32,
    ) -> Result<Option<u32>, AllocError> {
        // A name has at most as many arcs as a state of a machine, so they are put at once.
        put_rests::<W, Brand>(out, self.a, self.b, *key, Blank::new(1))?;
        Ok(None)
    }

    fn final_weight(&self, key: &RestKey) -> W::Wide {
        if ends(self.b, key.second) {
            return W::zero().widen();
        }
        self.a.final_weight(key.first).widen()
    }

    ghost whole = { λ s n. refl };

    ghost good = { λ s h n near k arc e. good_rest W.value s.a.now s.b.now h.0 h.1 n near k arc e };
}

/// Goes over the final weights of a machine, the numbers of each of which are in range. It changes nothing, and takes no
/// memory.
fn range_finals<W: Weight>(fst: &Fst<W>)
    ensures { (p : ℕ) → InRange ((graph_of (valued W.value fst.now)).final p) }
{
    for state in 0..fst.states() {
        let _last = fst.final_weight(state).widen();
    }
}

/// Why there is no difference, where the walk was stopped. No weight is out of range, since each is one of the first machine.
fn stopped(fault: WalkFault) -> DifferenceFault
    requires { (place : ℕ) → fault ≡ walk.Overflow place → ⊥ }
    ensures { IsCause fault result }
{
    match fault {
        WalkFault::StateLimit { limit } => DifferenceFault::StateLimit { limit },
        WalkFault::TooManyArcs => DifferenceFault::TooManyArcs,
        WalkFault::Overflow { state: _ } => unreachable!(),
    }
}

/// The machine of a difference or what stops its walk, where the arcs of the second machine stand by their labels. Room is made
/// for as many states and arcs as the first has.
fn walked<W: Weight>(
    alloc: Global,
    a: &Fst<W>,
    b: &Fst<W>,
    max_states: u32,
) -> Result<Result<Fst<W>, WalkFault>, AllocError>
    requires sorted { IsSortedOn sides.Input b.now }
    requires some { 0 < max_states }
    requires few { max_states ≤ most_states }
    ensures made { IfOk result (λ r. IfOk r (λ m. HasNames (subtraction W.value a.now b.now) (valued W.value m))) }
    ensures exact { IfOk result (walked.IsExactly (subtraction W.value a.now b.now) max_states) }
{
    let _seconds = b.states();
    let room = Room {
        states: a.states() as usize,
        arcs: a.arc_count() as usize,
    };
    let graph = Subtracting { a, b };
    match walk(alloc, &graph, room, max_states)? {
        Ok(made) => Ok(Ok(made.fst)),
        Err(fault) => Ok(Err(fault)),
    }
}

/// The same where the arcs of the second machine stand in any order: they are put in order once.
fn subtracted<W: Weight>(
    alloc: Global,
    a: &Fst<W>,
    b: &Fst<W>,
    max_states: u32,
) -> Result<Result<Fst<W>, WalkFault>, AllocError>
    requires some { 0 < max_states }
    requires few { max_states ≤ most_states }
    ensures made { IfOk result (λ r. IfOk r (λ m. HasNames (subtraction W.value a.now b.now) (valued W.value m))) }
    ensures exact { IfOk result (walked.IsExactly (subtraction W.value a.now b.now) max_states) }
{
    if is_sorted(b, Side::Input) {
        return walked(alloc, a, b, max_states);
    }
    let sorted = arcsort(alloc, b, Side::Input)?;
    walked(alloc, a, &sorted, max_states)
}

/// What stands against taking the second machine from the first before any walk.
fn unfit<W: Weight>(alloc: Global, a: &Fst<W>, b: &Fst<W>) -> Option<DifferenceFault>
    ensures { MatchOption result (AreSubtractable W.KIND (valued W.value a.now) (valued W.value b.now)) (λ fault. (most : ℕ) → RefusesDifference W.KIND (valued W.value a.now) (valued W.value b.now) most fault) }
{
    if let Some(split) = split_at(a, b) {
        return Some(DifferenceFault::NotAcceptor {
            second: split.second,
            state: split.state,
            place: split.place,
        });
    }
    if let Some(step) = not_deterministic_at(alloc, b) {
        return Some(DifferenceFault::NotDeterministic {
            state: step.state,
            place: step.place,
        });
    }
    if let Some(step) = epsilon_at(b) {
        return Some(DifferenceFault::HasEpsilon {
            state: step.state,
            place: step.place,
        });
    }
    if let Some(state) = weighted_at(b) {
        return Some(DifferenceFault::NotUnweighted { state });
    }
    None
}

/// The difference of an acceptor and a deterministic acceptor without epsilon and without weights: the machine of all names
/// that the start reaches, each a state of `a` and the state of `b` to which what was read leads, if there is one. It has
/// the arcs of `a`, and ends where `a` ends and `b` does not. Where `a` has no start, the result has no states. (Mohri
/// 2009, section 3.5; OpenFst manual, "Difference".)
///
/// Reading off the first parts of the names is a one-to-one map from the successful paths of the result onto those of `a`
/// whose string `b` does not have, with the same labels and weights. The start of the result reaches all its states.
///
/// `NotAcceptor` exactly where an arc has two different labels, the first machine asked first; else `NotDeterministic`
/// exactly where an arc of `b` has the label of an earlier arc of its state; else `HasEpsilon` exactly where an arc of `b`
/// has label 0. Each names the first such arc by state and then place. Else `NotUnweighted` exactly where a state of `b` has
/// an arc whose weight is not One, or a final weight that is neither One nor Zero, with the least such state; else
/// `StateLimit` exactly where the start reaches more than `max_states` names; else `TooManyArcs` exactly where these have
/// more than 33,554,432 arcs. `Memory` may come in place of any answer.
///
/// Time: linear in both machines, or n log n in the arcs of each state of `b` where these do not stand by their labels;
/// and for each arc of the result a search among the arcs of a state of `b` and a look-up. Space: the result, the arcs of
/// one state of `a`, and a copy of `b` where its arcs do not stand by their labels.
pub fn difference<W: Weight>(
    alloc: Global,
    a: &Fst<W>,
    b: &Fst<W>,
    max_states: u32,
) -> Result<Fst<W>, DifferenceFault>
    requires some { 0 < max_states }
    requires few { max_states ≤ most_states }
    ensures made { IfOk result (λ m. HasNames (subtraction W.value a.now b.now) (valued W.value m)) }
    ensures subtracts { IfOk result (λ m. (h : HasNames (subtraction W.value a.now b.now) (valued W.value m)) → Subtracts W.KIND (graph_of (valued W.value a.now)) (graph_of (valued W.value b.now)) (graph_of (valued W.value m)) (NumberedParts h.names)) }
    ensures remains { IfOk result (λ m. (x z : List ℕ) (w : Cost) → Rel W.KIND (graph_of (valued W.value m)) x z w ↔ Remains W.KIND (graph_of (valued W.value a.now)) (graph_of (valued W.value b.now)) x z w) }
    ensures accessible { IfOk result (λ m. (p : ℕ) → p < length m.states → IsAccessible (graph_of (valued W.value m)) p) }
    ensures exact { IsExactly (RefusesDifference W.KIND (valued W.value a.now) (valued W.value b.now) max_states) DifferenceFault.Memory result }
{
    if let Some(fault) = unfit(alloc, a, b) {
        return Err(fault);
    }
    // The weights of the difference are those of the first machine, so that they are in range.
    weigh(a);
    range_finals(a);
    match subtracted(alloc, a, b, max_states) {
        Ok(Ok(made)) => Ok(made),
        Ok(Err(fault)) => Err(stopped(fault)),
        Err(_) => Err(DifferenceFault::Memory),
    }
}
