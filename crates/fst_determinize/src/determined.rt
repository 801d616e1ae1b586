//! The deterministic machine of an acceptor, with the subsets that its states stand for.

ghost use Rattle.std.specs.Prelude.{◌≡◌, ◌<◌, ◌≤◌, List, IfOk, Some, length, slice_get};
ghost use Rattle.fst_determinize.specs.Subsets.{Member};
ghost use Rattle.fst_machine.specs.Graph.{graph_of};
ghost use Rattle.fst_machine.specs.Machine.{most_states, valued};
ghost use Rattle.fst_trim.specs.FirstArcs as arcs;
ghost use Rattle.fst_walk.specs.Answers.{IsNamed};
ghost use Rattle.fst_determinize.specs.Answers.{IsExact, IsExactly, cause_of};
ghost use Rattle.fst_determinize.specs.Theorem.{AreSubsets, IsDeterminized};
ghost use Rattle.fst_trim.specs.Weighed.{IsWeighted};
ghost use Rattle.fst_determinize.specs.Ways.{subsets};
ghost use Rattle.fst_trim.specs.Weighed.{IsWeighed};

use crate::determinizing::walk_subsets;
use crate::fault::{ArcFault, DeterminizeFault};
use crate::lists::{MemberList, SubsetWeight};
use crate::on_demand::Subset;
use crate::residual::{Broad, Narrow, Residual};
use crate::subset::SubsetOf;
use fst_machine::Fst;
use fst_semiring::Weight;
use fst_trim::{not_acceptor_at, weigh};
use fst_walk::{NameTable, WalkFault, Walked};
use std::alloc::{AllocError, Global};
use std::marker::Model;

/// Subsets, each once, in the order of the states that stand for them.
#[derive(Drop)]
pub struct Subsets<W: SubsetWeight> {
    /// Those whose residuals are in the form of weights.
    narrow: NameTable<SubsetOf<Narrow<W>, W::NarrowList>>,
    /// Those whose residuals are in the wide form, which stand behind. One of the two tables is empty.
    broad: NameTable<Subset<W>>,
}

impl<W: SubsetWeight> Model for Subsets<W> {
    ghost use Rattle.std.specs.Prelude.{◌≡◌, ◌⊎◌, List, [], ◌++◌};
    ghost use Rattle.fst_determinize.specs.Subsets.{Member};

    ghost Value = { List (List Member) };

    ghost view = { λ s. s.narrow ++ s.broad };

    ghost invariant = { λ s. (s.narrow ≡ []) ⊎ (s.broad ≡ []) };
}

impl<W: SubsetWeight> Subsets<W> {
    /// How many subsets there are. Takes no memory.
    pub fn len(&self) -> usize
        ensures { result ≡ length self.now }
    {
        let narrow = self.narrow.len();
        if narrow > 0 {
            return narrow;
        }
        self.broad.len()
    }

    /// The member in a place of the subset in a place, both from 0: its state, and its residual. Takes no memory.
    pub fn item(&self, index: usize, place: usize) -> (u32, W::Wide)
        requires { (s : List Member) × (slice_get self.now index ≡ Some s) × (place < length s) }
        ensures { (s : List Member) → slice_get self.now index ≡ Some s → slice_get s place ≡ Some (record { state = result.0; residual = W.wide_value result.1 }) }
    {
        let narrow = self.narrow.len();
        if narrow > 0 {
            return member_at(self.narrow.item(index), place);
        }
        member_at(self.broad.item(index), place)
    }
}

/// The member of a subset in a place: its state, and its residual in the wide form.
fn member_at<W: Weight, R: Residual<W>, L: MemberList<R>>(
    subset: &SubsetOf<R, L>,
    place: usize,
) -> (u32, W::Wide)
    requires { place < length subset.now }
    ensures { slice_get subset.now place ≡ Some (record { state = result.0; residual = W.wide_value result.1 }) }
{
    let member = subset.item(place);
    (member.state, member.residual.wide())
}

/// A deterministic machine, and the subsets that its states stand for.
#[derive(Drop)]
pub struct Determined<W: SubsetWeight> {
    /// The machine.
    pub fst: Fst<W>,
    /// The subsets, in the order of the numbers of their states.
    pub subsets: Subsets<W>,
}

/// Why there is no deterministic machine, where the walk was stopped.
fn stopped(fault: WalkFault) -> DeterminizeFault
    ensures { result ≡ cause_of fault }
{
    match fault {
        WalkFault::StateLimit { limit } => DeterminizeFault::StateLimit { limit },
        WalkFault::TooManyArcs => DeterminizeFault::TooManyArcs,
        WalkFault::Overflow { state } => DeterminizeFault::Overflow { state },
    }
}

/// The machine with subsets in the form of weights.
fn narrowly<W: SubsetWeight>(
    alloc: Global,
    made: Walked<SubsetOf<Narrow<W>, W::NarrowList>, W>,
) -> Determined<W>
    ensures fst { result.fst ≡ made.fst }
    ensures subsets { result.subsets ≡ made.names }
{
    Determined {
        fst: made.fst,
        subsets: Subsets {
            narrow: made.names,
            broad: NameTable::new(alloc),
        },
    }
}

/// The machine with subsets in the wide form.
fn broadly<W: SubsetWeight>(alloc: Global, made: Walked<Subset<W>, W>) -> Determined<W>
    ensures fst { result.fst ≡ made.fst }
    ensures subsets { result.subsets ≡ made.names }
{
    Determined {
        fst: made.fst,
        subsets: Subsets {
            narrow: NameTable::new(alloc),
            broad: made.names,
        },
    }
}

/// The deterministic machine with residuals in the wide form, or why there is none, with memory apart.
fn made_broad<W: SubsetWeight>(
    alloc: Global,
    fst: &Fst<W>,
    max_states: u32,
) -> Result<Result<Determined<W>, DeterminizeFault>, AllocError>
    requires weighed { IsWeighed W.KIND W.value fst.now }
    requires acceptor { arcs.IsAcceptor fst.now }
    requires some { 0 < max_states }
    requires few { max_states ≤ most_states }
    ensures made { IfOk result (λ r. IfOk r (λ d. IsNamed (subsets W.KIND (graph_of (valued W.value fst.now))) d.subsets (valued W.value d.fst))) }
    ensures exact { IfOk result (IsExact W.KIND W.value fst.now max_states) }
{
    match walk_subsets::<W, Broad<W, W::Wide>, W::BroadList>(alloc, fst, max_states) {
        Ok(Ok(made)) => Ok(Ok(broadly(alloc, made))),
        Ok(Err(fault)) => Ok(Err(stopped(fault))),
        // Each residual has a wide form, so memory alone is lacking.
        Err(_) => Err(AllocError),
    }
}

/// The deterministic machine or why there is none, with memory apart. Residuals are kept in the form of weights;
/// where one does not fit, all is made again with residuals in the wide form. (It may lie on a way that leads to no
/// final state, so that it says nothing of the weights of the result.)
fn made_narrow<W: SubsetWeight>(
    alloc: Global,
    fst: &Fst<W>,
    max_states: u32,
) -> Result<Result<Determined<W>, DeterminizeFault>, AllocError>
    requires weighed { IsWeighed W.KIND W.value fst.now }
    requires acceptor { arcs.IsAcceptor fst.now }
    requires some { 0 < max_states }
    requires few { max_states ≤ most_states }
    ensures made { IfOk result (λ r. IfOk r (λ d. IsNamed (subsets W.KIND (graph_of (valued W.value fst.now))) d.subsets (valued W.value d.fst))) }
    ensures exact { IfOk result (IsExact W.KIND W.value fst.now max_states) }
{
    match walk_subsets::<W, Narrow<W>, W::NarrowList>(alloc, fst, max_states) {
        Ok(Ok(made)) => Ok(Ok(narrowly(alloc, made))),
        Ok(Err(fault)) => Ok(Err(stopped(fault))),
        Err(ArcFault::NotKept) => made_broad(alloc, fst, max_states),
        Err(ArcFault::Memory) => Err(AllocError),
    }
}

/// The same of any machine: of one that is no acceptor the first arc with two different labels.
fn made_of_acceptor<W: SubsetWeight>(
    alloc: Global,
    fst: &Fst<W>,
    max_states: u32,
) -> Result<Result<Determined<W>, DeterminizeFault>, AllocError>
    requires weighed { IsWeighed W.KIND W.value fst.now }
    requires some { 0 < max_states }
    requires few { max_states ≤ most_states }
    ensures made { IfOk result (λ r. IfOk r (λ d. IsNamed (subsets W.KIND (graph_of (valued W.value fst.now))) d.subsets (valued W.value d.fst))) }
    ensures acceptor { IfOk result (λ r. IfOk r (λ d. arcs.IsAcceptor fst.now)) }
    ensures exact { IfOk result (IsExact W.KIND W.value fst.now max_states) }
{
    if let Some(step) = not_acceptor_at(fst) {
        return Ok(Err(DeterminizeFault::NotAcceptor {
            state: step.state,
            place: step.place,
        }));
    }
    made_narrow(alloc, fst, max_states)
}

/// The deterministic machine of an acceptor, by weighted subsets: its states are just the subsets of words that are
/// not empty, in the order of the least words that have them, shorter words first. Each label word, epsilon being a
/// label like others, has at most one successful path, and each pair of strings the weight that it had. Where the
/// machine has no start, the result has no states. (Mohri 2009, weighted determinization; OpenFst manual,
/// "Determinize".)
///
/// `NotAcceptor` exactly where an arc has two different labels, with the first such arc; else `StateLimit` exactly
/// where words give more than `max_states` different subsets that are not empty, which is answered as soon as so many
/// are found; else `TooManyArcs` exactly where these have more than 33,554,432 arcs; else `Overflow` exactly where a
/// weight has a number of absolute value above 10 to the 18, with the first state that has such a weight. `Memory`
/// may come in place of any answer. Not every machine has finitely many subsets, so that `max_states` is what ends
/// the call. It is 1 to 4,194,304.
///
/// Time: for each subset that of its arcs, and of sorting them by label where they do not stand so. Space: the
/// result, the subsets, and the arcs of one.
pub fn determinize<W: SubsetWeight>(
    alloc: Global,
    fst: &Fst<W>,
    max_states: u32,
) -> Result<Determined<W>, DeterminizeFault>
    requires some { 0 < max_states }
    requires few { max_states ≤ most_states }
    ensures made { IfOk result (λ d. IsNamed (subsets W.KIND (graph_of (valued W.value fst.now))) d.subsets (valued W.value d.fst)) }
    ensures subsets { IfOk result (λ d. AreSubsets W.KIND (graph_of (valued W.value fst.now)) d.subsets) }
    ensures determinizes { IfOk result (λ d. IsDeterminized W.KIND (graph_of (valued W.value fst.now)) (graph_of (valued W.value d.fst))) }
    ensures exact { IsExactly W.KIND W.value fst.now max_states result }
    // What is known of the weights of every machine.
    ensures weighted { IsWeighted W.KIND (graph_of (valued W.value fst.now)) }
{
    weigh(fst);
    match made_of_acceptor(alloc, fst, max_states) {
        Ok(made) => made,
        // A lack of memory becomes a fault here alone.
        Err(_) => Err(DeterminizeFault::Memory),
    }
}
