//! The machine of the subsets that the start reaches.

ghost use Rattle.std.specs.Prelude.{◌≡◌, ◌<◌, ◌≤◌, ◌++◌, IfOk, OnOk, length, map, refl};
ghost use Rattle.fst_machine.specs.Graph.{graph_of};
ghost use Rattle.fst_machine.specs.Machine.{most_states, valued};
ghost use Rattle.fst_walk.specs.Answers.{IsExactly, IsNamed};
ghost use Rattle.fst_walk.specs.Names.{key_arc};
ghost use Rattle.fst_determinize.specs.Kept.{members_as};
ghost use Rattle.fst_determinize.specs.Ways.{final_by, subsets};
ghost use Rattle.fst_trim.specs.Weighed.{IsWeighed};
ghost use Rattle.fst_determinize.specs.Weighed.{AreMembers, HasGoodArcs};

use crate::fault::ArcFault;
use crate::lists::MemberList;
use crate::making::put_arcs;
use crate::residual::Residual;
use crate::single::{labels_ascend, put_single_arcs};
use crate::subset::{Held, SubsetOf, subset_of_one};
use crate::way::{WayOn, further_final, put_ways, sort_ways};
use fst_machine::Fst;
use fst_semiring::Weight;
use fst_walk::{NameArc, Names, Room, WalkFault, Walked, walk};
use std::alloc::Global;
use std::marker::PhantomData;

/// What the arcs of a subset are made in.
#[derive(Drop)]
pub(crate) struct Scratch<R, V> {
    /// The ways from the subset.
    ways: Vec<WayOn<V>>,
    /// The members of the subset to which an arc leads.
    members: Vec<Held<R>>,
    alloc: Global,
}

/// An empty scratch. Takes no memory.
pub(crate) fn no_ways<R, V>(alloc: Global) -> Scratch<R, V> {
    Scratch {
        ways: Vec::new(alloc),
        members: Vec::new(alloc),
        alloc,
    }
}

/// The subset of the empty word, if there is a start. Takes no memory.
pub(crate) fn first_subset<W: Weight, R: Residual<W>, L: MemberList<R>>(
    alloc: Global,
    fst: &Fst<W>,
) -> Option<SubsetOf<R, L>>
    ensures { result ≡ (subsets W.KIND (graph_of (valued W.value fst.now))).start }
{
    let state = fst.start()?;
    let residual = R::one();
    Some(subset_of_one(alloc, Held { state, residual }))
}

/// The final weight of a subset: the best, over its members, of residual Times final weight. Takes no memory.
pub(crate) fn last_weight<W: Weight, R: Residual<W>, L: MemberList<R>>(
    fst: &Fst<W>,
    subset: &SubsetOf<R, L>,
) -> W::Wide
    requires { AreMembers (length fst.now.states) subset.now }
    ensures { W.wide_value result ≡ final_by W.KIND (graph_of (valued W.value fst.now)) subset.now }
{
    let mut best = W::zero().widen();
    for member in subset.members() {
        let own = further_final(member.residual, fst.final_weight(member.state));
        best = W::wide_plus(best, own);
    }
    best
}

/// Puts the arcs of a subset after the others, by way of all ways in order.
fn put_sorted_arcs<W: Weight, R: Residual<W>, L: MemberList<R>>(
    scratch: &mut Scratch<R, W::Wide>,
    out: &mut Vec<NameArc<SubsetOf<R, L>, W>>,
    fst: &Fst<W>,
    subset: &SubsetOf<R, L>,
) -> Result<(), ArcFault>
    requires weighed { IsWeighed W.KIND W.value fst.now }
    requires members { AreMembers (length fst.now.states) subset.now }
    ensures { OnOk result (map (key_arc W.wide_value) out.new.items ≡ map (key_arc W.wide_value) out.old.items ++ (subsets W.KIND (graph_of (valued W.value fst.now))).arcs subset.now) }
{
    scratch.ways.clear();
    put_ways(&mut scratch.ways, fst, subset.members())?;
    sort_ways(&mut scratch.ways);
    put_arcs(
        out,
        &mut scratch.members,
        scratch.ways.as_slice(),
        scratch.alloc,
    )
}

/// Puts the arcs of a subset after the others.
pub(crate) fn put_subset_arcs<W: Weight, R: Residual<W>, L: MemberList<R>>(
    scratch: &mut Scratch<R, W::Wide>,
    out: &mut Vec<NameArc<SubsetOf<R, L>, W>>,
    fst: &Fst<W>,
    subset: &SubsetOf<R, L>,
) -> Result<(), ArcFault>
    requires weighed { IsWeighed W.KIND W.value fst.now }
    requires members { AreMembers (length fst.now.states) subset.now }
    ensures { OnOk result (map (key_arc W.wide_value) out.new.items ≡ map (key_arc W.wide_value) out.old.items ++ (subsets W.KIND (graph_of (valued W.value fst.now))).arcs subset.now) }
{
    let members = subset.members();
    if members.len() == 1 {
        let member = members[0];
        let arcs = fst.arcs(member.state);
        // Nothing is to be sorted or to be put together.
        if labels_ascend(arcs) {
            return put_single_arcs(out, arcs, member, scratch.alloc);
        }
    }
    put_sorted_arcs(scratch, out, fst, subset)
}

/// The graph of the subsets of a machine, with residuals in one form.
#[derive(Drop)]
struct Determinizing<'a, W: Weight, R: Residual<W>, L: MemberList<R>> {
    fst: &'a Fst<W>,
    alloc: Global,
    form: PhantomData<SubsetOf<R, L>>,
}

impl<'a, W: Weight, R: Residual<W>, L: MemberList<R>> Names<W> for Determinizing<'a, W, R, L> {
    type Key = SubsetOf<R, L>;

    type Fault = ArcFault;

    type Scratch = Scratch<R, W::Wide>;

    ghost graph = { λ s. subsets W.KIND (graph_of (valued W.value s.fst.now)) };

    ghost rest = { λ s n from. (subsets W.KIND (graph_of (valued W.value s.fst.now))).arcs n };

    ghost holds = { λ s. IsWeighed W.KIND W.value s.fst.now × HasGoodArcs W.KIND (graph_of (valued W.value s.fst.now)) };

    fn start(&self) -> Option<SubsetOf<R, L>> {
        first_subset(self.alloc, self.fst)
    }

    fn scratch(alloc: Global) -> Scratch<R, W::Wide> {
        no_ways(alloc)
    }

    fn put_part(
        &self,
        scratch: &mut Scratch<R, W::Wide>,
        out: &mut Vec<NameArc<SubsetOf<R, L>, W>>,
        key: &SubsetOf<R, L>,
        _from: u32,
    ) -> Result<Option<u32>, ArcFault> {
        // A subset has one arc for each label, so they are put at once.
        put_subset_arcs(scratch, out, self.fst, key)?;
        Ok(None)
    }

    fn final_weight(&self, key: &SubsetOf<R, L>) -> W::Wide {
        last_weight(self.fst, key)
    }

    ghost whole = { λ s n. refl };

    ghost good = { λ s h n near k a at. h.1 n near k a at };
}

/// The machine of the subsets that the start reaches, with residuals in one form, or why there is none.
pub(crate) fn walk_subsets<W: Weight, R: Residual<W>, L: MemberList<R>>(
    alloc: Global,
    fst: &Fst<W>,
    max_states: u32,
) -> Result<Result<Walked<SubsetOf<R, L>, W>, WalkFault>, ArcFault>
    requires weighed { IsWeighed W.KIND W.value fst.now }
    requires some { 0 < max_states }
    requires few { max_states ≤ most_states }
    ensures made { IfOk result (λ r. IfOk r (λ w. IsNamed (subsets W.KIND (graph_of (valued W.value fst.now))) w.names (valued W.value w.fst))) }
    ensures exact { IfOk result (IsExactly (subsets W.KIND (graph_of (valued W.value fst.now))) max_states) }
{
    let room = Room {
        states: fst.states() as usize,
        arcs: fst.arc_count() as usize,
    };
    let graph = Determinizing {
        fst,
        alloc,
        form: PhantomData::<SubsetOf<R, L>>,
    };
    walk(alloc, &graph, room, max_states)
}
