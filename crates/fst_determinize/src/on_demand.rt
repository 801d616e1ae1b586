//! Subsets on demand: the first, and the arcs and the final weight of each.

ghost use Rattle.std.specs.Prelude.{◌≡◌, IfOk, length, map};
ghost use Rattle.fst_machine.specs.Graph.{graph_of};
ghost use Rattle.fst_machine.specs.Machine.{valued};
ghost use Rattle.fst_walk.specs.Names.{key_arc};
ghost use Rattle.fst_determinize.specs.Ways.{final_by, subsets};
ghost use Rattle.fst_trim.specs.Weighed.{IsWeighed};
ghost use Rattle.fst_determinize.specs.Weighed.{AreMembers};

use crate::determinizing::{first_subset, last_weight, no_ways, put_subset_arcs};
use crate::lists::SubsetWeight;
use crate::residual::Broad;
use crate::subset::SubsetOf;
use fst_machine::Fst;
use fst_semiring::Weight;
use fst_walk::NameArc;
use std::alloc::{AllocError, Global};

/// A weighted subset: states by number, each with what is left of the best weight that reaches it when the best of
/// all is divided off. One of up to two states takes no memory of its own.
pub type Subset<W> = SubsetOf<Broad<W, <W as Weight>::Wide>, <W as SubsetWeight>::BroadList>;

/// An arc to a subset; both labels are the same. Its weight is in the wide form.
pub type SubsetArc<W> = NameArc<Subset<W>, W>;

/// The subset of the empty word: the start with One. `None` exactly where there is no start. Takes no memory.
pub fn start_subset<W: SubsetWeight>(alloc: Global, fst: &Fst<W>) -> Option<Subset<W>>
    ensures { result ≡ (subsets W.KIND (graph_of (valued W.value fst.now))).start }
{
    first_subset(alloc, fst)
}

/// The arcs of a subset: one for each label of an arc of its members, by label. Its weight is the best, over the
/// members and their arcs with the label, of residual Times arc weight; it leads to the states that these arcs reach,
/// each with the best such product over the arcs to it, divided by that weight. Where the subset is that of a word,
/// the arc leads to the subset of the word followed by the label.
///
/// The members are states of the machine, no residual is Zero, and their numbers have absolute value at most 2 to the
/// 118. So it is of the subset of each word of fewer than 4,194,304 labels, by `laws::member_laws`.
///
/// Time: that of sorting the arcs of the members by label, where they do not stand so. Space: linear in them.
pub fn subset_arcs<W: SubsetWeight>(
    alloc: Global,
    fst: &Fst<W>,
    subset: &Subset<W>,
) -> Result<Vec<SubsetArc<W>>, AllocError>
    requires weighed { IsWeighed W.KIND W.value fst.now }
    requires members { AreMembers (length fst.now.states) subset.now }
    ensures { IfOk result (λ arcs. map (key_arc W.wide_value) arcs.items ≡ (subsets W.KIND (graph_of (valued W.value fst.now))).arcs subset.now) }
{
    let mut scratch = no_ways(alloc);
    let mut out = Vec::new(alloc);
    match put_subset_arcs(&mut scratch, &mut out, fst, subset) {
        Ok(()) => Ok(out),
        // Each residual has a wide form, so memory alone is lacking.
        Err(_) => Err(AllocError),
    }
}

/// The final weight of a subset: the best, over its members, of residual Times final weight. The members are as for
/// `subset_arcs`. Takes no memory.
pub fn subset_final<W: SubsetWeight>(fst: &Fst<W>, subset: &Subset<W>) -> W::Wide
    requires { AreMembers (length fst.now.states) subset.now }
    ensures { W.wide_value result ≡ final_by W.KIND (graph_of (valued W.value fst.now)) subset.now }
{
    last_weight(fst, subset)
}
