//! The parts of an open prefix: the string that ends with it, and for each label the strings that go on by it.

ghost use Rattle.std.specs.Prelude.{◌≡◌, ◌≢◌, ◌≤◌, ◌+◌, ◌++◌, ◌∷◌, [], ℕ, List, IfNone, IfOk, IfSome, OnOk, Some, length, map, slice_get};
ghost use Rattle.fst_semiring.specs.Cost.{infinite};
ghost use Rattle.fst_semiring.specs.Semiring.{IsCost, Within};
ghost use Rattle.fst_machine.specs.Graph.{graph_of};
ghost use Rattle.fst_machine.specs.Machine.{valued};
ghost use Rattle.fst_walk.specs.Names.{key_arc};
ghost use Rattle.fst_trim.specs.Weighed.{IsWeighed};
ghost use Rattle.fst_determinize.specs.Subsets.{IsSubset, Member};
ghost use Rattle.fst_determinize.specs.Weighed.{AreMembers};
ghost use Rattle.fst_nbest.specs.Entries.{most_long};
ghost use Rattle.fst_nbest.specs.Ready.{dist_in};
ghost use Rattle.fst_select.specs.Keys.{IsShortest, best_total};
ghost use Rattle.fst_select.specs.Outlook.{IsDue, most_by};
ghost use Rattle.fst_select.specs.Parting.{AreOpenParts, AreParts, GoesOn, IsClosedPart, arcs_of};

use crate::entry::Entry;
use crate::outlook::{Outlook, member_at};
use fst_determinize::{Subset, SubsetArc, SubsetWeight, subset_arcs};
use fst_machine::Fst;
use fst_search::is_zero_wide;
use fst_semiring::Weight;
use fst_walk::NameArc;
use std::alloc::{AllocError, Global};

/// The weight of the string that ends with a prefix, which has this best weight and this subset; Zero where no path with it
/// ends in a final state.
///
/// Time: linear in the members.
fn stop_total<W: SubsetWeight>(fst: &Fst<W>, by: W::Wide, subset: &Subset<W>) -> W::Wide
    requires members { AreMembers (length fst.now.states) subset.now }
    requires range { Within most_by (W.wide_value by) }
    ensures { W.wide_value result ≡ best_total W.KIND (graph_of (valued W.value fst.now)).final (W.wide_value by) subset.now }
{
    let mut best = W::zero().widen();
    for place in 0..subset.len() {
        let member = member_at::<W>(subset, place);
        let last = fst.final_weight(member.state).widen();
        let rest = W::wide_times(member.residual, last);
        let own = W::wide_times(by, rest);
        best = W::wide_plus(best, own);
    }
    best
}

/// The string that ends with a prefix of so many labels, which has this best weight and this subset; `None` where it has no
/// weight.
fn closed_part<W: SubsetWeight>(
    fst: &Fst<W>,
    by: W::Wide,
    subset: &Subset<W>,
    owner: usize,
    depth: usize,
) -> Option<Entry<W::Wide>>
    requires members { AreMembers (length fst.now.states) subset.now }
    requires range { Within most_by (W.wide_value by) }
    ensures some { IfSome result (IsClosedPart W.KIND (graph_of (valued W.value fst.now)) W.wide_value (W.wide_value by) subset.now owner depth) }
    ensures none { IfNone result (best_total W.KIND (graph_of (valued W.value fst.now)).final (W.wide_value by) subset.now ≡ infinite) }
{
    let total = stop_total::<W>(fst, by, subset);
    if is_zero_wide::<W>(total) {
        return None;
    }
    Some(Entry {
        total,
        long: depth,
        by,
        owner,
        depth,
        tail: 0,
        closed: true,
        slot: 0,
    })
}

/// How many labels the shortest of the best strings that begin with a prefix has, where the prefix has so many; 0 where their
/// weight is not due.
fn known_length<W: SubsetWeight>(
    outlook: &Outlook<W>,
    by: W::Wide,
    subset: &Subset<W>,
    total: W::Wide,
    depth: usize,
) -> usize
    requires members { AreMembers (length outlook.now.machine.states) subset.now }
    requires range { Within most_by (W.wide_value by) }
    requires kind { IsCost W.KIND (W.wide_value by) }
    requires subset { (x : List ℕ) × IsSubset W.KIND (graph_of (valued W.value outlook.now.machine)) x (W.wide_value by) subset.now }
    requires total { W.wide_value total ≡ best_total W.KIND (dist_in W.wide_value outlook.now.dist) (W.wide_value by) subset.now }
    requires solid { W.wide_value total ≢ infinite }
    requires depth { depth ≤ most_long + 1 }
    ensures { IsDue W.KIND outlook.now.due (W.wide_value total) → (count : ℕ) × IsShortest W.KIND (graph_of (valued W.value outlook.now.machine)) (W.wide_value by) (W.wide_value total) subset.now count × (result ≡ depth + count) }
{
    if !outlook.is_due(total) {
        return 0;
    }
    depth + outlook.left(by, total, subset) as usize
}

/// The strings that go on behind a prefix of so many labels by this label, where `by` is the best weight of both and `subset`
/// their subset, in this slot; `None` where no string goes on so.
fn open_part<W: SubsetWeight>(
    outlook: &Outlook<W>,
    by: W::Wide,
    subset: &Subset<W>,
    owner: usize,
    depth: usize,
    tail: u32,
    slot: usize,
) -> Option<Entry<W::Wide>>
    requires weighed { IsWeighed W.KIND W.value outlook.now.machine }
    requires subset { (x : List ℕ) × (length x ≡ depth + 1) × IsSubset W.KIND (graph_of (valued W.value outlook.now.machine)) x (W.wide_value by) subset.now }
    requires depth { depth ≤ most_long }
    ensures some { IfSome result (GoesOn W.KIND (graph_of (valued W.value outlook.now.machine)) (dist_in W.wide_value outlook.now.dist) outlook.now.due W.wide_value subset.now owner depth) }
    ensures place { IfSome result (λ e. (e.slot ≡ slot) × (e.tail ≡ tail) × (e.by ≡ by)) }
    ensures none { IfNone result (best_total W.KIND (dist_in W.wide_value outlook.now.dist) (W.wide_value by) subset.now ≡ infinite) }
{
    let total = outlook.total(by, subset);
    if is_zero_wide::<W>(total) {
        return None;
    }
    let long = known_length::<W>(outlook, by, subset, total, depth + 1);
    Some(Entry {
        total,
        long,
        by,
        owner,
        depth,
        tail,
        closed: false,
        slot,
    })
}

/// Puts the parts of a prefix by the arcs of its subset, the last first, and the subsets to which these lead.
fn put_open_parts<W: SubsetWeight>(
    outlook: &Outlook<W>,
    subsets: &mut Vec<Subset<W>>,
    parts: &mut Vec<Entry<W::Wide>>,
    arcs: &mut Vec<SubsetArc<W>>,
    by: W::Wide,
    owner: usize,
    depth: usize,
) -> Result<(), AllocError>
    requires weighed { IsWeighed W.KIND W.value outlook.now.machine }
    requires clear { parts.old.items ≡ [] }
    requires subset { (x : List ℕ) × (s : List Member) × (length x ≡ depth) × IsSubset W.KIND (graph_of (valued W.value outlook.now.machine)) x (W.wide_value by) s × (map (key_arc W.wide_value) arcs.old.items ≡ arcs_of W.KIND (graph_of (valued W.value outlook.now.machine)) s) }
    requires depth { depth ≤ most_long }
    ensures grow { OnOk result ((more : List (List Member)) × (subsets.new.items ≡ subsets.old.items ++ more)) }
    ensures parts { OnOk result ((x : List ℕ) (s : List Member) → length x ≡ depth → IsSubset W.KIND (graph_of (valued W.value outlook.now.machine)) x (W.wide_value by) s → map (key_arc W.wide_value) arcs.old.items ≡ arcs_of W.KIND (graph_of (valued W.value outlook.now.machine)) s
        → AreOpenParts W.KIND (graph_of (valued W.value outlook.now.machine)) (dist_in W.wide_value outlook.now.dist) outlook.now.due W.wide_value x (W.wide_value by) owner depth (arcs_of W.KIND (graph_of (valued W.value outlook.now.machine)) s) subsets.new.items parts.new.items) }
{
    while let Some(arc) = arcs.pop() {
        let NameArc {
            ilabel,
            olabel: _,
            weight,
            next,
        } = arc;
        let own = W::wide_times(by, weight);
        let slot = subsets.len();
        let Some(part) = open_part::<W>(outlook, own, &next, owner, depth, ilabel, slot) else {
            continue;
        };
        parts.push(part)?;
        subsets.push(next)?;
    }
    Ok(())
}

/// Puts the parts of an open prefix of so many labels, which has this best weight and the subset in this slot: the string that
/// ends with it, and for each label the strings that go on by it. The subsets of these are put behind the others.
///
/// Time: that of the arcs of the subset, and linear in the members of their ends.
pub(crate) fn put_parts<W: SubsetWeight>(
    alloc: Global,
    outlook: &Outlook<W>,
    subsets: &mut Vec<Subset<W>>,
    parts: &mut Vec<Entry<W::Wide>>,
    by: W::Wide,
    slot: usize,
    owner: usize,
    depth: usize,
) -> Result<(), AllocError>
    requires clear { parts.old.items ≡ [] }
    requires subset { (x : List ℕ) × (s : List Member) × (length x ≡ depth) × (slice_get subsets.old.items slot ≡ Some s) × IsSubset W.KIND (graph_of (valued W.value outlook.now.machine)) x (W.wide_value by) s }
    requires depth { depth ≤ most_long }
    ensures grow { OnOk result ((more : List (List Member)) × (subsets.new.items ≡ subsets.old.items ++ more)) }
    ensures parts { OnOk result ((x : List ℕ) (s : List Member) → length x ≡ depth → slice_get subsets.old.items slot ≡ Some s → IsSubset W.KIND (graph_of (valued W.value outlook.now.machine)) x (W.wide_value by) s
        → AreParts W.KIND (graph_of (valued W.value outlook.now.machine)) (dist_in W.wide_value outlook.now.dist) outlook.now.due W.wide_value x owner depth subsets.new.items parts.new.items) }
{
    // What is known of it.
    let fst = outlook.machine();
    let subset = &subsets[slot];
    let closed = closed_part::<W>(fst, by, subset, owner, depth);
    let mut arcs = subset_arcs(alloc, fst, subset)?;
    put_open_parts(outlook, subsets, parts, &mut arcs, by, owner, depth)?;
    let Some(part) = closed else {
        return Ok(());
    };
    parts.push(part)?;
    Ok(())
}
