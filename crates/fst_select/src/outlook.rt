//! What is ahead of the prefixes of strings, by the subsets of these.

ghost use Rattle.std.specs.Prelude.{◌≡◌, ◌≢◌, ◌⊎◌, ◌<◌, ◌+◌, ℕ, List, Some, true, IfErr, IfOk, OnOk, length, slice_get};
ghost use Rattle.std.specs.Bool.{Decides};
ghost use Rattle.fst_semiring.specs.Cost.{infinite};
ghost use Rattle.fst_semiring.specs.Semiring.{IsCost, Within, cancels, times};
ghost use Rattle.fst_machine.specs.Cycles.{IsUseful};
ghost use Rattle.fst_machine.specs.Graph.{graph_of};
ghost use Rattle.fst_machine.specs.Machine.{valued};
ghost use Rattle.fst_search.specs.Distances.{IsListed, NoneImproves};
ghost use Rattle.fst_trim.specs.Weighed.{IsWeighed};
ghost use Rattle.fst_determinize.specs.Kept.{IsModest, member_as};
ghost use Rattle.fst_determinize.specs.Subsets.{IsSubset};
ghost use Rattle.fst_determinize.specs.Weighed.{AreMembers};
ghost use Rattle.fst_nbest.specs.FirstPaths.{IfImproving};
ghost use Rattle.fst_nbest.specs.Ready.{count_in, dist_in, most_distance};
ghost use Rattle.fst_select.specs.Keys.{IsShortest, best_total};
ghost use Rattle.fst_select.specs.Outlook.{IsDue, IsOutlook, most_by};

use fst_determinize::{Held, Residual, Subset, SubsetWeight};
use fst_machine::Fst;
use fst_nbest::{Ahead, NbestFault, ahead, class_counts};
use fst_semiring::Weight;
use fst_trim::{Links, weigh};
use std::alloc::{AllocError, Global};
use std::cmp::Ordering;
use std::marker::Model;

/// What is ahead of the prefixes of strings, by the subsets of these: the distances of states to the final states, and the
/// fewest labels of a way there. Where factors cancel, counts are known for every total; else for the one that is due.
#[derive(Drop)]
pub(crate) struct Outlook<'a, W: SubsetWeight> {
    fst: &'a Fst<W>,
    dist: Vec<W::Wide>,
    count: Vec<u32>,
    /// The links back along all arcs, once a total has been made due.
    links: Option<Links<W>>,
    /// Zero until then.
    due: W::Wide,
}

impl<'a, W: SubsetWeight> Model for Outlook<'a, W> {
    ghost use Rattle.std.specs.Prelude.{◌≡◌, IfSome};
    ghost use Rattle.fst_trim.specs.Links.{turned_links};
    ghost use Rattle.fst_select.specs.Outlook.{IsOutlook, OutlookAs};

    ghost Value = { OutlookAs W W.Wide };

    ghost view = { λ o. record { machine = o.fst.now; dist = o.dist.items; count = o.count.items; due = W.wide_value o.due } };

    ghost invariant = { λ o. IsOutlook W.KIND W.value W.wide_value (record { machine = o.fst.now; dist = o.dist.items; count = o.count.items; due = W.wide_value o.due }) × IfSome o.links (λ l. l ≡ turned_links o.fst.now.states) };
}

/// Whether two weights are the same.
fn is_same<W: Weight>(a: W::Wide, b: W::Wide) -> bool
    ensures { Decides result (W.wide_value a ≡ W.wide_value b) }
{
    match W::wide_compare(a, b) {
        Ordering::Equal => true,
        _ => false,
    }
}

/// The member of a subset in a place, with its residual in the wide form.
pub(crate) fn member_at<W: SubsetWeight>(subset: &Subset<W>, place: usize) -> Held<W::Wide>
    requires { place < length subset.now }
    ensures { slice_get subset.now place ≡ Some (member_as W.wide_value result) }
{
    let member = subset.item(place);
    Held {
        state: member.state,
        residual: member.residual.wide(),
    }
}

impl<'a, W: SubsetWeight> Outlook<'a, W> {
    /// What is ahead of the prefixes of a machine's strings. No total is due yet.
    pub(crate) fn new(alloc: Global, fst: &'a Fst<W>) -> Result<Outlook<'a, W>, NbestFault>
        ensures machine { IfOk result (λ o. o.machine ≡ fst.now) }
        ensures none { OnOk result (NoneImproves W.KIND (graph_of (valued W.value fst.now)) (IsUseful (graph_of (valued W.value fst.now)))) }
        ensures cycle { IfErr result (λ f. IfImproving f (IsListed W.KIND (graph_of (valued W.value fst.now)) (IsUseful (graph_of (valued W.value fst.now))))) }
    {
        weigh(fst);
        let Ahead { dist, count } = ahead(alloc, fst)?;
        Ok(Outlook {
            fst,
            dist,
            count,
            links: None,
            due: W::zero().widen(),
        })
    }

    /// The machine, and what is known of it.
    pub(crate) fn machine(&self) -> &Fst<W>
        ensures same { result.now ≡ self.now.machine }
        ensures weighed { IsWeighed W.KIND W.value self.now.machine }
        ensures known { IsOutlook W.KIND W.value W.wide_value self.now }
    {
        self.fst
    }

    /// The distance of a state to the final states.
    fn distance(&self, state: u32) -> W::Wide
        requires { state < length self.now.machine.states }
        ensures same { W.wide_value result ≡ dist_in W.wide_value self.now.dist state }
        ensures range { Within most_distance (W.wide_value result) }
    {
        self.dist[state as usize]
    }

    /// The weight of the best way on from a member, behind a prefix with this product.
    fn through(&self, by: W::Wide, member: &Held<W::Wide>) -> W::Wide
        requires state { member.now.state < length self.now.machine.states }
        requires modest { IsModest (W.wide_value member.now.residual) }
        requires range { Within most_by (W.wide_value by) }
        ensures { W.wide_value result ≡ times W.KIND (W.wide_value by) (times W.KIND (W.wide_value member.now.residual) (dist_in W.wide_value self.now.dist member.now.state)) }
    {
        let rest = W::wide_times(member.residual, self.distance(member.state));
        W::wide_times(by, rest)
    }

    /// The weight of the best string that begins with a prefix, which has this product and this subset; Zero where there
    /// is none.
    ///
    /// Time: linear in the members.
    pub(crate) fn total(&self, by: W::Wide, subset: &Subset<W>) -> W::Wide
        requires members { AreMembers (length self.now.machine.states) subset.now }
        requires range { Within most_by (W.wide_value by) }
        requires kind { IsCost W.KIND (W.wide_value by) }
        ensures { W.wide_value result ≡ best_total W.KIND (dist_in W.wide_value self.now.dist) (W.wide_value by) subset.now }
    {
        let mut best = W::zero().widen();
        for place in 0..subset.len() {
            let member = member_at::<W>(subset, place);
            best = W::wide_plus(best, self.through(by, &member));
        }
        best
    }

    /// The fewest labels of a way from a state on to the final states.
    fn count_at(&self, state: u32) -> u32
        requires state { state < length self.now.machine.states }
        requires due { (cancels W.KIND ≡ true) ⊎ (self.now.due ≢ infinite) }
        ensures { result ≡ count_in self.now.count state }
    {
        self.count[state as usize]
    }

    /// The fewest labels that are left on a string that begins with a prefix and has its total. In every arc type these are
    /// the labels of a way on from a member whose best way on has the total.
    ///
    /// Time: linear in the members.
    pub(crate) fn left(&self, by: W::Wide, total: W::Wide, subset: &Subset<W>) -> u32
        requires members { AreMembers (length self.now.machine.states) subset.now }
        requires range { Within most_by (W.wide_value by) }
        requires kind { IsCost W.KIND (W.wide_value by) }
        requires total { W.wide_value total ≡ best_total W.KIND (dist_in W.wide_value self.now.dist) (W.wide_value by) subset.now }
        requires solid { W.wide_value total ≢ infinite }
        requires due { IsDue W.KIND self.now.due (W.wide_value total) }
        ensures { (x : List ℕ) → IsSubset W.KIND (graph_of (valued W.value self.now.machine)) x (W.wide_value by) subset.now → IsShortest W.KIND (graph_of (valued W.value self.now.machine)) (W.wide_value by) (W.wide_value total) subset.now result }
    {
        // What is known of the counts.
        let _fst = self.machine();
        let mut least = u32::MAX;
        for place in 0..subset.len() {
            let member = member_at::<W>(subset, place);
            if !is_same::<W>(self.through(by, &member), total) {
                continue;
            }
            let count = self.count_at(member.state);
            if count < least {
                least = count;
            }
        }
        least
    }

    /// Whether counts are known of prefixes with this total.
    pub(crate) fn is_due(&self, total: W::Wide) -> bool
        ensures { Decides result (IsDue W.KIND self.now.due (W.wide_value total)) }
    {
        W::CANCELS || is_same::<W>(total, self.due)
    }

    /// Makes this total the one that is due.
    ///
    /// Time: linear in the states and the arcs; where factors cancel, constant.
    pub(crate) fn make_due(&mut self, alloc: Global, total: W::Wide) -> Result<(), AllocError>
        requires { W.wide_value total ≢ infinite }
        ensures machine { self.new.machine ≡ self.old.machine }
        ensures dist { self.new.dist ≡ self.old.dist }
        ensures due { OnOk result (self.new.due ≡ W.wide_value total) }
    {
        if W::CANCELS {
            self.due = total;
            return Ok(());
        }
        let links = match self.links.take() {
            Some(links) => links,
            None => Links::turned(alloc, self.fst)?,
        };
        self.count = class_counts(alloc, self.fst, &links, total)?;
        self.due = total;
        self.links = Some(links);
        Ok(())
    }
}
