//! The n best different strings of an acceptor.

ghost use Rattle.std.specs.Prelude.{◌≡◌, ◌≤◌, ◌+◌, All, IfOk, length, map};
ghost use Rattle.fst_machine.specs.BreadthFirst.{Apart};
ghost use Rattle.fst_machine.specs.Graph.{graph_of};
ghost use Rattle.fst_machine.specs.Machine.{greatest_label, valued};
ghost use Rattle.fst_select.specs.Strings.{AreFirstStrings, labels_listed, weighted};
ghost use Rattle.fst_select.specs.UniqueRefusals.{IsSettled};

use crate::listing::list_strings;
use crate::outlook::Outlook;
use crate::refusing::unfit;
use crate::strings::Strings;
use crate::unique_fault::UniqueFault;
use fst_determinize::SubsetWeight;
use fst_machine::{Fst, Steps};
use fst_nbest::NbestFault;
use std::alloc::Global;
use std::sync::ledger::Ledger;

/// The first `n` strings of an acceptor without epsilon, with their weights: by weight, the better first, then by length,
/// the shorter first, then lexicographically by labels; all of them where there are fewer. A string with many successful
/// paths is listed once, with the best of their weights. (Mohri and Riley 2002, an efficient algorithm for the n-best-strings
/// problem; OpenFst manual, "ShortestPath".)
///
/// Subsets are taken along the prefixes of listed strings alone, so the call ends also where `determinize` would not.
///
/// `NotAcceptor` exactly where an arc has two different labels; else `HasEpsilon` exactly where an arc has label 0. Each names
/// the first such arc by state and then place. Else `ImprovingCycle` exactly where a cycle with a product better than One has
/// states that successful paths meet; the fault lists such a cycle. `Memory` may come in place of any answer. A step is one
/// prefix taken from the table of those that are open, and one is taken for each string that is listed.
///
/// Time: that of the distances; for each label that is listed anew, the arcs of the subset of its prefix, by label; and for
/// each of these arcs a comparison of prefixes, of which there are logarithmically many. In min-max all states are counted
/// once for each weight of the listed strings. Space: linear in the states, the arcs and the labels that are listed, and in
/// the arcs of the subsets of their prefixes.
pub fn unique_nbest<W: SubsetWeight, L: Ledger>(
    alloc: Global,
    fst: &Fst<W>,
    n: u32,
    steps: &mut Steps<L>,
) -> Result<Strings<W>, UniqueFault>
    requires some { 1 ≤ n }
    requires few { n ≤ 100000 }
    ensures first { IfOk result (λ strings. AreFirstStrings W.KIND (graph_of (valued W.value fst.now)) n (map (weighted W.wide_value) strings)) }
    ensures steps { IfOk result (λ strings. steps.new ≤ steps.old + (labels_listed (map (weighted W.wide_value) strings) + length strings + 1)) }
    ensures few_steps { IfOk result (λ strings. steps.new ≤ steps.old + length strings) }
    ensures apart { IfOk result (λ strings. Apart (map (λ s. s.word) strings)) }
    ensures labels { IfOk result (λ strings. All (λ s. All (λ l. (1 ≤ l) × (l ≤ greatest_label)) s.word) strings) }
    ensures exact { IsSettled W.KIND (valued W.value fst.now) result }
{
    // What holds of the machine.
    let _states = fst.states();
    if let Some(fault) = unfit(fst) {
        return Err(fault);
    }
    let mut outlook = match Outlook::new(alloc, fst) {
        Ok(outlook) => outlook,
        Err(NbestFault::ImprovingCycle { cycle }) => {
            return Err(UniqueFault::ImprovingCycle { cycle });
        }
        Err(NbestFault::Memory) => return Err(UniqueFault::Memory),
    };
    match list_strings(alloc, &mut outlook, n as usize, steps) {
        Ok(strings) => Ok(strings),
        // A lack of memory becomes a fault here alone.
        Err(_) => Err(UniqueFault::Memory),
    }
}
