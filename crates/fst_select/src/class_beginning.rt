//! How a weight becomes due.

ghost use Rattle.std.specs.Prelude.{◌≡◌, ◌≢◌, ◌<◌, [], ◌∷◌, ℕ, List, true, false, All, IfOk, MatchOption, length};
ghost use Rattle.std.specs.declared.cmp.Ordering.TheVariants.{Less};
ghost use Rattle.std.specs.Ordering.{is_gt};
ghost use Rattle.std.specs.List.Sorted.{IsPermutation};
ghost use Rattle.fst_semiring.specs.Cost.{Cost, cost_cmp, infinite};
ghost use Rattle.fst_machine.specs.Graph.{graph_of};
ghost use Rattle.fst_machine.specs.Machine.{valued};
ghost use Rattle.fst_determinize.specs.Subsets.{Member};
ghost use Rattle.fst_nbest.specs.Heap.{IsHeap};
ghost use Rattle.fst_select.specs.Entries.{IsEntry, total_cmp, words_of};
ghost use Rattle.fst_select.specs.Frontier.{Front, IsKey};
ghost use Rattle.fst_select.specs.Outlook.{IsDue};
ghost use Rattle.fst_select.specs.Strings.{IsSpelled};
ghost use Rattle.fst_select.specs.Tables.{AreKeyed, IsClassBegun, StandFor};

use crate::comparing::{ByTotal, Comparing};
use crate::entry::Entry;
use crate::outlook::Outlook;
use crate::prefixes::prefix_len;
use crate::putting::Table;
use crate::strings::Strings;
use fst_determinize::{Subset, SubsetWeight};
use fst_nbest::heap::{put, take};
use fst_semiring::Weight;
use std::alloc::{AllocError, Global};
use std::cmp::Ordering;
use std::marker::PhantomData;

/// How many labels the best string of an entry has, where its weight is due.
fn long_of<W: SubsetWeight>(
    outlook: &Outlook<W>,
    listed: &Strings<W>,
    subsets: &Vec<Subset<W>>,
    entry: &Entry<W::Wide>,
) -> usize
    requires due { IsDue W.KIND outlook.now.due (W.wide_value entry.now.total) }
    requires front { (due : Cost) × (f : Front) × IsEntry W.KIND (graph_of (valued W.value outlook.now.machine)) W.wide_value due (words_of listed.now) subsets.now.items entry.now f × IsKey (IsSpelled W.KIND (graph_of (valued W.value outlook.now.machine))) f }
    ensures { (due : Cost) (f : Front) → IsEntry W.KIND (graph_of (valued W.value outlook.now.machine)) W.wide_value due (words_of listed.now) subsets.now.items entry.now f → IsKey (IsSpelled W.KIND (graph_of (valued W.value outlook.now.machine))) f → f.long ≡ result }
{
    // What holds of the machine and of the distances.
    let _fst = outlook.machine();
    let len = prefix_len::<W>(listed, entry);
    if entry.closed {
        return len;
    }
    len + outlook.left(entry.by, entry.total, &subsets[entry.slot]) as usize
}

/// The best weight of entries that wait, of which there are some.
fn best_waiting<W: SubsetWeight>(outlook: &Outlook<W>, later: &Vec<Entry<W::Wide>>) -> W::Wide
    requires some { 0 < length later.now.items }
    requires heap { IsHeap (total_cmp W.wide_value) later.now.items }
    requires fronts { (words : List (List ℕ)) × (subsets : List (List Member)) × (due : Cost) × (fs : List Front) × AreKeyed W.KIND (graph_of (valued W.value outlook.now.machine)) W.wide_value due words subsets later.now.items fs }
    ensures solid { W.wide_value result ≢ infinite }
    ensures least { All (λ e. is_gt (cost_cmp (W.wide_value result) (W.wide_value e.total)) ≡ false) later.now.items }
    ensures reached { All (λ e. cost_cmp (W.wide_value result) (W.wide_value e.total) ≡ Less) later.now.items → ⊥ }
{
    // What holds of the machine.
    let _fst = outlook.machine();
    later[0].total
}

/// Takes an entry of this weight out of a heap in which none has a better one; `None` exactly where all have worse ones.
fn take_class<W: Weight>(later: &mut Vec<Entry<W::Wide>>, total: W::Wide) -> Option<Entry<W::Wide>>
    requires heap { IsHeap (total_cmp W.wide_value) later.old.items }
    requires least { All (λ e. is_gt (cost_cmp (W.wide_value total) (W.wide_value e.total)) ≡ false) later.old.items }
    ensures heap { IsHeap (total_cmp W.wide_value) later.new.items }
    ensures taken { MatchOption result ((later.new.items ≡ later.old.items) × All (λ e. cost_cmp (W.wide_value total) (W.wide_value e.total) ≡ Less) later.old.items) (λ e. IsPermutation later.old.items (e ∷ later.new.items) × (W.wide_value e.total ≡ W.wide_value total)) }
{
    if later.is_empty() {
        return None;
    }
    match W::wide_compare(total, later[0].total) {
        Ordering::Equal => {
            let by_total = ByTotal::<W> {
                weight: PhantomData,
            };
            take(later, &by_total)
        }
        _ => None,
    }
}

/// Makes the best weight that waits the one that is due, and moves the entries with it to those that are ready, of which
/// there are none. Gives `false` exactly where nothing waits.
///
/// Time: a count of the machine where factors do not cancel, and what the heaps take for these entries.
pub(crate) fn begin_class<W: SubsetWeight>(
    alloc: Global,
    table: &mut Table<W::Wide>,
    outlook: &mut Outlook<W>,
    listed: &Strings<W>,
    subsets: &Vec<Subset<W>>,
) -> Result<bool, AllocError>
    requires clear { table.old.ready.items ≡ [] }
    requires heap { IsHeap (total_cmp W.wide_value) table.old.later.items }
    requires fronts { (fs : List Front) × AreKeyed W.KIND (graph_of (valued W.value outlook.old.machine)) W.wide_value outlook.old.due (words_of listed.now) subsets.now.items table.old.later.items fs }
    ensures machine { outlook.new.machine ≡ outlook.old.machine }
    ensures dist { outlook.new.dist ≡ outlook.old.dist }
    ensures none { IfOk result (λ some. some ≡ false → table.old.later.items ≡ []) }
    ensures begun { IfOk result (λ some. some ≡ true → IsClassBegun W.wide_value (words_of listed.now) outlook.new.due table.new.ready.items table.new.later.items) }
    ensures fronts { IfOk result (λ some. some ≡ true → (fs : List Front) → AreKeyed W.KIND (graph_of (valued W.value outlook.old.machine)) W.wide_value outlook.old.due (words_of listed.now) subsets.now.items table.old.later.items fs
        → StandFor W.KIND (graph_of (valued W.value outlook.new.machine)) W.wide_value outlook.new.due (words_of listed.now) subsets.now.items table.new.ready.items table.new.later.items fs) }
{
    if table.later.is_empty() {
        return Ok(false);
    }
    let total = best_waiting::<W>(outlook, &table.later);
    outlook.make_due(alloc, total)?;
    let comparing = Comparing { listed };
    while let Some(entry) = take_class::<W>(&mut table.later, total) {
        let long = long_of(outlook, listed, subsets, &entry);
        put(&mut table.ready, &comparing, Entry { long, ..entry })?;
    }
    Ok(true)
}
