//! The first strings, one after the other.

ghost use Rattle.std.specs.Prelude.{◌≡◌, ◌+◌, [], ℕ, List, All, IfNone, IfOk, IfSome, OnOk, length, map};
ghost use Rattle.fst_machine.specs.Graph.{graph_of};
ghost use Rattle.fst_machine.specs.Machine.{valued};
ghost use Rattle.fst_nbest.specs.Heap.{FirstLeaves, IsHeap, TakesFirst};
ghost use Rattle.fst_select.specs.Entries.{CanCompare, entry_cmp, words_of};
ghost use Rattle.fst_select.specs.Searching.{IsSearch};
ghost use Rattle.fst_select.specs.Strings.{AreFirstStrings, IsPlain, weighted};

use crate::class_beginning::begin_class;
use crate::comparing::Comparing;
use crate::entry::Entry;
use crate::outlook::Outlook;
use crate::putting::{Table, put_left};
use crate::strings::Strings;
use crate::walking::walk;
use fst_determinize::{Subset, SubsetWeight, start_subset};
use fst_machine::Steps;
use fst_nbest::heap::take;
use fst_search::is_zero_wide;
use fst_semiring::Weight;
use std::alloc::{AllocError, Global};
use std::sync::ledger::Ledger;

/// The greatest number of labels of a string that is listed.
const MOST_LONG: usize = 1_099_511_627_776;

/// The table before the first string is listed: the prefix without labels, if some string is there. Its total is made due.
fn begin<W: SubsetWeight>(
    alloc: Global,
    outlook: &mut Outlook<W>,
    subsets: &mut Vec<Subset<W>>,
) -> Result<Table<W::Wide>, AllocError>
    requires clear { subsets.old.items ≡ [] }
    ensures machine { outlook.new.machine ≡ outlook.old.machine }
    ensures search { IfOk result (λ t. IsSearch W.KIND (graph_of (valued W.value outlook.old.machine)) W.wide_value outlook.new.due [] [] subsets.new.items t.ready.items t.later.items) }
{
    let mut table = Table {
        ready: Vec::new(alloc),
        later: Vec::new(alloc),
    };
    let Some(subset) = start_subset(alloc, outlook.machine()) else {
        return Ok(table);
    };
    let one = W::one().widen();
    let total = outlook.total(one, &subset);
    if is_zero_wide::<W>(total) {
        return Ok(table);
    }
    outlook.make_due(alloc, total)?;
    let left = outlook.left(one, total, &subset);
    subsets.push(subset)?;
    table.ready.push(Entry {
        total,
        long: left as usize,
        by: one,
        owner: 0,
        depth: 0,
        tail: 0,
        closed: false,
        slot: 0,
    })?;
    Ok(table)
}

/// Takes an entry whose total is due and whose best string comes after that of no other such entry.
fn take_ready<W: SubsetWeight>(
    table: &mut Table<W::Wide>,
    listed: &Strings<W>,
) -> Option<Entry<W::Wide>>
    requires heap { IsHeap (entry_cmp W.wide_value (words_of listed.now)) table.old.ready.items }
    requires fits { All (CanCompare (words_of listed.now)) table.old.ready.items }
    ensures taken { TakesFirst (entry_cmp W.wide_value (words_of listed.now)) table.old.ready.items result table.new.ready.items }
    ensures later { table.new.later ≡ table.old.later }
{
    let comparing = Comparing { listed };
    take(&mut table.ready, &comparing)
}

/// Takes an entry whose best string comes after that of no other; `None` exactly where the table is empty. Where no entry
/// has the total that is due, the least of the others becomes due.
fn next_entry<W: SubsetWeight>(
    alloc: Global,
    outlook: &mut Outlook<W>,
    subsets: &Vec<Subset<W>>,
    listed: &Strings<W>,
    table: &mut Table<W::Wide>,
) -> Result<Option<Entry<W::Wide>>, AllocError>
    requires search { IsSearch W.KIND (graph_of (valued W.value outlook.old.machine)) W.wide_value outlook.old.due (map (weighted W.wide_value) listed.now) (words_of listed.now) subsets.now.items table.old.ready.items table.old.later.items }
    ensures machine { outlook.new.machine ≡ outlook.old.machine }
    ensures some { IfOk result (λ o. IfSome o (λ entry. (ready : List (Entry W.Wide)) × IsSearch W.KIND (graph_of (valued W.value outlook.old.machine)) W.wide_value outlook.new.due (map (weighted W.wide_value) listed.now) (words_of listed.now) subsets.now.items ready table.new.later.items × FirstLeaves (entry_cmp W.wide_value (words_of listed.now)) ready entry table.new.ready.items)) }
    ensures none { IfOk result (λ o. IfNone o (IsSearch W.KIND (graph_of (valued W.value outlook.old.machine)) W.wide_value outlook.new.due (map (weighted W.wide_value) listed.now) (words_of listed.now) subsets.now.items [] [])) }
{
    if !table.ready.is_empty() {
        return Ok(take_ready(table, listed));
    }
    if !begin_class(alloc, table, outlook, listed, subsets)? {
        return Ok(None);
    }
    Ok(take_ready(table, listed))
}

/// Lists the best string of an entry that was taken, and puts the entries that it leaves into the table. The list `left`
/// is for these.
fn list_one<W: SubsetWeight>(
    alloc: Global,
    outlook: &Outlook<W>,
    subsets: &mut Vec<Subset<W>>,
    listed: &mut Strings<W>,
    table: &mut Table<W::Wide>,
    left: &mut Vec<Entry<W::Wide>>,
    entry: Entry<W::Wide>,
) -> Result<(), AllocError>
    requires plain { IsPlain (graph_of (valued W.value outlook.now.machine)) }
    requires clear { left.old.items ≡ [] }
    requires taken { (ready : List (Entry W.Wide)) × IsSearch W.KIND (graph_of (valued W.value outlook.now.machine)) W.wide_value outlook.now.due (map (weighted W.wide_value) listed.old) (words_of listed.old) subsets.old.items ready table.old.later.items × FirstLeaves (entry_cmp W.wide_value (words_of listed.old)) ready entry table.old.ready.items }
    ensures clear { OnOk result (left.new.items ≡ []) }
    ensures listed { OnOk result (length listed.new ≡ length listed.old + 1) }
    ensures search { OnOk result (IsSearch W.KIND (graph_of (valued W.value outlook.now.machine)) W.wide_value outlook.now.due (map (weighted W.wide_value) listed.new) (words_of listed.new) subsets.new.items table.new.ready.items table.new.later.items) }
{
    if entry.long > MOST_LONG {
        // So long a string has no room in memory.
        return Err(AllocError);
    }
    let found = walk(alloc, outlook, subsets, listed, left, entry)?;
    listed.push(found)?;
    put_left(table, outlook, listed, left)
}

/// The first `n` strings of an acceptor without epsilon, in order. A step is one entry taken from the table, and one is taken
/// for each string that is listed.
pub(crate) fn list_strings<W: SubsetWeight, L: Ledger>(
    alloc: Global,
    outlook: &mut Outlook<W>,
    n: usize,
    steps: &mut Steps<L>,
) -> Result<Strings<W>, AllocError>
    requires plain { IsPlain (graph_of (valued W.value outlook.old.machine)) }
    ensures first { IfOk result (λ strings. AreFirstStrings W.KIND (graph_of (valued W.value outlook.old.machine)) n (map (weighted W.wide_value) strings)) }
    ensures steps { IfOk result (λ strings. steps.new ≡ steps.old + length strings) }
{
    let mut listed = Strings::new(alloc);
    let mut subsets = Vec::new(alloc);
    let mut left = Vec::new(alloc);
    let mut table = begin(alloc, outlook, &mut subsets)?;
    'strings: while listed.len() < n {
        let Some(entry) = next_entry(alloc, outlook, &subsets, &listed, &mut table)? else {
            return Ok(listed);
        };
        steps.tick();
        list_one(
            alloc,
            outlook,
            &mut subsets,
            &mut listed,
            &mut table,
            &mut left,
            entry,
        )?;
    }
    Ok(listed)
}
