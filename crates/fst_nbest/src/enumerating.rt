//! The first words of a system, one after the other.

ghost use Rattle.std.specs.Prelude.{◌≡◌, ◌<◌, ◌≤◌, ◌+◌, ◌++◌, ◌∷◌, [], ℕ, List, All, IfOk, OnOk, length, map};
ghost use Rattle.std.specs.List.Sorted.{IsPermutation};
ghost use Rattle.fst_nbest.specs.Heap.{FirstLeaves, IsHeap, TakesFirst};
ghost use Rattle.fst_nbest.specs.Words.{AreFirstWords, IsAhead, WeightedWord};
ghost use Rattle.fst_nbest.specs.Entries.{AreOrders, CanCompare, IsEntry, IsSearching, entry_cmp, list_at, most_long, prefix_of};
ghost use Rattle.fst_nbest.specs.Families.{IsLeading};

use crate::comparing::Comparing;
use crate::entry::Entry;
use crate::heap::{put, take};
use crate::orders::Orders;
use crate::system::System;
use crate::walking::{Words, walk};
use fst_machine::Steps;
use std::alloc::{AllocError, Global};
use std::sync::ledger::Ledger;

/// The greatest number of arcs of a path that is listed.
const MOST_LONG: usize = 1_099_511_627_776;

/// Puts all of these entries into the table, the last first.
fn put_all<D: Copy, S: System<D>>(
    table: &mut Vec<Entry<D>>,
    comparing: &Comparing<S>,
    left: &mut Vec<Entry<D>>,
) -> Result<(), AllocError>
    requires heap { IsHeap (entry_cmp S.value comparing.now.listed.now comparing.now.orders.now) table.old.items }
    requires table { All (CanCompare comparing.now.listed.now comparing.now.orders.now) table.old.items }
    requires left { All (CanCompare comparing.now.listed.now comparing.now.orders.now) left.old.items }
    ensures heap { OnOk result (IsHeap (entry_cmp S.value comparing.now.listed.now comparing.now.orders.now) table.new.items) }
    ensures same { OnOk result (IsPermutation (left.old.items ++ table.old.items) table.new.items) }
    ensures clear { OnOk result (left.new.items ≡ []) }
{
    while let Some(entry) = left.pop() {
        put(table, comparing, entry)?;
    }
    Ok(())
}

/// Takes a family out of the table whose best word comes after that of no other.
fn take_first<D: Copy, S: System<D>>(
    system: &S,
    listed: &Words,
    orders: &Orders,
    table: &mut Vec<Entry<D>>,
) -> Option<Entry<D>>
    requires heap { IsHeap (entry_cmp S.value listed.now orders.now) table.old.items }
    requires fits { All (CanCompare listed.now orders.now) table.old.items }
    ensures { TakesFirst (entry_cmp S.value listed.now orders.now) table.old.items result table.new.items }
{
    let comparing = Comparing {
        system,
        listed,
        orders,
    };
    take(table, &comparing)
}

/// Lists the best word of a family, and puts the families that it leaves into the table. The list `left` is for these.
fn list_one<D: Copy, S: System<D>>(
    alloc: Global,
    system: &S,
    orders: &mut Orders,
    listed: &mut Words,
    table: &mut Vec<Entry<D>>,
    left: &mut Vec<Entry<D>>,
    entry: Entry<D>,
) -> Result<(), AllocError>
    requires size { length orders.old ≡ S.size system.now }
    requires clear { left.old.items ≡ [] }
    requires taken { (start : ℕ) × (before : List (Entry D)) × IsSearching S.kind (S.words system.now) (S.dist system.now) (S.count system.now) S.value S.bounded start listed.old orders.old before × FirstLeaves (entry_cmp S.value listed.old orders.old) before entry table.old.items }
    ensures size { length orders.new ≡ length orders.old }
    ensures clear { OnOk result (left.new.items ≡ []) }
    ensures listed { OnOk result (length listed.new ≡ length listed.old + 1) }
    ensures search { OnOk result ((start : ℕ) (before : List (Entry D)) → IsSearching S.kind (S.words system.now) (S.dist system.now) (S.count system.now) S.value S.bounded start listed.old orders.old before → FirstLeaves (entry_cmp S.value listed.old orders.old) before entry table.old.items
        → IsSearching S.kind (S.words system.now) (S.dist system.now) (S.count system.now) S.value S.bounded start listed.new orders.new table.new.items) }
{
    // What holds of the words.
    let _names = system.name_count();
    if entry.arcs > MOST_LONG {
        // So long a path has no room in memory.
        return Err(AllocError);
    }
    let word = walk(alloc, system, orders, listed, left, entry)?;
    listed.push(word)?;
    let comparing = Comparing {
        system,
        listed,
        orders,
    };
    put_all(table, &comparing, left)
}

/// The first words of a system from a name from which words go on, in order: so many, or all of them where there are
/// fewer. A step is one family taken from the table, and one is taken for each word that is listed.
pub(crate) fn first_words<D: Copy, S: System<D>, L: Ledger>(
    alloc: Global,
    system: &S,
    start: u32,
    n: usize,
    steps: &mut Steps<L>,
) -> Result<Words, AllocError>
    requires start { start < S.size system.now }
    requires live { IsAhead S.kind (S.words system.now) start (S.dist system.now start) (S.count system.now start) }
    ensures first { IfOk result (λ words. (listed : List WeightedWord) × AreFirstWords S.kind (S.words system.now) start n listed × (map (λ w. w.word) listed ≡ words)) }
    ensures steps { IfOk result (λ words. steps.new ≡ steps.old + length words) }
{
    // What holds of the words.
    let _names = system.name_count();
    let mut listed = Words::new(alloc);
    let mut orders = Orders::new(alloc, system.name_count())?;
    let mut table = Vec::new(alloc);
    let mut left = Vec::new(alloc);
    orders.prepare(alloc, system, start)?;
    let (total, arcs) = system.whole(start);
    table.push(Entry {
        total,
        front: system.one(),
        arcs,
        path: 0,
        depth: 0,
        name: start,
        rank: 0,
    })?;
    'words: while listed.len() < n {
        let Some(entry) = take_first(system, &listed, &orders, &mut table) else {
            return Ok(listed);
        };
        steps.tick();
        list_one(
            alloc,
            system,
            &mut orders,
            &mut listed,
            &mut table,
            &mut left,
            entry,
        )?;
    }
    Ok(listed)
}
