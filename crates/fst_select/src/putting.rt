//! The table of a listing, and how entries are put into it.

ghost use Rattle.std.specs.Prelude.{◌≡◌, [], ◌∷◌, All, OnOk};
ghost use Rattle.fst_nbest.specs.Heap.{IsHeap};
ghost use Rattle.fst_select.specs.Entries.{CanCompare, entry_cmp, total_cmp, words_of};
ghost use Rattle.fst_select.specs.Outlook.{IsDue};
ghost use Rattle.fst_select.specs.Tables.{ArePut};

use crate::comparing::{ByTotal, Comparing};
use crate::entry::Entry;
use crate::outlook::Outlook;
use crate::strings::Strings;
use fst_determinize::SubsetWeight;
use fst_nbest::heap::put;
use fst_semiring::Weight;
use std::alloc::AllocError;
use std::marker::PhantomData;

/// Strings and prefixes that are still to be listed, in two heaps.
#[derive(Drop)]
pub(crate) struct Table<D> {
    /// Those whose weight is due, in the order of their best strings.
    pub(crate) ready: Vec<Entry<D>>,
    /// The others, by weight.
    pub(crate) later: Vec<Entry<D>>,
}

/// Puts an entry into the part of the table to which it belongs.
fn put_one<W: SubsetWeight>(
    table: &mut Table<W::Wide>,
    outlook: &Outlook<W>,
    listed: &Strings<W>,
    entry: Entry<W::Wide>,
) -> Result<(), AllocError>
    requires ready { IsHeap (entry_cmp W.wide_value (words_of listed.now)) table.old.ready.items }
    requires later { IsHeap (total_cmp W.wide_value) table.old.later.items }
    requires compare { All (CanCompare (words_of listed.now)) table.old.ready.items }
    requires entry { CanCompare (words_of listed.now) entry }
    ensures ready { OnOk result (IsHeap (entry_cmp W.wide_value (words_of listed.now)) table.new.ready.items) }
    ensures later { OnOk result (IsHeap (total_cmp W.wide_value) table.new.later.items) }
    ensures compare { OnOk result (All (CanCompare (words_of listed.now)) table.new.ready.items) }
    ensures put { OnOk result (ArePut (λ e. IsDue W.KIND outlook.now.due (W.wide_value e.total)) (entry ∷ []) table.old.ready.items table.old.later.items table.new.ready.items table.new.later.items) }
{
    if outlook.is_due(entry.total) {
        let comparing = Comparing { listed };
        put(&mut table.ready, &comparing, entry)
    } else {
        let by_total = ByTotal::<W> {
            weight: PhantomData,
        };
        put(&mut table.later, &by_total, entry)
    }
}

/// Puts all of these entries into the table, the last first: those whose weight is due into its first part, the others
/// into the second.
pub(crate) fn put_left<W: SubsetWeight>(
    table: &mut Table<W::Wide>,
    outlook: &Outlook<W>,
    listed: &Strings<W>,
    left: &mut Vec<Entry<W::Wide>>,
) -> Result<(), AllocError>
    requires ready { IsHeap (entry_cmp W.wide_value (words_of listed.now)) table.old.ready.items }
    requires later { IsHeap (total_cmp W.wide_value) table.old.later.items }
    requires compare { All (CanCompare (words_of listed.now)) table.old.ready.items }
    requires left { All (CanCompare (words_of listed.now)) left.old.items }
    ensures ready { OnOk result (IsHeap (entry_cmp W.wide_value (words_of listed.now)) table.new.ready.items) }
    ensures later { OnOk result (IsHeap (total_cmp W.wide_value) table.new.later.items) }
    ensures compare { OnOk result (All (CanCompare (words_of listed.now)) table.new.ready.items) }
    ensures clear { OnOk result (left.new.items ≡ []) }
    ensures put { OnOk result (ArePut (λ e. IsDue W.KIND outlook.now.due (W.wide_value e.total)) left.old.items table.old.ready.items table.old.later.items table.new.ready.items table.new.later.items) }
{
    while let Some(entry) = left.pop() {
        put_one(table, outlook, listed, entry)?;
    }
    Ok(())
}
