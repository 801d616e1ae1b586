//! Entries with one owner and one depth.

ghost use Rattle.std.specs.Prelude.{◌≡◌, ◌<◌, ◌∷◌, false, All, get_or, length};
ghost use Rattle.std.specs.Ordering.{is_gt, is_lt};
ghost use Rattle.std.specs.List.Sorted.{IsPermutation};
ghost use Rattle.fst_select.specs.Entries.{sibling_cmp};
ghost use Rattle.fst_select.specs.declared.entry.Entry.{Entry};

use crate::entry::Entry;
use fst_semiring::Weight;
use std::cmp::Ordering;

/// Whether the first of two entries with one owner and one depth comes before the second.
fn is_sibling_before<W: Weight>(a: &Entry<W::Wide>, b: &Entry<W::Wide>) -> bool
    ensures { result ≡ is_lt (sibling_cmp W.wide_value a.now b.now) }
{
    match W::wide_compare(a.total, b.total) {
        Ordering::Less => true,
        Ordering::Greater => false,
        Ordering::Equal => {
            if a.long != b.long {
                return a.long < b.long;
            }
            a.tail < b.tail
        }
    }
}

/// Whether the entry in place `a` comes before that in place `b`.
fn is_before_at<W: Weight>(parts: &Vec<Entry<W::Wide>>, a: usize, b: usize) -> bool
    requires a_within { a < length parts.now.items }
    requires b_within { b < length parts.now.items }
    ensures { (d : Entry W.Wide) → result ≡ is_lt (sibling_cmp W.wide_value (get_or parts.now.items a d) (get_or parts.now.items b d)) }
{
    let first = parts[a];
    let second = parts[b];
    is_sibling_before::<W>(&first, &second)
}

/// Takes out of entries with one owner and one depth one that comes after no other.
pub(crate) fn take_least<W: Weight>(parts: &mut Vec<Entry<W::Wide>>) -> Entry<W::Wide>
    requires some { 0 < length parts.old.items }
    ensures same { IsPermutation parts.old.items (result ∷ parts.new.items) }
    ensures least { All (λ e. is_gt (sibling_cmp W.wide_value result e) ≡ false) parts.new.items }
{
    let mut least = 0;
    for i in 0..parts.len() {
        if is_before_at::<W>(parts, i, least) {
            least = i;
        }
    }
    parts.swap_remove(least)
}
