//! The orders of the entries of a table.

use crate::entry::Entry;
use crate::prefixes::is_prefix_before;
use crate::strings::Strings;
use fst_nbest::heap::Earlier;
use fst_semiring::Weight;
use std::cmp::Ordering;
use std::marker::PhantomData;

/// What entries whose weight is due are compared by: the listed strings, with which they begin.
pub(crate) struct Comparing<'a, W: Weight> {
    pub(crate) listed: &'a Strings<W>,
}

impl<'a, W: Weight> Drop for Comparing<'a, W> {
    fn drop(self) {
        let Comparing { listed: _ } = self;
    }
}

/// Entries by their weights alone.
#[derive(Clone, Copy)]
pub(crate) struct ByTotal<W: Weight> {
    pub(crate) weight: PhantomData<W>,
}

impl<'a, W: Weight> Earlier<Entry<W::Wide>> for Comparing<'a, W> {
    ghost use Rattle.fst_select.specs.Entries.{CanCompare, entry_cmp, entry_total, words_of};

    ghost order = { λ c. entry_cmp W.wide_value (words_of c.listed.now) };

    ghost fits = { λ c e. CanCompare (words_of c.listed.now) e };

    ghost total = { λ c. entry_total W.wide_value (words_of c.listed.now) };

    fn is_before(&self, a: &Entry<W::Wide>, b: &Entry<W::Wide>) -> bool {
        match W::wide_compare(a.total, b.total) {
            Ordering::Less => true,
            Ordering::Greater => false,
            Ordering::Equal => {
                if a.long != b.long {
                    return a.long < b.long;
                }
                is_prefix_before::<W>(self.listed, a, b)
            }
        }
    }
}

impl<W: Weight> Earlier<Entry<W::Wide>> for ByTotal<W> {
    ghost use Rattle.fst_select.specs.Entries.{total_cmp, total_total};

    ghost order = { λ b. total_cmp W.wide_value };

    ghost fits = { λ b e. Unit {0} };

    ghost total = { λ b. total_total W.wide_value };

    fn is_before(&self, a: &Entry<W::Wide>, b: &Entry<W::Wide>) -> bool {
        match W::wide_compare(a.total, b.total) {
            Ordering::Less => true,
            _ => false,
        }
    }
}
