//! The order of entries.

ghost use Rattle.std.specs.Prelude.{◌≡◌, ◌<◌, ◌≤◌, ◌+◌, length, get_or};
ghost use Rattle.std.specs.Ordering.{is_lt, nat_cmp};
ghost use Rattle.std.specs.Cmp.Lexicographic.{slice_cmp};
ghost use Rattle.fst_nbest.specs.Entries.{CanCompare, route_of};

use crate::entry::Entry;
use crate::heap::Earlier;
use crate::orders::Orders;
use crate::system::System;
use crate::walking::Words;
use std::cmp::Ordering;

/// What entries are compared by: the listed paths, with which they begin, and the orders of moves.
pub(crate) struct Comparing<'a, S> {
    pub(crate) system: &'a S,
    pub(crate) listed: &'a Words,
    pub(crate) orders: &'a Orders,
}

impl<'a, S> Drop for Comparing<'a, S> {
    fn drop(self) {
        let Comparing {
            system: _,
            listed: _,
            orders: _,
        } = self;
    }
}

/// The move in a place of an entry's route: a step by place k is k + 1.
fn turn_at<D>(listed: &Words, orders: &Orders, e: &Entry<D>, k: usize) -> u64
    requires can { CanCompare listed.now orders.now e.now }
    requires within { k ≤ e.now.depth }
    ensures { result ≡ get_or (route_of listed.now orders.now e.now) k 0 }
{
    if k < e.depth {
        return *listed.item(e.path).item(k) as u64 + 1;
    }
    orders.of(e.name)[e.rank] as u64
}

/// Whether the route of the first comes before that of the second. Where both begin as one listed path, they are the
/// same up to the end of the shorter.
fn is_route_before<D>(listed: &Words, orders: &Orders, a: &Entry<D>, b: &Entry<D>) -> bool
    requires a_can { CanCompare listed.now orders.now a.now }
    requires b_can { CanCompare listed.now orders.now b.now }
    ensures { result ≡ is_lt (slice_cmp nat_cmp (route_of listed.now orders.now a.now) (route_of listed.now orders.now b.now)) }
{
    let least = a.depth.min(b.depth);
    let mut k = if a.path == b.path { least } else { 0 };
    while k < least {
        let first = turn_at(listed, orders, a, k);
        let second = turn_at(listed, orders, b, k);
        if first != second {
            return first < second;
        }
        k += 1;
    }
    let first = turn_at(listed, orders, a, least);
    let second = turn_at(listed, orders, b, least);
    if first != second {
        return first < second;
    }
    a.depth < b.depth
}

impl<'a, D: Copy, S: System<D>> Earlier<Entry<D>> for Comparing<'a, S> {
    ghost use Rattle.fst_nbest.specs.Entries.{CanCompare, entry_cmp, entry_total};

    ghost order = { λ c. entry_cmp S.value c.listed.now c.orders.now };

    ghost fits = { λ c e. CanCompare c.listed.now c.orders.now e };

    ghost total = { λ c. entry_total S.value c.listed.now c.orders.now };

    fn is_before(&self, a: &Entry<D>, b: &Entry<D>) -> bool {
        match self.system.compare(a.total, b.total) {
            Ordering::Less => true,
            Ordering::Greater => false,
            Ordering::Equal => {
                if a.arcs != b.arcs {
                    return a.arcs < b.arcs;
                }
                is_route_before(self.listed, self.orders, a, b)
            }
        }
    }
}
