//! How many states and arcs the expansion of each rule has.

ghost use Rattle.std.specs.Prelude.{◌≡◌, ◌<◌, ◌≤◌, ◌+◌, ℕ, IfOk, MatchOption, Some, get_or, length, map, sum_by};
ghost use Rattle.fst_machine.specs.BreadthFirst.{Has};
ghost use Rattle.fst_machine.specs.Machine.{arc_total, valued};
ghost use Rattle.fst_replace.specs.Calls.{arcs_of, calls_in, rules_in};
ghost use Rattle.fst_replace.specs.Rules.{labels_of, machine_at};
ghost use Rattle.fst_replace.specs.Totals.{IsTotal, brings};
ghost use Rattle.fst_replace.specs.Walks.{IsClosed, IsOrdered, at_place};

use crate::calls::{CallList, places_at};
use crate::rule::Rules;
use fst_machine::Fst;
use fst_rational::{count_onward, entries};
use fst_semiring::Weight;
use std::alloc::{AllocError, Global};

/// The number in a place.
fn number_at(list: &[u32], place: usize) -> u32
    requires { place < length list.now }
    ensures { result ≡ get_or list.now place 0 }
{
    list[place]
}

/// The count of a rule from its own, what calls bring, and the counts of the rules that it calls; `None` where it is
/// above the limit.
fn total_of(places: &[usize], own: u32, brought: &[u32], totals: &[u32], most: u32) -> Option<u32>
    requires brought { (j : ℕ) → Has places.now j → j < length brought.now }
    requires totals { (j : ℕ) → Has places.now j → j < length totals.now }
    ensures { MatchOption result (most < own + sum_by (λ j. get_or brought.now j 0 + get_or totals.now j 0) places.now) (λ n. (n ≡ own + sum_by (λ j. get_or brought.now j 0 + get_or totals.now j 0) places.now) × (n ≤ most)) }
{
    let most = u64::from(most);
    let mut total = u64::from(own);
    for place in places {
        if total > most {
            return None;
        }
        total += u64::from(number_at(brought, *place)) + u64::from(number_at(totals, *place));
    }
    if total > most {
        return None;
    }
    Some(total as u32)
}

/// The counts of the rules of the order; `None` where one of them is above the limit.
pub(crate) fn totals_of(
    alloc: Global,
    calls: &[CallList],
    order: &[usize],
    own: &[u32],
    brought: &[u32],
    most: u32,
) -> Result<Option<Vec<u32>>, AllocError>
    requires closed { IsClosed calls.now }
    requires ordered { IsOrdered (at_place calls.now) order.now }
    requires listed { (j : ℕ) → Has order.now j → j < length calls.now }
    requires own { length own.now ≡ length calls.now }
    requires brought { length brought.now ≡ length calls.now }
    ensures size { IfOk result (λ found. MatchOption found (Unit {0}) (λ totals. length totals.items ≡ length calls.now)) }
    ensures totals { (count : ℕ → ℕ) → IsTotal (at_place calls.now) own.now brought.now order.now count → IfOk result (λ found. MatchOption found ((i : ℕ) × Has order.now i × (most < count i)) (λ totals. (i : ℕ) → Has order.now i → (get_or totals.items i 0 ≡ count i) × (count i ≤ most))) }
{
    let mut totals = vec![in alloc; 0u32; calls.len()]?;
    for at in 0..order.len() {
        let rule = order[at];
        let places = places_at(calls, rule);
        match total_of(
            places,
            number_at(own, rule),
            brought,
            totals.as_slice(),
            most,
        ) {
            Some(total) => totals[rule] = total,
            None => return Ok(None),
        }
    }
    Ok(Some(totals))
}

/// How many states the machine of each rule has.
pub(crate) fn state_counts<W: Weight>(
    alloc: Global,
    rules: &Rules<'_, W>,
) -> Result<Vec<u32>, AllocError>
    ensures { IfOk result (λ counts. counts.items ≡ map (λ r. length r.machine.states) rules.now) }
{
    let count = rules.count();
    let mut counts = Vec::with_capacity(alloc, count)?;
    for place in 0..count {
        counts.push(rules.machine(place).states())?;
    }
    Ok(counts)
}

/// 0 for each rule.
pub(crate) fn zero_counts<W: Weight>(
    alloc: Global,
    rules: &Rules<'_, W>,
) -> Result<Vec<u32>, AllocError>
    ensures { IfOk result (λ counts. counts.items ≡ map (λ r. 0) rules.now) }
{
    let count = rules.count();
    let mut counts = Vec::with_capacity(alloc, count)?;
    for place in 0..count {
        let _ = place;
        counts.push(0u32)?;
    }
    Ok(counts)
}

/// How many arcs the machine of each rule has that are no calls.
pub(crate) fn plain_counts<W: Weight>(
    alloc: Global,
    rules: &Rules<'_, W>,
    calls: &[CallList],
) -> Result<Vec<u32>, AllocError>
    requires { calls.now ≡ map (λ r. rules_in (calls_in (labels_of rules.now) (arcs_of r.machine.states))) rules.now }
    ensures size { IfOk result (λ counts. length counts.items ≡ length rules.now) }
    ensures counts { IfOk result (λ counts. (i : ℕ) → i < length rules.now → get_or counts.items i 0 + length (at_place calls.now i) ≡ arc_total (machine_at rules.now i).states) }
{
    let count = rules.count();
    let mut counts = Vec::with_capacity(alloc, count)?;
    for place in 0..count {
        let arcs = rules.machine(place).arc_count() as usize;
        let called = places_at(calls, place).len();
        counts.push((arcs - called) as u32)?;
    }
    Ok(counts)
}

/// How many arcs a call of this machine brings.
fn brought_by<W: Weight>(machine: &Fst<W>) -> u32
    ensures { result ≡ brings (valued W.value machine.now) }
{
    let _states = machine.states();
    entries(machine.start()) + count_onward(machine, Some(0))
}

/// How many arcs a call of each rule brings.
pub(crate) fn brought_counts<W: Weight>(
    alloc: Global,
    rules: &Rules<'_, W>,
) -> Result<Vec<u32>, AllocError>
    ensures { IfOk result (λ counts. counts.items ≡ map (λ r. brings (valued W.value r.machine)) rules.now) }
{
    let count = rules.count();
    let mut counts = Vec::with_capacity(alloc, count)?;
    for place in 0..count {
        counts.push(brought_by(rules.machine(place)))?;
    }
    Ok(counts)
}
