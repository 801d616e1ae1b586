//! Replacement.

ghost use Rattle.std.specs.Prelude.{◌≡◌, ◌<◌, ℕ, IfOk, IfErr, MatchOption, None, get_or, length, map};
ghost use Rattle.fst_machine.specs.Machine.{most_arcs, most_states, valued};
ghost use Rattle.fst_replace.specs.Answers.{IsCause, IsFine, IsLimited, Recurs};
ghost use Rattle.fst_replace.specs.Calls.{IsRecursive, arcs_of, calls_in, rules_in};
ghost use Rattle.fst_replace.specs.Expansion.{replaced};
ghost use Rattle.fst_replace.specs.Relation.{Replaces};
ghost use Rattle.fst_replace.specs.Rules.{labels_of, machine_at, valued_rules};
ghost use Rattle.fst_replace.specs.Totals.{AreCounts, IsTable, arcs_in, states_in};
ghost use Rattle.fst_replace.specs.Walks.{IsClosed, IsOrder, at_place};

use crate::calls::{CallList, calls_of};
use crate::expand::{Shape, expand_root};
use crate::fault::ReplaceFault;
use crate::order::order_of;
use crate::recursion::first_recursive;
use crate::rule::Rules;
use crate::totals::{brought_counts, plain_counts, state_counts, totals_of, zero_counts};
use fst_machine::{Fst, MOST_ARCS};
use fst_semiring::Weight;
use std::alloc::{AllocError, Global};

/// What is kept of each rule.
fn shapes_of<W: Weight>(
    alloc: Global,
    rules: &Rules<'_, W>,
    sizes: &[u32],
) -> Result<Vec<Shape>, AllocError>
    requires { length sizes.now ≡ length rules.now }
    ensures size { IfOk result (λ shapes. length shapes.items ≡ length rules.now) }
    ensures shapes { IfOk result (λ shapes. (i : ℕ) → i < length rules.now → get_or shapes.items i (record { start = None; size = 0 }) ≡ record { start = (machine_at rules.now i).start; size = get_or sizes.now i 0 }) }
{
    let count = rules.count();
    let mut shapes = Vec::with_capacity(alloc, count)?;
    for place in 0..count {
        shapes.push(Shape {
            start: rules.machine(place).start(),
            size: sizes[place],
        })?;
    }
    Ok(shapes)
}

/// The fault of rules of which one that the root reaches can call itself, and names it.
fn recursion_fault<W: Weight>(
    alloc: Global,
    rules: &Rules<'_, W>,
    calls: &[CallList],
) -> Result<ReplaceFault, AllocError>
    requires calls { calls.now ≡ map (λ r. rules_in (calls_in (labels_of rules.now) (arcs_of r.machine.states))) rules.now }
    requires root { 0 < length calls.now }
    requires closed { IsClosed calls.now }
    requires recursive { (i : ℕ) × IsRecursive (at_place calls.now) i }
    ensures { IfOk result (λ fault. IsCause (valued_rules W.value rules.now) fault) }
{
    match first_recursive(alloc, calls)? {
        Some(rule) => Ok(ReplaceFault::Recursive {
            label: rules.label(rule),
        }),
        None => unreachable!(),
    }
}

/// How many states the expansions of the rules of the order have; `None` where one has too many.
fn state_totals<W: Weight>(
    alloc: Global,
    rules: &Rules<'_, W>,
    calls: &[CallList],
    order: &[usize],
) -> Result<Option<Vec<u32>>, AllocError>
    requires calls { calls.now ≡ map (λ r. rules_in (calls_in (labels_of rules.now) (arcs_of r.machine.states))) rules.now }
    requires closed { IsClosed calls.now }
    requires order { IsOrder calls.now order.now }
    ensures size { IfOk result (λ found. MatchOption found (Unit {0}) (λ totals. length totals.items ≡ length calls.now)) }
    ensures totals { IfOk result (λ found. MatchOption found (most_states < states_in (valued_rules W.value rules.now) 0) (λ totals. AreCounts order.now (states_in (valued_rules W.value rules.now)) most_states totals.items)) }
{
    let own = state_counts(alloc, rules)?;
    let none = zero_counts(alloc, rules)?;
    totals_of(
        alloc,
        calls,
        order,
        own.as_slice(),
        none.as_slice(),
        4_194_304,
    )
}

/// How many arcs the expansions of the rules of the order have; `None` where one has too many.
fn arc_totals<W: Weight>(
    alloc: Global,
    rules: &Rules<'_, W>,
    calls: &[CallList],
    order: &[usize],
) -> Result<Option<Vec<u32>>, AllocError>
    requires calls { calls.now ≡ map (λ r. rules_in (calls_in (labels_of rules.now) (arcs_of r.machine.states))) rules.now }
    requires closed { IsClosed calls.now }
    requires order { IsOrder calls.now order.now }
    ensures size { IfOk result (λ found. MatchOption found (Unit {0}) (λ totals. length totals.items ≡ length calls.now)) }
    ensures totals { IfOk result (λ found. MatchOption found (most_arcs < arcs_in (valued_rules W.value rules.now) 0) (λ totals. AreCounts order.now (arcs_in (valued_rules W.value rules.now)) most_arcs totals.items)) }
{
    let plain = plain_counts(alloc, rules, calls)?;
    let brought = brought_counts(alloc, rules)?;
    totals_of(
        alloc,
        calls,
        order,
        plain.as_slice(),
        brought.as_slice(),
        MOST_ARCS,
    )
}

/// For each rule the rules that it calls, which are rules of the list.
fn known_calls<W: Weight>(alloc: Global, rules: &Rules<'_, W>) -> Result<Vec<CallList>, AllocError>
    ensures calls { IfOk result (λ calls. calls.items ≡ map (λ r. rules_in (calls_in (labels_of rules.now) (arcs_of r.machine.states))) rules.now) }
    ensures root { IfOk result (λ calls. 0 < length calls.items) }
    ensures closed { IfOk result (λ calls. IsClosed calls.items) }
{
    let _count = rules.count();
    let calls = calls_of(alloc, rules)?;
    Ok(calls)
}

/// What is known of rules before their expansion is made.
#[derive(Drop)]
struct Measured {
    shapes: Vec<Shape>,
    states: u32,
    arcs: u32,
}

/// Measures the expansion of the root by the rules that it reaches, each after those that it calls.
fn measure_order<W: Weight>(
    alloc: Global,
    rules: &Rules<'_, W>,
    calls: &[CallList],
    order: &[usize],
) -> Result<Result<Measured, ReplaceFault>, AllocError>
    requires calls { calls.now ≡ map (λ r. rules_in (calls_in (labels_of rules.now) (arcs_of r.machine.states))) rules.now }
    requires closed { IsClosed calls.now }
    requires order { IsOrder calls.now order.now }
    ensures fine { IfOk result (λ r. IfOk r (λ m. IsFine (valued_rules W.value rules.now) × IsTable (valued_rules W.value rules.now) m.shapes.items)) }
    ensures cause { IfOk result (λ r. IfErr r (λ fault. IsCause (valued_rules W.value rules.now) fault)) }
{
    let _count = rules.count();
    let Some(states) = state_totals(alloc, rules, calls, order)? else {
        return Ok(Err(ReplaceFault::TooManyStates));
    };
    let Some(arcs) = arc_totals(alloc, rules, calls, order)? else {
        return Ok(Err(ReplaceFault::TooManyArcs));
    };
    let shapes = shapes_of(alloc, rules, states.as_slice())?;
    Ok(Ok(Measured {
        shapes,
        states: states[0],
        arcs: arcs[0],
    }))
}

/// Measures the expansion of the root; the fault, if it has one.
fn measure<W: Weight>(
    alloc: Global,
    rules: &Rules<'_, W>,
) -> Result<Result<Measured, ReplaceFault>, AllocError>
    ensures fine { IfOk result (λ r. IfOk r (λ m. IsFine (valued_rules W.value rules.now) × IsTable (valued_rules W.value rules.now) m.shapes.items)) }
    ensures cause { IfOk result (λ r. IfErr r (λ fault. IsCause (valued_rules W.value rules.now) fault)) }
{
    let calls = known_calls(alloc, rules)?;
    let calls = calls.as_slice();
    match order_of(alloc, calls)? {
        Some(order) => measure_order(alloc, rules, calls, order.as_slice()),
        None => Ok(Err(recursion_fault(alloc, rules, calls)?)),
    }
}

/// The expansion of the root: the states of its machine, then the block of each of its calls, by state and place. A
/// call arc, one whose output label is that of a rule, becomes an epsilon arc with its weight, at its place, to the
/// start of its block; where the called machine has no start, it is dropped. A block is the expansion of the called
/// rule, whose final states are not final and go on by an epsilon arc with their weight to the state to which the
/// call arc led. (OpenFst manual, "Replace".)
///
/// The machine relates what the root does, where each call is read as any triple of the rule that is called, to the
/// depth of the number of rules.
///
/// It is refused where a rule that the root reaches can call itself, and where it is too big, before any of it is
/// made.
pub fn replace<W: Weight>(alloc: Global, rules: &Rules<'_, W>) -> Result<Fst<W>, ReplaceFault>
    ensures recursive { Recurs (valued_rules W.value rules.now) result }
    ensures limits { IsLimited (valued_rules W.value rules.now) result }
    ensures machine { IfOk result (λ m. valued W.value m ≡ replaced (valued_rules W.value rules.now)) }
    ensures relation { IfOk result (λ m. Replaces W.KIND (valued_rules W.value rules.now) (valued W.value m)) }
{
    let _rules = rules.count();
    match measure(alloc, rules) {
        Ok(Ok(measured)) => {
            let shapes = measured.shapes.as_slice();
            match expand_root(alloc, rules, shapes, measured.states, measured.arcs) {
                Ok(machine) => Ok(machine),
                Err(_) => Err(ReplaceFault::Memory),
            }
        }
        Ok(Err(fault)) => Err(fault),
        Err(_) => Err(ReplaceFault::Memory),
    }
}
