//! The first rule that the root reaches and that can call itself.

ghost use Rattle.std.specs.Prelude.{◌≡◌, ◌<◌, ◌∷◌, ℕ, [], IfOk, IfSome, MatchOption, OnOk, false, get_or, length};
ghost use Rattle.std.specs.Bool.{Decides};
ghost use Rattle.fst_machine.specs.BreadthFirst.{Grows, Has};
ghost use Rattle.fst_machine.specs.Marks.{Marks};
ghost use Rattle.fst_replace.specs.Calls.{CanCall, HasNoRecursion, IsFirstRecursive, IsRecursive, Reaches};
ghost use Rattle.fst_replace.specs.Walks.{IsClosed, at_place};

use crate::calls::{CallList, places_at};
use std::alloc::{AllocError, Global};

/// Adds a place behind those that were found, if it is not among them. The marks say which those are.
fn find(names: &mut Vec<usize>, seen: &mut Vec<bool>, place: usize) -> Result<(), AllocError>
    requires marks { Marks seen.old.items names.old.items }
    requires within { place < length seen.old.items }
    ensures grows { OnOk result (Grows names.old.items (place ∷ []) names.new.items) }
    ensures marks { OnOk result (Marks seen.new.items names.new.items) }
    ensures size { length seen.new.items ≡ length seen.old.items }
{
    if seen[place] {
        return Ok(());
    }
    names.push(place)?;
    seen[place] = true;
    Ok(())
}

/// Adds the places that are not among those that were found.
fn find_all(
    names: &mut Vec<usize>,
    seen: &mut Vec<bool>,
    places: &[usize],
) -> Result<(), AllocError>
    requires marks { Marks seen.old.items names.old.items }
    requires within { (p : ℕ) → Has places.now p → p < length seen.old.items }
    ensures grows { OnOk result (Grows names.old.items places.now names.new.items) }
    ensures marks { OnOk result (Marks seen.new.items names.new.items) }
    ensures size { length seen.new.items ≡ length seen.old.items }
{
    for place in places {
        find(names, seen, *place)?;
    }
    Ok(())
}

/// Marks the rules that a rule calls in one or more calls.
fn mark_called(alloc: Global, calls: &[CallList], rule: usize) -> Result<Vec<bool>, AllocError>
    requires rule { rule < length calls.now }
    requires closed { IsClosed calls.now }
    ensures size { IfOk result (λ seen. length seen.items ≡ length calls.now) }
    ensures marks { IfOk result (λ seen. (j : ℕ) → Decides (get_or seen.items j false) (CanCall (at_place calls.now) rule j)) }
{
    let mut seen = vec![in alloc; false; calls.len()]?;
    let mut names = Vec::new(alloc);
    find_all(&mut names, &mut seen, places_at(calls, rule))?;
    let mut taken = 0;
    while taken < names.len() {
        let next = names[taken];
        find_all(&mut names, &mut seen, places_at(calls, next))?;
        taken += 1;
    }
    Ok(seen)
}

/// Marks the rules that the root reaches, itself among them.
fn mark_reached(alloc: Global, calls: &[CallList]) -> Result<Vec<bool>, AllocError>
    requires root { 0 < length calls.now }
    requires closed { IsClosed calls.now }
    ensures size { IfOk result (λ seen. length seen.items ≡ length calls.now) }
    ensures marks { IfOk result (λ seen. (j : ℕ) → Decides (get_or seen.items j false) (Reaches (at_place calls.now) 0 j)) }
{
    let mut seen = mark_called(alloc, calls, 0)?;
    seen[0] = true;
    Ok(seen)
}

/// Whether a rule can call itself, and the root reaches it; those are marked.
fn is_recursive(
    alloc: Global,
    calls: &[CallList],
    reached: &[bool],
    rule: usize,
) -> Result<bool, AllocError>
    requires rule { rule < length calls.now }
    requires closed { IsClosed calls.now }
    requires size { length reached.now ≡ length calls.now }
    requires marks { (j : ℕ) → Decides (get_or reached.now j false) (Reaches (at_place calls.now) 0 j) }
    ensures { IfOk result (λ answer. Decides answer (IsRecursive (at_place calls.now) rule)) }
{
    if !reached[rule] {
        return Ok(false);
    }
    let own = mark_called(alloc, calls, rule)?;
    Ok(own[rule])
}

/// The first rule that the root reaches and that can call itself. It walks from one rule after the other, so it is
/// for rules of which one is known to be recursive.
pub(crate) fn first_recursive(
    alloc: Global,
    calls: &[CallList],
) -> Result<Option<usize>, AllocError>
    requires root { 0 < length calls.now }
    requires closed { IsClosed calls.now }
    ensures first { IfOk result (λ first. MatchOption first (HasNoRecursion (at_place calls.now)) (λ i. IsFirstRecursive (at_place calls.now) i)) }
    ensures within { IfOk result (λ first. IfSome first (λ i. i < length calls.now)) }
{
    let reached = mark_reached(alloc, calls)?;
    for rule in 0..calls.len() {
        if is_recursive(alloc, calls, reached.as_slice(), rule)? {
            return Ok(Some(rule));
        }
    }
    Ok(None)
}
