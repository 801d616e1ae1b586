//! Which rules each rule calls.

ghost use Rattle.std.specs.Prelude.{◌≡◌, ◌<◌, ◌++◌, IfOk, OnOk, length, map};
ghost use Rattle.fst_replace.specs.Calls.{arcs_of, calls_in, rules_in};
ghost use Rattle.fst_replace.specs.Rules.{labels_of};
ghost use Rattle.fst_replace.specs.Walks.{at_place};

use crate::rule::Rules;
use fst_machine::{Fst, FstArc};
use fst_semiring::Weight;
use std::alloc::{AllocError, Global};
use std::marker::Model;

/// The places of the rules that a rule calls, one for each call arc, by state and place.
#[derive(Drop)]
pub(crate) struct CallList {
    places: Vec<usize>,
}

impl Model for CallList {
    ghost use Rattle.std.specs.Prelude.{ℕ, List};

    ghost Value = { List ℕ };

    ghost view = { λ l. l.places.items };
}

impl CallList {
    /// The places. Takes no memory.
    pub(crate) fn places(&self) -> &[usize]
        ensures { result.now ≡ self.now }
    {
        self.places.as_slice()
    }
}

/// The places of the rules that the rule in this place calls.
pub(crate) fn places_at(calls: &[CallList], rule: usize) -> &[usize]
    requires { rule < length calls.now }
    ensures { result.now ≡ at_place calls.now rule }
{
    calls[rule].places()
}

/// Puts the places of the rules that these arcs call behind those of a list.
fn put_called<W: Weight>(
    places: &mut Vec<usize>,
    rules: &Rules<'_, W>,
    arcs: &[FstArc<W>],
) -> Result<(), AllocError>
    ensures { OnOk result (places.new.items ≡ places.old.items ++ rules_in (calls_in (labels_of rules.now) arcs.now)) }
{
    for arc in arcs {
        if let Some(place) = rules.place(arc.olabel) {
            places.push(place)?;
        }
    }
    Ok(())
}

/// The places of the rules that a machine calls.
fn called_by<W: Weight>(
    alloc: Global,
    rules: &Rules<'_, W>,
    machine: &Fst<W>,
) -> Result<CallList, AllocError>
    ensures { IfOk result (λ l. l ≡ rules_in (calls_in (labels_of rules.now) (arcs_of machine.now.states))) }
{
    let mut places = Vec::new(alloc);
    for state in 0..machine.states() {
        put_called(&mut places, rules, machine.arcs(state))?;
    }
    Ok(CallList { places })
}

/// For each rule the places of the rules that it calls.
pub(crate) fn calls_of<W: Weight>(
    alloc: Global,
    rules: &Rules<'_, W>,
) -> Result<Vec<CallList>, AllocError>
    ensures { IfOk result (λ calls. calls.items ≡ map (λ r. rules_in (calls_in (labels_of rules.now) (arcs_of r.machine.states))) rules.now) }
{
    let count = rules.count();
    let mut calls = Vec::with_capacity(alloc, count)?;
    for place in 0..count {
        calls.push(called_by(alloc, rules, rules.machine(place))?)?;
    }
    Ok(calls)
}
