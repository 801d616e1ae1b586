//! Rules: machines under labels.

ghost use Rattle.std.specs.Prelude.{◌≡◌, ◌<◌, ◌≤◌, ◌↔◌, ◌∷◌, ◌++◌, [], IfOk, IfSome, None, OnOk, OnErr, IsErrOf, Some, length, slice_get};
ghost use Rattle.fst_machine.specs.BreadthFirst.{Has};
ghost use Rattle.fst_machine.specs.Machine.{greatest_label};
ghost use Rattle.fst_replace.specs.Rules.{IsRules, labels_of, machine_at, place_of};

use crate::fault::AddFault;
use fst_machine::Fst;
use fst_semiring::Weight;
use fst_table::FlatTable;
use std::alloc::{AllocError, Global};
use std::marker::Model;

/// A machine under a label.
#[derive(Clone, Copy)]
pub struct Rule<'m, W: Weight> {
    /// The label, which is not 0 and at most 2,147,483,647.
    pub label: u32,
    /// The machine.
    pub machine: &'m Fst<W>,
}

/// Rules, the root first. No two labels are the same, and none is 0.
#[derive(Drop)]
pub struct Rules<'m, W: Weight> {
    list: Vec<Rule<'m, W>>,
    /// The places of the labels. A look-up costs a bounded number of slots and at most a search among sorted labels,
    /// whatever the labels are.
    places: FlatTable,
}

impl<'m, W: Weight> Model for Rules<'m, W> {
    ghost use Rattle.std.specs.Prelude.{List, map};
    ghost use Rattle.fst_table.specs.Placed.{placed_in};
    ghost use Rattle.fst_replace.specs.Rules.{AreKept, Labelled};

    ghost Value = { List (Labelled W) };

    ghost view = { λ r. map (λ e. record { label = e.label; machine = e.machine.now }) r.list.items };

    ghost invariant = { λ r. AreKept W.value (map (λ e. record { label = e.label; machine = e.machine.now }) r.list.items) (placed_in r.places) };
}

impl<'m, W: Weight> Rules<'m, W> {
    /// The root alone.
    pub fn new(alloc: Global, root: Rule<'m, W>) -> Result<Rules<'m, W>, AllocError>
        requires label { 0 < root.label }
        requires small { root.label ≤ greatest_label }
        ensures { IfOk result (λ r. r ≡ record { label = root.entry.label; machine = root.entry.machine.now } ∷ []) }
    {
        let _states = root.machine.states();
        let mut list = Vec::new(alloc);
        list.push(root)?;
        let mut places = FlatTable::new(alloc);
        places.add(u64::from(root.label), 0)?;
        Ok(Rules { list, places })
    }

    /// Puts a rule with a new label after the others. After an `Err` the rules are as before.
    fn put(&mut self, rule: Rule<'m, W>) -> Result<(), AllocError>
        requires label { 0 < rule.label }
        requires small { rule.label ≤ greatest_label }
        requires new { place_of (labels_of self.old) rule.label ≡ None }
        ensures ok { OnOk result (self.new ≡ self.old ++ record { label = rule.entry.label; machine = rule.entry.machine.now } ∷ []) }
        ensures err { OnErr result (self.new ≡ self.old) }
    {
        let _states = rule.machine.states();
        let place = self.list.len();
        if place >= u32::MAX as usize {
            return Err(AllocError);
        }
        self.list.reserve(1)?;
        self.places.add(u64::from(rule.label), place as u32)?;
        self.list.push_reserved(rule);
        Ok(())
    }

    /// Adds a rule behind the others. `LabelTaken` exactly where a rule has its label. After an `Err` the rules
    /// are as before.
    pub fn add(&mut self, rule: Rule<'m, W>) -> Result<(), AddFault>
        requires label { 0 < rule.label }
        requires small { rule.label ≤ greatest_label }
        ensures ok { OnOk result (self.new ≡ self.old ++ record { label = rule.entry.label; machine = rule.entry.machine.now } ∷ []) }
        ensures taken { IsErrOf result AddFault.LabelTaken ↔ Has (labels_of self.old) rule.entry.label }
        ensures err { OnErr result (self.new ≡ self.old) }
    {
        if self.place(rule.label).is_some() {
            return Err(AddFault::LabelTaken);
        }
        let Ok(_) = self.put(rule) else {
            return Err(AddFault::Memory);
        };
        Ok(())
    }

    /// How many rules there are, and with it what holds of all of them. Takes no memory.
    pub(crate) fn count(&self) -> usize
        ensures value { result ≡ length self.now }
        ensures rules { IsRules W.value self.now }
    {
        self.list.len()
    }

    /// The place of the rule with this label. Takes no memory.
    pub(crate) fn place(&self, label: u32) -> Option<usize>
        ensures value { result ≡ place_of (labels_of self.now) label }
        ensures within { IfSome result (λ i. i < length self.now) }
    {
        let place = self.places.find(u64::from(label))?;
        Some(place as usize)
    }

    /// The machine of the rule in this place. Takes no memory.
    pub(crate) fn machine(&self, place: usize) -> &'m Fst<W>
        requires { place < length self.now }
        ensures { result.now ≡ machine_at self.now place }
    {
        self.list[place].machine
    }

    /// The label of the rule in this place. Takes no memory.
    pub(crate) fn label(&self, place: usize) -> u32
        requires { place < length self.now }
        ensures { slice_get (labels_of self.now) place ≡ Some result }
    {
        self.list[place].label
    }
}
