//! A plan answers for its names: the files that are fetched, those that are stored, and the labels of rules.

ghost use Rattle.std.specs.Prelude.{◌≡◌, ◌<◌, ◌≤◌, Some, length, slice_get};
ghost use Rattle.fst_words.specs.PlanLaws.{IsWhole};
ghost use Rattle.fst_words.specs.Plans.{input_files, outputs_of, rule_labels};

use crate::name::Name;
use crate::plan::Plan;
use crate::rules::{has_rules, output_place_of};
use crate::values::label_of;

impl Plan {
    /// How many files of its own the command fetches, those of its options left out. Takes no memory.
    pub fn input_count(&self) -> usize
        ensures { result ≡ length (input_files self.now) }
    {
        if has_rules(self.command) {
            self.names.len() / 2
        } else {
            output_place_of(self).min(self.names.len())
        }
    }

    /// The name of a file of its own that the command fetches, by its place in the order of the words, from 0. Takes no
    /// memory.
    pub fn input(&self, place: usize) -> &Name
        requires { place < length (input_files self.now) }
        ensures { slice_get (input_files self.now) place ≡ Some result.now }
    {
        if has_rules(self.command) {
            let pairs = self.names.len() / 2;
            prove!(place < pairs);
            self.names.item(2 * place)
        } else {
            self.names.item(place)
        }
    }

    /// How many files the command stores. Takes no memory.
    pub fn output_count(&self) -> usize
        ensures { result ≡ length (outputs_of self.now) }
    {
        self.names.len().saturating_sub(output_place_of(self))
    }

    /// The name of a file that the command stores, by its place in the order in which they are stored, from 0. Takes no
    /// memory.
    pub fn output(&self, place: usize) -> &Name
        requires { place < length (outputs_of self.now) }
        ensures { slice_get (outputs_of self.now) place ≡ Some result.now }
    {
        let first = output_place_of(self);
        let stored = self.names.len().saturating_sub(first);
        prove!(place < stored);
        self.names.item(first + place)
    }

    /// The label of a rule, by the place of the rule in the order of the words, from 0. Takes no memory.
    pub fn rule_label(&self, place: usize) -> u32
        requires whole { IsWhole self.now }
        requires within { place < length (rule_labels self.now) }
        ensures label { slice_get (rule_labels self.now) place ≡ Some result }
        // It is a label of the input side, and not epsilon.
        ensures some { 0 < result }
        ensures small { result ≤ 2147483647 }
    {
        let pairs = self.names.len() / 2;
        prove!(place < pairs);
        match label_of(self.names.item(2 * place + 1).text()) {
            Some(label) => label as u32,
            None => unreachable!(),
        }
    }
}
