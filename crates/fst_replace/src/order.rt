//! The rules that the root reaches, each behind the rules that it calls.

ghost use Rattle.std.specs.Prelude.{◌≡◌, ◌≢◌, ◌<◌, ◌≤◌, ℕ, List, [], ◌∷◌, ◌++◌, IfOk, MatchOption, OnOk, Some, get_or, length, set, slice_get, true, false};
ghost use Rattle.std.specs.Bool.{Decides};
ghost use Rattle.fst_machine.specs.BreadthFirst.{Has};
ghost use Rattle.fst_replace.specs.Calls.{IsRecursive, Reaches};
ghost use Rattle.fst_replace.specs.Walks.{IsOrder, IsOrdered, IsClosed, IsSearch, at_place, steps_left};

use crate::calls::{CallList, places_at};
use std::alloc::{AllocError, Global};

/// How far a search has come with a rule.
#[derive(Clone, Copy)]
pub(crate) enum Mark {
    /// It was not met.
    New,
    /// It waits for a rule that it calls.
    Open,
    /// It stands in the order.
    Done,
}

/// A depth-first search through the calls, with a stack of its own.
#[derive(Drop)]
struct Search {
    marks: Vec<Mark>,
    /// For each rule, how many of its calls are known to lead to rules that are done.
    cursors: Vec<usize>,
    stack: Vec<usize>,
    order: Vec<usize>,
}

/// Whether the rule with this mark is done.
fn is_done(mark: Mark) -> bool
    ensures { Decides result (mark ≡ Mark.Done) }
{
    match mark {
        Mark::Done => true,
        Mark::New => false,
        Mark::Open => false,
    }
}

/// The first place from `cursor` on whose rule is not done.
fn next_waiting(marks: &[Mark], places: &[usize], cursor: usize) -> usize
    requires within { (p : ℕ) → Has places.now p → p < length marks.now }
    ensures done { (c j : ℕ) → cursor ≤ c → c < result → slice_get places.now c ≡ Some j → get_or marks.now j Mark.New ≡ Mark.Done }
    ensures waits { (j : ℕ) → slice_get places.now result ≡ Some j → get_or marks.now j Mark.New ≢ Mark.Done }
{
    for at in cursor..places.len() {
        if !is_done(marks[places[at]]) {
            return at;
        }
    }
    places.len()
}

impl Search {
    /// The rule at the end of the stack.
    fn top(&self) -> Option<usize>
        ensures { MatchOption result (self.now.stack.items ≡ []) (λ i. (front : List ℕ) × (self.now.stack.items ≡ front ++ i ∷ [])) }
    {
        match self.stack.last() {
            Some(rule) => Some(*rule),
            None => None,
        }
    }

    /// Puts the rule at the end of the stack behind the others of the order.
    fn finish(&mut self, rule: usize) -> Result<(), AllocError>
        requires { rule < length self.old.marks.items }
        ensures order { OnOk result (self.new.order.items ≡ self.old.order.items ++ rule ∷ []) }
        ensures marks { OnOk result (self.new.marks.items ≡ set self.old.marks.items rule Mark.Done) }
        ensures stack { (front : List ℕ) → self.old.stack.items ≡ front ++ rule ∷ [] → OnOk result (self.new.stack.items ≡ front) }
        ensures cursors { OnOk result (self.new.cursors.items ≡ self.old.cursors.items) }
    {
        self.order.push(rule)?;
        self.marks[rule] = Mark::Done;
        let _ = self.stack.pop();
        Ok(())
    }

    /// Puts a rule at the end of the stack.
    fn enter(&mut self, rule: usize) -> Result<(), AllocError>
        requires { rule < length self.old.marks.items }
        ensures order { OnOk result (self.new.order.items ≡ self.old.order.items) }
        ensures marks { OnOk result (self.new.marks.items ≡ set self.old.marks.items rule Mark.Open) }
        ensures stack { OnOk result (self.new.stack.items ≡ self.old.stack.items ++ rule ∷ []) }
        ensures cursors { OnOk result (self.new.cursors.items ≡ self.old.cursors.items) }
    {
        self.stack.push(rule)?;
        self.marks[rule] = Mark::Open;
        Ok(())
    }

    /// Finds the first call of the rule that leads to a rule that is not done.
    fn look(&mut self, calls: &[CallList], rule: usize) -> usize
        requires closed { IsClosed calls.now }
        requires rule { rule < length calls.now }
        requires search { IsSearch calls.now self.old.marks.items self.old.cursors.items self.old.stack.items self.old.order.items }
        ensures search { IsSearch calls.now self.new.marks.items self.new.cursors.items self.new.stack.items self.new.order.items }
        ensures marks { self.new.marks.items ≡ self.old.marks.items }
        ensures stack { self.new.stack.items ≡ self.old.stack.items }
        ensures done { (c j : ℕ) → c < result → slice_get (at_place calls.now rule) c ≡ Some j → Has self.new.order.items j }
        ensures waits { (j : ℕ) → slice_get (at_place calls.now rule) result ≡ Some j → get_or self.new.marks.items j Mark.New ≢ Mark.Done }
    {
        let places = places_at(calls, rule);
        let at = next_waiting(self.marks.as_slice(), places, self.cursors[rule]);
        self.cursors[rule] = at;
        at
    }

    /// Goes on with a rule that the rule at the end of the stack calls and that is not done; `false` where it
    /// waits for that rule.
    fn meet(&mut self, calls: &[CallList], rule: usize, called: usize) -> Result<bool, AllocError>
        requires closed { IsClosed calls.now }
        requires search { IsSearch calls.now self.old.marks.items self.old.cursors.items self.old.stack.items self.old.order.items }
        requires top { (front : List ℕ) × (self.old.stack.items ≡ front ++ rule ∷ []) }
        requires called { Has (at_place calls.now rule) called }
        requires waits { get_or self.old.marks.items called Mark.New ≢ Mark.Done }
        ensures search { IfOk result (λ on. on ≡ true → IsSearch calls.now self.new.marks.items self.new.cursors.items self.new.stack.items self.new.order.items) }
        ensures falls { IfOk result (λ on. on ≡ true → steps_left self.new.marks.items self.new.stack.items < steps_left self.old.marks.items self.old.stack.items) }
        ensures recursive { IfOk result (λ on. on ≡ false → (i : ℕ) × IsRecursive (at_place calls.now) i) }
    {
        match self.marks[called] {
            Mark::Open => Ok(false),
            _ => {
                self.enter(called)?;
                Ok(true)
            }
        }
    }

    /// Goes on with the rule at the end of the stack; `false` where it calls a rule that waits for it.
    fn step(&mut self, calls: &[CallList], rule: usize) -> Result<bool, AllocError>
        requires closed { IsClosed calls.now }
        requires search { IsSearch calls.now self.old.marks.items self.old.cursors.items self.old.stack.items self.old.order.items }
        requires top { (front : List ℕ) × (self.old.stack.items ≡ front ++ rule ∷ []) }
        ensures search { IfOk result (λ on. on ≡ true → IsSearch calls.now self.new.marks.items self.new.cursors.items self.new.stack.items self.new.order.items) }
        ensures falls { IfOk result (λ on. on ≡ true → steps_left self.new.marks.items self.new.stack.items < steps_left self.old.marks.items self.old.stack.items) }
        ensures recursive { IfOk result (λ on. on ≡ false → (i : ℕ) × IsRecursive (at_place calls.now) i) }
    {
        let at = self.look(calls, rule);
        let places = places_at(calls, rule);
        if at >= places.len() {
            self.finish(rule)?;
            return Ok(true);
        }
        self.meet(calls, rule, places[at])
    }
}

/// A search that has met the root.
fn begin(alloc: Global, calls: &[CallList]) -> Result<Search, AllocError>
    requires { 0 < length calls.now }
    ensures { IfOk result (λ s. IsSearch calls.now s.marks.items s.cursors.items s.stack.items s.order.items) }
{
    let count = calls.len();
    let mut marks = vec![in alloc; Mark::New; count]?;
    let cursors = vec![in alloc; 0usize; count]?;
    let mut stack = Vec::new(alloc);
    stack.push(0)?;
    marks[0] = Mark::Open;
    Ok(Search {
        marks,
        cursors,
        stack,
        order: Vec::new(alloc),
    })
}

/// The rules that the root reaches, each behind all rules that it calls; `None` where one of them can call
/// itself.
///
/// Time: linear in the calls.
pub(crate) fn order_of(alloc: Global, calls: &[CallList]) -> Result<Option<Vec<usize>>, AllocError>
    requires root { 0 < length calls.now }
    requires closed { IsClosed calls.now }
    ensures { IfOk result (λ found. MatchOption found ((i : ℕ) × IsRecursive (at_place calls.now) i) (λ order. IsOrder calls.now order.items)) }
{
    let mut search = begin(alloc, calls)?;
    while let Some(rule) = search.top() {
        if !search.step(calls, rule)? {
            return Ok(None);
        }
    }
    Ok(Some(search.order))
}
