//! Numberings of states in one pass, along an order in which the ends of the arcs of each stand before it.

ghost use Rattle.std.specs.Prelude.{◌≡◌, ◌<◌, ◌++◌, ◌∷◌, [], ℕ, List, All, IfOk, IfSome, OnOk, Some, true, false, get_or, length, take};
ghost use Rattle.fst_machine.specs.Graph.{Graph};
ghost use Rattle.fst_minimize.specs.Along.{IsAlong, IsWhole, Renumbers};
ghost use Rattle.fst_minimize.specs.Numbered.{AreRows, IsNumbering, RowsBelow, TellsBehaviour, number_in};
ghost use Rattle.fst_minimize.specs.Refining.{IsRefined};

use crate::ends_first::ends_first;
use crate::numberer::{Numberer, Numbering};
use crate::rounds::put_numbers;
use crate::rows::Rows;
use std::alloc::{AllocError, Global};

/// States that are being numbered: the numbers of those that have a mark.
#[derive(Drop)]
pub(crate) struct Pass {
    numbers: Vec<u32>,
    marks: Vec<bool>,
    numberer: Numberer,
    row: Vec<u32>,
}

/// Whether each of these states has a mark.
fn all_marked(marks: &[bool], states: &[u32]) -> bool
    requires { All (λ q. q < length marks.now) states.now }
    ensures { result ≡ true → All (λ q. get_or marks.now q false ≡ true) states.now }
{
    for state in states {
        if !marks[*state as usize] {
            return false;
        }
    }
    true
}

impl Pass {
    /// No state has a number.
    fn new(alloc: Global, states: usize) -> Result<Pass, AllocError>
        ensures size { IfOk result (λ p. length p.numbers.items ≡ states) }
        ensures sizes { IfOk result (λ p. length p.marks.items ≡ states) }
        ensures along { IfOk result (λ p. (first : List ℕ) (rows : List (List ℕ)) → length rows ≡ states → IsAlong first rows [] p) }
    {
        Ok(Pass {
            numbers: vec![in alloc; 0u32; states]?,
            marks: vec![in alloc; false; states]?,
            numberer: Numberer::with_capacity(alloc, states)?,
            row: Vec::new(alloc),
        })
    }

    /// Numbers a state by its first number and the numbers of its ends; false where it has a number, or one of its ends has
    /// none.
    fn put(&mut self, first: &[u32], rows: &Rows, state: u32) -> Result<bool, AllocError>
        requires state { state < length rows.now }
        requires firsts { length first.now ≡ length rows.now }
        requires numbers { length self.old.numbers.items ≡ length rows.now }
        requires marks { length self.old.marks.items ≡ length rows.now }
        requires below { RowsBelow (length rows.now) rows.now }
        ensures size { OnOk result (length self.new.numbers.items ≡ length rows.now) }
        ensures sizes { OnOk result (length self.new.marks.items ≡ length rows.now) }
        ensures along { IfOk result (λ done. done ≡ true → (order : List ℕ) → IsAlong first.now rows.now order self.old → IsAlong first.now rows.now (order ++ state ∷ []) self.new) }
    {
        let place = state as usize;
        let ends = rows.row(place);
        if self.marks[place] || !all_marked(&self.marks, ends) {
            return Ok(false);
        }
        put_numbers(&mut self.row, &self.numbers, ends)?;
        self.numbers[place] = self.numberer.add(first[place], &self.row)?;
        self.marks[place] = true;
        Ok(true)
    }

    /// The numbers by first places; none where a state has no mark.
    fn finish(self, alloc: Global) -> Result<Option<Numbering>, AllocError>
        requires { length self.marks.items ≡ length self.numbers.items }
        ensures numbering { IfOk result (λ o. IfSome o (λ n. IsNumbering n.numbers.items n.least.items)) }
        ensures whole { IfOk result (λ o. IfSome o (λ n. (first : List ℕ) (rows : List (List ℕ)) (order : List ℕ) → IsAlong first rows order self → IsWhole first rows order self.numbers.items)) }
        ensures renumbers { IfOk result (λ o. IfSome o (λ n. Renumbers (length self.numbers.items) self.numbers.items n.numbers.items)) }
    {
        let Pass {
            numbers,
            marks,
            numberer,
            row: _,
        } = self;
        let _along = numberer.finish();
        let none = Vec::new(alloc);
        let mut again = Numberer::with_capacity(alloc, numbers.len())?;
        for state in 0..numbers.len() {
            if !marks[state] {
                return Ok(None);
            }
            again.add(numbers[state], &none)?;
        }
        Ok(Some(again.finish()))
    }
}

/// Numbers states by their behaviour in one pass; none where a path comes back to a state, so that none of its states can
/// be the first.
///
/// Time and space: linear in the states and arcs.
pub(crate) fn refine_along(
    alloc: Global,
    first: &Numbering,
    rows: &Rows,
) -> Result<Option<Numbering>, AllocError>
    requires size { length first.now.numbers.items ≡ length rows.now }
    requires below { RowsBelow (length rows.now) rows.now }
    ensures behaviour { IfOk result (λ o. IfSome o (λ n. (g : Graph ℕ) → AreRows g (length rows.now) rows.now → IsRefined g (length rows.now) (number_in first.now.numbers.items) → TellsBehaviour g (length rows.now) n.numbers.items)) }
    ensures numbering { IfOk result (λ o. IfSome o (λ n. IsNumbering n.numbers.items n.least.items)) }
    ensures size { IfOk result (λ o. IfSome o (λ n. length n.numbers.items ≡ length rows.now)) }
{
    let order = ends_first(alloc, rows)?;
    let mut pass = Pass::new(alloc, rows.len())?;
    for state in order.as_slice() {
        if !pass.put(&first.numbers, rows, *state)? {
            return Ok(None);
        }
    }
    pass.finish(alloc)
}
