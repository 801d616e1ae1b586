//! Rows of numbers, numbered in the order in which they first come.

ghost use Rattle.std.specs.Prelude.{◌≡◌, ◌++◌, ◌∷◌, [], ℕ, List, OnOk, IfOk};
ghost use Rattle.fst_minimize.specs.Numbered.{IsNumbering, Notes, TellsApart};
ghost use Rattle.fst_minimize.specs.Numberers.{HasSeen};

use crate::pairs::Pairs;
use std::alloc::{AllocError, Global};

/// Numbers of places, and for each number the first place that has it.
#[derive(Drop)]
pub(crate) struct Numbering {
    pub(crate) numbers: Vec<u32>,
    pub(crate) least: Vec<u32>,
}

/// Rows that are being numbered. Two rows have one number just where they are equal and have the same head.
#[derive(Drop)]
pub(crate) struct Numberer {
    /// What was read of a row, and the next value.
    nodes: Pairs,
    /// What was read of a whole row, and its length.
    ends: Pairs,
    numbers: Vec<u32>,
    least: Vec<u32>,
}

/// Puts a place behind the others where it is the first with its number.
fn note_first(least: &mut Vec<u32>, first: bool, place: u32) -> Result<(), AllocError>
    ensures { OnOk result (Notes first place least.old.items least.new.items) }
{
    if first {
        least.push(place)?;
    }
    Ok(())
}

impl Numberer {
    /// No rows, and room for the numbers of so many.
    pub(crate) fn with_capacity(alloc: Global, rows: usize) -> Result<Numberer, AllocError>
        ensures { IfOk result (HasSeen []) }
    {
        Ok(Numberer {
            nodes: Pairs::new(alloc),
            ends: Pairs::new(alloc),
            numbers: Vec::with_capacity(alloc, rows)?,
            least: Vec::new(alloc),
        })
    }

    /// Numbers a row with its head. Where this is an `Err`, the numberer is of no more use.
    pub(crate) fn add(&mut self, head: u32, row: &[u32]) -> Result<u32, AllocError>
        ensures seen { OnOk result ((seen : List (ℕ × List ℕ)) → HasSeen seen self.old → HasSeen (seen ++ (head, row.now) ∷ []) self.new) }
        ensures put { IfOk result (λ n. self.new.numbers.items ≡ self.old.numbers.items ++ n ∷ []) }
    {
        let place = self.numbers.len();
        if row.len() > 4294967295 || place > 4294967295 {
            return Err(AllocError);
        }
        let known = self.ends.count();
        let end = self.nodes.spell(head, row)?;
        let number = self.ends.number(end, row.len() as u32)?;
        note_first(&mut self.least, number == known, place as u32)?;
        self.numbers.push(number)?;
        Ok(number)
    }

    /// The numbers of the rows.
    pub(crate) fn finish(self) -> Numbering
        ensures tells { (seen : List (ℕ × List ℕ)) → HasSeen seen self → TellsApart seen result.numbers.items }
        ensures same { result.numbers.items ≡ self.numbers.items }
        ensures numbering { (seen : List (ℕ × List ℕ)) → HasSeen seen self → IsNumbering result.numbers.items result.least.items }
    {
        Numbering {
            numbers: self.numbers,
            least: self.least,
        }
    }
}
