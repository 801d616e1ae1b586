//! Numberings of states, refined by rounds and by blocks until a round splits nothing.

ghost use Rattle.std.specs.Prelude.{◌≡◌, ◌≤◌, ◌<◌, ℕ, List, All, IfOk, OnOk, length, map};
ghost use Rattle.std.specs.Bool.{Decides};
ghost use Rattle.fst_machine.specs.Graph.{Graph};
ghost use Rattle.fst_minimize.specs.Numbered.{AreRows, IsNumbering, RowsBelow, SplitsRows, TellsBehaviour, number_in};
ghost use Rattle.fst_minimize.specs.Refining.{IsRefined};

use crate::along::refine_along;
use crate::dividing::refine_by_blocks;
use crate::numberer::{Numberer, Numbering};
use crate::rows::Rows;
use std::alloc::{AllocError, Global};

/// Fills a list with the numbers of these states.
pub(crate) fn put_numbers(
    out: &mut Vec<u32>,
    numbers: &[u32],
    states: &[u32],
) -> Result<(), AllocError>
    requires { All (λ q. q < length numbers.now) states.now }
    ensures { OnOk result (out.new.items ≡ map (number_in numbers.now) states.now) }
{
    out.clear();
    for state in states {
        out.push(numbers[*state as usize])?;
    }
    Ok(())
}

/// Numbers states by their numbers and those of the ends of their arcs.
fn split_all(alloc: Global, current: &Numbering, rows: &Rows) -> Result<Numbering, AllocError>
    requires size { length current.now.numbers.items ≡ length rows.now }
    requires below { RowsBelow (length rows.now) rows.now }
    ensures splits { IfOk result (λ n. SplitsRows current.now.numbers.items n.numbers.items rows.now) }
    ensures numbering { IfOk result (λ n. IsNumbering n.numbers.items n.least.items) }
{
    let states = rows.len();
    let mut numberer = Numberer::with_capacity(alloc, states)?;
    let mut row = Vec::new(alloc);
    for state in 0..states {
        put_numbers(&mut row, &current.numbers, rows.row(state))?;
        numberer.add(current.numbers[state], &row)?;
    }
    Ok(numberer.finish())
}

/// Whether a round makes enough new numbers, about a sixteenth of the states, that another one is cheaper than to divide
/// blocks.
fn is_worth_a_round(old: usize, new: usize, states: usize) -> bool {
    states / 16 < new.saturating_sub(old)
}

/// Refines a numbering by rounds until a round splits nothing. Once a round is hardly worth it, blocks are divided by each
/// other, and the rounds behind it, of which there is one, see that nothing is left.
///
/// Time: at worst n times the square of log n in the states and arcs.
fn refine_by_rounds(alloc: Global, first: Numbering, rows: &Rows) -> Result<Numbering, AllocError>
    requires size { length first.numbers.items ≡ length rows.now }
    requires below { RowsBelow (length rows.now) rows.now }
    requires numbering { IsNumbering first.numbers.items first.least.items }
    ensures behaviour { IfOk result (λ n. (g : Graph ℕ) → AreRows g (length rows.now) rows.now → IsRefined g (length rows.now) (number_in first.numbers.items) → TellsBehaviour g (length rows.now) n.numbers.items) }
    ensures numbering { IfOk result (λ n. IsNumbering n.numbers.items n.least.items) }
    ensures size { IfOk result (λ n. length n.numbers.items ≡ length rows.now) }
{
    let mut current = first;
    let mut divided = false;
    loop {
        let next = split_all(alloc, &current, rows)?;
        let (old, new) = (current.least.len(), next.least.len());
        if new == old {
            return Ok(current);
        }
        if divided || is_worth_a_round(old, new, rows.len()) {
            current = next;
        } else {
            current = refine_by_blocks(alloc, &next, rows)?;
            divided = true;
        }
    }
}

/// Refines a numbering until states with one number behave the same: in one pass where no path comes back to a state, by
/// rounds and blocks where one does.
pub(crate) fn refine(alloc: Global, first: Numbering, rows: &Rows) -> Result<Numbering, AllocError>
    requires size { length first.numbers.items ≡ length rows.now }
    requires below { RowsBelow (length rows.now) rows.now }
    requires numbering { IsNumbering first.numbers.items first.least.items }
    ensures behaviour { IfOk result (λ n. (g : Graph ℕ) → AreRows g (length rows.now) rows.now → IsRefined g (length rows.now) (number_in first.numbers.items) → TellsBehaviour g (length rows.now) n.numbers.items) }
    ensures numbering { IfOk result (λ n. IsNumbering n.numbers.items n.least.items) }
    ensures size { IfOk result (λ n. length n.numbers.items ≡ length rows.now) }
{
    match refine_along(alloc, &first, rows)? {
        Some(classes) => Ok(classes),
        None => refine_by_rounds(alloc, first, rows),
    }
}
