//! States divided into blocks, each block by the states to which the arcs of its members lead.

ghost use Rattle.std.specs.Prelude.{◌≡◌, ◌⊎◌, ◌<◌, ◌≤◌, ℕ, List, IfOk, OnOk, length};
ghost use Rattle.std.specs.List.Sorted.{IsNonDecreasingBy};
ghost use Rattle.fst_machine.specs.Graph.{Graph};
ghost use Rattle.fst_machine.specs.BreadthFirst.{Has};
ghost use Rattle.fst_minimize.specs.Behaviour.{Alike};
ghost use Rattle.fst_minimize.specs.Dividing.{AreBacks, AreBelow, InRun, IsRun, KeepsAlike, NoMarks, TakesAlike, TellsMarked, IsBoth};
ghost use Rattle.fst_minimize.specs.Numbered.{AreRows, IsNumbering, RowsBelow, number_in};
ghost use Rattle.fst_minimize.specs.Parts.{IsMarked};
ghost use Rattle.fst_minimize.specs.Refining.{IsRefined};

use crate::backs::{Backs, Keyed};
use crate::numberer::{Numberer, Numbering};
use crate::parts::Parts;
use crate::rows::Rows;
use std::alloc::{AllocError, Global};

/// Where the part of a list that begins in a place and has one key ends.
fn run_end(items: &[Keyed], first: usize) -> usize
    requires first { first < length items.now }
    requires sorted { IsNonDecreasingBy (λ i. i.key) items.now }
    ensures { IsRun items.now first result }
{
    let mut end = first + 1;
    while end < items.len() && items[end].key == items[first].key {
        end += 1;
    }
    end
}

/// Marks the states of a part of a list.
fn mark_run(parts: &mut Parts, items: &[Keyed], first: usize, end: usize)
    requires order { first ≤ end }
    requires within { end ≤ length items.now }
    requires below { AreBelow (length parts.old.blocks.items) items.now }
    ensures blocks { parts.new.blocks.items ≡ parts.old.blocks.items }
    ensures only { (p : ℕ) → p < length parts.old.blocks.items → IsMarked parts.new p → IsMarked parts.old p ⊎ InRun items.now first end p }
    ensures all { (p : ℕ) → InRun items.now first end p → IsMarked parts.new p }
{
    for place in first..end {
        parts.mark(items[place].state);
    }
}

/// Splits the blocks of the states of a part of a list, and puts the new ones behind the work that is left.
fn split_run(
    parts: &mut Parts,
    work: &mut Vec<u32>,
    items: &[Keyed],
    first: usize,
    end: usize,
) -> Result<(), AllocError>
    requires within { end ≤ length items.now }
    requires below { AreBelow (length parts.old.blocks.items) items.now }
    ensures size { OnOk result (length parts.new.blocks.items ≡ length parts.old.blocks.items) }
    ensures alike { OnOk result ((g : Graph ℕ) → TellsMarked g parts.old → KeepsAlike g (length parts.old.blocks.items) parts.old.blocks.items → KeepsAlike g (length parts.old.blocks.items) parts.new.blocks.items) }
    ensures none { OnOk result (((p : ℕ) → p < length parts.old.blocks.items → IsMarked parts.old p → InRun items.now first end p) → NoMarks parts.new) }
{
    for place in first..end {
        match parts.split(items[place].state)? {
            Some(block) => work.push(block)?,
            None => {}
        }
    }
    Ok(())
}

/// Divides each block by the states that stand under each of the keys, which do not fall.
fn divide_by_runs(parts: &mut Parts, work: &mut Vec<u32>, items: &[Keyed]) -> Result<(), AllocError>
    requires sorted { IsNonDecreasingBy (λ i. i.key) items.now }
    requires below { AreBelow (length parts.old.blocks.items) items.now }
    requires none { NoMarks parts.old }
    ensures size { OnOk result (length parts.new.blocks.items ≡ length parts.old.blocks.items) }
    ensures alike { OnOk result ((g : Graph ℕ) → TakesAlike g (length parts.old.blocks.items) items.now → KeepsAlike g (length parts.old.blocks.items) parts.old.blocks.items → KeepsAlike g (length parts.old.blocks.items) parts.new.blocks.items) }
    ensures none { OnOk result (NoMarks parts.new) }
{
    let mut first = 0;
    while first < items.len() {
        let end = run_end(items, first);
        mark_run(parts, items, first, end);
        split_run(parts, work, items, first, end)?;
        first = end;
    }
    Ok(())
}

/// Divides each block by the states that stand under each of the keys.
fn divide_by(
    parts: &mut Parts,
    work: &mut Vec<u32>,
    items: &mut Vec<Keyed>,
) -> Result<(), AllocError>
    requires below { AreBelow (length parts.old.blocks.items) items.old.items }
    requires none { NoMarks parts.old }
    ensures size { OnOk result (length parts.new.blocks.items ≡ length parts.old.blocks.items) }
    ensures alike { OnOk result ((g : Graph ℕ) → TakesAlike g (length parts.old.blocks.items) items.old.items → KeepsAlike g (length parts.old.blocks.items) parts.old.blocks.items → KeepsAlike g (length parts.old.blocks.items) parts.new.blocks.items) }
    ensures none { OnOk result (NoMarks parts.new) }
{
    items.sort_by_key(|item| item.key)?;
    divide_by_runs(parts, work, items)?;
    Ok(())
}

/// Fills a list with all states, each under its number.
fn put_numbered(out: &mut Vec<Keyed>, numbers: &[u32]) -> Result<(), AllocError>
    ensures below { OnOk result (AreBelow (length numbers.now) out.new.items) }
    ensures alike { OnOk result ((g : Graph ℕ) → KeepsAlike g (length numbers.now) numbers.now → TakesAlike g (length numbers.now) out.new.items) }
{
    if numbers.len() > 4294967295 {
        return Err(AllocError);
    }
    out.clear();
    for state in 0..numbers.len() {
        out.push(Keyed {
            key: numbers[state],
            state: state as u32,
        })?;
    }
    Ok(())
}

/// Fills a list with the arcs that lead to the members of a block.
fn put_arcs_into(
    items: &mut Vec<Keyed>,
    members: &mut Vec<u32>,
    backs: &Backs,
    parts: &Parts,
    block: u32,
) -> Result<(), AllocError>
    requires { length backs.now ≡ length parts.now.blocks.items }
    ensures below { OnOk result ((rows : List (List ℕ)) → AreBacks rows backs.now → AreBelow (length rows) items.new.items) }
    ensures alike { OnOk result ((g : Graph ℕ) (rows : List (List ℕ)) → AreBacks rows backs.now → AreRows g (length rows) rows → RowsBelow (length rows) rows → KeepsAlike g (length rows) parts.now.blocks.items → TakesAlike g (length rows) items.new.items) }
{
    parts.put_members(members, block)?;
    backs.put_arcs(items, members)?;
    Ok(())
}

/// The states by their numbers in blocks, divided until no block is divided by another.
fn divide(alloc: Global, numbers: &[u32], rows: &Rows) -> Result<Parts, AllocError>
    requires size { length numbers.now ≡ length rows.now }
    requires below { RowsBelow (length rows.now) rows.now }
    ensures size { IfOk result (λ p. length p.blocks.items ≡ length rows.now) }
    ensures alike { IfOk result (λ p. (g : Graph ℕ) → AreRows g (length rows.now) rows.now → KeepsAlike g (length rows.now) numbers.now → KeepsAlike g (length rows.now) p.blocks.items) }
{
    let backs = Backs::of(alloc, rows)?;
    let mut parts = Parts::one(alloc, rows.len())?;
    let mut work = vec![in alloc; 0u32; 1]?;
    let mut items = Vec::new(alloc);
    put_numbered(&mut items, numbers)?;
    divide_by(&mut parts, &mut work, &mut items)?;
    let mut members = Vec::new(alloc);
    for _ in 0..u64::MAX {
        let Some(block) = work.pop() else {
            break;
        };
        put_arcs_into(&mut items, &mut members, &backs, &parts, block)?;
        divide_by(&mut parts, &mut work, &mut items)?;
    }
    Ok(parts)
}

/// Numbers states by their numbers and by blocks.
fn number_blocks(alloc: Global, first: &[u32], blocks: &[u32]) -> Result<Numbering, AllocError>
    requires { length first.now ≡ length blocks.now }
    ensures numbering { IfOk result (λ n. IsNumbering n.numbers.items n.least.items) }
    ensures both { IfOk result (λ n. IsBoth first.now blocks.now n.numbers.items) }
{
    let mut numberer = Numberer::with_capacity(alloc, first.len())?;
    let mut row = Vec::new(alloc);
    for state in 0..first.len() {
        row.clear();
        row.push(blocks[state])?;
        numberer.add(first[state], &row)?;
    }
    Ok(numberer.finish())
}

/// Refines a numbering by dividing blocks, each by the others. (Hopcroft 1971.)
///
/// Of the two parts of a block the smaller one gets the new number and is looked at again, so that an arc is looked at for each
/// halving of the block of its end at most; what is looked at together is sorted. Time: at worst n times the square of log n
/// in the states and arcs. That nothing is left to divide is not promised: the round behind it sees it.
pub(crate) fn refine_by_blocks(
    alloc: Global,
    first: &Numbering,
    rows: &Rows,
) -> Result<Numbering, AllocError>
    requires size { length first.now.numbers.items ≡ length rows.now }
    requires below { RowsBelow (length rows.now) rows.now }
    ensures refined { IfOk result (λ n. (g : Graph ℕ) → AreRows g (length rows.now) rows.now → IsRefined g (length rows.now) (number_in first.now.numbers.items) → IsRefined g (length rows.now) (number_in n.numbers.items)) }
    ensures finer { IfOk result (λ n. (p q : ℕ) → p < length rows.now → q < length rows.now → number_in n.numbers.items p ≡ number_in n.numbers.items q → number_in first.now.numbers.items p ≡ number_in first.now.numbers.items q) }
    ensures numbering { IfOk result (λ n. IsNumbering n.numbers.items n.least.items) }
    ensures size { IfOk result (λ n. length n.numbers.items ≡ length rows.now) }
{
    let parts = divide(alloc, &first.numbers, rows)?;
    let numbering = number_blocks(alloc, &first.numbers, &parts.blocks)?;
    Ok(numbering)
}
