//! An order of states in which the ends of the arcs of each stand before it, where there is one.

ghost use Rattle.std.specs.Prelude.{◌<◌, ◌≡◌, All, IfOk, OnOk, length};
ghost use Rattle.fst_minimize.specs.Numbered.{RowsBelow};

use crate::rows::Rows;
use std::alloc::{AllocError, Global};

/// A state on the way down, and how many of its ends were looked at.
#[derive(Clone, Copy)]
struct Visit {
    state: u32,
    ends: usize,
}

/// A search that puts a state into the order once it has looked at all of its ends.
#[derive(Drop)]
struct Search {
    stack: Vec<Visit>,
    met: Vec<bool>,
    order: Vec<u32>,
    ghost stacked: { All (λ v. v.state < length met.items) stack.items },
    ghost ordered: { All (λ q. q < length met.items) order.items },
}

impl Search {
    /// Nothing is met of so many states.
    fn new(alloc: Global, states: usize) -> Result<Search, AllocError>
        ensures { IfOk result (λ s. length s.met.items ≡ states) }
    {
        Ok(Search {
            stack: Vec::new(alloc),
            met: vec![in alloc; false; states]?,
            order: Vec::with_capacity(alloc, states)?,
        })
    }

    /// Begins with a state, where it was not met.
    fn meet(&mut self, state: u32) -> Result<(), AllocError>
        requires { state < length self.old.met.items }
        ensures { OnOk result (length self.new.met.items ≡ length self.old.met.items) }
    {
        if self.met[state as usize] {
            return Ok(());
        }
        self.stack.push(Visit { state, ends: 0 })?;
        self.met[state as usize] = true;
        Ok(())
    }

    /// Looks at one more end of the last state, or puts it into the order; false where there is no state.
    fn step(&mut self, rows: &Rows) -> Result<bool, AllocError>
        requires size { length self.old.met.items ≡ length rows.now }
        requires below { RowsBelow (length rows.now) rows.now }
        ensures { OnOk result (length self.new.met.items ≡ length self.old.met.items) }
    {
        let Some(visit) = self.stack.pop() else {
            return Ok(false);
        };
        let row = rows.row(visit.state as usize);
        if visit.ends < row.len() {
            let end = row[visit.ends];
            self.stack.push(Visit {
                state: visit.state,
                ends: visit.ends + 1,
            })?;
            self.meet(end)?;
        } else {
            self.order.push(visit.state)?;
        }
        Ok(true)
    }

    /// Looks at all that a state leads to.
    fn walk(&mut self, rows: &Rows, state: u32) -> Result<(), AllocError>
        requires size { length self.old.met.items ≡ length rows.now }
        requires below { RowsBelow (length rows.now) rows.now }
        requires state { state < length rows.now }
        ensures { OnOk result (length self.new.met.items ≡ length self.old.met.items) }
    {
        self.meet(state)?;
        for _ in 0..u64::MAX {
            if !self.step(rows)? {
                break;
            }
        }
        Ok(())
    }
}

/// All states, the ends of the arcs of each before it where no arc leads back. What leads to greater numbers alone needs
/// no stack, since the last state is looked at first.
pub(crate) fn ends_first(alloc: Global, rows: &Rows) -> Result<Vec<u32>, AllocError>
    requires { RowsBelow (length rows.now) rows.now }
    ensures { IfOk result (λ order. All (λ q. q < length rows.now) order.items) }
{
    let states = rows.len();
    if states > 4294967295 {
        return Err(AllocError);
    }
    let mut search = Search::new(alloc, states)?;
    for state in (0..states as u32).rev() {
        search.walk(rows, state)?;
    }
    Ok(search.order)
}
