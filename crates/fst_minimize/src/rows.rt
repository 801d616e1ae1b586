//! Lists of rows of numbers, which stand in one store.

ghost use Rattle.std.specs.Prelude.{◌≡◌, ◌≤◌, ◌<◌, ◌∷◌, ◌++◌, [], OnOk, OnErr, IfOk, length, slice_get, Some};

use std::alloc::{AllocError, Global};
use std::marker::Model;

/// Where a row begins in the store, and how long it is.
#[derive(Clone, Copy)]
struct Span {
    first: u32,
    count: u32,
}

/// Rows of numbers.
#[derive(Drop)]
pub(crate) struct Rows {
    spans: Vec<Span>,
    items: Vec<u32>,
}

impl Model for Rows {
    ghost use Rattle.std.specs.Prelude.{List, ℕ, length, All};
    ghost use Rattle.fst_minimize.specs.Rows.{rows_of, FitsIn};

    ghost Value = { List (List ℕ) };

    ghost view = { λ r. rows_of r.items.items r.spans.items };

    ghost invariant = { λ r. All (FitsIn (length r.items.items)) r.spans.items };
}

impl Rows {
    /// No rows, and room for so many of so many numbers together.
    pub(crate) fn with_capacity(
        alloc: Global,
        rows: usize,
        items: usize,
    ) -> Result<Rows, AllocError>
        ensures { IfOk result (λ r. r ≡ []) }
    {
        Ok(Rows {
            spans: Vec::with_capacity(alloc, rows)?,
            items: Vec::with_capacity(alloc, items)?,
        })
    }

    /// Puts a row behind the others. A store of more than 4,294,967,295 numbers has no memory for more.
    pub(crate) fn push(&mut self, row: &[u32]) -> Result<(), AllocError>
        ensures { OnOk result (self.new ≡ self.old ++ row.now ∷ []) }
    {
        let first = self.items.len();
        if first > 4294967295 || row.len() > 4294967295 {
            return Err(AllocError);
        }
        self.spans.reserve(1)?;
        self.items.extend_from_slice(row)?;
        self.spans.push_reserved(Span {
            first: first as u32,
            count: row.len() as u32,
        });
        Ok(())
    }

    /// The number of rows. Takes no memory.
    pub(crate) fn len(&self) -> usize
        ensures { result ≡ length self.now }
    {
        self.spans.len()
    }

    /// A row. Takes no memory.
    pub(crate) fn row(&self, place: usize) -> &[u32]
        requires { place < length self.now }
        ensures { slice_get self.now place ≡ Some result.now }
    {
        let span = self.spans[place];
        let first = span.first as usize;
        let behind = first + span.count as usize;
        &self.items[first..behind]
    }
}
