//! The lines of a text.

ghost use Rattle.std.specs.Prelude.{◌≡◌, ◌<◌, ◌∷◌, ◌++◌, [], IfOk, OnErr, OnOk, Some, length, slice_get};
ghost use Rattle.fst_fields.specs.Lines.{lines_of};

use fst_fields::next_line;
use std::alloc::{AllocError, Global};
use std::marker::Model;

/// Lines in order, each a list of bytes.
#[derive(Drop)]
pub struct Lines {
    rows: Vec<Vec<u8>>,
}

impl Model for Lines {
    ghost use Rattle.std.specs.Prelude.{ℕ, List, map};

    ghost Value = { List (List ℕ) };

    ghost view = { λ l. map (λ row. row.items) l.rows.items };
}

impl Lines {
    /// No lines. Takes no memory.
    pub fn new(alloc: Global) -> Lines
        ensures { result ≡ [] }
    {
        Lines {
            rows: Vec::new(alloc),
        }
    }

    /// Adds a copy of a line behind the others. Where there is no memory, the lines are as before.
    pub fn push(&mut self, alloc: Global, line: &[u8]) -> Result<(), AllocError>
        ensures ok { OnOk result (self.new ≡ self.old ++ line.now ∷ []) }
        ensures err { OnErr result (self.new ≡ self.old) }
    {
        let row = line.to_vec(alloc)?;
        self.rows.push(row)?;
        Ok(())
    }

    /// The lines of a text, without the byte 10 that ends each; a last line needs no end, and a text without bytes has no
    /// line.
    pub fn read(alloc: Global, bytes: &[u8]) -> Result<Lines, AllocError>
        ensures { IfOk result (λ lines. lines ≡ lines_of bytes.now) }
    {
        let mut lines = Lines::new(alloc);
        let mut rest = bytes;
        while let Some((line, more)) = next_line(rest) {
            lines.push(alloc, line)?;
            rest = more;
        }
        Ok(lines)
    }

    /// The number of lines. Takes no memory.
    pub fn count(&self) -> u64
        ensures { result ≡ length self.now }
    {
        self.rows.len() as u64
    }

    /// The line with this number, from 0. Takes no memory.
    pub fn line(&self, index: u64) -> &[u8]
        requires { index < length self.now }
        ensures { slice_get self.now index ≡ Some result.now }
    {
        self.rows[index as usize].as_slice()
    }
}
