//! Small acceptors as texts, drawn by a seed.

use fst_semiring::ArcType;
use std::alloc::{AllocError, Global};

/// Which acceptor is drawn.
#[derive(Clone, Copy, Debug, PartialEq, Eq)]
pub enum Manner {
    /// At most one arc of a state for each of the labels 0, 1 and 2, out of order.
    Deterministic,
    /// Up to three arcs of a state, with any of these labels.
    Scattered,
    /// At most one arc of a state for each of the labels 1 and 2, and no weights.
    Unweighted,
    /// Up to three arcs of a state, with the labels 1 and 2.
    Spelling,
}

/// How an acceptor is drawn.
#[derive(Clone, Copy, Debug)]
pub struct Recipe {
    /// Which it is.
    pub manner: Manner,
    /// What the draws begin with.
    pub seed: u64,
    /// How much of the weights is moved toward the start by the number of a state. A word keeps its weight where the start
    /// is state 0.
    pub lean: u8,
    /// The line whose weight is greater by one, or which is left out where the arc type is boolean; counted from 0.
    pub changed: u32,
}

/// A text that is being written.
#[derive(Drop)]
struct Sheet {
    kind: ArcType,
    recipe: Recipe,
    /// From this number the next is drawn.
    draws: u64,
    line: u32,
    text: String,
}

impl Sheet {
    /// Draws a number below the end, or 0.
    fn draw(&mut self, end: u32) -> u32 {
        self.draws = self
            .draws
            .wrapping_mul(6364136223846793005)
            .wrapping_add(1442695040888963407);
        match end {
            0 => 0,
            _ => ((self.draws >> 33) % u64::from(end)) as u32,
        }
    }

    /// Appends a weight of the arc type, with the number, or twice with it.
    fn put_weight(&mut self, alloc: Global, number: i64) -> Result<(), AllocError> {
        let weight = match self.kind {
            ArcType::Boolean => format!(in alloc; " 1")?,
            ArcType::Lexicographic => format!(in alloc; " {number},{number}")?,
            _ => format!(in alloc; " {number}")?,
        };
        self.text.push_str(weight.as_str())
    }

    /// Appends a line of these columns and the weight.
    fn put_line(&mut self, alloc: Global, columns: &str, number: i64) -> Result<(), AllocError> {
        let is_changed = self.line == self.recipe.changed;
        self.line = self.line.wrapping_add(1);
        if is_changed && self.kind == ArcType::Boolean {
            return Ok(());
        }
        self.text.push_str(columns)?;
        if self.recipe.manner != Manner::Unweighted {
            self.put_weight(alloc, number.wrapping_add(i64::from(is_changed)))?;
        }
        self.text.push_str("\n")
    }

    /// How much of a weight is moved, by how many states.
    fn moved(&self, states: i64) -> i64 {
        i64::from(self.recipe.lean).wrapping_mul(states)
    }

    /// Appends an arc of the state, or none.
    fn put_arc(
        &mut self,
        alloc: Global,
        state: u32,
        states: u32,
        label: u32,
    ) -> Result<(), AllocError> {
        let label = match self.recipe.manner {
            Manner::Scattered => self.draw(3),
            Manner::Spelling => self.draw(2).wrapping_add(1),
            Manner::Deterministic | Manner::Unweighted => label,
        };
        let stands = self.draw(3) > 0;
        let next = self.draw(states);
        let number = i64::from(self.draw(4)) - 1;
        if !stands || (label == 0 && self.recipe.manner == Manner::Unweighted) {
            return Ok(());
        }
        let columns = format!(in alloc; "{state} {next} {label} {label}")?;
        let moved = self.moved(i64::from(state) - i64::from(next));
        self.put_line(alloc, columns.as_str(), number.wrapping_add(moved))
    }

    /// Appends the lines of a state.
    fn put_state(&mut self, alloc: Global, state: u32, states: u32) -> Result<(), AllocError> {
        for label in [2, 0, 1] {
            self.put_arc(alloc, state, states, label)?;
        }
        let ends = self.draw(2) == 0;
        let number = i64::from(self.draw(3));
        if !ends {
            return Ok(());
        }
        let columns = format!(in alloc; "{state}")?;
        let moved = self.moved(i64::from(state));
        self.put_line(alloc, columns.as_str(), number.wrapping_add(moved))
    }
}

/// The text of an acceptor of two or three states. The first line begins with the start.
pub fn drawn_text(alloc: Global, kind: ArcType, recipe: Recipe) -> Result<String, AllocError> {
    let mut sheet = Sheet {
        kind,
        recipe,
        draws: recipe.seed,
        line: 0,
        text: String::new(alloc),
    };
    let states = if sheet.draw(2) == 0 { 2 } else { 3 };
    for state in 0..states {
        sheet.put_state(alloc, state, states)?;
    }
    Ok(sheet.text)
}
