//! The answer of a line of a batch.
//!
//! The answer of a line is told of the n best paths of its lattice, or it is the first fault that stands against the line.
//! `specs/Answers.antt` has it, over graphs with any kind of name. `answer_line` gives the answer of a line whose walk is
//! over, and `put_answer_lines` writes an answer. The walk itself is that of `fst_lattice`, handed on.
#![tactic(auto)]

mod answer;
mod answering;
mod batch;
mod building;
mod fault;
mod filling;
pub mod laws;
mod listing;
mod numbering;
mod telling;

pub use answer::{Answer, Answers, LineAnswer};
pub use answering::answer_line;
pub use batch::{BatchOptions, run_batch};
pub use fault::LineFault;
pub use fst_lattice::{
    BatchReport, Cascade, Gate, Job, JobState, Lines, OpenGate, PhaseReport, Worker, make_cascade,
    phase,
};
pub use telling::{put_answer_lines, put_number};
