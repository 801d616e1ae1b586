//! Batches: each line of a text is read by a composition of two machines, whose states are expanded once for all lines.
//!
//! The lattice of a line is the graph of what a machine may do while it reads the line; its successful paths are, one to
//! one, the paths of the machine that read the line. `specs/Lattice.antt` has it, over graphs with any kind of name,
//! and `laws` asks for that theorem. `Lines` is the lines of a text, and `make_cascade` makes two machines and lines from
//! a number.
#![tactic(auto)]

mod answering;
mod batching;
mod cascade;
mod dealing;
mod drawing;
mod ending;
mod following;
mod gate;
mod hiring;
mod job;
pub mod laws;
mod lines;
mod phasing;
mod points;
mod serving;
mod stage;
mod state;
mod threads;
mod worker;

pub use answering::Answering;
pub use batching::{BatchReport, run_lines};
pub use cascade::{Cascade, make_cascade};
pub use gate::{Gate, OpenGate};
pub use job::Job;
pub use lines::Lines;
pub use phasing::{PhaseReport, phase};
pub use points::Points;
pub use stage::Stage;
pub use state::JobState;
pub use worker::Worker;
