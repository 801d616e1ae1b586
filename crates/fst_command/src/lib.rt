//! The road of all commands: from the words and the contents of files to the bytes of the outputs, or to one line.
//!
//! [`run`] is the top call: it does all that the program does. Its clause, `Runs` of `specs/Outcome.antt`, names no
//! command: what a command means is a page of `fst_verbs` and a line in the table there.
//!
//! [`reading`] reads and judges each input, [`working`] chooses the type of weights and hands what was read to `fst_verbs`,
//! and [`carrying`] stores what was made.
#![tactic(auto)]

mod carrying;
mod files;
mod held;
mod laws;
mod product;
mod reading;
mod top;
mod working;

pub use fst_verbs::Queues;
pub use laws::{batch_lines_match, one_outcome, one_result, written_reads_again};
pub use top::run;
