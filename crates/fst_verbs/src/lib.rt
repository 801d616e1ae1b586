//! The verbs: what each command means, and its own work on what it is given.
//!
//! A page of `specs/` for each family of commands says what one of them makes of what it is given, and what stops it. The table
//! of `specs/Commands.antt` has a line for each. [`made`] is that table in code: its clause `settles` says that a command
//! makes what it means, or is refused for what stops it. The law of one outcome is proved of each page in `proofs/Lawful.antt`.
//!
//! No file is read or written here. `fst_command` above has the road from the words to the bytes; the clauses `runs` and
//! `completes` of its `run` rest on `made`, and its wrong bodies turn them.
#![tactic(auto)]

mod commands;
mod given;
mod outputs;
mod queues;
mod refusal;
mod tables;

pub use commands::made;
pub use given::{Given, arc_type_of};
pub use outputs::Made;
pub use queues::Queues;
pub use refusal::{Refusal, kinds_apart, longer, misread, not_read, not_written};
pub use tables::{Carried, Tables, tables_for};
