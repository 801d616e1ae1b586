//! Machines and codices of any arc type: those of files whose arc type is known only when they are read.
//!
//! [`AnyFst`] and [`AnyCodex`] hold one of any arc type, [`AnyTabled`] a machine with its symbol tables, and
//! [`decode_any`], [`compile_any`] and [`read_any_codex`] read one. [`Kinded`] is what a type of weights knows of them, and
//! [`machines_of`] takes out machines that have all its arc type. A program reads all that it needs, chooses a type of
//! weights once, and works with that type alone.
//!
//! No wrong body is tried in this crate: it takes each arc type to its own reader. With weaker contracts here the clause of
//! `run` in `fst_command` could not be proved, which is about the machine that the bytes spell.
#![tactic(auto)]

mod any;
mod kinded;
mod reading;

pub use any::{AnyCodex, AnyFst, AnyTabled};
pub use kinded::{Kinded, OtherKind, machines_of};
pub use reading::{compile_any, decode_any, read_any_codex};
