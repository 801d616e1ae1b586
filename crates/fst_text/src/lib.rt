//! The text form of a machine, both ways.
//!
//! A line of a text is an arc or a final state. `compile` reads a text, with each fault at its line;
//! `print` writes one, and `print_into` writes it into a room that is given.
#![tactic(auto)]

mod builder;
mod compiling;
mod entry;
mod fault;
mod field;
mod laws;
mod line;
mod options;
mod printing;

pub use compiling::compile;
pub use fault::{PrintFault, TextFault};
pub use laws::printed_machine_compiles_back;
pub use options::TextOptions;
pub use printing::{print, print_into};
