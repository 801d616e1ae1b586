//! Symbol tables: the names of labels.
//!
//! A line of a table is a name and its number. `SymbolTable::read` reads a text, with each fault at its line;
//! `add` adds one symbol; `find` gives the number of a name, and `name` the name of a number.
#![tactic(auto)]

mod fault;
mod keeping;
mod name;
mod row;
mod seeded;
mod table;

pub use fault::{AddSymbolFault, SymbolsFault};
pub use table::SymbolTable;
