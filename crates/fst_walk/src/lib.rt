//! The walk of a graph of names: the machine of all names that the start reaches, numbered in breadth-first order.
//!
//! Operations whose states have names of their own (pairs of states, subsets of states, places in a line) say by
//! `Names` what the start is and which arcs and final weight a name has, and `walk` makes their machine. It finds each
//! name once by its number, counts the arcs, and tells exactly why there is no machine.
//!
//! The definitions stand in `specs`, over graphs of plain values with any kind of name; `laws` asks for the laws that
//! operations share.
#![tactic(auto)]

mod fault;
pub mod laws;
mod names;
mod numbering;
mod output;
mod table;
mod walking;

pub use fault::WalkFault;
pub use names::{NameArc, Names};
pub use table::NameTable;
pub use walking::{Room, Walked, walk};
