//! The composition of two machines: the machine whose successful paths are the pairs of one of each where the first
//! writes what the second reads.
//!
//! `expand` gives the arcs of one state of the result by its name, and `compose` the machine of all names that the
//! start reaches. Arcs that match are found by searches among arcs that stand by their labels; `expand_counted` says how
//! many steps these take. (Mohri 2009, section 4.1; OpenFst manual, "Compose" and "Matchers".)
//!
//! The definitions stand in `specs`, over graphs of plain values with any kind of name: the names and the arcs of a
//! composition, how its paths are read off to a path of each machine, and what it gives. `laws` asks for the theorem
//! in this form.
#![tactic(auto)]

mod composing;
mod expanding;
mod fault;
mod key;
pub mod laws;
mod matching;
mod parts;

pub use composing::{Composed, compose};
pub use expanding::{expand, expand_counted, key_final};
pub use fault::ComposeFault;
pub use key::{ComposeKey, KeyArc, KeyList};
