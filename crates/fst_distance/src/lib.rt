//! Weights pushed toward the start: what a pushed machine is, its laws, and a machine that gives its pushed weights as
//! they are asked for. (Mohri 2009, section 3.4, weight pushing.)
//!
//! `push` and `into_pushed` make the machine with its total weight put on the start, or removed; `push_wide` makes it with
//! wide weights beside its total. The distances themselves are those of `fst_search`, handed on.
#![tactic(auto)]

mod by_distance;
mod fault;
pub mod laws;
mod machines;
mod placing;
mod pushing;
mod totalling;
mod widening;

pub use by_distance::{Totalled, push_lazily};
pub use fault::PushFault;
pub use fst_search::{Direction, DistanceFault, distance, distance_boxed};
pub use machines::{into_pushed, push};
pub use pushing::Pushing;
pub use widening::{Pushed, push_wide};
