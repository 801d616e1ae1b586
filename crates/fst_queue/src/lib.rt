//! Orders of states: which state a search of distances looks at next.
//!
//! A `StateQueue` has states as its members, each once, and gives one of them back at each `take`. Which one that is
//! each queue says by a clause of its own: `Fifo` the one that was put first, `Lifo` the one that was put last, and
//! `BestFirst` one whose last key no other betters. A search is right with every queue; only its time differs.
//!
//! Each queue knows its members by a table over the numbers of the states, so that no list is searched. The tables grow
//! at least twice as long where a state is past their end, and never shrink.
//!
//! No wrong body is tried in this crate. With weaker contracts here these could not be proved: `distance` and `push` of
//! `fst_distance`, whose queue has no member after an answer, and the search of `fst_search`, which ends with every queue.
#![tactic(auto)]

mod best_first;
mod ends;
mod heap;
mod in_order;
mod marks;
mod queue;

pub use best_first::BestFirst;
pub use ends::{End, First, Last};
pub use in_order::{Fifo, InOrder, Lifo};
pub use queue::StateQueue;
