//! Weighted finite-state machines.
//!
//! `Fst` is a machine that grows by its calls and keeps its limits, the range of its labels and next
//! states, and that no arc has weight Zero. Contracts see it as the plain data of `specs/Machine.antt`. `WideFst` is
//! the same with weights of the wide form, so that products of weights can be kept; `narrow_all` makes a machine of
//! it where all its numbers are in range. Both stand on `kept`, which takes no notice of what a weight is.
//!
//! The definitions of the subject stand in `specs`, over graphs of plain values with any kind of name, of which
//! a machine is one: paths and what they read, write and weigh, the relation and the weight of a pair, cycles,
//! distances, breadth-first lists, the order of paths. Their laws are in `proofs`, and `laws` asks for each.
#![tactic(auto)]

mod arc;
mod breadth_first;
mod fst;
mod kept;
pub mod laws;
mod narrow;
mod path;
mod slot;
mod steps;
mod wide;

pub use arc::FstArc;
pub use breadth_first::{find, walk};
pub use fst::{
    ArcsChange, Fst, GrowFault, Joined, Leaving, MOST_ARCS, MOST_STATES, OpenList, Placing,
    Rewriting, Spreading, StateList,
};
pub use fst_fields::MOST_LABEL;
pub use narrow::{NarrowFault, narrow_all, narrow_state};
pub use path::{Path, Paths, Step};
pub use steps::Steps;
pub use wide::{WideArc, WideFst};
