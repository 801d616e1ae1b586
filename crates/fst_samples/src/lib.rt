//! What the crates of tests of the operations share: small machines as texts, and relations as lists of triples.
//!
//! `texts` makes machines from texts, with the numbers of their states, and has the machines of each arc type that
//! operations are tried on; `sized` makes large ones, and `drawn` draws small acceptors by a seed. `triples` lists what a machine relates over paths of few arcs, by
//! the slow programs of `fst_plain`, and compares such lists. Nothing here may abort: a function says whether machines
//! or relations agree, and a test asks for it.
//!
//! No wrong body is tried in this crate, since tests alone stand on it.
#![tactic(auto)]

mod drawn;
mod sized;
mod texts;
mod triples;

pub use drawn::{Manner, Recipe, drawn_text};
pub use sized::{bare_states, chain};
pub use texts::{is_text, machine, machines, same, without_start};
pub use triples::{
    ARCS, Triple, is_better, one, put, relation, said, says, triples_of, weigh_alike,
};
