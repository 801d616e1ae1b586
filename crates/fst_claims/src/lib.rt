//! A table in which workers claim codes, each without waiting for another: a code is won by one of them, once.
//!
//! `Claims` is a table of words, which begin as 0 and are set once, to a code. A worker claims with a `Pass`, a token
//! of no bytes. Contracts see of a pass the codes that it won, its parts, and the places at which it looked with the
//! codes that it found there. Passes are split off and joined again; the first has all 1,024 parts, so a pass that has
//! all parts again has won whatever stands in the table.
//!
//! Between any two atomic steps, in any schedule, the rule of `specs/Rule.antt` holds. There are five kinds of step: a
//! load, an exchange that fails, one that succeeds, the split of a pass, and the join of a pass, which loads word 0 once
//! more to learn what the rule says of the joined pass.
#![tactic(auto)]

mod claim;
mod claiming;
pub mod laws;
mod plays;
mod table;
mod view;

pub use claim::Claim;
pub use table::{Claims, Pass};
