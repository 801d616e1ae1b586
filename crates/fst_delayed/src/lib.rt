//! The composition of two machines whose states are expanded when they are asked for, a cache of the states that were
//! expanded, and meters that count them.
//!
//! `Delayed` is two machines. Its `expand` is the only way to the arcs of a name: it asks for a pass of a claim table
//! that has won the name's code, and raises a meter once. `Cache` keeps arcs by their names, and lends them. A meter is
//! split for each worker and joined again, so what they counted adds up.
//!
//! It hands on the names and arcs of a composition and the claim table, so that a crate above needs no other way to
//! them.
#![tactic(auto)]

mod cache;
mod codes;
mod composed;
mod delayed;
mod entry;
pub mod laws;
mod meter;
mod names;
mod ranging;
mod run;

pub use cache::Cache;
pub use codes::code;
pub use composed::Composed;
pub use delayed::{Delayed, NotSorted};
pub use fst_claims::{Claim, Claims, Pass};
pub use fst_compose::{ComposeKey, KeyArc, KeyList};
pub use meter::{CountMeter, Meter};
pub use run::run_of;
