//! Tests of the claim table and of batches.
//!
//! The crate has nothing but tests, and no other crate stands on it: rows of calls, with their answers worked out by
//! hand.
#![tactic(auto)]

#[cfg(test)]
mod cascade;
#[cfg(test)]
mod claims;
#[cfg(test)]
mod workers;
