//! Tests of what is told and asked from outside: the files of a desk, and the words of a command line.
//!
//! The crate has nothing but tests, and no other crate stands on it. What the words come to and what a plan answers for
//! are tables that were written out by hand from the rules of the command line.
#![tactic(auto)]

#[cfg(test)]
mod desks;
#[cfg(test)]
mod plans;
#[cfg(test)]
mod words;
