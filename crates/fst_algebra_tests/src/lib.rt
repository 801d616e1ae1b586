//! Tests of the searches and the algebra of machines.
//!
//! The crate has nothing but tests, and no other crate stands on it. They are tables of small machines, written as
//! texts, with what the definitions make of them, worked out by hand, or beside what the slow programs of `fst_plain`
//! compute: `queues`, `distances`, `epsilon_removal`, `shortest_paths`, `strings`, `string_machines`, `determinization`,
//! `pushing`, `minimization`, `pruning` and `set_operations`.
#![tactic(auto)]

#[cfg(test)]
mod determinization;
#[cfg(test)]
mod distances;
#[cfg(test)]
mod epsilon_removal;
#[cfg(test)]
mod minimization;
#[cfg(test)]
mod pruning;
#[cfg(test)]
mod pushing;
#[cfg(test)]
mod queues;
#[cfg(test)]
mod set_operations;
#[cfg(test)]
mod shortest_paths;
#[cfg(test)]
mod string_machines;
#[cfg(test)]
mod strings;
#[cfg(test)]
mod worst_first;
