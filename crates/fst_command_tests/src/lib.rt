//! Tests of the commands: what `run` reads, writes and shows for the words of a command line.
//!
//! The crate has nothing but tests, and no other crate stands on it. A test is a table of rows, which [`session`]
//! plays over a desk in memory: files that are put, words that are run, and what then stands and is shown. The
//! expected bytes were written out by hand from the forms and the constructions.
#![tactic(auto)]

#[cfg(test)]
mod acceptors;
#[cfg(test)]
mod batches;
#[cfg(test)]
mod carried_names;
#[cfg(test)]
mod cascades;
#[cfg(test)]
mod codices;
#[cfg(test)]
mod composition;
#[cfg(test)]
mod distances;
#[cfg(test)]
mod epsilon_arcs;
#[cfg(test)]
mod failing_calls;
#[cfg(test)]
mod faults;
#[cfg(test)]
mod forms;
#[cfg(test)]
mod minimal;
#[cfg(test)]
mod operations;
#[cfg(test)]
mod paths;
#[cfg(test)]
mod pruned;
#[cfg(test)]
mod pushing;
#[cfg(test)]
mod queues;
#[cfg(test)]
mod replacement;
#[cfg(test)]
mod session;
#[cfg(test)]
mod word_sets;
