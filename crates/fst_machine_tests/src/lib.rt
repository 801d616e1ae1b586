//! Tests of weights, machines, the walk, and the operations that build, compose and trim machines.
//!
//! The crate has nothing but tests, and no other crate stands on it. It has two kinds. Tables of arc types, weights and
//! small machines, written as texts, with what the definitions make of them, worked out by hand: `arc_types`,
//! `weights`, `building`, `results`, `replacement`, `composition`, `description`, `links`, `plain`, `runs` and `walks`.
//! And `comparisons`: a test lists the relation of the operands by `fst_plain`, computes from this list by the
//! definition of the operation what the relation of the result must be, and compares that with what `fst_plain` says of
//! the machine that the operation made. The contracts of the operations say the same of all machines, and those of the plain
//! programs are the definitions; the tests show, in running code, that the two speak of one thing.
#![tactic(auto)]

#[cfg(test)]
mod arc_types;
#[cfg(test)]
mod building;
#[cfg(test)]
mod comparisons;
#[cfg(test)]
mod composition;
#[cfg(test)]
mod description;
#[cfg(test)]
mod links;
#[cfg(test)]
mod operations;
#[cfg(test)]
mod plain;
#[cfg(test)]
mod products;
#[cfg(test)]
mod replacement;
#[cfg(test)]
mod results;
#[cfg(test)]
mod runs;
#[cfg(test)]
mod walks;
#[cfg(test)]
mod weights;
