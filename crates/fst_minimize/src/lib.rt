//! Minimization of deterministic weighted acceptors.
//!
//! `minimize` makes one state of all states of the pushed machine that behave the same. The states are numbered by rows
//! of numbers: in one pass from the final states on where no path comes back to a state, else by rounds and, once these do
//! little, by dividing blocks of states by each other, until states with one number behave the same. The laws of equal behaviour, that the machine of the classes relates the same, and that no
//! deterministic machine with the same word weights has fewer states, stand over graphs of any kind of name; `laws` asks
//! for them.
#![tactic(auto)]

mod along;
mod backs;
mod describing;
mod dividing;
mod ends_first;
mod fault;
pub mod laws;
mod making;
mod minimizing;
mod numberer;
mod pairs;
mod parts;
mod rounds;
mod rows;
mod weights;

pub use fault::MinimizeFault;
pub use minimizing::minimize;
