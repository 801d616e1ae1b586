//! The rational operations on weighted machines, and operations that change labels.
//!
//! Each result is the machine of the construction, state by state and arc by arc, and its contract says what
//! relation it makes of those of the operands. (Mohri 2009, section 3.1.)
#![tactic(auto)]

mod carry;
mod change;
mod close;
mod concatenate;
mod construction;
mod fault;
mod labels;
mod operand;
mod pairs;
mod reversal;
mod size;
mod unite;

pub use change::{count_onward, put_onward};
pub use close::{closure, into_closure};
pub use concatenate::{concat, into_concat};
pub use fault::RationalFault;
pub use labels::{into_inverted, into_projected, into_relabelled, invert, project, relabel};
pub use pairs::{Pairs, PairsFault, read_pairs};
pub use reversal::reverse;
pub use size::entries;
pub use unite::{into_union, union};
