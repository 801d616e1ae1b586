//! Machines put in order: tests of machines, trimming, sorting and what there is to say of a machine.
//!
//! `not_acceptor_at` and `not_deterministic_at` give the first arc, by state then place, that keeps a machine from
//! being an acceptor or deterministic. `find_run` finds the arcs with a label among sorted ones. The definitions stand in
//! `specs`, and each contract is one of them.
#![tactic(auto)]

mod as_machine;
mod before;
mod connected;
mod describing;
mod first_arc;
mod laws;
mod links;
mod repeat;
mod run;
mod side;
mod sorted;
mod sorting;
mod sources;
mod summary;
mod targets;
mod useful;
mod weighing;

pub use as_machine::AsMachine;
pub use connected::{Connected, Handed, connect, connect_kept, connect_walked, into_connected};
pub use describing::info;
pub use first_arc::{is_acceptor, is_deterministic, not_acceptor_at, not_deterministic_at};
pub use laws::one_answer;
pub use links::{Link, Links};
pub use run::{find_run, run_end, run_from};
pub use side::Side;
pub use sorted::{is_sorted, stands_by};
pub use sorting::{arcsort, into_arcsorted, sort_arcs};
pub use summary::Info;
pub use useful::accessible;
pub use weighing::weigh;
