//! The desk: all that a command reads from and writes to the world.
//!
//! A command asks a [`Desk`] for the content of a file by its name, hands it the bytes of each
//! output, and shows it the one line of a refusal. What the call promises is stated by what is seen
//! of the desk before and after: the contents where the desk tells them, the names that it could not
//! read, and counts of the calls and of those that failed.
//!
//! - [`MemoryDesk`] holds its files in memory and tells all. It fails where it was asked to.
//! - [`SureDesk`] holds its files in memory and tells all too. Its calls fail for lack of memory alone.
//! - [`RealDesk`] is the operating system: files, the three standard streams. It tells no content.
//!
//! The name `-` is standard input to a fetch and standard output to a store.
#![tactic(auto)]

mod count;
mod edge;
mod memory;
mod real;
mod streams;
mod sure;
mod text;
mod writes;

pub use edge::{Desk, FetchFault, StoreFault};
pub use memory::MemoryDesk;
pub use real::RealDesk;
pub use sure::SureDesk;
