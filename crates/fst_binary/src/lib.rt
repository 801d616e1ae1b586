//! The binary form of a machine and its symbol tables, both ways.
//!
//! `specs/Spelling.antt` gives each machine with its tables its bytes, and `specs/Reading.antt` gives bytes their machine
//! and tables or their first fault. `encode_tabled` and `decode_tabled` do what these two say, and the one undoes the
//! other. `encode` and `decode` do the same of a machine alone.
#![tactic(auto)]

mod by_place;
mod decoding;
mod encoding;
mod fault;
mod header;
mod laws;
mod sides;
mod table;
mod tabled;

pub use decoding::{decode, decode_tabled};
pub use encoding::{encode, encode_tabled, encode_tabled_into, encode_tabled_joined};
pub use fault::{BinaryFault, BinaryKind};
pub use fst_bytes::{WeightFieldFault, push_weight_field, read_weight_field, weight_length};
pub use header::arc_type;
pub use laws::{no_spelling_goes_on, spelling_is_read, values_tell_machines};
pub use sides::LentTables;
pub use tabled::Tabled;
