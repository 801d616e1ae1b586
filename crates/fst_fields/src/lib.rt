//! Lines of a text, fields of a line and decimal numbers: what every text form of the project is read with.
//!
//! `next_line` and `next_field` take the first line and the first field off a slice, without a copy;
//! `read_row` gives the two fields of a line; `read_decimal` reads a field as a whole number, and `read_label` as
//! the number of a label. `append` puts bytes at the end of a vector, and `List` is a list of any type.
//!
//! No wrong body is tried in this crate, since it promises nothing to a user. With weaker contracts here these could not be
//! proved: `read_weight` of `fst_semiring`, `compile` of `fst_text` (its exact first fault), and the readers of symbol tables
//! and of pairs of labels.
#![tactic(auto)]

mod appending;
mod decimal;
mod laws;
mod lines;
mod list;

pub use appending::append;
pub use decimal::{MOST_LABEL, read_decimal, read_label};
pub use laws::printed_decimal_reads_again;
pub use lines::{next_field, next_line, read_row};
pub use list::List;
