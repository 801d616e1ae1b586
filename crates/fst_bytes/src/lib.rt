//! The fields that the binary forms of the project are made of, both ways: little-endian numbers, names after their
//! lengths, labels and weight fields.
//!
//! `specs/Spelling.antt` says how a field is written, and `specs/Reading.antt` what is read at an offset: a value and
//! the offset after it, or the first fault. The kinds of fault of a form are its own; a reader here takes those that
//! it may answer. What is read is what stands there, and what stands there is read: `proofs`.
//!
//! No wrong body is tried in this crate, since it promises nothing to a user. With weaker contracts here these could not be
//! proved: `decode` of `fst_binary` and `read_codex` of `fst_codex`, which answer exactly the first fault of their bytes, and
//! `encode`, whose bytes are the one spelling.
#![tactic(auto)]

mod appending;
mod fault;
mod name;
mod number;
mod room;
mod weight_field;

pub use appending::{
    append_arc_type, append_long, append_signed, append_text, append_word, push_arc_type,
    push_long, push_word,
};
pub use fault::{FileFault, Stopped, WeightFieldFault, expect_end, fault_at, short_of};
pub use fst_fields::append;
pub use name::read_arc_type;
pub use number::{expect_word, read_bytes, read_count, read_label, read_long, read_word, word_at};
pub use room::most_that_fit;
pub use weight_field::{
    append_weight, numbered_length, push_weight_field, read_non_zero_weight, read_numbered,
    read_weight, read_weight_field, weight_length,
};
