//! Labels of machines as numbers of entries, and back.
//!
//! A codex is a list of entries: an input label, an output label and a weight. `encode_labels` puts the number of
//! its entry on both sides of each arc, so that a transducer becomes an acceptor, and `decode_labels` turns the
//! numbers back. `specs/Spelling.antt` gives each codex the bytes of its file, and `specs/Reading.antt` gives bytes
//! their codex or their first fault.
#![tactic(auto)]

mod coder;
mod codex;
mod decoding;
mod encoding;
mod entry_key;
mod fault;
mod laws;
mod reading;
mod writing;

pub use codex::{Codex, CodexEntry, MOST_ENTRIES};
pub use decoding::{DecodeFault, decode_labels, into_decoded};
pub use encoding::{encode_labels, into_encoded};
pub use fault::{CodexFault, CodexKind};
pub use laws::one_answer;
pub use reading::{codex_arc_type, read_codex};
pub use writing::write_codex;
