//! Names of files, and lists of them.

ghost use Rattle.std.specs.Prelude.{◌≡◌, IfOk};

use fst_fields::List;
use std::alloc::{AllocError, Global};
use std::marker::Model;

/// A name of a file, or another text that a command was given. Contracts see its bytes.
#[derive(Drop)]
pub struct Name {
    text: String,
}

impl Model for Name {
    ghost use Rattle.std.specs.Prelude.{List, ℕ, string_bytes};

    ghost Value = { List ℕ };

    ghost view = { λ n. string_bytes n.text };
}

impl Name {
    /// A name with this text. It fails for want of memory alone.
    pub fn new(alloc: Global, text: &str) -> Result<Name, AllocError>
        ensures { IfOk result (λ n. n ≡ text.now) }
    {
        let text = String::from_str(alloc, text)?;
        Ok(Name { text })
    }

    /// The text. Takes no memory.
    pub fn text(&self) -> &str
        ensures { result.now ≡ self.now }
    {
        self.text.as_str()
    }
}

/// Names in order.
pub type Names = List<Name>;
