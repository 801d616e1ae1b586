// The log of a desk in memory: what was written under which name, of which the last stands.
ghost use Rattle.std.specs.Prelude.{◌≡◌, None};
ghost use Rattle.std.specs.Option.{option_copied};
ghost use Rattle.std.specs.Str.{bytes_eq};
ghost use Rattle.fst_desk.specs.Kept.{last_of};

use crate::text::Text;
use std::marker::Model;

// A content that was written under a name.
#[derive(Drop)]
pub(crate) struct Write {
    pub(crate) name: Text,
    pub(crate) content: Text,
}

impl Model for Write {
    ghost use Rattle.std.specs.Prelude.{List, ℕ};

    ghost Value = { List ℕ × List ℕ };

    ghost view = { λ w. (w.name, w.content) };
}

// The content of the last write of the name.
pub(crate) fn last_written<'w>(writes: &'w [Write], name: &str) -> Option<&'w [u8]>
    ensures { option_copied result ≡ last_of bytes_eq None writes.now name.now }
{
    let mut found = None;
    for write in writes {
        if write.name.as_bytes() == name.as_bytes() {
            found = Some(write.content.as_bytes());
        }
    }
    found
}
