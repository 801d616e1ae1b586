//! What the entries of a codex are found by.

ghost use Rattle.std.specs.Prelude.{◌≡◌};
ghost use Rattle.std.specs.Cmp.{on_equiv, on_per, partial_equiv_from_equiv};
ghost use Rattle.fst_codex.specs.Coding.{entry_key};
ghost use Rattle.fst_codex.specs.EntryKeys.{entry_apart, entry_decides, key_decides, key_in, key_laws, key_number, same_key};
ghost use Rattle.fst_codex.specs.Table.{valued_entry};

use crate::codex::CodexEntry;
use fst_keys::{Code, Coded, hash_of};
use fst_semiring::Weight;
use std::alloc::{AllocError, Global};

/// All that an entry is, as plain numbers that have an order: its labels and its weight.
#[derive(Clone, Copy, PartialEq, Eq, PartialOrd, Ord, Hash)]
pub struct EntryKey {
    ilabel: u32,
    olabel: u32,
    class: u8,
    first: i64,
    second: i64,
}

/// The key of an entry.
fn key_of<W: Weight>(entry: CodexEntry<W>) -> EntryKey
    ensures { result ≡ entry_key (valued_entry W.value entry) }
{
    let key = W::key(entry.weight.widen());
    EntryKey {
        ilabel: entry.ilabel,
        olabel: entry.olabel,
        class: key.class,
        first: key.first as i64,
        second: key.second as i64,
    }
}

/// Entries are the same where their labels are, and the values of their weights.
impl<W: Weight> PartialEq for CodexEntry<W> {
    ghost eq = { λ a b. same_key (key_in W.value a) (key_in W.value b) };

    ghost laws = { on_per (key_in W.value) (partial_equiv_from_equiv key_laws) };

    fn eq(&self, other: &CodexEntry<W>) -> bool {
        key_of(*self) == key_of(*other)
    }
}

impl<W: Weight> Eq for CodexEntry<W> {
    ghost laws = { on_equiv (key_in W.value) key_laws };
}

/// An entry is found by a hash of its key, and where another entry has it, by the key.
impl<W: Weight> Coded for CodexEntry<W> {
    type Whole = EntryKey;

    ghost code = { λ e. key_number (key_in W.value e) };

    ghost whole = { key_in W.value };

    ghost same = { entry_decides W.value W.value_apart };

    ghost apart = { entry_apart W.value W.value_apart };

    ghost compared = { key_decides };

    fn code(&self) -> Code {
        Code {
            number: hash_of(&key_of(*self)),
            is_alone: false,
        }
    }

    fn whole(&self, _alloc: Global) -> Result<EntryKey, AllocError> {
        Ok(key_of(*self))
    }
}
