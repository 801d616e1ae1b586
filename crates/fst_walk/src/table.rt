//! The names that were found.

ghost use Rattle.std.specs.Prelude.{◌≤◌, ◌∷◌, [], IfOk, MatchOption, length};
ghost use Rattle.fst_walk.specs.Making.{IsFound, Passes};

use fst_keys::{Coded, KeySet};
use std::alloc::AllocError;

/// Names, each once, in the order in which they were found. A name is looked up by its number, and where an earlier name
/// has that number, by all that it is. So no chosen names make it slow.
pub type NameTable<K> = KeySet<K>;

/// The place of a name, which is put after the others where it is new; `None` where these are then more than the limit.
pub(crate) fn find<K: Coded>(
    names: &mut NameTable<K>,
    key: K,
    limit: u32,
) -> Result<Option<u32>, AllocError>
    requires few { length names.old ≤ limit }
    ensures { IfOk result (λ found. MatchOption found (Passes limit names.old (key ∷ [])) (IsFound limit names.old key names.new)) }
{
    match names.put_below(key, limit)? {
        Some((place, _is_new)) => Ok(Some(place as u32)),
        None => Ok(None),
    }
}
