//! Where a key stands.

ghost use Rattle.std.specs.Prelude.{◌≡◌, false, MatchOption, Some, slice_get};
ghost use Rattle.std.specs.List.{list_any};

use crate::coded::Coded;
use crate::keys::KeySet;

/// The place of a key, which is looked for from the front.
fn look_through<K: Coded>(keys: &KeySet<K>, key: &K) -> Option<usize>
    ensures { MatchOption result (list_any (K.PartialEq.eq key.now) keys.now ≡ false) (λ p. slice_get keys.now p ≡ Some key.now) }
{
    for place in 0..keys.len() {
        if *key == *keys.item(place) {
            return Some(place);
        }
    }
    None
}

impl<K: Coded> KeySet<K> {
    /// The place of a key; `None` exactly where it is not one of the keys. Where there is no memory for all that the key
    /// is, the keys are looked through from the front, so that this does not fail.
    pub fn find(&self, key: &K) -> Option<usize>
        ensures { MatchOption result (list_any (K.PartialEq.eq key.now) self.now ≡ false) (λ p. slice_get self.now p ≡ Some key.now) }
    {
        match self.place(key) {
            Ok(place) => place,
            Err(_) => look_through(self, key),
        }
    }
}
