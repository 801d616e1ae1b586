//! Numbers of weights, in the order in which they first come.

ghost use Rattle.std.specs.Prelude.{◌≡◌, ◌∷◌, [], IfOk, OnOk, Some, slice_get};
ghost use Rattle.fst_machine.specs.BreadthFirst.{Grows};
ghost use Rattle.fst_minimize.specs.Saying.{weight_key};
ghost use Rattle.fst_minimize.specs.WeightKeys.{key_decides, key_number};

use fst_keys::{Code, Coded, KeySet, hash_of};
use fst_semiring::Weight;
use std::alloc::{AllocError, Global};

/// A wide weight as plain numbers.
#[derive(Clone, Copy, PartialEq, Eq, PartialOrd, Ord, Hash)]
pub(crate) struct WeightKey {
    class: u8,
    first: i128,
    second: i128,
}

/// A key is found by its hash, and where another key has it, by all its parts.
impl Coded for WeightKey {
    type Whole = WeightKey;

    ghost code = { key_number };

    ghost whole = { λ k. k };

    ghost same = { key_decides };

    ghost apart = { λ a b e. e };

    ghost compared = { key_decides };

    fn code(&self) -> Code {
        Code {
            number: hash_of(self),
            is_alone: false,
        }
    }

    fn whole(&self, _alloc: Global) -> Result<WeightKey, AllocError> {
        Ok(*self)
    }
}

/// The key of a wide weight.
pub(crate) fn key_of<W: Weight>(weight: W::Wide) -> WeightKey
    ensures { result ≡ weight_key (W.wide_value weight) }
{
    let key = W::key(weight);
    WeightKey {
        class: key.class,
        first: key.first,
        second: key.second,
    }
}

/// The number of a weight, which is put after the others where it is new. A list of more than 4,294,967,295 weights has
/// no memory for more.
pub(crate) fn number_weight(keys: &mut KeySet<WeightKey>, key: WeightKey) -> Result<u32, AllocError>
    ensures there { IfOk result (λ n. slice_get keys.new n ≡ Some key) }
    ensures grown { OnOk result (Grows keys.old (key ∷ []) keys.new) }
{
    let (place, _) = keys.put(key)?;
    if place > 4294967295 {
        return Err(AllocError);
    }
    Ok(place as u32)
}
