//! Residuals as they are kept: in the form of weights, where each fits, and in the wide form.

ghost use Rattle.std.specs.Prelude.{◌≡◌, IfSome};
ghost use Rattle.fst_semiring.specs.Cost.{Cost};
ghost use Rattle.fst_semiring.specs.Keys.{key_of};
ghost use Rattle.fst_semiring.specs.Semiring.{one_of};
ghost use Rattle.fst_determinize.specs.Kept.{same_cost};

use fst_semiring::{Key, Weight};
use std::marker::PhantomData;

/// A residual, whatever its form.
pub trait Kept: Copy {
    /// Its value.
    ghost value: { Self → Cost };

    /// Whether two residuals are one.
    fn same(self, other: Self) -> bool
        ensures { result ≡ same_cost (value self) (value other) };

    /// Its key.
    fn key(self) -> Key
        ensures { result ≡ key_of (value self) };
}

/// A residual of weights of a type.
pub trait Residual<W: Weight>: Kept {
    /// One.
    fn one() -> Self
        ensures { Self.value result ≡ one_of W.KIND };

    /// The residual with this value. `None` where the form has none for it.
    fn keep(wide: W::Wide) -> Option<Self>
        ensures { IfSome result (λ r. Self.value r ≡ W.wide_value wide) };

    /// The same in the wide form.
    fn wide(self) -> W::Wide
        ensures { W.wide_value result ≡ Self.value self };
}

/// A residual in the form of weights, whose numbers have absolute value at most 10 to the 18.
#[derive(Clone, Copy)]
pub struct Narrow<W: Weight> {
    weight: W,
}

/// One. It fills the places of a list that have no member.
impl<W: Weight> Default for Narrow<W> {
    fn default() -> Narrow<W> {
        Narrow { weight: W::one() }
    }
}

impl<W: Weight> Kept for Narrow<W> {
    ghost value = { λ r. W.value r.weight };

    fn same(self, other: Narrow<W>) -> bool {
        self.weight.compare(other.weight).is_eq()
    }

    fn key(self) -> Key {
        W::key(self.weight.widen())
    }
}

impl<W: Weight> Residual<W> for Narrow<W> {
    fn one() -> Narrow<W> {
        Narrow { weight: W::one() }
    }

    fn keep(wide: W::Wide) -> Option<Narrow<W>> {
        let weight = W::narrow(wide)?;
        Some(Narrow { weight })
    }

    fn wide(self) -> W::Wide {
        self.weight.widen()
    }
}

/// A residual in the wide form of weights of this type, which has each.
#[derive(Clone, Copy)]
pub struct Broad<W, V> {
    weight: V,
    of: PhantomData<W>,
}

/// One. It fills the places of a list that have no member.
impl<W: Weight> Default for Broad<W, W::Wide> {
    fn default() -> Broad<W, W::Wide> {
        Broad {
            weight: W::one().widen(),
            of: PhantomData,
        }
    }
}

impl<W: Weight> Kept for Broad<W, W::Wide> {
    ghost value = { λ r. W.wide_value r.weight };

    fn same(self, other: Broad<W, W::Wide>) -> bool {
        W::wide_compare(self.weight, other.weight).is_eq()
    }

    fn key(self) -> Key {
        W::key(self.weight)
    }
}

impl<W: Weight> Residual<W> for Broad<W, W::Wide> {
    fn one() -> Broad<W, W::Wide> {
        Broad {
            weight: W::one().widen(),
            of: PhantomData,
        }
    }

    fn keep(wide: W::Wide) -> Option<Broad<W, W::Wide>> {
        Some(Broad {
            weight: wide,
            of: PhantomData,
        })
    }

    fn wide(self) -> W::Wide {
        self.weight
    }
}
