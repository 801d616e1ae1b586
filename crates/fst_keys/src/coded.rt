//! Keys with a number by which they are found.

ghost use Rattle.std.specs.Prelude.{◌≡◌, ℕ, true, IfOk};
ghost use Rattle.std.specs.Bool.{Decides};

use std::alloc::{AllocError, Global};

/// A number by which a key is found.
#[derive(Clone, Copy, Debug)]
pub struct Code {
    /// The number.
    pub number: u64,
    /// Whether no other key has it, as far as is known.
    pub is_alone: bool,
}

/// A key with a number by which it is found. Where another key has the number, the key is looked up by all that it is, in
/// an order. Where it is known that no other key has the number, keys are not compared.
pub trait Coded: Eq + Drop {
    /// All that a key is, in an order: what keys are looked up by where another has their number.
    type Whole: Ord + Drop;

    /// The number.
    ghost code: { Self → ℕ };

    /// All that it is.
    ghost whole: { Self → Self.Whole };

    /// The number of the key, and whether no other key has it.
    fn code(&self) -> Code
        ensures number { result.number ≡ code self.now }
        ensures alone { result.is_alone ≡ true → (other : Self) → code other ≡ code self.now → other ≡ self.now };

    /// All that the key is. It is asked for where another key has the number. The only fault is that memory has run out.
    fn whole(&self, alloc: Global) -> Result<Self::Whole, AllocError>
        ensures { IfOk result (λ w. w ≡ whole self.now) };

    /// Keys that compare as equal are one.
    ghost same: { (a b : Self) → Decides (Self.PartialEq.eq a b) (a ≡ b) };

    /// Keys of which all is the same are one.
    ghost apart: { (a b : Self) → whole a ≡ whole b → a ≡ b };

    /// What compares as equal in the order is one.
    ghost compared: { (a b : Self.Whole) → Decides (Self.Whole.PartialEq.eq a b) (a ≡ b) };
}
