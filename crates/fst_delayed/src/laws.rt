//! The laws of codes, on the contract of a function with nothing to do, so that they are proved.

ghost use Rattle.std.specs.Prelude.{ℕ};
ghost use Rattle.fst_delayed.specs.DelayedLaws.{CodesDiffer};

/// Different names of states of two machines have different codes.
pub fn code_laws()
    ensures { (states others : ℕ) → CodesDiffer states others }
{}
