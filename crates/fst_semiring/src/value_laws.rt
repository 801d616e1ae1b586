//! The laws of the values of weights. Each stands on the contract of a function with nothing to do, so that it is
//! proved; the statements are in `specs/ValueLaws.antt`, and crates above cite the lemmas in `proofs`. The
//! contracts of `Weight` say what each call gives as a function of values, so that the laws hold of every type of
//! weights.

ghost use Rattle.std.specs.Prelude.{◌≡◌, ℕ};
ghost use Rattle.std.specs.Cmp.{IsTotalOrder};
ghost use Rattle.fst_semiring.specs.Cost.{Cost, cost_cmp};
ghost use Rattle.fst_semiring.specs.Keys.{key_cmp, key_of};
ghost use Rattle.fst_semiring.specs.declared.arc_type.ArcType.{ArcType};
ghost use Rattle.fst_semiring.specs.ValueLaws.{CancelLaws, DivisionLaws, KindLaws, PlusLaws, RangeLaws, TimesLaws};

/// The laws of the order and of Plus, which is the better of two values, for all values.
pub fn order_laws()
    ensures total { IsTotalOrder cost_cmp }
    ensures plus { (a b c : Cost) → PlusLaws a b c }
    ensures keys { (a b : Cost) → key_cmp (key_of a) (key_of b) ≡ cost_cmp a b }
{}

/// The laws of Times, for every arc type and all values.
pub fn times_laws()
    ensures times { (kind : ArcType) (a b c d : Cost) → TimesLaws kind a b c d }
    ensures cancels { (kind : ArcType) (a b c : Cost) → CancelLaws kind a b c }
{}

/// The laws of subset division and of push division, for every arc type and all values.
pub fn division_laws()
    ensures { (kind : ArcType) (a by : Cost) → DivisionLaws kind a by }
{}

/// That results are values of the arc type, and how far their numbers go.
pub fn range_laws()
    ensures kinds { (kind : ArcType) (a b : Cost) → KindLaws kind a b }
    ensures ranges { (kind : ArcType) (m n : ℕ) (a b : Cost) → RangeLaws kind m n a b }
{}
