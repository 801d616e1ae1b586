//! The laws of pushed weights, on the contract of a function with nothing to do, so that they are proved.

ghost use Rattle.std.specs.Prelude.{Bool};
ghost use Rattle.fst_semiring.specs.Cost.{Cost};
ghost use Rattle.fst_semiring.specs.declared.arc_type.ArcType.{ArcType};
ghost use Rattle.fst_machine.specs.Machine.{Machine};
ghost use Rattle.fst_distance.specs.Pushing.{IsPushed};
ghost use Rattle.fst_distance.specs.PushLaws.{PushedLaws};
ghost use Rattle.fst_distance.specs.Totals.{OneAnswer};

/// In a pushed machine the distance from each state to the final states is One, for every arc type, and the total Times
/// what it relates is what the machine relates.
pub fn push_laws()
    ensures { (kind : ArcType) (m r : Machine Cost) (total : Cost) → IsPushed kind m r total → PushedLaws kind m r total }
{}

/// What pushing makes of a machine is determined, and so is what is told where it makes nothing: one machine, or faults
/// that say the same, and never both.
pub fn one_answer_laws()
    ensures { (kind : ArcType) (removed : Bool) (m : Machine Cost) → OneAnswer kind removed m }
{}
