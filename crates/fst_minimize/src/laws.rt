//! The laws of behaviour, of classes of states and of the fewest states. Each stands on the contract of a function with
//! nothing to do, so that it is proved; the statements are in `specs`.

ghost use Rattle.std.specs.Prelude.{ℕ, List};
ghost use Rattle.fst_semiring.specs.Cost.{Cost};
ghost use Rattle.fst_semiring.specs.declared.arc_type.ArcType.{ArcType};
ghost use Rattle.fst_machine.specs.Machine.{Machine};
ghost use Rattle.fst_machine.specs.Graph.{Graph};
ghost use Rattle.fst_minimize.specs.Classes.{HasClasses};
ghost use Rattle.fst_minimize.specs.Laws.{StableLaw, BehaviourLaws, ClassLaws, MinimalLaw};

use fst_machine::laws::Names;

/// The laws of names that do the same, in any two graphs.
pub fn behaviour_laws<M, N: Names<M>>()
    ensures stable { (g : Graph N) (h : Graph M) → StableLaw g h N.tied }
    ensures alike { (kind : ArcType) (g : Graph N) (h : Graph M) → BehaviourLaws kind g h }
{}

/// The laws of the machine whose states are the classes of equal behaviour of another: it relates the same, and where
/// factors cancel it is minimal under any total.
pub fn class_laws()
    ensures classes { (kind : ArcType) (m c : Machine Cost) (classes : HasClasses m c) → ClassLaws kind m c classes }
    ensures minimal { (kind : ArcType) (total : Cost) (m c : Machine Cost) → MinimalLaw kind total m c }
{}
