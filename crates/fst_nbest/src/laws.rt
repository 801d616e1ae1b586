//! There is one answer. The law stands on the contract of a function with nothing to do, so that it is proved.

ghost use Rattle.std.specs.Prelude.{◌≡◌, ℕ, List};
ghost use Rattle.fst_semiring.specs.declared.arc_type.ArcType.{ArcType};
ghost use Rattle.fst_machine.specs.Graph.{Graph};
ghost use Rattle.fst_nbest.specs.FirstPaths.{AreFirstPaths};

/// A graph has one list of its first n paths.
pub fn one_answer<N>()
    ensures { (kind : ArcType) (g : Graph N) (n : ℕ) (one two : List (List (N × ℕ))) → AreFirstPaths kind g n one → AreFirstPaths kind g n two → one ≡ two }
{}
