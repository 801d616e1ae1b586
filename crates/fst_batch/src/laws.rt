//! The law of answers, on the contract of a function with nothing to do, so that it is proved.

ghost use Rattle.std.specs.Prelude.{ℕ, List};
ghost use Rattle.fst_semiring.specs.Cost.{Cost};
ghost use Rattle.fst_semiring.specs.declared.arc_type.ArcType.{ArcType};
ghost use Rattle.fst_machine.specs.Graph.{Graph};
ghost use Rattle.fst_batch.specs.AnswerLaws.{HasOneAnswer};

/// A line has one answer.
pub fn one_answer<N, V>()
    ensures { (kind : ArcType) (value : V → Cost) (g : Graph N) (n limit : ℕ) (line : List ℕ) → HasOneAnswer kind value g n limit line }
{}
