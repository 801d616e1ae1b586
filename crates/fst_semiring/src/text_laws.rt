//! The law of weight texts, as the clause of a function.

ghost use Rattle.std.specs.Prelude.{◌≡◌, Some};
ghost use Rattle.fst_semiring.specs.Cost.{Cost};
ghost use Rattle.fst_semiring.specs.Semiring.{InRange, IsCost};
ghost use Rattle.fst_semiring.specs.WeightText.{cost_of_text, text_of_cost};
ghost use Rattle.fst_semiring.specs.declared.arc_type.ArcType.{ArcType};

/// The printed form of a weight is read as the weight, for every arc type: what `read_weight` makes of what
/// `push_text` appends. The function does nothing: its clause is the law.
pub fn printed_weight_reads_again()
    ensures { (kind : ArcType) (v : Cost) → IsCost kind v → InRange v → cost_of_text kind (text_of_cost kind v) ≡ Some v }
{}
