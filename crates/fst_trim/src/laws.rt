//! The laws of what is made and said here: each is one. Each stands on the contract of a function with nothing to do,
//! so that it is proved; crates above cite the lemmas in `proofs`.

ghost use Rattle.std.specs.Prelude.{◌≡◌};
ghost use Rattle.fst_semiring.specs.Cost.{Cost};
ghost use Rattle.fst_semiring.specs.declared.arc_type.ArcType.{ArcType};
ghost use Rattle.fst_machine.specs.Machine.{Machine};
ghost use Rattle.fst_trim.specs.Counted.{IsInfo};
ghost use Rattle.fst_trim.specs.Sorting.{IsArcSorted};
ghost use Rattle.fst_trim.specs.declared.side.Side.{Side};
ghost use Rattle.fst_trim.specs.declared.summary.Info.{Info};

/// One machine is the given one with its arcs in order, and one thing is said of a machine.
pub fn one_answer<V>()
    ensures sorted { (side : Side) (m c d : Machine V) → IsArcSorted side m c → IsArcSorted side m d → c ≡ d }
    ensures described { (kind : ArcType) (value : V → Cost) (m : Machine V) (i j : Info) → IsInfo kind value m i → IsInfo kind value m j → i ≡ j }
{}
