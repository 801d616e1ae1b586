//! The laws of determinization. Each stands on the contract of a function with nothing to do, so that it is proved; the
//! statements are in `specs`, and crates above cite the lemmas in `proofs`.

ghost use Rattle.std.specs.Prelude.{ℕ};
ghost use Rattle.fst_semiring.specs.Cost.{Cost};
ghost use Rattle.fst_semiring.specs.declared.arc_type.ArcType.{ArcType};
ghost use Rattle.fst_machine.specs.Graph.{Graph};
ghost use Rattle.fst_machine.specs.Machine.{Machine};
ghost use Rattle.fst_trim.specs.Weighed.{IsWeighted};
ghost use Rattle.fst_determinize.specs.Weighed.{MemberLaw};
ghost use Rattle.fst_determinize.specs.SubsetLaws.{DeterminizationLaws, SubsetLaws};

/// What holds of the weighted subsets of words, over any graph.
pub fn subset_laws()
    ensures { (kind : ArcType) (g : Graph ℕ) → SubsetLaws kind g }
{}

/// What holds of the members of the subset of a word, in a machine: they are states of it, and their residuals are not
/// Zero and can be computed with, as `subset_arcs` and `subset_final` ask.
pub fn member_laws<V>()
    ensures { (kind : ArcType) (value : V → Cost) (m : Machine V) → MemberLaw kind value m }
{}

/// What determinization gives: the names that a walk of the graph of subsets meets are just the subsets of words, in
/// the order of the least words that have them; more of them than a limit are met exactly where words give more; and
/// the machine that numbers them has at most one successful path for each label word, and each pair of strings the
/// weight that the acceptor gives it. It holds for every arc type, also where factors do not cancel.
pub fn determinization_laws()
    ensures { (kind : ArcType) (g : Graph ℕ) → IsWeighted kind g → DeterminizationLaws kind g }
{}
