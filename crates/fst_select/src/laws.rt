//! The laws of pruning and of strings. Each stands on the contract of a function with nothing to do, so that it is proved;
//! crates above cite the lemmas in `proofs`.

ghost use Rattle.fst_semiring.specs.Cost.{Cost};
ghost use Rattle.fst_semiring.specs.declared.arc_type.ArcType.{ArcType};
ghost use Rattle.std.specs.Prelude.{◌≡◌, ◌↔◌, ℕ, List};
ghost use Rattle.fst_determinize.specs.Subsets.{IsSubset, Member};
ghost use Rattle.fst_machine.specs.Cycles.{IsAccessible};
ghost use Rattle.fst_machine.specs.Distance.{IsFinalDistance};
ghost use Rattle.fst_machine.specs.Graph.{Graph};
ghost use Rattle.fst_machine.specs.Machine.{Machine};
ghost use Rattle.fst_machine.specs.Relation.{IsWeight};
ghost use Rattle.fst_select.specs.Keys.{PrefixLaws};
ghost use Rattle.fst_select.specs.Pruned.{IsPruned, PrunedLaws};
ghost use Rattle.fst_select.specs.Strings.{IsPlain, IsSpelled};
ghost use Rattle.fst_select.specs.Surveyed.{GoodLaws, IsSurveyed};
ghost use Rattle.fst_trim.specs.Weighed.{IsWeighted};

/// What the distances of the names of a graph say of its good paths: the bound, and which names, arcs and ends lie on them.
pub fn good_laws<N>()
    ensures { (kind : ArcType) (g : Graph N) (s d : N → Cost) → IsSurveyed kind g s d → GoodLaws kind g s d }
{}

/// Good paths stay, each arc that stays is on one, and one machine is the pruned one.
pub fn pruned_laws()
    ensures paths { (kind : ArcType) (threshold : Cost) (m c : Machine Cost) → (is : IsPruned kind threshold m c) → PrunedLaws kind threshold m c is }
    ensures one { (kind : ArcType) (threshold : Cost) (m c d : Machine Cost) → IsPruned kind threshold m c → IsPruned kind threshold m d → c ≡ d }
{}

/// The weight of a string of an acceptor without epsilon is the best of the paths with that label word. The subset of a
/// prefix and the distances of the states to the final ones say what the best string weighs that begins so.
pub fn string_laws()
    ensures plain { (kind : ArcType) (g : Graph ℕ) → IsPlain g → (x : List ℕ) (w : Cost) → IsWeight kind g x x w ↔ IsSpelled kind g x w }
    ensures prefixes { (kind : ArcType) (g : Graph ℕ) → IsWeighted kind g → (d : ℕ → Cost) → ((q : ℕ) → IsAccessible g q → IsFinalDistance kind g q (d q)) → (x : List ℕ) (by : Cost) (members : List Member) → IsSubset kind g x by members → PrefixLaws kind g d x by members }
{}
