//! The laws of the set operations. Each stands on the contract of a function with nothing to do, so that it is proved; the
//! statements are in `specs`, and crates above cite the lemmas in `proofs`. They speak of graphs of plain values with any
//! kind of name, so that they serve machines of every type of weights.

ghost use Rattle.std.specs.Prelude.{◌≡◌, ◌↔◌, ℕ, List};
ghost use Rattle.fst_semiring.specs.Cost.{Cost};
ghost use Rattle.fst_semiring.specs.declared.arc_type.ArcType.{ArcType};
ghost use Rattle.fst_machine.specs.Graph.{Graph, graph_of};
ghost use Rattle.fst_machine.specs.Machine.{Machine};
ghost use Rattle.fst_machine.specs.Numbering.{IsNumbered};
ghost use Rattle.fst_machine.specs.Relation.{Rel};
ghost use Rattle.fst_trim.specs.KeptPaths.{IsRenumbered, KeepsPaths};
ghost use Rattle.fst_trim.specs.WordWeights.{IsSingle};
ghost use Rattle.fst_compose.specs.Theorem.{Relates};
ghost use Rattle.fst_setops.specs.Answers.{RefusesDifference, RefusesIntersection};
ghost use Rattle.fst_setops.specs.Difference.{IsEpsilonFree, Rest, difference};
ghost use Rattle.fst_setops.specs.Intersecting.{Accepts, Intersects};
ghost use Rattle.fst_setops.specs.Subtracting.{FirstParts, NumberedParts, ReadsBy, Remains, Subtracts};
ghost use Rattle.fst_setops.specs.declared.fault.DifferenceFault.{DifferenceFault};
ghost use Rattle.fst_setops.specs.declared.fault.IntersectFault.{IntersectFault};

/// What a difference gives: the successful paths of the graph of the difference, and of each machine that numbers its
/// names, are those of the first whose string the second does not have, one to one; so are those of a difference of which
/// just the useful states are kept. So the strings that are related are those that remain.
pub fn difference_laws<N, M>()
    ensures graph { (kind : ArcType) (a : Graph N) (b : Graph M) → IsSingle b → IsEpsilonFree b → Subtracts kind a b (difference a b) FirstParts }
    ensures machine { (kind : ArcType) (a : Graph N) (b : Graph M) (names : List (Rest N M)) (m : Machine Cost) → IsSingle b → IsEpsilonFree b → IsNumbered (difference a b) names m → Subtracts kind a b (graph_of m) (NumberedParts names) }
    ensures connected { (kind : ArcType) (a : Graph N) (b : Graph M) (names : List (Rest N M)) (whole c : Machine Cost) (kept : List ℕ) → Subtracts kind a b (graph_of whole) (NumberedParts names) → KeepsPaths kind whole c kept → Subtracts kind a b (graph_of c) (ReadsBy kind (graph_of whole) (IsRenumbered whole kept) (NumberedParts names)) }
    ensures relation { (kind : ArcType) (a : Graph N) (b : Graph M) (names : List (Rest N M)) (m : Machine Cost) → Subtracts kind a b (graph_of m) (NumberedParts names) → (x z : List ℕ) (w : Cost) → Rel kind (graph_of m) x z w ↔ Remains kind a b x z w }
{}

/// What two acceptors relate, one after the other, is what both have.
pub fn intersection_laws<N, M>()
    ensures { (kind : ArcType) (a : Graph N) (b : Graph M) → Accepts a → Accepts b → (x z : List ℕ) (w : Cost) → Relates kind a b x z w ↔ Intersects kind a b x z w }
{}

/// One cause refuses an intersection, and one a difference.
pub fn one_refusal()
    ensures intersection { (kind : ArcType) (a b : Machine Cost) (most : ℕ) (f h : IntersectFault) → RefusesIntersection kind a b most f → RefusesIntersection kind a b most h → f ≡ h }
    ensures difference { (kind : ArcType) (a b : Machine Cost) (most : ℕ) (f h : DifferenceFault) → RefusesDifference kind a b most f → RefusesDifference kind a b most h → f ≡ h }
{}
