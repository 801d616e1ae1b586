//! The laws of composition. Each stands on the contract of a function with nothing to do, so that it is proved; the
//! statements are in `specs`, and crates above cite the lemmas in `proofs`. They speak of graphs of plain values with
//! any kind of name, so that they serve machines of every type of weights.

ghost use Rattle.std.specs.Prelude.{◌≡◌, ℕ, List, [], None};
ghost use Rattle.fst_semiring.specs.Cost.{Cost};
ghost use Rattle.fst_semiring.specs.declared.arc_type.ArcType.{ArcType};
ghost use Rattle.fst_machine.specs.Machine.{Machine, no_states};
ghost use Rattle.fst_machine.specs.Graph.{Graph};
ghost use Rattle.fst_machine.specs.Numbering.{IsNumbered};
ghost use Rattle.fst_compose.specs.Names.{Name};
ghost use Rattle.fst_compose.specs.Composition.{start_name, composed};
ghost use Rattle.fst_trim.specs.KeptPaths.{KeepsPaths};
ghost use Rattle.fst_compose.specs.Theorem.{IsComposed, IsComposition, IsConnectedComposition, RelatesNothing};
ghost use Rattle.fst_compose.specs.NameLaws.{NameLaws};
ghost use Rattle.fst_compose.specs.Answers.{Refuses};
ghost use Rattle.fst_compose.specs.declared.fault.ComposeFault.{ComposeFault};
ghost use Rattle.fst_compose.specs.Matching.{IsSearchable};
ghost use Rattle.fst_trim.specs.Sides.{IsSortedOn};
ghost use Rattle.fst_trim.specs.declared.side.Side.TheVariants as sides;

/// What composition gives: the successful paths of the result are the matching pairs of paths, one to one, with the
/// triple of each, in the graph of the composition and in each machine that numbers its names. Where a start is
/// missing, that machine has no states, and neither side relates anything.
pub fn composition_laws<N, M>()
    ensures graph { (kind : ArcType) (a : Graph N) (b : Graph M) → IsComposed kind a b (composed kind a b) }
    ensures machine { (kind : ArcType) (a : Graph N) (b : Graph M) (names : List (Name N M)) (m : Machine Cost) → IsNumbered (composed kind a b) names m → IsComposition kind a b names m }
    ensures no_names { (kind : ArcType) (a : Graph N) (b : Graph M) → start_name a.start b.start ≡ None → IsNumbered (composed kind a b) [] no_states }
    ensures nothing { (kind : ArcType) (a : Graph N) (b : Graph M) → start_name a.start b.start ≡ None → (x z : List ℕ) (w : Cost) → RelatesNothing kind a b x z w }
{}

/// The names that a composition of machines reaches keep their parts in range.
pub fn name_laws()
    ensures { (kind : ArcType) (a b : Graph ℕ) (states others : ℕ) → NameLaws kind a b states others }
{}

/// The successful paths of a composition of which just the useful states are kept are still the matching pairs of
/// paths, one to one.
pub fn trimming_laws<N, M>()
    ensures { (kind : ArcType) (a : Graph N) (b : Graph M) (names : List (Name N M)) (whole c : Machine Cost) (kept : List ℕ) → IsComposition kind a b names whole → KeepsPaths kind whole c kept → IsConnectedComposition kind a b names whole kept c }
{}

/// One cause refuses a composition.
pub fn one_refusal()
    ensures { (kind : ArcType) (a b : Machine Cost) (most : ℕ) (f h : ComposeFault) → Refuses kind a b most f → Refuses kind a b most h → f ≡ h }
{}

/// Where the arcs of a machine are in order, those of each of its states can be searched.
pub fn searching_laws<V>()
    ensures first { (a b : Machine V) (n : Name ℕ ℕ) → IsSortedOn sides.Output a → IsSearchable sides.Output a b n }
    ensures second { (a b : Machine V) (n : Name ℕ ℕ) → IsSortedOn sides.Input b → IsSearchable sides.Input a b n }
{}
