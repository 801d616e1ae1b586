//! The laws of the removal of epsilon arcs. Each stands on the contract of a function with nothing to do, so that it is
//! proved; the statements are in `specs`, over graphs and machines of plain values.

ghost use Rattle.std.specs.Prelude.{◌≡◌, ◌↔◌, ℕ, List, Some, slice_get};
ghost use Rattle.fst_semiring.specs.Cost.{Cost, infinite};
ghost use Rattle.fst_semiring.specs.declared.arc_type.ArcType.{ArcType};
ghost use Rattle.fst_machine.specs.Connected.{IsConnected};
ghost use Rattle.fst_machine.specs.Cycles.{IsAccessible};
ghost use Rattle.fst_machine.specs.Graph.{Graph};
ghost use Rattle.fst_machine.specs.Machine.{Arc, Machine};
ghost use Rattle.fst_machine.specs.Relation.{IsWeight};
ghost use Rattle.fst_epsilon.specs.Answers.{HasNoEpsilons, IsFine, IsRemovedMachine, Stops};
ghost use Rattle.fst_epsilon.specs.Construction.{IsRemoved};
ghost use Rattle.fst_epsilon.specs.Faults.{epsilon_text};
ghost use Rattle.fst_epsilon.specs.Removal.{Removes};
ghost use Rattle.fst_epsilon.specs.declared.fault.EpsilonFault.{EpsilonFault};

/// Names of one kind, of which some are meant. The law speaks of every such choice.
pub trait Meant {
    /// The names that are meant.
    ghost domain: { Self → Type 0 };
}

/// A graph from which epsilon arcs are removed gives each pair of strings the weight that it had.
pub fn removal_laws<N: Meant>()
    ensures { (kind : ArcType) (g h : Graph N) → Removes kind g h N.domain → (x y : List ℕ) (w : Cost) → IsWeight kind g x y w ↔ IsWeight kind h x y w }
{}

/// The exact machine of `specs/Construction.antt` is such a graph, so that it gives each pair of strings the weight that
/// it had.
pub fn construction_laws()
    ensures { (kind : ArcType) (g h : Graph ℕ) → ((n k : ℕ) (a : Arc Cost ℕ) → slice_get (g.arcs n) k ≡ Some a → a.weight ≡ infinite → ⊥) → IsRemoved kind g h → Removes kind g h (IsAccessible g) × ((x y : List ℕ) (w : Cost) → IsWeight kind g x y w ↔ IsWeight kind h x y w) }
{}

/// There is one answer: a machine has one machine without epsilon arcs, what stands against it is told by one text, and
/// nothing does where that machine is fine.
pub fn one_answer()
    ensures removed { (kind : ArcType) (m h k : Machine Cost) → IsRemovedMachine kind m h → IsRemovedMachine kind m k → h ≡ k }
    ensures told { (kind : ArcType) (m : Machine Cost) (f h : EpsilonFault) → Stops kind m f → Stops kind m h → epsilon_text f ≡ epsilon_text h }
    ensures apart { (kind : ArcType) (m h : Machine Cost) (f : EpsilonFault) → IsFine kind m h → Stops kind m f → ⊥ }
{}

/// The connected machine of one without epsilon arcs has none either.
pub fn connecting_laws()
    ensures { (m c : Machine Cost) → IsConnected m c → HasNoEpsilons m.states → HasNoEpsilons c.states }
{}
