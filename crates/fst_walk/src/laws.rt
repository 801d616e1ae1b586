//! The laws of walks. Each stands on the contract of a function with nothing to do, so that it is proved; the
//! statements are in `specs`, and crates above cite the lemmas in `proofs`.

ghost use Rattle.std.specs.Prelude.{◌≡◌, ◌<◌, ℕ, List, [], None, length};
ghost use Rattle.fst_semiring.specs.Cost.{Cost};
ghost use Rattle.fst_machine.specs.Cycles.{IsAccessible};
ghost use Rattle.fst_machine.specs.Graph.{Graph, graph_of};
ghost use Rattle.fst_machine.specs.Machine.{Machine, no_states};
ghost use Rattle.fst_machine.specs.Numbering.{IsNumbered};
ghost use Rattle.fst_walk.specs.Answers.{IsFine, IsNamed, Stops};
ghost use Rattle.fst_walk.specs.WalkLaws.{FrontLaws, ReachesFew};
ghost use Rattle.fst_walk.specs.declared.fault.WalkFault.{WalkFault};

/// What a walk has found on its way is the front of the finished list, and the start reaches no more names than that
/// list has. Where nothing starts, the machine without states has the names of the graph. The start of the machine of
/// the names reaches all its states.
pub fn walk_laws<N>()
    ensures fronts { (g : Graph N) (start : N) (names found : List N) (taken : ℕ) → FrontLaws g start names found taken }
    ensures few { (g : Graph N) (start : N) (names xs : List N) → ReachesFew g start names xs }
    ensures nothing { (g : Graph N) → g.start ≡ None → IsNumbered g [] no_states }
    ensures accessible { (g : Graph N) (names : List N) (m : Machine Cost) → IsNamed g names m → (p : ℕ) → p < length m.states → IsAccessible (graph_of m) p }
{}

/// A walk has one answer: one cause stops it, none does where nothing stands against the machine of its names, and its
/// names have one list and one machine.
pub fn one_answer<N>()
    ensures stops { (g : Graph N) (most : ℕ) (f h : WalkFault) → Stops g most f → Stops g most h → f ≡ h }
    ensures fine { (g : Graph N) (most : ℕ) (names : List N) (f : WalkFault) → IsFine g most names → Stops g most f → ⊥ }
    ensures named { (g : Graph N) (names others : List N) (m n : Machine Cost) → IsNamed g names m → IsNamed g others n → (names ≡ others) × (m ≡ n) }
{}
