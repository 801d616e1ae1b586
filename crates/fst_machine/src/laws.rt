//! The laws of paths, graphs, weights and lists. Each stands on the contract of a function with nothing to do, so
//! that it is proved; the statements are in `specs`, and crates above cite the lemmas in `proofs`. The laws of
//! values, on which these stand, are those of `fst_semiring::value_laws`.

ghost use Rattle.std.specs.Prelude.{◌≡◌, ℕ, List};
ghost use Rattle.fst_semiring.specs.Cost.{Cost};
ghost use Rattle.fst_semiring.specs.declared.arc_type.ArcType.{ArcType};
ghost use Rattle.fst_machine.specs.Machine.{Machine};
ghost use Rattle.fst_machine.specs.Graph.{Graph};
ghost use Rattle.fst_machine.specs.BreadthFirst.{Apart};
ghost use Rattle.fst_machine.specs.Connected.{IsConnected};
ghost use Rattle.fst_machine.specs.Numbering.{IsNumbered};
ghost use Rattle.fst_machine.specs.Paths.{Transition};
ghost use Rattle.fst_machine.specs.Cycles.{HasCycle};
ghost use Rattle.fst_machine.specs.PathLaws.{PathLaws, LetterLaws};
ghost use Rattle.fst_machine.specs.GraphLaws.{RenamingLaws, ServingLaws, ContinuingLaws, TurningLaw, MachineLaws};
ghost use Rattle.fst_machine.specs.WeightLaws.{CycleLaws, MachineWeightLaws, WeightLaws};
ghost use Rattle.fst_machine.specs.ListLaws.{BreadthFirstLaws, PathOrderLaws};

/// Names of one kind, of which some are meant, and which are tied to names of another kind. The laws speak of
/// every such choice.
pub trait Names<M> {
    /// The names that are meant.
    ghost domain: { Self → Type 0 };

    /// Which names of the other kind a name is tied to.
    ghost tied: { Self → M → Type 0 };
}

/// The laws of letters and of paths in any graph.
pub fn path_laws<N>()
    ensures letters { (kind : ArcType) → LetterLaws kind }
    ensures paths { (kind : ArcType) (g : Graph N) → PathLaws kind g }
{}

/// The laws of graphs that stand to each other as operations on machines make them.
pub fn graph_laws<M, N: Names<M>>()
    ensures renaming { (kind : ArcType) (g : Graph N) (h : Graph M) (f : N → M) → RenamingLaws kind g h f N.domain }
    ensures serving { (kind : ArcType) (g : Graph N) (h : Graph M) → ServingLaws kind g h N.tied }
    ensures continuing { (kind : ArcType) (g : Graph N) (h : Graph M) (f : N → M) (c : M) → ContinuingLaws kind g h f N.domain c }
    ensures turning { (kind : ArcType) (g : Graph N) (h : Graph M) → TurningLaw kind g h N.tied N.domain }
    ensures machines { (kind : ArcType) (g : Graph N) → MachineLaws kind g }
{}

/// The laws of cycles, weights and distances.
pub fn weight_laws<M, N>()
    ensures cycles { (kind : ArcType) (g : Graph N) (p q : N) (path : List (Transition N)) (c : HasCycle g p path q) → CycleLaws kind g p q path c }
    ensures machines { (kind : ArcType) (m : Machine Cost) → MachineWeightLaws kind m }
    ensures weights { (kind : ArcType) (g : Graph N) (h : Graph M) → WeightLaws kind g h }
{}

/// The laws of breadth-first lists and of the order of successful paths.
pub fn list_laws<N>()
    ensures breadth_first { (g : Graph N) (start : N) (names : List N) → BreadthFirstLaws g start names }
    ensures order { (kind : ArcType) (g : Graph N) → PathOrderLaws kind g }
{}

/// The machine that numbers names is one, and so is the connected machine of a machine.
pub fn machine_laws<N>()
    ensures numbered { (g : Graph N) (names : List N) (m n : Machine Cost) → Apart names → IsNumbered g names m → IsNumbered g names n → m ≡ n }
    ensures connected { (m c d : Machine Cost) → IsConnected m c → IsConnected m d → c ≡ d }
{}
