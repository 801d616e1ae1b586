//! The laws of lattices and of what lines need, on the contract of a function with nothing to do, so that they are proved.

ghost use Rattle.std.specs.Prelude.{◌≡◌, ℕ, List};
ghost use Rattle.fst_semiring.specs.declared.arc_type.ArcType.{ArcType};
ghost use Rattle.fst_machine.specs.Graph.{Graph};
ghost use Rattle.fst_lattice.specs.Expansions.{IsExpansions};
ghost use Rattle.fst_lattice.specs.LinePaths.{IsLineByLine};

/// The successful paths of the lattice of a line without a byte 0 are the successful paths of the graph that read the
/// line, one to one, with the same outputs and weights.
pub fn lattice_laws<N>()
    ensures { (kind : ArcType) (line : List ℕ) (g : Graph N) → IsLineByLine kind line g }
{}

/// Lines need one number of names.
pub fn one_count<N>()
    ensures { (lines : List (List ℕ)) (g : Graph N) (limit a b : ℕ) → IsExpansions lines g limit a → IsExpansions lines g limit b → a ≡ b }
{}
