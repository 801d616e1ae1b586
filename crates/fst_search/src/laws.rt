//! The laws of distances. They stand on the contract of a function with nothing to do, so that they are proved; the
//! statements are in `specs/Laws.antt`, over graphs of plain values with any kind of name.

ghost use Rattle.fst_semiring.specs.declared.arc_type.ArcType.{ArcType};
ghost use Rattle.fst_machine.specs.Graph.{Graph};
ghost use Rattle.fst_search.specs.Laws.{DistanceLaws};

/// What distances to the final names keep along arcs, in any graph.
pub fn distance_laws<N>()
    ensures { (kind : ArcType) (g : Graph N) → DistanceLaws kind g }
{}
