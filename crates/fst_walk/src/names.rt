//! What a walk asks of a graph of names.

ghost use Rattle.std.specs.Prelude.{◌≡◌, ◌++◌, ◌≤◌, ℕ, List, IfOk, Some, slice_get, map};
ghost use Rattle.fst_semiring.specs.Cost.{Cost};
ghost use Rattle.fst_machine.specs.Graph.{Graph};
ghost use Rattle.fst_machine.specs.Machine.{Arc};
ghost use Rattle.fst_walk.specs.Names.{IsGoodArc, IsLater, IsNear, key_arc, left_from};

use fst_keys::Coded;
use fst_semiring::Weight;
use std::alloc::{AllocError, Global};
use std::marker::Model;

/// An arc to a name. Its weight is in the wide form.
#[derive(Drop)]
pub struct NameArc<K: Drop, W: Weight> {
    /// The input label.
    pub ilabel: u32,
    /// The output label.
    pub olabel: u32,
    /// The weight.
    pub weight: W::Wide,
    /// The name to which it leads.
    pub next: K,
}

impl<K: Drop, W: Weight> Model for NameArc<K, W> {
    ghost use Rattle.fst_machine.specs.Machine.{Arc};

    ghost Value = { Arc W.Wide K };

    ghost view = { λ a. record { ilabel = a.ilabel; olabel = a.olabel; weight = a.weight; next = a.next } };

    ghost inverse = { λ a. record { ilabel = a.ilabel; olabel = a.olabel; weight = a.weight; next = a.next } };
}

/// A graph of names, whose arcs are made when they are asked for.
pub trait Names<W: Weight> {
    /// A name.
    type Key: Coded;

    /// Why the arcs of a name are not made: at least that memory has run out. A walk that meets such a fault gives it.
    type Fault: From<AllocError>;

    /// What the arcs of a name are made in. A walk keeps one, so that the arcs of each name ask for no memory of their own.
    type Scratch: Drop;

    /// The graph.
    ghost graph: { Self → Graph Self.Key };

    /// The arcs of a name that are left from a place on. Which places a name has, the operation says; from 0 on all are left.
    ghost rest: { Self → Self.Key → ℕ → List (Arc Cost Self.Key) };

    /// What has to hold of the operation.
    ghost holds: { Self → Type 0 };

    /// The name of the start, if there is one.
    fn start(&self) -> Option<Self::Key>
        ensures { result ≡ (graph self.now).start };

    /// What the arcs of the first name are made in.
    fn scratch(alloc: Global) -> Self::Scratch;

    /// Puts the arcs of a name that are left from a place on after the others, or only the first of them. Gives the place
    /// from which on others are left, which is a later one; `None` where none are.
    ///
    /// So a name with very many arcs needs no room for all of them beside those that are numbered.
    fn put_part(
        &self,
        scratch: &mut Self::Scratch,
        out: &mut Vec<NameArc<Self::Key, W>>,
        key: &Self::Key,
        from: u32,
    ) -> Result<Option<u32>, Self::Fault>
        requires holds { holds self.now }
        requires near { IsNear (graph self.now) key.now }
        ensures put { IfOk result (λ next. map (key_arc W.wide_value) out.new.items ++ left_from (rest self.now key.now) next ≡ map (key_arc W.wide_value) out.old.items ++ rest self.now key.now from) }
        ensures later { IfOk result (IsLater from) };

    /// The final weight of a name.
    fn final_weight(&self, key: &Self::Key) -> W::Wide
        requires holds { holds self.now }
        requires near { IsNear (graph self.now) key.now }
        ensures { W.wide_value result ≡ (graph self.now).final key.now };

    /// All arcs are left from 0 on.
    ghost whole: { (s : Self) (n : Self.Key) → rest s n 0 ≡ (graph s).arcs n };

    /// Arcs of names that the start reaches have labels in range and weights that are not Zero.
    ghost good: { (s : Self) → holds s → (n : Self.Key) → IsNear (graph s) n → (k : ℕ) (a : Arc Cost Self.Key) → slice_get ((graph s).arcs n) k ≡ Some a → IsGoodArc a };
}
