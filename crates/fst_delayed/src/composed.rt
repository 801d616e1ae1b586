//! What is known of a composition of two machines without its meters, so that code that counts nothing need not name them.

ghost use Rattle.std.specs.Prelude.{◌≡◌};
ghost use Rattle.fst_semiring.specs.Semiring.{Within};
ghost use Rattle.fst_machine.specs.Machine.{Machine};
ghost use Rattle.fst_delayed.specs.Graphs.{HasSmallArcs, IsKeyOf, delayed_graph};

use fst_compose::ComposeKey;
use fst_semiring::Weight;

/// A composition of two machines.
pub trait Composed<W: Weight> {
    /// The machines.
    ghost machines: { Self → Machine W × Machine W };

    /// The final weight of a name, as `Delayed::final_weight` gives it.
    fn last_weight(&self, key: ComposeKey) -> W::Wide
        requires key { IsKeyOf (machines self.now) key }
        ensures value { W.wide_value result ≡ (delayed_graph W.KIND W.value (machines self.now)).final key }
        ensures range { Within 2000000000000000000 (W.wide_value result) };

    /// What is known of the arcs of each name, as `Delayed::small_arcs` says it. Does nothing.
    fn arcs_are_small(&self)
        ensures { HasSmallArcs W.KIND W.value (machines self.now) };
}
