//! The calls of a delayed composition.

ghost use Rattle.std.specs.Prelude.{◌≡◌, ◌+◌, ◌<◌, ◌^◌, IfErr, IfOk, IfSome, map};
ghost use Rattle.std.specs.Bool.{Decides};
ghost use Rattle.std.specs.List.{Contains};
ghost use Rattle.fst_semiring.specs.Semiring.{Within};
ghost use Rattle.fst_machine.specs.Machine.{IsMachine};
ghost use Rattle.fst_walk.specs.Names.{key_arc};
ghost use Rattle.fst_compose.specs.Answers.{IsSorted};
ghost use Rattle.fst_claims.specs.Passes.{won};
ghost use Rattle.fst_delayed.specs.Coding.{code_of};
ghost use Rattle.fst_delayed.specs.Graphs.{HasSmallArcs, IsKeyOf, delayed_graph};

use super::{Delayed, NotSorted};
use crate::composed::Composed;
use crate::meter::Meter;
use crate::ranging::range_over;
use fst_claims::Pass;
use fst_compose::{ComposeKey, KeyArc, expand, key_final};
use fst_machine::Fst;
use fst_semiring::Weight;
use fst_trim::{Side, is_sorted};
use std::alloc::{AllocError, Global};
use std::marker::PhantomData;

impl<'m, W: Weight, M: Meter> Delayed<'m, W, M> {
    /// The composition of two machines, of which the first has its arcs by their output labels or the second by their
    /// input labels. `NotSorted` exactly where neither has. Takes no memory.
    pub fn new(a: &'m Fst<W>, b: &'m Fst<W>) -> Result<Delayed<'m, W, M>, NotSorted>
        ensures machines { IfOk result (λ d. d ≡ (a.now, b.now)) }
        ensures sorted { IfOk result (λ d. IsSorted a.now b.now) }
        ensures fault { IfErr result (λ _. IsSorted a.now b.now → ⊥) }
    {
        let by_output = is_sorted(a, Side::Output);
        if !by_output && !is_sorted(b, Side::Input) {
            return Err(NotSorted);
        }
        range_over(a);
        range_over(b);
        Ok(Delayed {
            a,
            b,
            by_output,
            meter: PhantomData,
        })
    }

    /// The name of the start; `None` exactly where a machine has none. With it that both are machines. Takes no memory.
    pub fn start_key(&self) -> Option<ComposeKey>
        ensures start { result ≡ (delayed_graph W.KIND W.value self.now).start }
        ensures key { IfSome result (IsKeyOf self.now) }
        ensures machines { IsMachine W.value self.now.0 × IsMachine W.value self.now.1 }
    {
        let _states = (self.a.states(), self.b.states());
        let (Some(first), Some(second)) = (self.a.start(), self.b.start()) else {
            return None;
        };
        Some(ComposeKey {
            first,
            second,
            filter: 0,
        })
    }

    /// The final weight of a name: that of its states together. Its numbers have absolute value at most 2 times 10 to
    /// the 18. Takes no memory.
    pub fn final_weight(&self, key: ComposeKey) -> W::Wide
        requires key { IsKeyOf self.now key }
        ensures value { W.wide_value result ≡ (delayed_graph W.KIND W.value self.now).final key }
        ensures range { Within 2000000000000000000 (W.wide_value result) }
    {
        key_final(self.a, self.b, key)
    }

    /// What is known of the arcs of each name of states of the machines: their labels are in range, their weights are not Zero,
    /// and the numbers of these have absolute value at most 2 times 10 to the 18. Does nothing.
    pub fn small_arcs(&self)
        ensures { HasSmallArcs W.KIND W.value self.now }
    {
        let _states = (self.a.states(), self.b.states());
    }

    /// Whether the states of a name are states of the machines, and its filter is 0 or 1. Takes no memory.
    pub fn holds(&self, key: ComposeKey) -> bool
        ensures { Decides result (IsKeyOf self.now key) }
    {
        key.first < self.a.states() && key.second < self.b.states() && key.filter <= 1
    }

    /// The arcs of a name, in order, as `fst_compose` has them. The pass has won its code. The meter is raised once in
    /// every case.
    pub fn expand(
        &self,
        alloc: Global,
        key: ComposeKey,
        pass: &Pass,
        meter: &mut M,
    ) -> Result<Vec<KeyArc<W>>, AllocError>
        requires key { IsKeyOf self.now key }
        requires won { Contains (won pass.now) (code_of key) }
        requires few { M.count meter.old < 2 ^ 63 }
        ensures arcs { IfOk result (λ arcs. map (key_arc W.wide_value) arcs.items ≡ (delayed_graph W.KIND W.value self.now).arcs key) }
        ensures count { M.count meter.new ≡ M.count meter.old + 1 }
        ensures parts { M.parts_out meter.new ≡ M.parts_out meter.old }
        ensures part { M.is_part meter.new ≡ M.is_part meter.old }
    {
        // The pass is asked for so that no name is expanded whose code was not won.
        let _pass = pass;
        meter.raise();
        let mut arcs = expand(alloc, self.a, self.b, key)?;
        // They are kept as long as the batch lasts.
        arcs.shrink_to_fit();
        Ok(arcs)
    }
}

impl<'m, W: Weight, M: Meter> Composed<W> for Delayed<'m, W, M> {
    ghost machines = { λ d. d };

    fn last_weight(&self, key: ComposeKey) -> W::Wide {
        key_final(self.a, self.b, key)
    }

    fn arcs_are_small(&self) {
        let _states = (self.a.states(), self.b.states());
    }
}
