//! The paths of a machine as a system of words.

ghost use Rattle.std.specs.Prelude.{◌≡◌, ◌≢◌, ◌<◌, ◌≤◌, ◌+◌, ℕ, true, Some, IfOk, OnOk, length, map, get_or, slice_get};
ghost use Rattle.fst_semiring.specs.Semiring.{Within, times};
ghost use Rattle.fst_machine.specs.Machine.{valued, valued_arc};
ghost use Rattle.fst_machine.specs.Graph.{graph_of};
ghost use Rattle.fst_nbest.specs.PathWords.{path_words};
ghost use Rattle.fst_nbest.specs.Turns.{AreTurnsBelow, HasTurn};
ghost use Rattle.fst_nbest.specs.Words.{ahead_of};
ghost use Rattle.fst_nbest.specs.Ready.{IsBounded, count_in, dist_in, most_distance, most_weight};

use crate::system::System;
use crate::turns::{Turn, in_order};
use crate::values::is_zero_wide;
use fst_machine::FstArc;
use fst_search::Widens;
use fst_semiring::Weight;
use std::alloc::{AllocError, Global};
use std::cmp::Ordering;
use std::marker::{Model, PhantomData};

/// A machine whose factors cancel, with the distance of each state to the final states, and the least number of arcs
/// of a best path there.
pub(crate) struct PathSystem<'a, W: Weight, V: Copy, M: Widens<W, V>> {
    pub(crate) fst: &'a M,
    pub(crate) dist: &'a Vec<W::Wide>,
    pub(crate) count: &'a Vec<u32>,
    pub(crate) weight: PhantomData<V>,
}

impl<'a, W: Weight, V: Copy, M: Widens<W, V>> Drop for PathSystem<'a, W, V, M> {
    fn drop(self) {
        let PathSystem {
            fst: _,
            dist: _,
            count: _,
            weight: _,
        } = self;
    }
}

impl<'a, W: Weight, V: Copy, M: Widens<W, V>> Model for PathSystem<'a, W, V, M> {
    ghost use Rattle.std.specs.Prelude.{◌≡◌, true};
    ghost use Rattle.fst_semiring.specs.Semiring.{cancels};
    ghost use Rattle.fst_nbest.specs.Ready.{IsReady, Prepared};

    ghost Value = { Prepared V W.Wide };

    ghost view = { λ s. record { machine = M.machine s.fst.now; dist = s.dist.now.items; count = s.count.now.items } };

    ghost invariant = { λ s. (cancels W.KIND ≡ true) × IsReady W.KIND M.value W.wide_value M.known (M.machine s.fst.now) s.dist.now.items s.count.now.items };
}

impl<'a, W: Weight, V: Copy, M: Widens<W, V>> PathSystem<'a, W, V, M> {
    /// The distance of a state to the final states.
    fn distance(&self, state: u32) -> W::Wide
        requires { state < length self.now.machine.states }
        ensures same { W.wide_value result ≡ dist_in W.wide_value self.now.dist state }
        ensures range { Within most_distance (W.wide_value result) }
    {
        self.dist[state as usize]
    }

    /// The number of states.
    fn states(&self) -> u32
        ensures { result ≡ length self.now.machine.states }
    {
        self.fst.state_count()
    }

    /// The arc in a place of a state.
    fn arc(&self, state: u32, place: u32) -> FstArc<V>
        requires { place < length ((graph_of (valued M.value self.now.machine)).arcs state) }
        ensures arc { slice_get ((graph_of (valued M.value self.now.machine)).arcs state) place ≡ Some (valued_arc M.value result) }
        ensures next { result.next < length self.now.machine.states }
        ensures known { M.known result.weight }
    {
        let _states = self.fst.state_count();
        self.fst.arcs_at(state)[place as usize]
    }

    /// The final weight of a state.
    fn last(&self, state: u32) -> W::Wide
        requires { state < length self.now.machine.states }
        ensures same { W.wide_value result ≡ (graph_of (valued M.value self.now.machine)).final state }
        ensures range { Within most_weight (W.wide_value result) }
    {
        let _states = self.fst.state_count();
        M::widened(self.fst.final_at(state))
    }

    /// The weight of an arc with the distance of its end.
    fn along(&self, arc: &FstArc<V>) -> W::Wide
        requires next { arc.now.next < length self.now.machine.states }
        requires known { M.known arc.now.weight }
        ensures same { W.wide_value result ≡ times W.KIND (M.value arc.now.weight) (dist_in W.wide_value self.now.dist arc.now.next) }
        ensures range { Within (most_weight + most_distance) (W.wide_value result) }
    {
        W::wide_times(M::widened(arc.weight), self.distance(arc.next))
    }

    /// Puts what is ahead of stopping at a state, where it is final.
    fn put_stop(&self, turns: &mut Vec<Turn<W::Wide>>, state: u32) -> Result<(), AllocError>
        requires { state < length self.now.machine.states }
        ensures { OnOk result (HasTurn W.wide_value 0 (ahead_of W.KIND (path_words (graph_of (valued M.value self.now.machine)) (dist_in W.wide_value self.now.dist)) (dist_in W.wide_value self.now.dist) (count_in self.now.count) state 0) turns.old.items turns.new.items) }
    {
        let total = self.last(state);
        if is_zero_wide::<W>(total) {
            return Ok(());
        }
        turns.push(Turn {
            total,
            arcs: 0,
            turn: 0,
        })?;
        Ok(())
    }

    /// Puts what is ahead of an arc of a state, where paths go on behind it.
    fn put_step(
        &self,
        turns: &mut Vec<Turn<W::Wide>>,
        state: u32,
        place: u32,
    ) -> Result<(), AllocError>
        requires place { place < length ((graph_of (valued M.value self.now.machine)).arcs state) }
        requires few { place < 4294967295 }
        ensures { OnOk result (HasTurn W.wide_value (place + 1) (ahead_of W.KIND (path_words (graph_of (valued M.value self.now.machine)) (dist_in W.wide_value self.now.dist)) (dist_in W.wide_value self.now.dist) (count_in self.now.count) state (place + 1)) turns.old.items turns.new.items) }
    {
        let arc = self.arc(state, place);
        if is_zero_wide::<W>(self.distance(arc.next)) {
            return Ok(());
        }
        turns.push(Turn {
            total: self.along(&arc),
            arcs: self.count[arc.next as usize] as usize + 1,
            turn: place + 1,
        })?;
        Ok(())
    }

    /// Puts what is ahead of the arcs of a state, behind what is ahead of stopping there.
    fn put_steps(&self, turns: &mut Vec<Turn<W::Wide>>, state: u32) -> Result<(), AllocError>
        requires state { state < length self.now.machine.states }
        requires first { AreTurnsBelow W.KIND (path_words (graph_of (valued M.value self.now.machine)) (dist_in W.wide_value self.now.dist)) (dist_in W.wide_value self.now.dist) (count_in self.now.count) W.wide_value state 1 turns.old.items }
        ensures { OnOk result (AreTurnsBelow W.KIND (path_words (graph_of (valued M.value self.now.machine)) (dist_in W.wide_value self.now.dist)) (dist_in W.wide_value self.now.dist) (count_in self.now.count) W.wide_value state (1 + length ((graph_of (valued M.value self.now.machine)).arcs state)) turns.new.items) }
    {
        let _states = self.fst.state_count();
        let count = self.fst.arcs_at(state).len() as u32;
        for place in 0..count {
            self.put_step(turns, state, place)?;
        }
        Ok(())
    }
}

impl<'a, W: Weight, V: Copy, M: Widens<W, V>> System<W::Wide> for PathSystem<'a, W, V, M> {
    ghost use Rattle.std.specs.Prelude.{length};
    ghost use Rattle.fst_machine.specs.Machine.{valued};
    ghost use Rattle.fst_machine.specs.Graph.{graph_of};
    ghost use Rattle.fst_nbest.specs.PathWords.{path_words};
    ghost use Rattle.fst_nbest.specs.Ready.{IsBounded, count_in, dist_in};

    ghost kind = { W.KIND };

    ghost value = { W.wide_value };

    ghost words = { λ s. path_words (graph_of (valued M.value s.machine)) (dist_in W.wide_value s.dist) };

    ghost dist = { λ s. dist_in W.wide_value s.dist };

    ghost count = { λ s. count_in s.count };

    ghost size = { λ s. length s.machine.states };

    ghost bounded = { IsBounded W.wide_value W.KIND };

    fn name_count(&self) -> u32 {
        self.fst.state_count()
    }

    fn one(&self) -> W::Wide {
        W::one().widen()
    }

    fn compare(&self, a: W::Wide, b: W::Wide) -> Ordering {
        W::wide_compare(a, b)
    }

    fn moves(&self, alloc: Global, name: u32) -> Result<Vec<u32>, AllocError> {
        let mut turns = Vec::new(alloc);
        self.put_stop(&mut turns, name)?;
        self.put_steps(&mut turns, name)?;
        let moves = in_order::<W>(alloc, &turns)?;
        Ok(moves)
    }

    fn look_ahead(&self, front: W::Wide, name: u32, turn: u32) -> (W::Wide, usize) {
        if turn == 0 {
            return (W::wide_times(front, self.last(name)), 0);
        }
        let arc = self.arc(name, turn - 1);
        let ahead = self.count[arc.next as usize] as usize + 1;
        (W::wide_times(front, self.along(&arc)), ahead)
    }

    fn step(&self, front: W::Wide, name: u32, place: u32) -> (W::Wide, u32) {
        let arc = self.arc(name, place);
        (W::wide_times(front, M::widened(arc.weight)), arc.next)
    }

    fn whole(&self, name: u32) -> (W::Wide, usize) {
        (self.distance(name), self.count[name as usize] as usize)
    }
}
