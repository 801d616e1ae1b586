//! The paths of one total weight as a system of words.

ghost use Rattle.std.specs.Prelude.{◌≡◌, ◌<◌, ◌≤◌, ◌+◌, Some, IfSome, OnOk, length, slice_get};
ghost use Rattle.std.specs.Option.{option_map};
ghost use Rattle.fst_semiring.specs.declared.arc_type.ArcType.TheVariants as kinds;
ghost use Rattle.fst_machine.specs.Machine.{IsMachine, valued, valued_arc};
ghost use Rattle.fst_machine.specs.Graph.{graph_of};
ghost use Rattle.fst_nbest.specs.Classes.{class_words, fits, is_counted, is_reached, state_at, unit};
ghost use Rattle.fst_nbest.specs.Counts.{count_of};
ghost use Rattle.fst_nbest.specs.Turns.{AreTurnsBelow, HasTurn};
ghost use Rattle.fst_nbest.specs.Words.{ahead_of};

use crate::counting::UNCOUNTED;
use crate::naming::{is_fitting, is_reached_by, is_under, named, parted};
use crate::system::System;
use crate::turns::{Turn, in_order};
use fst_machine::FstArc;
use fst_search::Widens;
use fst_semiring::{Boolean, Weight};
use std::alloc::{AllocError, Global};
use std::cmp::Ordering;
use std::marker::{Model, PhantomData};

/// A machine with a total weight, and with the least number of arcs of a path of that total from each name.
pub(crate) struct ClassSystem<'a, W: Weight, V: Copy, M: Widens<W, V>> {
    pub(crate) fst: &'a M,
    pub(crate) total: W::Wide,
    pub(crate) counts: &'a Vec<u32>,
    pub(crate) weight: PhantomData<V>,
}

impl<'a, W: Weight, V: Copy, M: Widens<W, V>> Drop for ClassSystem<'a, W, V, M> {
    fn drop(self) {
        let ClassSystem {
            fst: _,
            total: _,
            counts: _,
            weight: _,
        } = self;
    }
}

impl<'a, W: Weight, V: Copy, M: Widens<W, V>> Model for ClassSystem<'a, W, V, M> {
    ghost use Rattle.fst_nbest.specs.Classes.{Counted, IsClassReady};

    ghost Value = { Counted V };

    ghost view = { λ s. record { machine = M.machine s.fst.now; total = W.wide_value s.total; counts = s.counts.now.items } };

    ghost invariant = { λ s. IsClassReady M.value M.known (M.machine s.fst.now) (W.wide_value s.total) s.counts.now.items };
}

impl<'a, W: Weight, V: Copy, M: Widens<W, V>> ClassSystem<'a, W, V, M> {
    /// The number of states, and with it what holds of the machine.
    fn states(&self) -> u32
        ensures count { result ≡ length self.now.machine.states }
        ensures few { result ≤ 4194304 }
        ensures good { IsMachine M.value self.now.machine }
    {
        self.fst.state_count()
    }

    /// The arc in a place of a state.
    fn arc(&self, state: u32, place: u32) -> FstArc<V>
        requires { place < length ((graph_of (valued M.value self.now.machine)).arcs state) }
        ensures arc { slice_get ((graph_of (valued M.value self.now.machine)).arcs state) place ≡ Some (valued_arc M.value result) }
        ensures next { result.next < length self.now.machine.states }
        ensures known { M.known result.weight }
    {
        let _states = self.fst.state_count();
        self.fst.arcs_at(state)[place as usize]
    }

    /// Whether a word may stop at a name.
    fn stops(&self, name: u32) -> bool
        requires { name < length self.now.machine.states + length self.now.machine.states }
        ensures { result ≡ fits self.now.total (is_reached (length self.now.machine.states) name) ((graph_of (valued M.value self.now.machine)).final (state_at (length self.now.machine.states) name)) }
    {
        let (state, reached) = parted(self.states(), name);
        let last = M::widened(self.fst.final_at(state));
        is_fitting::<W>(self.total, reached, last)
    }

    /// The name where an arc of a name leads, if its weight is no worse than the total and words go on there.
    fn next(&self, name: u32, place: u32) -> Option<u32>
        requires name { name < length self.now.machine.states + length self.now.machine.states }
        requires place { place < length ((graph_of (valued M.value self.now.machine)).arcs (state_at (length self.now.machine.states) name)) }
        ensures step { (class_words (graph_of (valued M.value self.now.machine)) (length self.now.machine.states) self.now.total (is_counted self.now.counts)).step name place ≡ option_map (λ y. (unit, y)) result }
        ensures low { IfSome result (λ y. y < length self.now.machine.states + length self.now.machine.states) }
    {
        let states = self.states();
        let (state, reached) = parted(states, name);
        let arc = self.arc(state, place);
        let weight = M::widened(arc.weight);
        if !is_under::<W>(self.total, weight) {
            return None;
        }
        let next = named(
            states,
            arc.next,
            is_reached_by::<W>(self.total, reached, weight),
        );
        if self.counts[next as usize] < UNCOUNTED {
            Some(next)
        } else {
            None
        }
    }

    /// Puts what is ahead of stopping at a name, where a word may stop.
    fn put_stop(&self, turns: &mut Vec<Turn<Boolean>>, name: u32) -> Result<(), AllocError>
        requires { name < length self.now.machine.states + length self.now.machine.states }
        ensures { OnOk result (HasTurn (λ t. t) 0 (ahead_of kinds.Boolean (class_words (graph_of (valued M.value self.now.machine)) (length self.now.machine.states) self.now.total (is_counted self.now.counts)) (λ x. unit) (count_of self.now.counts) name 0) turns.old.items turns.new.items) }
    {
        if !self.stops(name) {
            return Ok(());
        }
        turns.push(Turn {
            total: Boolean::one(),
            arcs: 0,
            turn: 0,
        })?;
        Ok(())
    }

    /// Puts what is ahead of an arc of a name, where words go on behind it.
    fn put_step(
        &self,
        turns: &mut Vec<Turn<Boolean>>,
        name: u32,
        place: u32,
    ) -> Result<(), AllocError>
        requires name { name < length self.now.machine.states + length self.now.machine.states }
        requires place { place < length ((graph_of (valued M.value self.now.machine)).arcs (state_at (length self.now.machine.states) name)) }
        requires few { place < 4294967295 }
        ensures { OnOk result (HasTurn (λ t. t) (place + 1) (ahead_of kinds.Boolean (class_words (graph_of (valued M.value self.now.machine)) (length self.now.machine.states) self.now.total (is_counted self.now.counts)) (λ x. unit) (count_of self.now.counts) name (place + 1)) turns.old.items turns.new.items) }
    {
        let Some(next) = self.next(name, place) else {
            return Ok(());
        };
        turns.push(Turn {
            total: Boolean::one(),
            arcs: self.counts[next as usize] as usize + 1,
            turn: place + 1,
        })?;
        Ok(())
    }

    /// Puts what is ahead of the arcs of a name, behind what is ahead of stopping there.
    fn put_steps(&self, turns: &mut Vec<Turn<Boolean>>, name: u32) -> Result<(), AllocError>
        requires name { name < length self.now.machine.states + length self.now.machine.states }
        requires first { AreTurnsBelow kinds.Boolean (class_words (graph_of (valued M.value self.now.machine)) (length self.now.machine.states) self.now.total (is_counted self.now.counts)) (λ x. unit) (count_of self.now.counts) (λ t. t) name 1 turns.old.items }
        ensures { OnOk result (AreTurnsBelow kinds.Boolean (class_words (graph_of (valued M.value self.now.machine)) (length self.now.machine.states) self.now.total (is_counted self.now.counts)) (λ x. unit) (count_of self.now.counts) (λ t. t) name (1 + length ((graph_of (valued M.value self.now.machine)).arcs (state_at (length self.now.machine.states) name))) turns.new.items) }
    {
        let (state, _) = parted(self.fst.state_count(), name);
        let count = self.fst.arcs_at(state).len() as u32;
        for place in 0..count {
            self.put_step(turns, name, place)?;
        }
        Ok(())
    }
}

impl<'a, W: Weight, V: Copy, M: Widens<W, V>> System<Boolean> for ClassSystem<'a, W, V, M> {
    ghost use Rattle.std.specs.Prelude.{◌≡◌, ◌+◌, length};
    ghost use Rattle.fst_semiring.specs.declared.arc_type.ArcType.TheVariants as kinds;
    ghost use Rattle.fst_machine.specs.Machine.{valued};
    ghost use Rattle.fst_machine.specs.Graph.{graph_of};
    ghost use Rattle.fst_nbest.specs.Classes.{class_words, is_counted, unit};
    ghost use Rattle.fst_nbest.specs.Counts.{count_of};

    ghost kind = { kinds.Boolean };

    ghost value = { λ t. t };

    ghost words = { λ s. class_words (graph_of (valued M.value s.machine)) (length s.machine.states) s.total (is_counted s.counts) };

    ghost dist = { λ s x. unit };

    ghost count = { λ s. count_of s.counts };

    ghost size = { λ s. length s.machine.states + length s.machine.states };

    ghost bounded = { λ k t. t ≡ unit };

    fn name_count(&self) -> u32 {
        let states = self.fst.state_count();
        states + states
    }

    fn one(&self) -> Boolean {
        Boolean::one()
    }

    fn compare(&self, a: Boolean, b: Boolean) -> Ordering {
        Boolean::wide_compare(a, b)
    }

    fn moves(&self, alloc: Global, name: u32) -> Result<Vec<u32>, AllocError> {
        let mut turns = Vec::new(alloc);
        self.put_stop(&mut turns, name)?;
        self.put_steps(&mut turns, name)?;
        let moves = in_order::<Boolean>(alloc, &turns)?;
        Ok(moves)
    }

    fn look_ahead(&self, front: Boolean, name: u32, turn: u32) -> (Boolean, usize) {
        if turn == 0 {
            return (front, 0);
        }
        match self.next(name, turn - 1) {
            Some(next) => (front, self.counts[next as usize] as usize + 1),
            None => (front, 0),
        }
    }

    fn step(&self, front: Boolean, name: u32, place: u32) -> (Boolean, u32) {
        match self.next(name, place) {
            Some(next) => (front, next),
            None => (front, name),
        }
    }

    fn whole(&self, name: u32) -> (Boolean, usize) {
        (Boolean::one(), self.counts[name as usize] as usize)
    }
}
