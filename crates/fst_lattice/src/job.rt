//! The walk of a line.

ghost use Rattle.std.specs.Prelude.{◌≡◌, true, false, ◌+◌, ◌<◌, ◌≤◌, ◌++◌, [], ℕ, List, IfOk, IfSome, MatchOption, OnOk, Some, length, map, slice_get};
ghost use Rattle.std.specs.Bool.{Decides};
ghost use Rattle.fst_machine.specs.BreadthFirst.{Has};
ghost use Rattle.fst_machine.specs.Machine.{most_states};
ghost use Rattle.fst_delayed.specs.Ascending.{Ascends};
ghost use Rattle.fst_delayed.specs.Caches.{IsTrueOf, keys};
ghost use Rattle.fst_delayed.specs.Graphs.{delayed_graph};
ghost use Rattle.fst_delayed.specs.Handed.{Name};
ghost use Rattle.fst_lattice.specs.Lattice.{HasNoZero, Point};
ghost use Rattle.fst_lattice.specs.Walks.{IsJob, IsOver, IsState};

use crate::following::follow;
use crate::points::Points;
use crate::stage::Stage;
use crate::state::JobState;
use fst_delayed::{Cache, ComposeKey, Delayed, KeyArc, Meter};
use fst_semiring::Weight;
use std::alloc::{AllocError, Global};
use std::marker::Model;

/// Whether a line holds no byte 0.
fn has_no_zero(line: &[u8]) -> bool
    ensures { Decides result (HasNoZero line.now) }
{
    for b in line {
        if *b == 0 {
            return false;
        }
    }
    true
}

/// The arcs of a name that one of two caches has, and whether they are known to ascend by their input labels.
fn held<'a, W: Weight>(
    cache: &'a Cache<W>,
    own: &'a Cache<W>,
    key: ComposeKey,
) -> Option<(&'a [KeyArc<W>], bool)>
    ensures arcs { MatchOption result (Has (keys cache.now ++ keys own.now) key → ⊥) (λ held. Has (cache.now ++ own.now) (key, held.0.now)) }
    ensures ascends { IfSome result (λ held. held.1 ≡ true → Ascends held.0.now) }
{
    match cache.find(key) {
        Some(found) => Some(found),
        None => own.find(key),
    }
}

/// The walk of the lattice of one line. It takes the names of the lattice as a breadth-first walk meets them, and looks at
/// the arcs of each; where these arcs are not there yet, it waits before that name. It is over when all names are taken,
/// or right after the name whose arcs lead to more names than the limit. A line that holds a byte 0 has nothing to walk.
#[derive(Drop)]
pub struct Job {
    index: u64,
    limit: u32,
    stage: Stage,
    points: Points,
    taken: usize,
}

impl Model for Job {
    ghost use Rattle.fst_lattice.specs.Walks.{LineWalk};

    ghost Value = { LineWalk };

    ghost view = { λ j. record { index = j.index; limit = j.limit; stage = j.stage; points = j.points; taken = j.taken } };
}

impl Job {
    /// The walk of the line with this number, which has taken no name yet.
    pub fn new<W: Weight, M: Meter>(
        alloc: Global,
        index: u64,
        line: &[u8],
        delayed: &Delayed<'_, W, M>,
        max_states: u32,
    ) -> Result<Job, AllocError>
        requires some { 0 < max_states }
        requires few { max_states ≤ most_states }
        ensures job { IfOk result (IsJob W.KIND W.value delayed.now line.now []) }
        ensures new { IfOk result (λ job. (job.index ≡ index) × (job.limit ≡ max_states) × (job.taken ≡ 0)) }
    {
        let mut job = Job {
            index,
            limit: max_states,
            stage: Stage::Going,
            points: Points::new(alloc),
            taken: 0,
        };
        if !has_no_zero(line) {
            job.stage = Stage::Bad;
            return Ok(job);
        }
        let Some(start) = delayed.start_key() else {
            return Ok(job);
        };
        let _found = job.points.find(0, start, max_states)?;
        Ok(job)
    }

    /// The number of its line. Takes no memory.
    pub fn index(&self) -> u64
        ensures { result ≡ self.now.index }
    {
        self.index
    }

    /// How far it has come. Takes no memory.
    pub fn stage(&self) -> Stage
        ensures { result ≡ self.now.stage }
    {
        self.stage
    }

    /// The greatest number of names that its lattice may have. Takes no memory.
    pub fn limit(&self) -> u32
        ensures { result ≡ self.now.limit }
    {
        self.limit
    }

    /// The names that it has found. Takes no memory.
    pub fn points(&self) -> &Points
        ensures { result.now ≡ self.now.points }
    {
        &self.points
    }

    /// Whether its walk is over. Takes no memory.
    pub fn is_over(&self) -> bool
        ensures over { result ≡ true → IsOver self.now }
        ensures left { result ≡ false → (self.now.stage ≡ Stage.Going) × (self.now.taken < length self.now.points) }
    {
        !self.is_left()
    }

    /// Whether a name is left to take.
    fn is_left(&self) -> bool
        ensures { Decides result ((self.now.stage ≡ Stage.Going) × (self.now.taken < length self.now.points)) }
    {
        match self.stage {
            Stage::Going => self.taken < self.points.len(),
            _ => false,
        }
    }

    /// Takes the name at its head, if one of two caches has its arcs; else gives its name in the composition.
    fn step<W: Weight, M: Meter>(
        &mut self,
        line: &[u8],
        delayed: &Delayed<'_, W, M>,
        cache: &Cache<W>,
        own: &Cache<W>,
    ) -> Result<Option<ComposeKey>, AllocError>
        requires left { (self.old.stage ≡ Stage.Going) × (self.old.taken < length self.old.points) }
        requires job { IsJob W.KIND W.value delayed.now line.now (keys cache.now ++ keys own.now) self.old }
        requires entries { IsTrueOf W.wide_value (delayed_graph W.KIND W.value delayed.now) (cache.now ++ own.now) }
        ensures job { OnOk result (IsJob W.KIND W.value delayed.now line.now (keys cache.now ++ keys own.now) self.new) }
        ensures same { (self.new.index ≡ self.old.index) × (self.new.limit ≡ self.old.limit) }
        ensures taken { OnOk result (self.old.taken ≤ self.new.taken) }
        ensures front { OnOk result ((more : List (Point (Name ℕ ℕ))) × (self.new.points ≡ self.old.points ++ more)) }
        ensures next { IfOk result (λ next. MatchOption next (self.new.taken ≡ self.old.taken + 1) (λ name. IsState self.new (keys cache.now ++ keys own.now) (JobState.Needs name))) }
    {
        // With the start it is known that both are machines.
        let _start = delayed.start_key();
        let (position, name) = self.points.item(self.taken);
        let Some((arcs, ascends)) = held(cache, own, name) else {
            return Ok(Some(name));
        };
        let fits = follow(&mut self.points, arcs, ascends, line, position, self.limit)?;
        if !fits {
            self.stage = Stage::Stopped;
            self.taken += 1;
            return Ok(None);
        }
        self.taken += 1;
        Ok(None)
    }

    /// Takes names as long as their arcs are in one of two caches. `Needs` exactly where the next name's arcs are in
    /// neither; `Walked` exactly where the walk is over. Each name that was taken has an entry in one of the caches. Where
    /// memory runs out, the job can do no more.
    pub fn advance<W: Weight, M: Meter>(
        &mut self,
        line: &[u8],
        delayed: &Delayed<'_, W, M>,
        cache: &Cache<W>,
        own: &Cache<W>,
    ) -> Result<JobState, AllocError>
        requires job { IsJob W.KIND W.value delayed.now line.now (keys cache.now ++ keys own.now) self.old }
        requires entries { IsTrueOf W.wide_value (delayed_graph W.KIND W.value delayed.now) (cache.now ++ own.now) }
        ensures job { OnOk result (IsJob W.KIND W.value delayed.now line.now (keys cache.now ++ keys own.now) self.new) }
        ensures same { (self.new.index ≡ self.old.index) × (self.new.limit ≡ self.old.limit) }
        ensures taken { OnOk result (self.old.taken ≤ self.new.taken) }
        ensures front { OnOk result ((more : List (Point (Name ℕ ℕ))) × (self.new.points ≡ self.old.points ++ more)) }
        ensures state { IfOk result (IsState self.new (keys cache.now ++ keys own.now)) }
    {
        while self.is_left() {
            if let Some(name) = self.step(line, delayed, cache, own)? {
                return Ok(JobState::Needs(name));
            }
        }
        Ok(JobState::Walked)
    }
}
