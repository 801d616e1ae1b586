//! A worker of a batch.

ghost use Rattle.std.specs.Prelude.{◌≡◌, ◌++◌, ◌∷◌, [], ◌<◌, None, OnErr, OnOk, Some, length, slice_get};
ghost use Rattle.fst_delayed.specs.Caches.{AreApart, IsTrueOf};
ghost use Rattle.fst_delayed.specs.Graphs.{delayed_graph};
ghost use Rattle.fst_lattice.specs.Phases.{HasRun, IsReady};

use crate::gate::Gate;
use crate::job::Job;
use crate::lines::Lines;
use crate::serving::work;
use fst_claims::{Claims, Pass};
use fst_delayed::{Cache, Delayed, Meter};
use fst_semiring::Weight;
use std::alloc::{AllocError, Global};
use std::marker::Model;

/// A worker: its jobs, a cache of what it has expanded in a phase, and the part of a meter that counts that.
#[derive(Drop)]
pub struct Worker<W: Weight, M: Meter> {
    pub(crate) jobs: Vec<Job>,
    pub(crate) own: Cache<W>,
    pub(crate) meter: M,
    pub(crate) pass: Option<Pass>,
    pub(crate) served: bool,
}

impl<W: Weight, M: Meter> Model for Worker<W, M> {
    ghost use Rattle.fst_lattice.specs.Phases.{Laborer};

    ghost Value = { Laborer W.Wide M };

    ghost view = { λ w. record { jobs = w.jobs.items; own = w.own; meter = w.meter; pass = w.pass; served = w.served } };
}

impl<W: Weight, M: Meter> Worker<W, M> {
    /// A worker with this meter, without jobs. Takes no memory.
    pub fn new(alloc: Global, meter: M) -> Worker<W, M>
        ensures { (result.jobs ≡ []) × (result.own ≡ []) × (result.meter ≡ meter) × (result.pass ≡ None) }
    {
        Worker {
            jobs: Vec::new(alloc),
            own: Cache::new(alloc),
            meter,
            pass: None,
            served: true,
        }
    }

    /// Gives it one job more, behind the others. Where there is no memory, the worker is as before, and the job is dropped.
    pub fn add(&mut self, job: Job) -> Result<(), AllocError>
        ensures jobs { OnOk result (self.new.jobs ≡ self.old.jobs ++ job ∷ []) }
        ensures rest { (self.new.own ≡ self.old.own) × (self.new.meter ≡ self.old.meter) × (self.new.pass ≡ self.old.pass) }
        ensures err { OnErr result (self.new.jobs ≡ self.old.jobs) }
    {
        self.jobs.push(job)?;
        Ok(())
    }

    /// Takes its jobs away.
    pub(crate) fn clear(&mut self)
        ensures jobs { self.new.jobs ≡ [] }
        ensures rest { (self.new.own ≡ self.old.own) × (self.new.meter ≡ self.old.meter) × (self.new.pass ≡ self.old.pass) }
    {
        self.jobs.clear();
    }

    /// Its meter; the rest of it is dropped.
    pub(crate) fn into_meter(self) -> M
        ensures { result ≡ self.meter }
    {
        self.meter
    }

    /// The number of its jobs. Takes no memory.
    pub fn len(&self) -> usize
        ensures { result ≡ length self.now.jobs }
    {
        self.jobs.len()
    }

    /// One of its jobs, by its place from 0. Takes no memory.
    pub fn job(&self, index: usize) -> &Job
        requires { index < length self.now.jobs }
        ensures { slice_get self.now.jobs index ≡ Some result.now }
    {
        &self.jobs[index]
    }

    /// Its jobs. Takes no memory.
    pub(crate) fn jobs(&self) -> &[Job]
        ensures { result.now ≡ self.now.jobs }
    {
        self.jobs.as_slice()
    }

    /// Gives it a pass for a phase.
    pub(crate) fn hand(&mut self, pass: Pass)
        ensures { self.new ≡ record self.old { pass = Some pass } }
    {
        self.pass = Some(pass);
    }

    /// Whether it served all its jobs in the last phase.
    pub(crate) fn has_served(&self) -> bool
        ensures { result ≡ self.now.served }
    {
        self.served
    }

    /// Takes its pass back.
    pub(crate) fn give_back(&mut self) -> Option<Pass>
        ensures pass { result ≡ self.old.pass }
        ensures rest { self.new ≡ record self.old { pass = None } }
    {
        self.pass.take()
    }

    /// Moves what it has expanded behind the entries of a cache. Where there is no memory, all is as before.
    pub(crate) fn hand_over(&mut self, cache: &mut Cache<W>) -> Result<(), AllocError>
        requires apart { AreApart cache.old self.old.own }
        ensures added { OnOk result (cache.new ≡ cache.old ++ self.old.own) }
        ensures rest { OnOk result (self.new ≡ record self.old { own = [] }) }
    {
        cache.append(&mut self.own)?;
        Ok(())
    }

    /// Serves its jobs in a phase.
    pub(crate) fn run<G: Gate>(
        &mut self,
        alloc: Global,
        delayed: &Delayed<'_, W, M>,
        gate: &G,
        number: u32,
        claims: &Claims,
        lines: &Lines,
        cache: &Cache<W>,
    )
        requires entries { IsTrueOf W.wide_value (delayed_graph W.KIND W.value delayed.now) cache.now }
        requires ready { IsReady W.KIND W.value W.wide_value M.count M.parts_out M.is_part delayed.now lines.now cache.now claims.now self.old }
        ensures { HasRun W.KIND W.value W.wide_value M.count M.parts_out M.is_part delayed.now lines.now cache.now claims.now self.old self.new }
    {
        let Some(mut pass) = self.pass.take() else {
            return;
        };
        let jobs = self.jobs.as_mut_slice();
        let done = work(
            alloc,
            delayed,
            gate,
            number,
            claims,
            &mut pass,
            lines,
            cache,
            &mut self.own,
            &mut self.meter,
            jobs,
        );
        self.served = done.is_ok();
        self.pass = Some(pass);
    }
}
