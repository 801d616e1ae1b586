//! What is answered of lines whose walks are over.

ghost use Rattle.std.specs.Prelude.{◌≡◌, ◌++◌, ◌<◌, ℕ, All, List, IfOk, IfSome, MatchOption, OnOk, length, map};
ghost use Rattle.std.specs.List.{AllZip};
ghost use Rattle.fst_delayed.specs.Caches.{IsTrueOf, keys};
ghost use Rattle.fst_delayed.specs.Graphs.{delayed_graph};
ghost use Rattle.fst_machine.specs.Machine.{Machine};
ghost use Rattle.fst_lattice.specs.Runs.{AreAnswerable, AreWalked, IsAnswerAt, all_lines, job_lines};
ghost use Rattle.fst_lattice.specs.Walks.{IsJob, IsOver};
ghost use Rattle.fst_lattice.specs.Phases.{AreEach};

use crate::job::Job;
use crate::lines::Lines;
use crate::threads::threads_for;
use crate::worker::Worker;
use fst_delayed::{Cache, Delayed, Meter};
use fst_semiring::Weight;
use std::alloc::{AllocError, Global};
use std::thread::{Threads, for_each_mut};

/// What is answered of a line whose walk is over.
pub trait Answering<W: Weight, M: Meter>: Sync {
    /// An answer.
    type Answer: Send + Drop;

    /// The limit of the walks.
    ghost limit: { Self → ℕ };

    /// What is an answer of a line over two machines.
    ghost answers: { Self → Machine W × Machine W → List ℕ → Self.Answer → Type 0 };

    /// The answer of a line.
    fn answer(
        &self,
        alloc: Global,
        delayed: &Delayed<'_, W, M>,
        line: &[u8],
        cache: &Cache<W>,
        job: &Job,
    ) -> Result<Self::Answer, AllocError>
        requires entries { IsTrueOf W.wide_value (delayed_graph W.KIND W.value delayed.now) cache.now }
        requires job { IsJob W.KIND W.value delayed.now line.now (keys cache.now) job.now }
        requires limit { job.now.limit ≡ limit self.now }
        requires over { IsOver job.now }
        ensures { IfOk result (answers self.now delayed.now line.now) };
}

/// The answers of the lines of jobs, in order.
fn answer_jobs<W: Weight, M: Meter, A: Answering<W, M>>(
    alloc: Global,
    delayed: &Delayed<'_, W, M>,
    lines: &Lines,
    cache: &Cache<W>,
    answering: &A,
    jobs: &[Job],
) -> Result<Vec<A::Answer>, AllocError>
    requires entries { IsTrueOf W.wide_value (delayed_graph W.KIND W.value delayed.now) cache.now }
    requires walked { AreWalked W.KIND W.value W.wide_value delayed.now lines.now (A.limit answering.now) cache.now jobs.now }
    ensures { IfOk result (λ answers. AllZip (IsAnswerAt (A.answers answering.now delayed.now) lines.now) (job_lines jobs.now) answers.items) }
{
    let mut answers = Vec::with_capacity(alloc, jobs.len())?;
    for job in jobs {
        let line = lines.line(job.index());
        let answer = answering.answer(alloc, delayed, line, cache, job)?;
        answers.push(answer)?;
    }
    Ok(answers)
}

/// Some jobs, and the answers of their lines, once they were made.
#[derive(Drop)]
struct Share<'a, X: Drop> {
    jobs: &'a [Job],
    answers: Option<Vec<X>>,
}

/// The jobs of workers, worker by worker, without answers.
fn shares_of<'a, W: Weight, M: Meter, X: Drop>(
    alloc: Global,
    workers: &'a [Worker<W, M>],
) -> Result<Vec<Share<'a, X>>, AllocError>
    ensures { IfOk result (λ shares. map (λ s. s.jobs.now) shares.items ≡ map (λ w. w.jobs) workers.now) }
{
    let mut shares = Vec::with_capacity(alloc, workers.len())?;
    for number in 0..workers.len() {
        let worker = &workers[number];
        shares.push(Share {
            jobs: worker.jobs(),
            answers: None,
        })?;
    }
    Ok(shares)
}

/// What is read to answer lines.
#[derive(Drop)]
struct LineReader<'a, 'm, W: Weight, M: Meter, A> {
    delayed: &'a Delayed<'m, W, M>,
    lines: &'a Lines,
    cache: &'a Cache<W>,
    answering: &'a A,
}

/// The answers of the lines of jobs, in order.
fn read_jobs<W: Weight, M: Meter, A: Answering<W, M>>(
    alloc: Global,
    reader: &LineReader<'_, '_, W, M, A>,
    jobs: &[Job],
) -> Result<Vec<A::Answer>, AllocError>
    requires entries { IsTrueOf W.wide_value (delayed_graph W.KIND W.value reader.now.delayed.now) reader.now.cache.now }
    requires walked { AreWalked W.KIND W.value W.wide_value reader.now.delayed.now reader.now.lines.now (A.limit reader.now.answering.now) reader.now.cache.now jobs.now }
    ensures { IfOk result (λ answers. AllZip (IsAnswerAt (A.answers reader.now.answering.now reader.now.delayed.now) reader.now.lines.now) (job_lines jobs.now) answers.items) }
{
    answer_jobs(
        alloc,
        reader.delayed,
        reader.lines,
        reader.cache,
        reader.answering,
        jobs,
    )
}

/// Answers the lines of each share of jobs, beside those of the others.
fn answer_shares<R: Threads + Sync, W: Weight + Send + Sync, M: Meter, A: Answering<W, M>>(
    rt: &R,
    alloc: Global,
    reader: &LineReader<'_, '_, W, M, A>,
    shares: &mut [Share<'_, A::Answer>],
)
where
    W::Wide: Send + Sync,
    requires some { 0 < length shares.old }
    requires entries { IsTrueOf W.wide_value (delayed_graph W.KIND W.value reader.now.delayed.now) reader.now.cache.now }
    requires walked { All (λ share. AreWalked W.KIND W.value W.wide_value reader.now.delayed.now reader.now.lines.now (A.limit reader.now.answering.now) reader.now.cache.now share.jobs.now) shares.old }
    ensures { AreEach (λ share now. IfSome now.answers (λ answers. AllZip (IsAnswerAt (A.answers reader.now.answering.now reader.now.delayed.now) reader.now.lines.now) (job_lines share.jobs.now) answers.items)) shares.old shares.new }
{
    let threads = threads_for(rt, shares.len());
    for_each_mut(
        rt,
        shares,
        threads,
        &|_number: usize, share: &mut Share<A::Answer>|
            requires entries { IsTrueOf W.wide_value (delayed_graph W.KIND W.value reader.now.delayed.now) reader.now.cache.now }
            requires walked { AreWalked W.KIND W.value W.wide_value reader.now.delayed.now reader.now.lines.now (A.limit reader.now.answering.now) reader.now.cache.now share.now.jobs.now }
            ensures answers { IfSome share.exit.now.answers (λ answers. AllZip (IsAnswerAt (A.answers reader.entry.now.answering.now reader.entry.now.delayed.now) reader.entry.now.lines.now) (job_lines share.entry.now.jobs.now) answers.items) }
        {
            share.answers = read_jobs(alloc, reader, share.jobs).ok();
        },
    );
}

/// Puts the answers of a share after the others.
fn put_share<X: Drop>(share: Share<'_, X>, answers: &mut Vec<X>) -> Result<(), AllocError>
    ensures { OnOk result (MatchOption share.entry.answers ⊥ (λ more. answers.new.items ≡ answers.old.items ++ more.items)) }
{
    let Some(mut more) = share.answers else {
        return Err(AllocError);
    };
    answers.append(&mut more)?;
    Ok(())
}

/// Puts the answers of the lines of all workers' jobs after the others, worker by worker. Each worker's are made beside those
/// of the others.
pub(crate) fn answer_all<R: Threads + Sync, W: Weight + Send + Sync, M: Meter, A: Answering<W, M>>(
    rt: &R,
    alloc: Global,
    delayed: &Delayed<'_, W, M>,
    lines: &Lines,
    cache: &Cache<W>,
    answering: &A,
    workers: &[Worker<W, M>],
    answers: &mut Vec<A::Answer>,
) -> Result<(), AllocError>
where
    W::Wide: Send + Sync,
    requires some { 0 < length workers.now }
    requires ready { AreAnswerable W.KIND W.value W.wide_value delayed.now lines.now (A.limit answering.now) cache.now workers.now }
    ensures { OnOk result ((more : List A.Answer) × (answers.new.items ≡ answers.old.items ++ more) × AllZip (IsAnswerAt (A.answers answering.now delayed.now) lines.now) (all_lines workers.now) more) }
{
    let mut shares = shares_of(alloc, workers)?;
    let reader = LineReader {
        delayed,
        lines,
        cache,
        answering,
    };
    answer_shares(rt, alloc, &reader, shares.as_mut_slice());
    for share in shares {
        put_share(share, answers)?;
    }
    Ok(())
}
