//! Batches of several workers: they expand the same names, whatever their number, and do so beside each other.

ghost use Rattle.std.specs.Prelude.{◌≡◌, ◌<◌, ◌≤◌, length};

use fst_delayed::{Cache, CountMeter, Delayed};
use fst_lattice::{Answering, Gate, Job, Lines, OpenGate, make_cascade, run_lines};
use fst_semiring::Tropical;
use std::alloc::{AllocError, Global};
use std::process::Abort;
use std::sync::atomic::AtomicU64;
use std::sync::atomic::Ordering::SeqCst;
use std::test::Fail;
use std::thread::Threads;

/// Answers the length of each line.
#[derive(Drop)]
struct Lengths {
    limit: u32,
}

impl Answering<Tropical, CountMeter> for Lengths {
    type Answer = u64;

    ghost limit = { λ a. a.limit };

    ghost answers = { λ a d line n. n ≡ length line };

    fn answer(
        &self,
        _alloc: Global,
        _delayed: &Delayed<'_, Tropical, CountMeter>,
        line: &[u8],
        _cache: &Cache<Tropical>,
        _job: &Job,
    ) -> Result<u64, AllocError> {
        Ok(line.len() as u64)
    }
}

/// Lets the worker that expands first go on, and holds each other one until another has come, for at most 10,000,000 turns.
#[derive(Drop)]
struct Meeting {
    first: AtomicU64,
    came: AtomicU64,
    met: AtomicU64,
}

impl Meeting {
    /// A gate to which no worker has come.
    fn new() -> Meeting {
        Meeting {
            first: AtomicU64::new(0),
            came: AtomicU64::new(0),
            met: AtomicU64::new(0),
        }
    }

    /// Waits for another worker; whether one has come.
    fn wait(&self, bit: u64) -> bool {
        for _turn in 0..10_000_000u32 {
            if self.came.fetch_or(bit, SeqCst) & !bit != 0 {
                return true;
            }
        }
        false
    }
}

impl Gate for Meeting {
    fn before_expand(&self, worker: u32) {
        let bit = 1u64 << (worker % 64);
        let first = match self.first.compare_exchange(0, bit, SeqCst, SeqCst) {
            Ok(_) => bit,
            Err(first) => first,
        };
        if first != bit && self.wait(bit) {
            self.met.fetch_or(bit, SeqCst);
        }
    }

    fn after_expand(&self, _worker: u32) {}
}

/// All three lines begin with the start, which one worker wins. In the next phase the other two have different names next,
/// so each of them is held until the other has come. The
/// lines need six names, of which `a` and `c` share one beside the start.
#[test]
fn two_workers_meet(rt: HostRuntime) -> Result<(), Fail> {
    let cascade = make_cascade(rt.alloc(), 1, 0)?;
    let lines = Lines::read(rt.alloc(), b"a\nb\nc\n")?;
    let answering = Lengths { limit: 1000 };
    let gate = Meeting::new();
    let mut meter = CountMeter::new();
    let Ok(delayed) = Delayed::new(&cascade.first, &cascade.second) else {
        panic!(rt; "the arcs of the second machine are not sorted")
    };
    let report = run_lines(
        &rt,
        rt.alloc(),
        &delayed,
        &lines,
        &answering,
        3,
        1000,
        &gate,
        &mut meter,
    )?;
    assert!(rt; gate.met.load(SeqCst).count_ones() == 2);
    assert!(rt; report.expansions == 6 && meter.count() == 6);
    Ok(())
}

/// The number of expansions of the lines of a cascade by so many workers.
fn expansions<R: Threads + Sync + Abort>(rt: &R, alloc: Global, workers: u32) -> Result<u64, Fail>
    requires { (0 < workers) × (workers ≤ 64) }
{
    let cascade = make_cascade(alloc, 1, 12)?;
    assert!(rt; cascade.lines.count() == 12);
    let answering = Lengths { limit: 300 };
    let mut meter = CountMeter::new();
    let Ok(delayed) = Delayed::new(&cascade.first, &cascade.second) else {
        panic!(rt; "the arcs of the second machine are not sorted")
    };
    let report = run_lines(
        rt,
        alloc,
        &delayed,
        &cascade.lines,
        &answering,
        workers,
        300,
        &OpenGate,
        &mut meter,
    )?;
    assert!(rt; report.answers.len() == 12 && report.cache.len() as u64 == report.expansions);
    assert!(rt; meter.count() == report.expansions);
    Ok(report.expansions)
}

#[test]
fn each_name_is_expanded_once(rt: HostRuntime) -> Result<(), Fail> {
    let one = expansions(&rt, rt.alloc(), 1)?;
    let three = expansions(&rt, rt.alloc(), 3)?;
    let many = expansions(&rt, rt.alloc(), 64)?;
    assert!(rt; one == 956 && three == 956 && many == 956);
    Ok(())
}

/// More lines than are open at once, each answered by its own length.
#[test]
fn answers_stand_in_line_order(rt: HostRuntime) -> Result<(), Fail> {
    let cascade = make_cascade(rt.alloc(), 1, 0)?;
    let mut lines = Lines::new(rt.alloc());
    for index in 0..300usize {
        lines.push(rt.alloc(), &b"abc"[..index % 3])?;
    }
    assert!(rt; lines.count() == 300);
    let answering = Lengths { limit: 1000 };
    let mut meter = CountMeter::new();
    let Ok(delayed) = Delayed::new(&cascade.first, &cascade.second) else {
        panic!(rt; "the arcs of the second machine are not sorted")
    };
    let report = run_lines(
        &rt,
        rt.alloc(),
        &delayed,
        &lines,
        &answering,
        3,
        1000,
        &OpenGate,
        &mut meter,
    )?;
    assert!(rt; report.answers.len() == 300);
    for index in 0..300usize {
        assert!(rt; report.answers[index] == (index % 3) as u64);
    }
    Ok(())
}
