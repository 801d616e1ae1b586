//! `batch`.

ghost use Rattle.std.specs.Prelude.{◌≡◌, ◌+◌, ◌++◌, ◌<◌, ◌≤◌, IfOk, OnOk, length, map, true};
ghost use Rattle.std.specs.Result.{result_map_both};
ghost use Rattle.fst_machine.specs.Machine.{most_states};
ghost use Rattle.fst_words.specs.PlanLaws.{HasNumbersInRange};
ghost use Rattle.fst_verbs.specs.Batching.{batch_meaning, batch_text, lines_from, summary_line, valued_answer};
ghost use Rattle.fst_verbs.specs.Composing.{state_limit};
ghost use Rattle.fst_verbs.specs.Given.{read_limit};
ghost use Rattle.fst_verbs.specs.Listing.{path_count};
ghost use Rattle.fst_verbs.specs.Meaning.{Settles};
ghost use Rattle.fst_verbs.specs.Metering.{IsFree, Raises, meter_seen};
ghost use Rattle.fst_verbs.specs.Seeing.{given_seen, made_seen};

use crate::commands::composing::{limit_of, uncomposed};
use crate::commands::listing::count_of;
use crate::given::Given;
use crate::outputs::Made;
use crate::refusal::Refusal;
use fst_batch::{
    BatchOptions, BatchReport, LineAnswer, Lines, OpenGate, put_answer_lines, put_number, run_batch,
};
use fst_compose::ComposeFault;
use fst_delayed::{Delayed, Meter};
use fst_semiring::Weight;
use fst_words::Options;
use std::alloc::{AllocError, Global};
use std::thread::Threads;

/// How many workers answer lines: one without the option.
fn workers_of(options: &Options) -> u32
    requires { HasNumbersInRange options.now }
    ensures { (0 < result) × (result ≤ 64) }
{
    match options.workers {
        Some(workers) => workers as u32,
        None => 1,
    }
}

/// What is asked of the batch.
pub(crate) fn asked(options: &Options) -> BatchOptions
    requires { HasNumbersInRange options.now }
    ensures paths { (result.nshortest ≡ path_count options.now) × (1 ≤ result.nshortest) × (result.nshortest ≤ 100000) }
    ensures workers { (0 < result.workers) × (result.workers ≤ 64) }
    ensures limit { (result.max_states ≡ state_limit options.now) × (0 < result.max_states) × (result.max_states ≤ most_states) }
{
    BatchOptions {
        nshortest: count_of(options),
        workers: workers_of(options),
        max_states: limit_of(options),
    }
}

/// Appends the lines of all answers, in order.
fn put_answers<W: Weight>(out: &mut Vec<u8>, answers: &[LineAnswer<W>]) -> Result<(), AllocError>
    ensures { OnOk result (out.new.items ≡ out.old.items ++ lines_from W.KIND 1 (map (valued_answer W.value) answers.now)) }
{
    for place in 0..answers.len() {
        put_answer_lines(out, place as u64 + 1, &answers[place])?;
    }
    Ok(())
}

/// Appends the last line: how many lines there were, and how many states they needed.
fn put_summary(out: &mut Vec<u8>, lines: u64, expansions: u64) -> Result<(), AllocError>
    ensures { OnOk result (out.new.items ≡ out.old.items ++ summary_line lines expansions) }
{
    out.extend_from_slice(b"#\t")?;
    put_number(out, lines)?;
    out.push(b'\t')?;
    put_number(out, expansions)?;
    out.push(b'\n')?;
    Ok(())
}

/// The text of the answers of a batch.
fn batch_text<W: Weight>(
    alloc: Global,
    options: &Options,
    lines: &Lines,
    report: &BatchReport<LineAnswer<W>, W>,
) -> Result<Vec<u8>, AllocError>
    ensures { IfOk result (λ text. text.items ≡ batch_text W.KIND options.now lines.now (map (valued_answer W.value) report.now.answers.items) report.now.expansions) }
{
    let mut out = Vec::new(alloc);
    put_answers(&mut out, report.answers.as_slice())?;
    if options.summary {
        put_summary(&mut out, lines.count(), report.expansions)?;
    }
    Ok(out)
}

/// `batch`.
pub(crate) fn answered<R: Threads + Sync, W: Weight + Send + Sync, M: Meter>(
    rt: &R,
    alloc: Global,
    options: &Options,
    given: Given<W>,
    meter: &mut M,
) -> Result<Made<W>, Refusal>
where
    W::Wide: Send + Sync,
    requires two { length given.machines.items ≡ 2 }
    requires numbers { HasNumbersInRange options.now }
    requires lines { length given.lines.items ≤ read_limit }
    requires free { IsFree (meter_seen M.count M.parts_out M.is_part meter.old) }
    ensures settles { Settles (batch_meaning options.now) (given_seen W.KIND W.value given) (result_map_both (made_seen W.KIND W.value) (λ e. e) result) }
    ensures meter { Raises true (meter_seen M.count M.parts_out M.is_part meter.old) (meter_seen M.count M.parts_out M.is_part meter.new) (result_map_both (made_seen W.KIND W.value) (λ e. e) result) }
{
    let lines = Lines::read(alloc, given.lines.as_slice())?;
    let (first, second) = given.two();
    let Ok(delayed) = Delayed::<W, M>::new(&first, &second) else {
        return Err(uncomposed(alloc, ComposeFault::NotSorted));
    };
    let report = run_batch(
        rt,
        alloc,
        &delayed,
        &lines,
        asked(options),
        &OpenGate,
        meter,
    )?;
    let text = batch_text(alloc, options, &lines, &report)?;
    Ok(Made::Answered(text, report.expansions))
}
