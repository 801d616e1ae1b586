//! `make`.

ghost use Rattle.std.specs.Prelude.{◌≡◌, ◌≤◌, ◌++◌, ◌+ℤ◌, IfOk, IfSome, OnOk, fold, length, pos, string_bytes, true};
ghost use Rattle.std.specs.Result.{result_map_both};
ghost use Rattle.fst_semiring.specs.Semiring.{IsSmall};
ghost use Rattle.fst_words.specs.PlanLaws.{HasNumbersInRange};
ghost use Rattle.fst_verbs.specs.Given.{Given};
ghost use Rattle.fst_verbs.specs.Making.{first_weight, first_weights, line_count, make_meaning, seed_of, size_line, total_text};
ghost use Rattle.fst_verbs.specs.Meaning.{Settles};
ghost use Rattle.fst_verbs.specs.Metering.{IsFree, Raises, meter_seen};
ghost use Rattle.fst_verbs.specs.Seeing.{made_seen};

use crate::commands::batching::asked;
use crate::commands::named::add_number;
use crate::outputs::Made;
use crate::refusal::Refusal;
use fst_batch::{BatchReport, Cascade, LineAnswer, OpenGate, make_cascade, run_batch};
use fst_delayed::{Delayed, Meter};
use fst_machine::Fst;
use fst_semiring::{Tropical, Weight};
use fst_words::Options;
use std::alloc::{AllocError, Global};
use std::thread::Threads;

/// The number that is drawn from: 1 without the option.
fn seed_of(options: &Options) -> u64
    ensures { result ≡ seed_of options.now }
{
    match options.seed {
        Some(seed) => seed,
        None => 1,
    }
}

/// How many lines are drawn: 1,000 without the option.
fn line_count(options: &Options) -> u32
    requires { HasNumbersInRange options.now }
    ensures same { result ≡ line_count options.now }
    ensures few { result ≤ 10000 }
{
    match options.lines {
        Some(lines) => lines as u32,
        None => 1_000,
    }
}

/// The weight of the first path that an answer lists.
fn first_weight(answer: &LineAnswer<Tropical>) -> Option<i128>
    ensures told { result ≡ first_weight answer.now }
    ensures small { IfSome result IsSmall }
{
    match answer {
        LineAnswer::Listed(answers) => {
            if answers.len() == 0 {
                return None;
            }
            Some(Tropical::key(answers.item(0).weight.widen()).first)
        }
        LineAnswer::Refused(_) => None,
    }
}

/// What is told of answers.
#[derive(Clone, Copy, Debug)]
struct Totals {
    /// How many list a path.
    answered: u64,
    /// The sum of the weights of their first paths.
    weights: i128,
}

/// What is told of these answers.
fn totals_of(answers: &[LineAnswer<Tropical>]) -> Totals
    requires { length answers.now ≤ 10000 }
    ensures answered { result.answered ≡ length (first_weights answers.now) }
    ensures weights { result.weights ≡ fold ◌+ℤ◌ (pos 0) (first_weights answers.now) }
{
    let mut answered = 0;
    let mut weights = 0;
    for place in 0..answers.len() {
        if let Some(weight) = first_weight(&answers[place]) {
            answered += 1;
            weights += weight;
        }
    }
    Totals { answered, weights }
}

/// Appends the line of a machine.
fn add_size(text: &mut String, name: &str, machine: &Fst<Tropical>) -> Result<(), AllocError>
    ensures { OnOk result (string_bytes text.new ≡ string_bytes text.old ++ size_line name.now machine.now) }
{
    let states = machine.states();
    let arcs = machine.arc_count();
    writeln!(text, "{name}\t{states}\t{arcs}")
}

/// The text of the totals.
fn text_of(
    alloc: Global,
    cascade: &Cascade,
    report: &BatchReport<LineAnswer<Tropical>, Tropical>,
) -> Result<Vec<u8>, AllocError>
    requires { length report.now.answers.items ≤ 10000 }
    ensures { IfOk result (λ text. text.items ≡ total_text cascade.now.first cascade.now.second cascade.now.lines report.now.answers.items report.now.expansions) }
{
    let totals = totals_of(report.answers.as_slice());
    let mut text = String::new(alloc);
    add_size(&mut text, "first", &cascade.first)?;
    add_size(&mut text, "second", &cascade.second)?;
    add_number(&mut text, "lines", cascade.lines.count())?;
    add_number(&mut text, "answered", totals.answered)?;
    add_number(&mut text, "weights", totals.weights)?;
    add_number(&mut text, "expansions", report.expansions)?;
    Ok(text.into_bytes())
}

/// `make`. The weights that it draws are tropical, whatever those of the result would be: the result is a text.
pub(crate) fn drawn<R: Threads + Sync, W: Weight, M: Meter>(
    rt: &R,
    alloc: Global,
    options: &Options,
    meter: &mut M,
) -> Result<Made<W>, Refusal>
    requires numbers { HasNumbersInRange options.now }
    requires free { IsFree (meter_seen M.count M.parts_out M.is_part meter.old) }
    ensures settles { (given : Given) → Settles (make_meaning options.now) given (result_map_both (made_seen W.KIND W.value) (λ e. e) result) }
    ensures meter { Raises true (meter_seen M.count M.parts_out M.is_part meter.old) (meter_seen M.count M.parts_out M.is_part meter.new) (result_map_both (made_seen W.KIND W.value) (λ e. e) result) }
{
    let cascade = make_cascade(alloc, seed_of(options), line_count(options))?;
    let Ok(delayed) = Delayed::<Tropical, M>::new(&cascade.first, &cascade.second) else {
        unreachable!();
    };
    let report = run_batch(
        rt,
        alloc,
        &delayed,
        &cascade.lines,
        asked(options),
        &OpenGate,
        meter,
    )?;
    let text = text_of(alloc, &cascade, &report)?;
    Ok(Made::Answered(text, report.expansions))
}
