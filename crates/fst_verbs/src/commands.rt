//! What each command makes of what it is given: the table of `specs/Commands.antt` in code.

ghost use Rattle.std.specs.Prelude.{◌≡◌, ◌≤◌, IsSome, length, true};
ghost use Rattle.std.specs.Result.{result_map_both};
ghost use Rattle.fst_words.specs.Inputs.{expands, has_codex, machine_count};
ghost use Rattle.fst_words.specs.PlanLaws.{IsWhole};
ghost use Rattle.fst_verbs.specs.Commands.{meaning_for};
ghost use Rattle.fst_verbs.specs.Given.{read_limit};
ghost use Rattle.fst_verbs.specs.Meaning.{Settles};
ghost use Rattle.fst_verbs.specs.Metering.{IsFree, Raises, meter_seen};
ghost use Rattle.fst_verbs.specs.Seeing.{given_with, made_seen};

mod batching;
mod coding;
mod comparing;
mod composing;
mod describing;
mod determinizing;
mod intersecting;
mod listing;
mod making;
mod measuring;
mod minimizing;
mod named;
mod pruning;
mod pushing;
mod rational;
mod removing;
mod replacing;
mod subtracting;
mod texts;
mod trimming;
mod wide_weights;

use crate::given::Given;
use crate::outputs::Made;
use crate::queues::Queues;
use crate::refusal::Refusal;
use crate::tables::Tables;
use fst_delayed::Meter;
use fst_determinize::SubsetWeight;
use fst_words::{Plan, Verb};
use std::alloc::Global;
use std::thread::Threads;

/// What a command makes of what it is given, or why it makes nothing.
pub fn made<R: Threads + Sync, W: SubsetWeight + Send + Sync, M: Meter>(
    rt: &R,
    alloc: Global,
    plan: &Plan,
    given: Given<W>,
    tables: &Tables,
    queues: Queues,
    meter: &mut M,
) -> Result<Made<W>, Refusal>
where
    W::Wide: Send + Sync,
    requires whole { IsWhole plan.now }
    requires machines { length given.machines.items ≡ machine_count plan.now }
    requires codex { has_codex plan.now ≡ true → IsSome given.codex }
    requires lines { length given.lines.items ≤ read_limit }
    requires free { IsFree (meter_seen M.count M.parts_out M.is_part meter.old) }
    ensures settles { Settles (meaning_for plan.now) (given_with tables.now W.KIND W.value given) (result_map_both (made_seen W.KIND W.value) (λ e. e) result) }
    ensures meter { Raises (expands plan.now) (meter_seen M.count M.parts_out M.is_part meter.old) (meter_seen M.count M.parts_out M.is_part meter.new) (result_map_both (made_seen W.KIND W.value) (λ e. e) result) }
{
    match plan.command {
        Verb::Compile => texts::compiled(given),
        Verb::Print => texts::printed(alloc, &plan.options, given, tables),
        Verb::Info => describing::described(alloc, given),
        Verb::Invert => rational::inverted(alloc, given),
        Verb::Reverse => rational::reversed(alloc, given),
        Verb::Connect => trimming::connected(alloc, given),
        Verb::Union => rational::united(alloc, given),
        Verb::Concat => rational::concatenated(alloc, given),
        Verb::Closure => rational::closed(alloc, &plan.options, given),
        Verb::Project => rational::projected(alloc, &plan.options, given),
        Verb::Replace => replacing::replaced(alloc, plan, given),
        Verb::Relabel => rational::relabelled(alloc, given),
        Verb::Arcsort => trimming::sorted(alloc, &plan.options, given),
        Verb::Compose => composing::composed(alloc, &plan.options, given),
        Verb::Determinize => determinizing::determinized(alloc, &plan.options, given),
        Verb::Minimize => minimizing::minimized(alloc, &plan.options, given, queues),
        Verb::Prune => pruning::pruned(alloc, &plan.options, given, queues),
        Verb::Intersect => intersecting::intersected(alloc, &plan.options, given),
        Verb::Difference => subtracting::subtracted(alloc, &plan.options, given),
        Verb::Equivalent => comparing::compared(alloc, &plan.options, given),
        Verb::Encode => coding::coded(alloc, &plan.options, given),
        Verb::Rmepsilon => removing::removed(alloc, &plan.options, given, queues),
        Verb::Shortestdistance => measuring::measured(alloc, &plan.options, given, queues),
        Verb::Shortestpath => listing::listed(alloc, &plan.options, given),
        Verb::Push => pushing::pushed(alloc, &plan.options, given, queues),
        Verb::Batch => batching::answered(rt, alloc, &plan.options, given, meter),
        Verb::Make => making::drawn(rt, alloc, &plan.options, meter),
    }
}
