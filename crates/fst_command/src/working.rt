//! The one choice of a type of weights, and the work that is done with it.

ghost use Rattle.std.specs.Prelude.{◌≡◌, ◌≤◌, IsSome, Ok, length, map, true};
ghost use Rattle.std.specs.Result.{result_map_both};
ghost use Rattle.fst_any.specs.Typed.{typed};
ghost use Rattle.fst_words.specs.Inputs.{has_codex, machine_count};
ghost use Rattle.fst_words.specs.PlanLaws.{IsWhole};
ghost use Rattle.fst_verbs.specs.Given.{Held as HeldSeen, given_at, kind_of, read_limit};
ghost use Rattle.fst_verbs.specs.Metering.{IsFree, meter_seen};
ghost use Rattle.fst_verbs.specs.Seeing.{given_with};
ghost use Rattle.fst_command.specs.Views.{held_seen, product_seen};
ghost use Rattle.fst_command.specs.Steps.{Decides, MetersWork};

use crate::held::{Held, alike};
use crate::product::{Product, product_of};
use fst_any::Kinded;
use fst_delayed::Meter;
use fst_determinize::SubsetWeight;
use fst_semiring::{ArcType, Boolean, Lexicographic, MinMax, Tropical};
use fst_verbs::{Given, Queues, Refusal, Tables, made, tables_for};
use fst_words::Plan;
use std::alloc::Global;
use std::mem::replace;
use std::thread::Threads;

/// The status and the bytes of what a command makes of what it is given, said of all that may have been read which gives it.
fn product_as<R: Threads + Sync, W: Kinded + SubsetWeight + Send + Sync, M: Meter>(
    rt: &R,
    alloc: Global,
    plan: &Plan,
    room: Vec<u8>,
    given: Given<W>,
    tables: &Tables,
    queues: Queues,
    meter: &mut M,
) -> Result<Product, Refusal>
where
    W::Wide: Send + Sync,
    requires whole { IsWhole plan.now }
    requires machines { length given.machines.items ≡ machine_count plan.now }
    requires codex { has_codex plan.now ≡ true → IsSome given.codex }
    requires lines { length given.lines.items ≤ read_limit }
    requires free { IsFree (meter_seen M.count M.parts_out M.is_part meter.old) }
    ensures decides { (held : HeldSeen) → kind_of plan.now.options held.machines ≡ W.KIND → given_at W.KIND held ≡ Ok (given_with tables.now W.KIND W.value given) → Decides plan.now held (result_map_both product_seen (λ e. e) result) }
    ensures meter { (held : HeldSeen) → kind_of plan.now.options held.machines ≡ W.KIND → given_at W.KIND held ≡ Ok (given_with tables.now W.KIND W.value given) → MetersWork plan.now held (meter_seen M.count M.parts_out M.is_part meter.old) (meter_seen M.count M.parts_out M.is_part meter.new) (result_map_both product_seen (λ e. e) result) }
{
    let made = match made(rt, alloc, plan, given, tables, queues, meter) {
        Ok(made) => made,
        Err(refusal) => return Err(refusal),
    };
    match product_of(alloc, room, made, &tables_for(plan, tables)) {
        Ok(product) => Ok(product),
        Err(_) => Err(Refusal::Memory),
    }
}

/// The status and the bytes of what a command makes of what was read, whose arc type is that of the weights.
fn worked_as<R: Threads + Sync, W: Kinded + SubsetWeight + Send + Sync, M: Meter>(
    rt: &R,
    alloc: Global,
    plan: &Plan,
    held: Held,
    queues: Queues,
    meter: &mut M,
) -> Result<Product, Refusal>
where
    W::Wide: Send + Sync,
    requires whole { IsWhole plan.now }
    requires kind { kind_of plan.now.options (map typed held.machines.items) ≡ W.KIND }
    requires machines { length held.machines.items ≡ machine_count plan.now }
    requires codex { has_codex plan.now ≡ true → IsSome held.codex }
    requires lines { length held.lines.items ≤ read_limit }
    requires free { IsFree (meter_seen M.count M.parts_out M.is_part meter.old) }
    ensures decides { Decides plan.now (held_seen held) (result_map_both product_seen (λ e. e) result) }
    ensures meter { MetersWork plan.now (held_seen held) (meter_seen M.count M.parts_out M.is_part meter.old) (meter_seen M.count M.parts_out M.is_part meter.new) (result_map_both product_seen (λ e. e) result) }
{
    let mut held = held;
    let room = replace(&mut held.room, Vec::new(alloc));
    match alike::<W>(alloc, held) {
        Ok((given, tables)) => product_as(rt, alloc, plan, room, given, &tables, queues, meter),
        Err(refusal) => Err(refusal),
    }
}

/// The status and the bytes of what a command makes of what was read.
pub(crate) fn worked<R: Threads + Sync, M: Meter>(
    rt: &R,
    alloc: Global,
    plan: &Plan,
    held: Held,
    queues: Queues,
    meter: &mut M,
) -> Result<Product, Refusal>
    requires whole { IsWhole plan.now }
    requires machines { length held.machines.items ≡ machine_count plan.now }
    requires codex { has_codex plan.now ≡ true → IsSome held.codex }
    requires lines { length held.lines.items ≤ read_limit }
    requires free { IsFree (meter_seen M.count M.parts_out M.is_part meter.old) }
    ensures decides { Decides plan.now (held_seen held) (result_map_both product_seen (λ e. e) result) }
    ensures meter { MetersWork plan.now (held_seen held) (meter_seen M.count M.parts_out M.is_part meter.old) (meter_seen M.count M.parts_out M.is_part meter.new) (result_map_both product_seen (λ e. e) result) }
{
    match held.kind(&plan.options) {
        ArcType::Boolean => worked_as::<R, Boolean, M>(rt, alloc, plan, held, queues, meter),
        ArcType::Tropical => worked_as::<R, Tropical, M>(rt, alloc, plan, held, queues, meter),
        ArcType::MinMax => worked_as::<R, MinMax, M>(rt, alloc, plan, held, queues, meter),
        ArcType::Lexicographic => worked_as::<R, Lexicographic, M>(
            rt, alloc, plan, held, queues, meter,
        ),
    }
}
