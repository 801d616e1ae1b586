//! The order of work of a plan: the inputs, the work, the outputs.

ghost use Rattle.std.specs.Prelude.{◌≡◌, Some, length, true};
ghost use Rattle.fst_words.specs.Inputs.{expands};
ghost use Rattle.fst_words.specs.PlanLaws.{IsWhole};
ghost use Rattle.fst_words.specs.Plans.{outputs_of};
ghost use Rattle.fst_verbs.specs.Metering.{IsFree, meter_seen};
ghost use Rattle.fst_command.specs.Views.{bytes_seen};
ghost use Rattle.fst_command.specs.Steps.{MetersEnd, Works, WorksAfter};

use crate::files::{write_both, write_output};
use crate::product::Bytes;
use crate::reading::read_all;
use crate::working::worked;
use fst_delayed::Meter;
use fst_desk::Desk;
use fst_verbs::{Queues, Refusal};
use fst_words::Plan;
use std::alloc::Global;
use std::thread::Threads;

/// Stores the bytes of the outputs, each under its name.
fn store<D: Desk>(alloc: Global, desk: &mut D, plan: &Plan, bytes: Bytes) -> Result<(), Refusal>
    requires { length (outputs_of plan.now) ≡ length (bytes_seen bytes) }
    ensures { WorksAfter plan.now (bytes_seen bytes) (D.seen desk.old) (D.seen desk.new) result }
{
    match bytes {
        Bytes::One(bytes) => write_output(alloc, desk, plan.output(0).text(), bytes.as_slice()),
        Bytes::Two(first, second) => write_both(
            alloc,
            desk,
            plan.output(0).text(),
            first.as_slice(),
            plan.output(1).text(),
            second.as_slice(),
        ),
    }
}

/// Does what a plan asks for, and gives the status of what it made. All bytes are there before the first is written.
pub(crate) fn carry_out<R: Threads + Sync, D: Desk, M: Meter>(
    rt: &R,
    alloc: Global,
    desk: &mut D,
    plan: &Plan,
    queues: Queues,
    meter: &mut M,
) -> Result<u8, Refusal>
    requires whole { IsWhole plan.now }
    requires free { IsFree (meter_seen M.count M.parts_out M.is_part meter.old) }
    ensures works { Works (Some plan.now) (D.seen desk.old) (D.seen desk.new) result }
    ensures meter { MetersEnd (expands plan.now) plan.now (D.seen desk.old).filed.told (meter_seen M.count M.parts_out M.is_part meter.old) (meter_seen M.count M.parts_out M.is_part meter.new) result }
{
    let held = match read_all(alloc, desk, plan) {
        Ok(held) => held,
        Err(refusal) => return Err(refusal),
    };
    let product = match worked(rt, alloc, plan, held, queues, meter) {
        Ok(product) => product,
        Err(refusal) => return Err(refusal),
    };
    let status = product.status;
    match store(alloc, desk, plan, product.bytes) {
        Ok(()) => Ok(status),
        Err(refusal) => Err(refusal),
    }
}
