//! The top call: words, work, and the line of a refusal.

ghost use Rattle.std.specs.Prelude.{◌≡◌, map, string_bytes};
ghost use Rattle.fst_words.specs.Plans.{plan_of};
ghost use Rattle.fst_verbs.specs.Metering.{IsFree, meter_seen};
ghost use Rattle.fst_command.specs.Outcome.{Completes, Meters, Runs};
ghost use Rattle.fst_command.specs.Steps.{MetersWords, Works};

use crate::carrying::carry_out;
use fst_delayed::Meter;
use fst_desk::Desk;
use fst_verbs::{Queues, Refusal};
use fst_words::{WordsFault, read_words};
use std::alloc::Global;
use std::thread::Threads;

/// Does what the words ask for, and gives the status of what was made.
fn work<R: Threads + Sync, D: Desk, M: Meter>(
    rt: &R,
    alloc: Global,
    words: &[String],
    desk: &mut D,
    queues: Queues,
    meter: &mut M,
) -> Result<u8, Refusal>
    requires free { IsFree (meter_seen M.count M.parts_out M.is_part meter.old) }
    ensures meter { MetersWords (plan_of (map (λ w. string_bytes w) words.now)) (D.seen desk.old).filed.told (meter_seen M.count M.parts_out M.is_part meter.old) (meter_seen M.count M.parts_out M.is_part meter.new) result }
    ensures works { Works (plan_of (map (λ w. string_bytes w) words.now)) (D.seen desk.old) (D.seen desk.new) result }
{
    match read_words(alloc, words) {
        Ok(plan) => carry_out(rt, alloc, desk, &plan, queues, meter),
        Err(WordsFault::Usage) => Err(Refusal::Usage),
        Err(WordsFault::Memory) => Err(Refusal::Memory),
    }
}

/// Does what the words ask for, and shows the line of a refusal.
fn finish<R: Threads + Sync, D: Desk, M: Meter>(
    rt: &R,
    alloc: Global,
    words: &[String],
    desk: &mut D,
    queues: Queues,
    meter: &mut M,
) -> u8
    requires free { IsFree (meter_seen M.count M.parts_out M.is_part meter.old) }
    ensures meter { Meters (map (λ w. string_bytes w) words.now) (D.seen desk.old).filed.told (meter_seen M.count M.parts_out M.is_part meter.old) (meter_seen M.count M.parts_out M.is_part meter.new) result }
    ensures runs { Runs (map (λ w. string_bytes w) words.now) (D.seen desk.old) (D.seen desk.new) result }
{
    match work(rt, alloc, words, desk, queues, meter) {
        Ok(status) => status,
        Err(refusal) => {
            let line = refusal.line();
            // A line that cannot be shown leaves the status as it is.
            let _ = desk.show(line);
            refusal.status()
        }
    }
}

/// The top call: all that the program does. `words` are those of the command line after the program's
/// name. It fetches, works and stores through the desk, and on a refusal shows one line. A search of distances takes
/// its states from the queue that the words name, whose own states are taken out first; the other queues are dropped.
///
/// The result is the status: that of what the command makes where the outputs stand, which is 0, or 2 for a text that tells two
/// machines apart; 3 out of memory, 4 where an input could not be read, 5 where an output could not be written, and 1 for every other refusal.
///
/// Where the outputs stand there was one fetch for each input, one store for each output and no show. Else there was at most
/// one fetch for each input, no store but those of the outputs as far as one that failed, and one show.
pub fn run<R: Threads + Sync, D: Desk, M: Meter>(
    rt: &R,
    alloc: Global,
    words: &[String],
    desk: &mut D,
    queues: Queues,
    meter: &mut M,
) -> u8
    requires free { IsFree (meter_seen M.count M.parts_out M.is_part meter.old) }
    ensures meter { Meters (map (λ w. string_bytes w) words.now) (D.seen desk.old).filed.told (meter_seen M.count M.parts_out M.is_part meter.old) (meter_seen M.count M.parts_out M.is_part meter.new) result }
    ensures runs { Runs (map (λ w. string_bytes w) words.now) (D.seen desk.old) (D.seen desk.new) result }
    ensures completes { Completes (map (λ w. string_bytes w) words.now) (D.seen desk.old) (D.seen desk.new) result }
{
    finish(rt, alloc, words, desk, queues, meter)
}
