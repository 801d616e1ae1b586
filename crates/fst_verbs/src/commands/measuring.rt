//! `shortestdistance`.

ghost use Rattle.std.specs.Prelude.{◌≡◌, ◌≤◌, ◌++◌, All, IfErr, IfOk, OnOk, length, map};
ghost use Rattle.std.specs.Result.{result_map_both};
ghost use Rattle.fst_machine.specs.Machine.{most_states};
ghost use Rattle.fst_semiring.specs.Semiring.{InRange};
ghost use Rattle.fst_verbs.specs.Causes.{faulty, refused, unmade};
ghost use Rattle.fst_verbs.specs.Meaning.{Settles};
ghost use Rattle.fst_verbs.specs.Measuring.{IsFirstPast, direction_of, distance_line, distance_lines, measure_meaning, measure_text};
ghost use Rattle.fst_verbs.specs.Seeing.{given_seen, made_seen};
ghost use Rattle.fst_verbs.specs.Told.{IsMade};

use crate::given::Given;
use crate::outputs::Made;
use crate::queues::{Queues, picked};
use crate::refusal::{Refusal, unmade};
use fst_distance::{Direction, DistanceFault, distance_boxed};
use fst_semiring::Weight;
use fst_words::Options;
use itoa::Buffer;
use std::alloc::{AllocError, Global};
use std::fmt;

/// Why no distances are told.
#[derive(Clone, Copy, Debug, PartialEq, Eq)]
pub(crate) enum Unmeasured {
    /// A cycle of a state that counts is better than One.
    ImprovingCycle,
    /// The distance of this state, the first such, has a number of absolute value above 10 to the 18.
    Overflow { state: u32 },
}

impl fmt::Display for Unmeasured {
    ghost use Rattle.std.specs.Prelude.{Some};
    ghost use Rattle.fst_verbs.specs.Measuring.{measure_text};

    ghost output = { λ why. Some (measure_text why) };

    fn fmt<W: fmt::Write>(&self, f: &mut fmt::Formatter<W>) -> fmt::Result {
        match *self {
            Unmeasured::ImprovingCycle => f.write_str("improving cycle"),
            Unmeasured::Overflow { state } => write!(f, "number too large at state {state}"),
        }
    }
}

/// The direction of the distances.
fn direction(options: &Options) -> Direction
    ensures { result ≡ direction_of options.now }
{
    if options.reverse {
        Direction::ToFinals
    } else {
        Direction::FromStart
    }
}

/// Appends the line of a state.
fn push_line<W: Weight>(out: &mut Vec<u8>, state: u32, distance: W) -> Result<(), AllocError>
    ensures { OnOk result (out.new.items ≡ out.old.items ++ distance_line W.KIND state (W.value distance)) }
{
    let mut buffer = Buffer::new();
    out.extend_from_slice(buffer.format(state).as_bytes())?;
    out.push(b'\t')?;
    distance.push_text(out)?;
    out.push(b'\n')?;
    Ok(())
}

/// The lines of distances; the place of the first that is too large in their stead.
fn lines_of<W: Weight>(
    alloc: Global,
    distances: &[W::Wide],
) -> Result<Result<Vec<u8>, u32>, AllocError>
    requires { length distances.now ≤ most_states }
    ensures told { IfOk result (λ r. IfOk r (λ lines. lines.items ≡ distance_lines W.KIND 0 (map W.wide_value distances.now))) }
    ensures range { IfOk result (λ r. OnOk r (All InRange (map W.wide_value distances.now))) }
    ensures past { IfOk result (λ r. IfErr r (λ place. IsFirstPast (map W.wide_value distances.now) place)) }
{
    let mut lines = Vec::new(alloc);
    for state in 0..distances.len() as u32 {
        match W::narrow(distances[state as usize]) {
            Some(distance) => push_line(&mut lines, state, distance)?,
            None => return Ok(Err(state)),
        }
    }
    Ok(Ok(lines))
}

/// `shortestdistance`. The machine is freed before the lines are made.
pub(crate) fn measured<W: Weight>(
    alloc: Global,
    options: &Options,
    given: Given<W>,
    queues: Queues,
) -> Result<Made<W>, Refusal>
    requires { length given.machines.items ≡ 1 }
    ensures { Settles (measure_meaning options.now) (given_seen W.KIND W.value given) (result_map_both (made_seen W.KIND W.value) (λ e. e) result) }
{
    let machine = given.one();
    let mut queue = picked(options, queues);
    let distances = match distance_boxed(alloc, &machine, direction(options), &mut queue) {
        Ok(distances) => distances,
        Err(DistanceFault::ImprovingCycle { cycle: _ }) => {
            return Err(unmade(alloc, Unmeasured::ImprovingCycle));
        }
        Err(DistanceFault::Memory) => return Err(Refusal::Memory),
    };
    drop(machine);
    match lines_of::<W>(alloc, distances.as_slice())? {
        Ok(lines) => Ok(Made::Text(lines)),
        Err(state) => Err(unmade(alloc, Unmeasured::Overflow { state })),
    }
}
