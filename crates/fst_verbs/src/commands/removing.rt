//! `rmepsilon`.

ghost use Rattle.std.specs.Prelude.{◌≡◌, length};
ghost use Rattle.std.specs.Result.{result_map_both};
ghost use Rattle.fst_epsilon.specs.Faults.{epsilon_text};
ghost use Rattle.fst_verbs.specs.Causes.{faulty, refused, unmade};
ghost use Rattle.fst_verbs.specs.Meaning.{Settles};
ghost use Rattle.fst_verbs.specs.Removing.{rmepsilon_meaning};
ghost use Rattle.fst_verbs.specs.Seeing.{given_seen, made_seen};
ghost use Rattle.fst_verbs.specs.Told.{IsMade};

use super::composing::is_connected;
use crate::given::Given;
use crate::outputs::Made;
use crate::queues::{Queues, picked};
use crate::refusal::{Refusal, unmade};
use fst_epsilon::{EpsilonFault, rmepsilon};
use fst_semiring::Weight;
use fst_trim::into_connected;
use fst_words::Options;
use std::alloc::Global;

/// Epsilon arcs are not removed.
fn unremoved(alloc: Global, fault: EpsilonFault) -> Refusal
    ensures made { IsMade (refused (faulty (unmade (epsilon_text fault)))) result }
    ensures memory { fault ≡ EpsilonFault.Memory → result ≡ Refusal.Memory }
{
    match fault {
        EpsilonFault::Memory => Refusal::Memory,
        _ => unmade(alloc, fault),
    }
}

/// `rmepsilon`. The given machine is freed before what is left of it is connected.
pub(crate) fn removed<W: Weight>(
    alloc: Global,
    options: &Options,
    given: Given<W>,
    queues: Queues,
) -> Result<Made<W>, Refusal>
    requires { length given.machines.items ≡ 1 }
    ensures { Settles (rmepsilon_meaning options.now) (given_seen W.KIND W.value given) (result_map_both (made_seen W.KIND W.value) (λ e. e) result) }
{
    let machine = given.one();
    let mut queue = picked(options, queues);
    let whole = match rmepsilon(alloc, &machine, &mut queue) {
        Ok(whole) => whole,
        Err(fault) => return Err(unremoved(alloc, fault)),
    };
    drop(machine);
    if is_connected(options) {
        Ok(Made::Machine(into_connected(alloc, whole)?))
    } else {
        Ok(Made::Machine(whole))
    }
}
