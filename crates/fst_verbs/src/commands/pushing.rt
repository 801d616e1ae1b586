//! `push`.

ghost use Rattle.std.specs.Prelude.{◌≡◌, length};
ghost use Rattle.std.specs.Result.{result_map_both};
ghost use Rattle.fst_distance.specs.Totals.{push_text};
ghost use Rattle.fst_verbs.specs.Causes.{faulty, refused, unmade};
ghost use Rattle.fst_verbs.specs.Meaning.{Settles};
ghost use Rattle.fst_verbs.specs.Pushing.{push_meaning};
ghost use Rattle.fst_verbs.specs.Seeing.{given_seen, made_seen};
ghost use Rattle.fst_verbs.specs.Told.{IsMade};

use crate::given::Given;
use crate::outputs::Made;
use crate::queues::{Queues, picked};
use crate::refusal::{Refusal, unmade};
use fst_distance::{PushFault, into_pushed};
use fst_semiring::Weight;
use fst_words::Options;
use std::alloc::Global;

/// The machine is not pushed.
fn unpushed(alloc: Global, fault: PushFault) -> Refusal
    ensures made { IsMade (refused (faulty (unmade (push_text fault)))) result }
    ensures memory { fault ≡ PushFault.Memory → result ≡ Refusal.Memory }
{
    match fault {
        PushFault::Memory => Refusal::Memory,
        fault => unmade(alloc, fault),
    }
}

/// `push`.
pub(crate) fn pushed<W: Weight>(
    alloc: Global,
    options: &Options,
    given: Given<W>,
    queues: Queues,
) -> Result<Made<W>, Refusal>
    requires { length given.machines.items ≡ 1 }
    ensures { Settles (push_meaning options.now) (given_seen W.KIND W.value given) (result_map_both (made_seen W.KIND W.value) (λ e. e) result) }
{
    let machine = given.one();
    let mut queue = picked(options, queues);
    match into_pushed(alloc, machine, options.remove_total_weight, &mut queue) {
        Ok(made) => Ok(Made::Machine(made)),
        Err(fault) => Err(unpushed(alloc, fault)),
    }
}
