//! `minimize`.

ghost use Rattle.std.specs.Prelude.{◌≡◌, length};
ghost use Rattle.std.specs.Result.{result_map_both};
ghost use Rattle.fst_minimize.specs.Faults.{minimize_text};
ghost use Rattle.fst_verbs.specs.Causes.{faulty, refused, unmade};
ghost use Rattle.fst_verbs.specs.Meaning.{Settles};
ghost use Rattle.fst_verbs.specs.Minimizing.{minimize_meaning};
ghost use Rattle.fst_verbs.specs.Seeing.{given_seen, made_seen};
ghost use Rattle.fst_verbs.specs.Told.{IsMade};

use crate::given::Given;
use crate::outputs::Made;
use crate::queues::{Queues, picked};
use crate::refusal::{Refusal, unmade};
use fst_minimize::{MinimizeFault, minimize};
use fst_semiring::Weight;
use fst_words::Options;
use std::alloc::Global;

/// The machine is not minimized.
fn unminimized(alloc: Global, fault: MinimizeFault) -> Refusal
    ensures made { IsMade (refused (faulty (unmade (minimize_text fault)))) result }
    ensures memory { fault ≡ MinimizeFault.Memory → result ≡ Refusal.Memory }
{
    if matches!(fault, MinimizeFault::Memory) {
        return Refusal::Memory;
    }
    unmade(alloc, fault)
}

/// `minimize`.
pub(crate) fn minimized<W: Weight>(
    alloc: Global,
    options: &Options,
    given: Given<W>,
    queues: Queues,
) -> Result<Made<W>, Refusal>
    requires { length given.machines.items ≡ 1 }
    ensures { Settles minimize_meaning (given_seen W.KIND W.value given) (result_map_both (made_seen W.KIND W.value) (λ e. e) result) }
{
    let machine = given.one();
    let mut queue = picked(options, queues);
    match minimize(alloc, &machine, &mut queue) {
        Ok(made) => Ok(Made::Machine(made)),
        Err(fault) => Err(unminimized(alloc, fault)),
    }
}
