//! `determinize`.

ghost use Rattle.std.specs.Prelude.{◌≡◌, length};
ghost use Rattle.std.specs.Result.{result_map_both};
ghost use Rattle.fst_determinize.specs.Faults.{determinize_text};
ghost use Rattle.fst_words.specs.PlanLaws.{HasNumbersInRange};
ghost use Rattle.fst_verbs.specs.Causes.{faulty, refused, unmade};
ghost use Rattle.fst_verbs.specs.Determinizing.{determinize_meaning};
ghost use Rattle.fst_verbs.specs.Meaning.{Settles};
ghost use Rattle.fst_verbs.specs.Seeing.{given_seen, made_seen};
ghost use Rattle.fst_verbs.specs.Told.{IsMade};

use super::composing::limit_of;
use crate::given::Given;
use crate::outputs::Made;
use crate::refusal::{Refusal, unmade};
use fst_determinize::{DeterminizeFault, SubsetWeight, determinize};
use fst_words::Options;
use std::alloc::Global;

/// The machine is not determinized.
fn undetermined(alloc: Global, fault: DeterminizeFault) -> Refusal
    ensures made { IsMade (refused (faulty (unmade (determinize_text fault)))) result }
    ensures memory { fault ≡ DeterminizeFault.Memory → result ≡ Refusal.Memory }
{
    match fault {
        DeterminizeFault::Memory => Refusal::Memory,
        _ => unmade(alloc, fault),
    }
}

/// `determinize`.
pub(crate) fn determinized<W: SubsetWeight>(
    alloc: Global,
    options: &Options,
    given: Given<W>,
) -> Result<Made<W>, Refusal>
    requires one { length given.machines.items ≡ 1 }
    requires numbers { HasNumbersInRange options.now }
    ensures { Settles (determinize_meaning options.now) (given_seen W.KIND W.value given) (result_map_both (made_seen W.KIND W.value) (λ e. e) result) }
{
    let machine = given.one();
    match determinize(alloc, &machine, limit_of(options)) {
        Ok(made) => Ok(Made::Machine(made.fst)),
        Err(fault) => Err(undetermined(alloc, fault)),
    }
}
