//! `intersect`.

ghost use Rattle.std.specs.Prelude.{◌≡◌, length};
ghost use Rattle.std.specs.Result.{result_map_both};
ghost use Rattle.fst_words.specs.PlanLaws.{HasNumbersInRange};
ghost use Rattle.fst_setops.specs.Faults.{intersect_text};
ghost use Rattle.fst_verbs.specs.Causes.{faulty, refused, unmade};
ghost use Rattle.fst_verbs.specs.Intersecting.{intersect_meaning};
ghost use Rattle.fst_verbs.specs.Meaning.{Settles};
ghost use Rattle.fst_verbs.specs.Seeing.{given_seen, made_seen};
ghost use Rattle.fst_verbs.specs.Told.{IsMade};

use super::composing::{left_of, limit_of};
use crate::given::Given;
use crate::outputs::Made;
use crate::refusal::{Refusal, unmade};
use fst_semiring::Weight;
use fst_setops::{IntersectFault, intersect};
use fst_words::Options;
use std::alloc::Global;

/// The machines have no intersection.
fn unintersected(alloc: Global, fault: IntersectFault) -> Refusal
    ensures made { IsMade (refused (faulty (unmade (intersect_text fault)))) result }
    ensures memory { fault ≡ IntersectFault.Memory → result ≡ Refusal.Memory }
{
    match fault {
        IntersectFault::Memory => Refusal::Memory,
        _ => unmade(alloc, fault),
    }
}

/// `intersect`.
pub(crate) fn intersected<W: Weight>(
    alloc: Global,
    options: &Options,
    given: Given<W>,
) -> Result<Made<W>, Refusal>
    requires two { length given.machines.items ≡ 2 }
    requires numbers { HasNumbersInRange options.now }
    ensures { Settles (intersect_meaning options.now) (given_seen W.KIND W.value given) (result_map_both (made_seen W.KIND W.value) (λ e. e) result) }
{
    let (first, second) = given.two();
    let whole = match intersect(alloc, &first, &second, limit_of(options)) {
        Ok(whole) => whole,
        Err(fault) => return Err(unintersected(alloc, fault)),
    };
    // Their memory may be used again.
    drop(first);
    drop(second);
    Ok(Made::Machine(left_of(alloc, options, whole)?))
}
