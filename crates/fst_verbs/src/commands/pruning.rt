//! `prune`.

ghost use Rattle.std.specs.Prelude.{◌≡◌, length};
ghost use Rattle.std.specs.Option.{option_map};
ghost use Rattle.std.specs.Result.{result_map_both};
ghost use Rattle.fst_verbs.specs.Meaning.{Settles};
ghost use Rattle.fst_verbs.specs.Pruning.{prune_meaning, threshold_of};
ghost use Rattle.fst_verbs.specs.Seeing.{given_seen, made_seen};

use crate::given::Given;
use crate::outputs::Made;
use crate::queues::{Queues, picked};
use crate::refusal::{Refusal, unmade};
use fst_select::{PruneFault, prune};
use fst_semiring::Weight;
use fst_words::Options;
use std::alloc::Global;
use std::fmt;

/// Why a machine is not pruned.
#[derive(Clone, Copy, Debug, PartialEq, Eq)]
pub(crate) enum Unpruned {
    /// The threshold is no weight text of the machine's arc type.
    BadThreshold,
    /// A cycle on states of successful paths is better than One.
    ImprovingCycle,
}

impl fmt::Display for Unpruned {
    ghost use Rattle.std.specs.Prelude.{Some};
    ghost use Rattle.fst_verbs.specs.Pruning.{prune_text};

    ghost output = { λ why. Some (prune_text why) };

    fn fmt<W: fmt::Write>(&self, f: &mut fmt::Formatter<W>) -> fmt::Result {
        match *self {
            Unpruned::BadThreshold => f.write_str("bad threshold"),
            Unpruned::ImprovingCycle => f.write_str("improving cycle"),
        }
    }
}

/// The threshold; `None` where the option's text is no weight text of the arc type.
fn threshold<W: Weight>(options: &Options) -> Option<W>
    ensures { option_map W.value result ≡ threshold_of W.KIND options.now.weight }
{
    let Some(text) = &options.weight else {
        return Some(W::zero());
    };
    match W::read_weight(text.text().as_bytes()) {
        Ok(weight) => Some(weight),
        Err(_) => None,
    }
}

/// `prune`.
pub(crate) fn pruned<W: Weight>(
    alloc: Global,
    options: &Options,
    given: Given<W>,
    queues: Queues,
) -> Result<Made<W>, Refusal>
    requires { length given.machines.items ≡ 1 }
    ensures { Settles (prune_meaning options.now) (given_seen W.KIND W.value given) (result_map_both (made_seen W.KIND W.value) (λ e. e) result) }
{
    let machine = given.one();
    let Some(threshold) = threshold::<W>(options) else {
        return Err(unmade(alloc, Unpruned::BadThreshold));
    };
    let mut queue = picked(options, queues);
    match prune(alloc, &machine, threshold, &mut queue) {
        Ok(made) => Ok(Made::Machine(made)),
        Err(PruneFault::ImprovingCycle { cycle: _ }) => {
            Err(unmade(alloc, Unpruned::ImprovingCycle))
        }
        Err(PruneFault::Memory) => Err(Refusal::Memory),
    }
}
