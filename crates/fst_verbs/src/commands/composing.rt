//! `compose`.

ghost use Rattle.std.specs.Prelude.{◌≡◌, ◌↔◌, ◌<◌, ◌≤◌, ℕ, List, IfOk, length};
ghost use Rattle.std.specs.Result.{result_map_both};
ghost use Rattle.fst_semiring.specs.Cost.{Cost};
ghost use Rattle.fst_machine.specs.Cycles.{IsAccessible};
ghost use Rattle.fst_machine.specs.Graph.{graph_of};
ghost use Rattle.fst_machine.specs.Machine.{most_states, valued};
ghost use Rattle.fst_machine.specs.Relation.{Rel};
ghost use Rattle.fst_words.specs.PlanLaws.{HasNumbersInRange};
ghost use Rattle.fst_compose.specs.Faults.{compose_text};
ghost use Rattle.fst_verbs.specs.Causes.{faulty, refused, unmade};
ghost use Rattle.fst_verbs.specs.Composing.{IsLeft, compose_meaning, connects, state_limit};
ghost use Rattle.fst_verbs.specs.Meaning.{Settles};
ghost use Rattle.fst_verbs.specs.Seeing.{given_seen, made_seen};
ghost use Rattle.fst_verbs.specs.Told.{IsMade};

use crate::given::Given;
use crate::outputs::Made;
use crate::refusal::{Refusal, unmade};
use fst_compose::{ComposeFault, compose};
use fst_machine::Fst;
use fst_semiring::Weight;
use fst_trim::connect_walked;
use fst_words::Options;
use std::alloc::{AllocError, Global};

/// The most states of a composition before it is connected: 1,000,000 without the option.
pub(super) fn limit_of(options: &Options) -> u32
    requires { HasNumbersInRange options.now }
    ensures value { result ≡ state_limit options.now }
    ensures some { 0 < result }
    ensures few { result ≤ most_states }
{
    match options.max_states {
        Some(limit) => limit as u32,
        None => 1_000_000,
    }
}

/// Whether what is made is connected, as it is without the option.
pub(super) fn is_connected(options: &Options) -> bool
    ensures { result ≡ connects options.now }
{
    match &options.connect {
        Some(word) => word.text() == "true",
        None => true,
    }
}

/// What is left of a machine all of whose states the start reaches: it is connected, or as it is where the option says so.
pub(super) fn left_of<W: Weight>(
    alloc: Global,
    options: &Options,
    whole: Fst<W>,
) -> Result<Fst<W>, AllocError>
    requires accessible { (p : ℕ) → p < length whole.states → IsAccessible (graph_of (valued W.value whole)) p }
    ensures left { IfOk result (λ made. IsLeft (connects options.now) (valued W.value whole) (valued W.value made)) }
    ensures relation { IfOk result (λ made. (x z : List ℕ) (w : Cost) → Rel W.KIND (graph_of (valued W.value whole)) x z w ↔ Rel W.KIND (graph_of (valued W.value made)) x z w) }
{
    if is_connected(options) {
        connect_walked(alloc, whole)
    } else {
        Ok(whole)
    }
}

/// The machines have no composition.
pub(super) fn uncomposed(alloc: Global, fault: ComposeFault) -> Refusal
    ensures made { IsMade (refused (faulty (unmade (compose_text fault)))) result }
    ensures memory { fault ≡ ComposeFault.Memory → result ≡ Refusal.Memory }
{
    match fault {
        ComposeFault::Memory => Refusal::Memory,
        _ => unmade(alloc, fault),
    }
}

/// `compose`.
pub(crate) fn composed<W: Weight>(
    alloc: Global,
    options: &Options,
    given: Given<W>,
) -> Result<Made<W>, Refusal>
    requires two { length given.machines.items ≡ 2 }
    requires numbers { HasNumbersInRange options.now }
    ensures { Settles (compose_meaning options.now) (given_seen W.KIND W.value given) (result_map_both (made_seen W.KIND W.value) (λ e. e) result) }
{
    let (first, second) = given.two();
    let whole = match compose(alloc, &first, &second, limit_of(options)) {
        Ok(made) => made.fst,
        Err(fault) => return Err(uncomposed(alloc, fault)),
    };
    // Their memory may be used again.
    drop(first);
    drop(second);
    Ok(Made::Machine(left_of(alloc, options, whole)?))
}
