//! `invert`, `project`, `relabel`, `reverse`, `closure`, `union` and `concat`.

ghost use Rattle.std.specs.Prelude.{◌≡◌, length};
ghost use Rattle.std.specs.Result.{result_map_both};
ghost use Rattle.fst_rational.specs.Faults.{size_text};
ghost use Rattle.fst_verbs.specs.Causes.{faulty, refused, unmade};
ghost use Rattle.fst_verbs.specs.Meaning.{Settles};
ghost use Rattle.fst_verbs.specs.Rational.{closure_meaning, concat_meaning, invert_meaning, project_meaning, relabel_meaning, reverse_meaning, union_meaning};
ghost use Rattle.fst_verbs.specs.Seeing.{given_seen, made_seen};
ghost use Rattle.fst_verbs.specs.Told.{IsMade};

use crate::given::{Given, one};
use crate::outputs::Made;
use crate::refusal::{Refusal, unmade};
use fst_rational::{
    RationalFault, into_closure, into_concat, into_inverted, into_projected, into_relabelled,
    into_union, reverse,
};
use fst_semiring::Weight;
use fst_words::Options;
use std::alloc::Global;

/// The machine that a command would make is too large.
fn too_large(alloc: Global, fault: RationalFault) -> Refusal
    ensures made { IsMade (refused (faulty (unmade (size_text fault)))) result }
    ensures memory { fault ≡ RationalFault.Memory → result ≡ Refusal.Memory }
{
    match fault {
        RationalFault::Memory => Refusal::Memory,
        _ => unmade(alloc, fault),
    }
}

/// `invert`.
pub(crate) fn inverted<W: Weight>(alloc: Global, given: Given<W>) -> Result<Made<W>, Refusal>
    requires { length given.machines.items ≡ 1 }
    ensures { Settles invert_meaning (given_seen W.KIND W.value given) (result_map_both (made_seen W.KIND W.value) (λ e. e) result) }
{
    let machine = given.one();
    Ok(Made::Machine(into_inverted(alloc, machine)?))
}

/// `project`.
pub(crate) fn projected<W: Weight>(
    alloc: Global,
    options: &Options,
    given: Given<W>,
) -> Result<Made<W>, Refusal>
    requires { length given.machines.items ≡ 1 }
    ensures { Settles (project_meaning options.now) (given_seen W.KIND W.value given) (result_map_both (made_seen W.KIND W.value) (λ e. e) result) }
{
    let machine = given.one();
    Ok(Made::Machine(into_projected(alloc, machine, options.project_output)?))
}

/// `relabel`.
pub(crate) fn relabelled<W: Weight>(alloc: Global, given: Given<W>) -> Result<Made<W>, Refusal>
    requires { length given.machines.items ≡ 1 }
    ensures { Settles relabel_meaning (given_seen W.KIND W.value given) (result_map_both (made_seen W.KIND W.value) (λ e. e) result) }
{
    let machine = one(given.machines);
    Ok(Made::Machine(into_relabelled(alloc, machine, &given.ipairs, &given.opairs)?))
}

/// `reverse`.
pub(crate) fn reversed<W: Weight>(alloc: Global, given: Given<W>) -> Result<Made<W>, Refusal>
    requires { length given.machines.items ≡ 1 }
    ensures { Settles reverse_meaning (given_seen W.KIND W.value given) (result_map_both (made_seen W.KIND W.value) (λ e. e) result) }
{
    let machine = given.one();
    match reverse(alloc, &machine) {
        Ok(made) => Ok(Made::Machine(made)),
        Err(fault) => Err(too_large(alloc, fault)),
    }
}

/// `closure`.
pub(crate) fn closed<W: Weight>(
    alloc: Global,
    options: &Options,
    given: Given<W>,
) -> Result<Made<W>, Refusal>
    requires { length given.machines.items ≡ 1 }
    ensures { Settles (closure_meaning options.now) (given_seen W.KIND W.value given) (result_map_both (made_seen W.KIND W.value) (λ e. e) result) }
{
    let machine = given.one();
    match into_closure(alloc, machine, options.closure_plus) {
        Ok(made) => Ok(Made::Machine(made)),
        Err(fault) => Err(too_large(alloc, fault)),
    }
}

/// `union`.
pub(crate) fn united<W: Weight>(alloc: Global, given: Given<W>) -> Result<Made<W>, Refusal>
    requires { length given.machines.items ≡ 2 }
    ensures { Settles union_meaning (given_seen W.KIND W.value given) (result_map_both (made_seen W.KIND W.value) (λ e. e) result) }
{
    let (first, second) = given.two();
    match into_union(alloc, first, second) {
        Ok(made) => Ok(Made::Joined(made)),
        Err(fault) => Err(too_large(alloc, fault)),
    }
}

/// `concat`.
pub(crate) fn concatenated<W: Weight>(alloc: Global, given: Given<W>) -> Result<Made<W>, Refusal>
    requires { length given.machines.items ≡ 2 }
    ensures { Settles concat_meaning (given_seen W.KIND W.value given) (result_map_both (made_seen W.KIND W.value) (λ e. e) result) }
{
    let (first, second) = given.two();
    match into_concat(alloc, first, second) {
        Ok(made) => Ok(Made::Joined(made)),
        Err(fault) => Err(too_large(alloc, fault)),
    }
}
