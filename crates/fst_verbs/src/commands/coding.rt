//! `encode`, and `encode --decode`.

ghost use Rattle.std.specs.Prelude.{◌≡◌, [], ◌∷◌, IsSome, Some, false, length, true};
ghost use Rattle.std.specs.Result.{result_map_both};
ghost use Rattle.fst_machine.specs.Machine.{valued};
ghost use Rattle.fst_codex.specs.Table.{valued_table};
ghost use Rattle.fst_codex.specs.Faults.{decode_text};
ghost use Rattle.fst_verbs.specs.Causes.{faulty, refused, unmade};
ghost use Rattle.fst_verbs.specs.Coding.{coding_meaning, encode_meaning};
ghost use Rattle.fst_verbs.specs.Meaning.{Settles};
ghost use Rattle.fst_verbs.specs.Seeing.{given_seen, just, made_seen};
ghost use Rattle.fst_verbs.specs.Told.{IsMade};

use crate::given::{Given, one};
use crate::outputs::Made;
use crate::refusal::{Refusal, unmade};
use fst_codex::{Codex, DecodeFault, into_decoded, into_encoded};
use fst_machine::Fst;
use fst_semiring::Weight;
use fst_words::Options;
use std::alloc::Global;

/// The codex of a machine, and the machine that it stands for.
fn encoded<W: Weight>(alloc: Global, weights: bool, machine: Fst<W>) -> Result<Made<W>, Refusal>
    ensures { Settles (coding_meaning false weights) (just W.KIND (valued W.value machine ∷ [])) (result_map_both (made_seen W.KIND W.value) (λ e. e) result) }
{
    let (coded, codex) = into_encoded(alloc, machine, weights)?;
    Ok(Made::Coded(codex, coded))
}

/// The machine is not decoded by the codex.
fn undecoded(alloc: Global, fault: DecodeFault) -> Refusal
    ensures made { IsMade (refused (faulty (unmade (decode_text fault)))) result }
    ensures memory { fault ≡ DecodeFault.Memory → result ≡ Refusal.Memory }
{
    match fault {
        DecodeFault::Memory => Refusal::Memory,
        _ => unmade(alloc, fault),
    }
}

/// The machine that a machine and a codex stand for.
fn decoded<W: Weight>(alloc: Global, machine: Fst<W>, codex: Codex<W>) -> Result<Made<W>, Refusal>
    ensures { Settles (coding_meaning true false) (record (just W.KIND (valued W.value machine ∷ [])) { codex = Some (valued_table W.value codex) }) (result_map_both (made_seen W.KIND W.value) (λ e. e) result) }
{
    match into_decoded(alloc, machine, &codex) {
        Ok(decoded) => Ok(Made::Machine(decoded)),
        Err(fault) => Err(undecoded(alloc, fault)),
    }
}

/// `encode`; with the flag for decoding the codex was read.
pub(crate) fn coded<W: Weight>(
    alloc: Global,
    options: &Options,
    given: Given<W>,
) -> Result<Made<W>, Refusal>
    requires one { length given.machines.items ≡ 1 }
    requires codex { options.now.decode ≡ true → IsSome given.codex }
    ensures { Settles (encode_meaning options.now) (given_seen W.KIND W.value given) (result_map_both (made_seen W.KIND W.value) (λ e. e) result) }
{
    let codex = given.codex;
    let machine = one(given.machines);
    if !options.decode {
        return encoded(alloc, options.encode_weights, machine);
    }
    match codex {
        Some(codex) => decoded(alloc, machine, codex),
        None => unreachable!(),
    }
}
