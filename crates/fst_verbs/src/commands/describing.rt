//! `info`: the text that is shown of a machine.

ghost use Rattle.std.specs.Prelude.{◌≡◌, ◌++◌, IfOk, OnOk, codes, length, string_bytes};
ghost use Rattle.std.specs.Result.{result_map_both};
ghost use Rattle.fst_semiring.specs.Names.{name_of};
ghost use Rattle.fst_verbs.specs.Describing.{info_meaning};
ghost use Rattle.fst_verbs.specs.Descriptions.{answer_text, named_line, info_text, start_text};
ghost use Rattle.fst_verbs.specs.Meaning.{Settles};
ghost use Rattle.fst_verbs.specs.Seeing.{given_seen, made_seen};

use crate::commands::named::{add_line, add_number};
use crate::given::Given;
use crate::outputs::Made;
use crate::refusal::Refusal;
use fst_semiring::{ArcType, Weight};
use fst_trim::{Info, info};
use std::alloc::{AllocError, Global};

/// The word for a property that holds or does not.
fn answer(holds: bool) -> &'static str
    ensures { result.now ≡ answer_text holds }
{
    if holds { "yes" } else { "no" }
}

/// Appends the line of the arc type.
fn add_type(text: &mut String, kind: ArcType) -> Result<(), AllocError>
    ensures { OnOk result (string_bytes text.new ≡ string_bytes text.old ++ named_line (codes "arc type") (name_of kind)) }
{
    add_line(text, "arc type", kind.name())
}

/// Appends the line of a property.
fn add_answer(text: &mut String, name: &str, holds: bool) -> Result<(), AllocError>
    ensures { OnOk result (string_bytes text.new ≡ string_bytes text.old ++ named_line name.now (answer_text holds)) }
{
    add_line(text, name, answer(holds))
}

/// Appends the line of the start.
fn add_start(text: &mut String, start: Option<u32>) -> Result<(), AllocError>
    ensures { OnOk result (string_bytes text.new ≡ string_bytes text.old ++ named_line (codes "start") (start_text start)) }
{
    match start {
        Some(state) => add_number(text, "start", state),
        None => add_line(text, "start", "none"),
    }
}

/// The text that is shown of a machine.
fn text_of(alloc: Global, info: &Info) -> Result<Vec<u8>, AllocError>
    ensures { IfOk result (λ text. text.items ≡ info_text info.now) }
{
    let mut text = String::new(alloc);
    add_type(&mut text, info.arc_type)?;
    add_number(&mut text, "states", info.states)?;
    add_number(&mut text, "arcs", info.arcs)?;
    add_start(&mut text, info.start)?;
    add_number(&mut text, "final states", info.final_states)?;
    add_number(&mut text, "input epsilons", info.input_epsilons)?;
    add_number(&mut text, "output epsilons", info.output_epsilons)?;
    add_number(&mut text, "input/output epsilons", info.both_epsilons)?;
    add_number(&mut text, "accessible states", info.accessible)?;
    add_number(&mut text, "coaccessible states", info.coaccessible)?;
    add_number(&mut text, "connected states", info.connected)?;
    add_answer(&mut text, "acceptor", info.acceptor)?;
    add_answer(&mut text, "input sorted", info.input_sorted)?;
    add_answer(&mut text, "output sorted", info.output_sorted)?;
    add_answer(&mut text, "deterministic", info.deterministic)?;
    Ok(text.into_bytes())
}

/// `info`. The machine is freed before the text is made.
pub(crate) fn described<W: Weight>(alloc: Global, given: Given<W>) -> Result<Made<W>, Refusal>
    requires { length given.machines.items ≡ 1 }
    ensures { Settles info_meaning (given_seen W.KIND W.value given) (result_map_both (made_seen W.KIND W.value) (λ e. e) result) }
{
    let machine = given.one();
    let summary = info(alloc, &machine)?;
    drop(machine);
    Ok(Made::Text(text_of(alloc, &summary)?))
}
