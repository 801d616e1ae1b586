//! `compile` and `print`.

ghost use Rattle.std.specs.Prelude.{◌≡◌, length};
ghost use Rattle.std.specs.Result.{result_map_both};
ghost use Rattle.fst_text.specs.Faults.{print_text};
ghost use Rattle.fst_verbs.specs.Causes.{faulty, refused, unmade};
ghost use Rattle.fst_verbs.specs.Meaning.{Settles};
ghost use Rattle.fst_verbs.specs.Seeing.{given_seen, given_with, made_seen, tables_seen};
ghost use Rattle.fst_verbs.specs.Texts.{compile_meaning, print_choices, print_meaning};
ghost use Rattle.fst_verbs.specs.Told.{IsMade};

use crate::given::{Given, one};
use crate::outputs::Made;
use crate::refusal::{Refusal, unmade};
use crate::tables::Tables;
use fst_semiring::Weight;
use fst_text::{PrintFault, TextOptions, print_into};
use fst_words::Options;
use std::alloc::Global;

/// The machine has no text.
fn unprinted(alloc: Global, fault: PrintFault) -> Refusal
    ensures made { IsMade (refused (faulty (unmade (print_text fault)))) result }
    ensures memory { fault ≡ PrintFault.Memory → result ≡ Refusal.Memory }
{
    match fault {
        PrintFault::Memory => Refusal::Memory,
        _ => unmade(alloc, fault),
    }
}

/// `compile`: the machine of the text, as it was read.
pub(crate) fn compiled<W: Weight>(given: Given<W>) -> Result<Made<W>, Refusal>
    requires { length given.machines.items ≡ 1 }
    ensures { Settles compile_meaning (given_seen W.KIND W.value given) (result_map_both (made_seen W.KIND W.value) (λ e. e) result) }
{
    Ok(Made::Machine(given.one()))
}

/// How texts are printed: a side by the names of its option, or else by those that the machine carries.
fn print_choices<'t>(options: &Options, tables: &'t Tables) -> TextOptions<'t>
    ensures { result ≡ print_choices options.now (tables_seen tables.entry.now) }
{
    TextOptions {
        acceptor: options.acceptor,
        keep_state_numbering: options.keep_state_numbering,
        show_weight_one: options.show_weight_one,
        isymbols: tables.shown_input(options.numeric),
        osymbols: tables.shown_output(options.numeric),
    }
}

/// `print`: the text is made where the content of the machine stood.
pub(crate) fn printed<W: Weight>(
    alloc: Global,
    options: &Options,
    given: Given<W>,
    tables: &Tables,
) -> Result<Made<W>, Refusal>
    requires { length given.machines.items ≡ 1 }
    ensures { Settles (print_meaning options.now) (given_with tables.now W.KIND W.value given) (result_map_both (made_seen W.KIND W.value) (λ e. e) result) }
{
    let machine = one(given.machines);
    let room = given.text_room;
    let choices = print_choices(options, tables);
    match print_into(room, &machine, &choices) {
        Ok(text) => Ok(Made::Text(text)),
        Err(fault) => Err(unprinted(alloc, fault)),
    }
}
