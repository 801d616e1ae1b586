//! Reading the inputs of a command, each fetched and judged before the next.

ghost use Rattle.std.specs.Prelude.{◌≡◌, codes};
ghost use Rattle.std.specs.Result.{result_map_both};
ghost use Rattle.fst_any.specs.Typed.{typed, typed_codex, typed_tabled};
ghost use Rattle.fst_binary.specs.Faults as binary;
ghost use Rattle.fst_codex.specs.Faults as codices;
ghost use Rattle.fst_rational.specs.Faults as pairs;
ghost use Rattle.fst_symbols.specs.Faults as symbols;
ghost use Rattle.fst_text.specs.Faults as texts;
ghost use Rattle.fst_words.specs.Inputs.{input_seen};
ghost use Rattle.fst_verbs.specs.Causes.{faulty, misread, refused};
ghost use Rattle.fst_verbs.specs.Given.{arc_type_of, choices_by, codex_in, machine_in, pairs_in, put, table_in, text_in};
ghost use Rattle.fst_verbs.specs.Seeing.{input_names, output_names};
ghost use Rattle.fst_command.specs.Views.{held_seen};
ghost use Rattle.fst_command.specs.Steps.{ReadsAll, StepAnswer};
ghost use Rattle.fst_verbs.specs.Told.{IsMade, Judges};

use crate::files::read_input;
use crate::held::Held;
use fst_any::{AnyCodex, AnyFst, AnyTabled, compile_any, decode_any, read_any_codex};
use fst_binary::{BinaryFault, BinaryKind};
use fst_codex::{CodexFault, CodexKind};
use fst_desk::Desk;
use fst_rational::{Pairs, PairsFault};
use fst_symbols::{SymbolTable, SymbolsFault};
use fst_text::{TextFault, TextOptions};
use fst_verbs::{Carried, Refusal, Tables, arc_type_of, misread};
use fst_words::{Input, Options, Plan, Role, Room};
use std::alloc::Global;

/// A content is not of its form, at a line.
fn not_at_line(alloc: Global, name: &str, line: u64, reason: &'static str) -> Refusal
    ensures { IsMade (refused (faulty (misread name.now (codes "line") line reason.now))) result }
{
    misread(alloc, name, "line", line, reason)
}

/// A content is no symbol table.
fn not_symbols(alloc: Global, name: &str, fault: SymbolsFault) -> Refusal
    ensures made { IsMade (refused (faulty (misread name.now (codes "line") (symbols.line_of fault) (symbols.reason_of fault)))) result }
    ensures memory { fault ≡ SymbolsFault.Memory → result ≡ Refusal.Memory }
{
    match fault {
        SymbolsFault::Memory => Refusal::Memory,
        _ => not_at_line(alloc, name, fault.line(), fault.reason()),
    }
}

/// The symbol table of a content.
#[tactic(auto, unfolding(fst_verbs::specs::Given::table_in))]
fn read_table(alloc: Global, name: &str, content: &[u8]) -> Result<SymbolTable, Refusal>
    ensures { Judges (λ table. table) result (table_in name.now content.now) }
{
    match SymbolTable::read(alloc, content) {
        Ok(table) => Ok(table),
        Err(fault) => Err(not_symbols(alloc, name, fault)),
    }
}

/// A content has no pairs of labels.
fn not_pairs(alloc: Global, name: &str, fault: PairsFault) -> Refusal
    ensures made { IsMade (refused (faulty (misread name.now (codes "line") (pairs.line_of fault) (pairs.reason_of fault)))) result }
    ensures memory { fault ≡ PairsFault.Memory → result ≡ Refusal.Memory }
{
    match fault {
        PairsFault::Memory => Refusal::Memory,
        _ => not_at_line(alloc, name, fault.line(), fault.reason()),
    }
}

/// The pairs of labels of a content.
#[tactic(auto, unfolding(fst_verbs::specs::Given::pairs_in))]
fn read_pairs(alloc: Global, name: &str, content: &[u8]) -> Result<Pairs, Refusal>
    ensures { Judges (λ pairs. pairs) result (pairs_in name.now content.now) }
{
    match fst_rational::read_pairs(alloc, content) {
        Ok(pairs) => Ok(pairs),
        Err(fault) => Err(not_pairs(alloc, name, fault)),
    }
}

/// How texts are read.
fn choices<'t>(options: &Options, tables: &'t Tables) -> TextOptions<'t>
    ensures { result ≡ choices_by options.now (input_names tables.entry.now) (output_names tables.entry.now) }
{
    TextOptions {
        acceptor: options.acceptor,
        keep_state_numbering: options.keep_state_numbering,
        show_weight_one: options.show_weight_one,
        isymbols: tables.of_input(),
        osymbols: tables.of_output(),
    }
}

/// A content is no text of a machine.
fn not_text(alloc: Global, name: &str, fault: TextFault) -> Refusal
    ensures made { IsMade (refused (faulty (misread name.now (codes "line") (texts.line_of fault) (texts.reason_of fault)))) result }
    ensures memory { fault ≡ TextFault.Memory → result ≡ Refusal.Memory }
{
    match fault {
        TextFault::Memory => Refusal::Memory,
        _ => not_at_line(alloc, name, fault.line(), fault.reason()),
    }
}

/// The machine of a text, read by the tables that stand there.
#[tactic(auto, unfolding(fst_verbs::specs::Given::text_in))]
fn read_text(
    alloc: Global,
    options: &Options,
    held: &Held,
    name: &str,
    content: &[u8],
) -> Result<AnyFst, Refusal>
    ensures { Judges (λ m. typed m) result (text_in (arc_type_of options.now) (choices_by options.now (input_names held.now.tables) (output_names held.now.tables)) name.now content.now) }
{
    let kind = arc_type_of(options);
    let choices = choices(options, &held.tables);
    match compile_any(alloc, kind, content, &choices) {
        Ok(machine) => Ok(machine),
        Err(fault) => Err(not_text(alloc, name, fault)),
    }
}

/// A content is no binary form of a machine.
fn not_binary(alloc: Global, name: &str, fault: BinaryFault) -> Refusal
    ensures made { IsMade (refused (faulty (misread name.now (codes "byte") fault.offset (binary.reason_of fault.kind)))) result }
    ensures memory { fault.kind ≡ BinaryKind.Memory → result ≡ Refusal.Memory }
{
    match fault.kind {
        BinaryKind::Memory => Refusal::Memory,
        kind => misread(alloc, name, "byte", fault.offset, kind.reason()),
    }
}

/// The machine of a content in the binary form, and the symbol tables that it carries.
#[tactic(auto, unfolding(fst_verbs::specs::Given::machine_in))]
fn read_machine(alloc: Global, name: &str, content: &[u8]) -> Result<AnyTabled, Refusal>
    ensures { Judges (λ t. typed_tabled t) result (machine_in name.now content.now) }
{
    match decode_any(alloc, content) {
        Ok(tabled) => Ok(tabled),
        Err(fault) => Err(not_binary(alloc, name, fault)),
    }
}

/// A content is no codex.
fn not_codex(alloc: Global, name: &str, fault: CodexFault) -> Refusal
    ensures made { IsMade (refused (faulty (misread name.now (codes "byte") fault.offset (codices.reason_of fault.kind)))) result }
    ensures memory { fault.kind ≡ CodexKind.Memory → result ≡ Refusal.Memory }
{
    match fault.kind {
        CodexKind::Memory => Refusal::Memory,
        kind => misread(alloc, name, "byte", fault.offset, kind.reason()),
    }
}

/// The codex of a content.
#[tactic(auto, unfolding(fst_verbs::specs::Given::codex_in))]
fn read_codex(alloc: Global, name: &str, content: &[u8]) -> Result<AnyCodex, Refusal>
    ensures { Judges (λ c. typed_codex c) result (codex_in name.now content.now) }
{
    match read_any_codex(alloc, content) {
        Ok(codex) => Ok(codex),
        Err(fault) => Err(not_codex(alloc, name, fault)),
    }
}

/// Puts what a content stands for beside what stands there, by what the input is for.
#[tactic(auto, unfolding(fst_verbs::specs::Given::put))]
fn put(
    alloc: Global,
    options: &Options,
    role: Role,
    name: &str,
    content: &[u8],
    held: &mut Held,
) -> Result<(), Refusal>
    ensures { Judges (λ u. held_seen held.new) result (put options.now role name.now content.now (held_seen held.old)) }
{
    match role {
        Role::InputSymbols => held.tables.put_input(read_table(alloc, name, content)?),
        Role::OutputSymbols => held.tables.put_output(read_table(alloc, name, content)?),
        Role::BothSymbols => held.tables.put_both(read_table(alloc, name, content)?),
        Role::InputPairs => held.ipairs = read_pairs(alloc, name, content)?,
        Role::OutputPairs => held.opairs = read_pairs(alloc, name, content)?,
        Role::Text => {
            let machine = read_text(alloc, options, held, name, content)?;
            held.machines.push(machine)?;
        }
        Role::Machine => {
            let tabled = read_machine(alloc, name, content)?;
            let carried = Carried {
                isymbols: tabled.isymbols,
                osymbols: tabled.osymbols,
            };
            held.tables.put_carried(held.machines.len(), carried);
            held.machines.push(tabled.fst)?;
        }
        Role::Codex => held.codex = Some(read_codex(alloc, name, content)?),
        Role::Lines => held.lines = Vec::from_slice(alloc, content)?,
    }
    Ok(())
}

/// Whether an input has a machine.
fn has_machine(role: Role) -> bool {
    match role {
        Role::Text | Role::Machine => true,
        _ => false,
    }
}

/// From so many arcs on, the content of a machine is freed before lists of its arcs are made.
const MANY_ARCS: u32 = 1 << 20;

/// And where a state has more arcs than these, in the mean: such a machine takes little but for its arcs, and is nearly as
/// long as its content.
const MANY_OF_A_STATE: u32 = 16;

/// Whether the content of the machine may stay while short lists of its states and arcs are made.
fn is_light(machine: &AnyFst) -> bool {
    let (states, arcs) = match machine {
        AnyFst::Boolean(fst) => (fst.states(), fst.arc_count()),
        AnyFst::Tropical(fst) => (fst.states(), fst.arc_count()),
        AnyFst::MinMax(fst) => (fst.states(), fst.arc_count()),
        AnyFst::Lexicographic(fst) => (fst.states(), fst.arc_count()),
    };
    arcs < MANY_ARCS && arcs / MANY_OF_A_STATE <= states
}

/// Whether the one machine is light.
fn are_light(machines: &[AnyFst]) -> bool {
    match machines {
        [machine] => is_light(machine),
        _ => false,
    }
}

/// Keeps the content of a machine for the bytes or the text of the output, as the command's row says, or frees it.
fn keep_room(room: Room, content: Vec<u8>, held: &mut Held)
    ensures { held_seen held.new ≡ held_seen held.old }
{
    match room {
        Room::Freed => {}
        Room::Output => held.room = content,
        Room::LightOutput => {
            if are_light(held.machines.as_slice()) {
                held.room = content;
            }
        }
        Room::Text => held.text_room = content,
    }
}

/// Fetches an input, and puts what it stands for beside what stands there. The content of a machine of which the output is
/// made in place, or which is printed, stays as a room until a further input is fetched; any other is freed.
fn read_one<D: Desk>(
    alloc: Global,
    desk: &mut D,
    plan: &Plan,
    input: Input,
    held: &mut Held,
) -> Result<(), Refusal>
    ensures { StepAnswer (input_seen input.entry) plan.now.options (held_seen held.old) (held_seen held.new) (D.seen desk.old) (D.seen desk.new) result }
{
    let name = input.name.text();
    // No content stays beside the next.
    held.room = Vec::new(alloc);
    let content = read_input(alloc, desk, name)?;
    put(
        alloc,
        &plan.options,
        input.role,
        name,
        content.as_slice(),
        held,
    )?;
    if has_machine(input.role) {
        keep_room(plan.command.room(), content, held);
    }
    Ok(())
}

/// Reads all inputs of a command, the files of its options first. Each is fetched once, and judged and freed before the
/// next is fetched; the content that was read last stays as a room, where the command makes its machine in place or prints
/// it. The first that is too long or has a fault is the refusal.
pub(crate) fn read_all<D: Desk>(alloc: Global, desk: &mut D, plan: &Plan) -> Result<Held, Refusal>
    ensures { ReadsAll plan.now (D.seen desk.old) (D.seen desk.new) (result_map_both held_seen (λ e. e) result) }
{
    let inputs = match plan.inputs(alloc) {
        Ok(inputs) => inputs,
        Err(_) => return Err(Refusal::Memory),
    };
    let mut held = Held::new(alloc);
    for place in 0..inputs.len() {
        match read_one(alloc, desk, plan, inputs[place], &mut held) {
            Ok(()) => {}
            Err(refusal) => return Err(refusal),
        }
    }
    Ok(held)
}
