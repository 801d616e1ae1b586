//! The text of a machine.

ghost use Rattle.std.specs.Prelude.{◌≡◌, ◌<◌, ◌≤◌, ◌+◌, ◌*◌, ◌==◌, ◌∷◌, ◌++◌, if◌then◌else◌, [], length, map, true, None, Some, IfOk, OnOk, vec_capacity};
ghost use Rattle.std.specs.Fmt.{decimal};
ghost use Rattle.std.specs.Option.{option_map};
ghost use Rattle.fst_machine.specs.Machine.{arc_total, most_arcs, valued, valued_arc, valued_state};
ghost use Rattle.fst_text.specs.Entries.{arc_entry};
ghost use Rattle.fst_text.specs.Printed.{Names, Prints, behind_tabs, entries_at, field_of_label, final_entries, first_unnamed, is_numbered, label_fields, labels_of_arc, mean_length, named_room, other_entries, output_length, split_arc, split_state, text_of_entries, text_of_machine, unnamed_label, weight_fields};

use crate::fault::PrintFault;
use crate::line::{
    LINE_ROOM, is_shown, write_arc, write_last_arc, write_last_field, write_last_number,
    write_number, write_weight,
};
use crate::options::TextOptions;
use fst_machine::{Fst, FstArc};
use fst_semiring::{Weight, is_zero};
use fst_symbols::SymbolTable;
use std::alloc::{AllocError, Global};

/// The bytes that are reserved for the line of an arc, and for the final line of a state.
const ARC_ROOM: usize = 32;

const STATE_ROOM: usize = 16;

/// Whether the labels that are printed are printed as their numbers.
fn is_numbered(options: &TextOptions) -> bool
    ensures { result ≡ is_numbered options.now }
{
    options.isymbols.is_none() && (options.acceptor || options.osymbols.is_none())
}

/// Appends a field that is a number.
fn push_number_field(
    out: &mut Vec<u8>,
    line: &mut [u8; LINE_ROOM],
    number: u32,
) -> Result<(), AllocError>
    ensures { OnOk result (out.new.items ≡ out.old.items ++ behind_tabs (decimal number ∷ [])) }
{
    let start = write_last_field(line, number);
    out.extend_from_slice(&line[start..])
}

/// Appends a field that is a name.
fn push_name_field(out: &mut Vec<u8>, name: &[u8]) -> Result<(), AllocError>
    ensures { OnOk result (out.new.items ≡ out.old.items ++ behind_tabs (name.now ∷ [])) }
{
    out.push(b'\t')?;
    out.extend_from_slice(name)
}

/// Appends the field of a weight, where it is not left out, and the end of its line.
fn push_weight<W: Weight>(
    out: &mut Vec<u8>,
    line: &mut [u8; LINE_ROOM],
    options: &TextOptions,
    weight: W,
) -> Result<(), AllocError>
    ensures { OnOk result (out.new.items ≡ out.old.items ++ behind_tabs (weight_fields W.KIND options.now (W.value weight)) ++ 10 ∷ []) }
{
    if let Some(start) = write_weight::<W>(line, options, weight) {
        return out.extend_from_slice(&line[start..]);
    }
    if is_shown::<W>(options, weight) {
        out.push(b'\t')?;
        weight.push_text(out)?;
    }
    out.push(b'\n')?;
    Ok(())
}

/// Appends the field of a label: its name where its side has a symbol table, else its number. The fault, where the
/// label has no name.
fn push_label(
    out: &mut Vec<u8>,
    line: &mut [u8; LINE_ROOM],
    symbols: Option<&SymbolTable>,
    label: u32,
) -> Result<Result<(), PrintFault>, AllocError>
    ensures text { IfOk result (λ r. OnOk r (out.new.items ≡ out.old.items ++ behind_tabs (field_of_label (record { symbols = option_map (λ t. t.now) symbols.entry; number = label }) ∷ []))) }
    ensures named { IfOk result (λ r. Names r (first_unnamed (record { symbols = option_map (λ t. t.now) symbols.entry; number = label } ∷ []))) }
{
    let Some(symbols) = symbols else {
        push_number_field(out, line, label)?;
        return Ok(Ok(()));
    };
    let Some(name) = symbols.name(label) else {
        return Ok(Err(PrintFault::UnknownSymbol { label }));
    };
    push_name_field(out, name)?;
    Ok(Ok(()))
}

/// Appends the fields of the labels of an arc.
fn push_labels<W: Weight>(
    out: &mut Vec<u8>,
    line: &mut [u8; LINE_ROOM],
    options: &TextOptions,
    arc: &FstArc<W>,
) -> Result<Result<(), PrintFault>, AllocError>
    ensures text { IfOk result (λ r. OnOk r (out.new.items ≡ out.old.items ++ behind_tabs (label_fields options.now (valued_arc W.value arc.now)))) }
    ensures named { IfOk result (λ r. Names r (first_unnamed (labels_of_arc options.now (valued_arc W.value arc.now)))) }
{
    if let Err(fault) = push_label(out, line, options.isymbols, arc.ilabel)? {
        return Ok(Err(fault));
    }
    if options.acceptor {
        return Ok(Ok(()));
    }
    push_label(out, line, options.osymbols, arc.olabel)
}

/// Appends the line of an arc.
fn push_arc<W: Weight>(
    out: &mut Vec<u8>,
    line: &mut [u8; LINE_ROOM],
    options: &TextOptions,
    state: u32,
    arc: &FstArc<W>,
) -> Result<Result<(), PrintFault>, AllocError>
    ensures text { IfOk result (λ r. OnOk r (out.new.items ≡ out.old.items ++ text_of_entries W.KIND options.now (arc_entry state (valued_arc W.value arc.now) ∷ []))) }
    ensures named { IfOk result (λ r. Names r (first_unnamed (labels_of_arc options.now (valued_arc W.value arc.now)))) }
{
    let next = write_last_field(line, arc.next);
    let start = write_number(line, next, state);
    out.extend_from_slice(&line[start..])?;
    if let Err(fault) = push_labels::<W>(out, line, options, arc)? {
        return Ok(Err(fault));
    }
    push_weight::<W>(out, line, options, arc.weight)?;
    Ok(Ok(()))
}

/// Appends the line of an arc whose labels are printed as their numbers: at once, where its weight is a single number.
fn push_numbered_arc<W: Weight>(
    out: &mut Vec<u8>,
    line: &mut [u8; LINE_ROOM],
    options: &TextOptions,
    state: u32,
    arc: &FstArc<W>,
) -> Result<(), AllocError>
    requires { is_numbered options.now ≡ true }
    ensures { OnOk result (out.new.items ≡ out.old.items ++ text_of_entries W.KIND options.now (arc_entry state (valued_arc W.value arc.now) ∷ [])) }
{
    if let Some(end) = write_weight::<W>(line, options, arc.weight) {
        let start = write_arc::<W>(line, end, options, state, arc);
        return out.extend_from_slice(&line[start..]);
    }
    let start = write_last_arc::<W>(line, options, state, arc);
    out.extend_from_slice(&line[start..])?;
    push_weight::<W>(out, line, options, arc.weight)
}

/// Appends the lines of arcs of a state, whose labels are printed as their numbers.
fn push_numbered_arcs<W: Weight>(
    out: &mut Vec<u8>,
    line: &mut [u8; LINE_ROOM],
    options: &TextOptions,
    state: u32,
    arcs: &[FstArc<W>],
) -> Result<(), AllocError>
    requires { is_numbered options.now ≡ true }
    ensures { OnOk result (out.new.items ≡ out.old.items ++ text_of_entries W.KIND options.now (map (arc_entry state) (map (valued_arc W.value) arcs.now))) }
{
    for arc in arcs {
        push_numbered_arc::<W>(out, line, options, state, arc)?;
    }
    Ok(())
}

/// Appends the lines of arcs of a state, some of whose labels are printed as their names.
fn push_named_arcs<W: Weight>(
    out: &mut Vec<u8>,
    line: &mut [u8; LINE_ROOM],
    options: &TextOptions,
    state: u32,
    arcs: &[FstArc<W>],
) -> Result<Result<(), PrintFault>, AllocError>
    ensures text { IfOk result (λ r. OnOk r (out.new.items ≡ out.old.items ++ text_of_entries W.KIND options.now (map (arc_entry state) (map (valued_arc W.value) arcs.now)))) }
    ensures named { IfOk result (λ r. Names r (unnamed_label options.now (map (arc_entry state) (map (valued_arc W.value) arcs.now)))) }
{
    for arc in arcs {
        if let Err(fault) = push_arc::<W>(out, line, options, state, arc)? {
            return Ok(Err(fault));
        }
    }
    Ok(Ok(()))
}

/// Appends the lines of arcs of a state.
fn push_arcs<W: Weight>(
    out: &mut Vec<u8>,
    line: &mut [u8; LINE_ROOM],
    options: &TextOptions,
    state: u32,
    arcs: &[FstArc<W>],
) -> Result<Result<(), PrintFault>, AllocError>
    ensures text { IfOk result (λ r. OnOk r (out.new.items ≡ out.old.items ++ text_of_entries W.KIND options.now (map (arc_entry state) (map (valued_arc W.value) arcs.now)))) }
    ensures named { IfOk result (λ r. Names r (unnamed_label options.now (map (arc_entry state) (map (valued_arc W.value) arcs.now)))) }
{
    if is_numbered(options) {
        push_numbered_arcs::<W>(out, line, options, state, arcs)?;
        return Ok(Ok(()));
    }
    push_named_arcs::<W>(out, line, options, state, arcs)
}

/// Appends the final line of a state.
fn push_final<W: Weight>(
    out: &mut Vec<u8>,
    line: &mut [u8; LINE_ROOM],
    options: &TextOptions,
    state: u32,
    weight: W,
    arcs: &[FstArc<W>],
) -> Result<(), AllocError>
    ensures { OnOk result (out.new.items ≡ out.old.items ++ text_of_entries W.KIND options.now (final_entries state (W.value weight) (map (valued_arc W.value) arcs.now))) }
{
    if !arcs.is_empty() && is_zero(weight) {
        return Ok(());
    }
    if let Some(end) = write_weight::<W>(line, options, weight) {
        let start = write_number(line, end, state);
        return out.extend_from_slice(&line[start..]);
    }
    let start = write_last_number(line, state);
    out.extend_from_slice(&line[start..])?;
    push_weight::<W>(out, line, options, weight)
}

/// Appends the lines of a state.
fn push_state<W: Weight>(
    out: &mut Vec<u8>,
    options: &TextOptions,
    fst: &Fst<W>,
    state: u32,
) -> Result<Result<(), PrintFault>, AllocError>
    requires { state < length fst.now.states }
    ensures text { IfOk result (λ r. OnOk r (out.new.items ≡ out.old.items ++ text_of_entries W.KIND options.now (entries_at state (map (valued_state W.value) fst.now.states)))) }
    ensures named { IfOk result (λ r. Names r (unnamed_label options.now (entries_at state (map (valued_state W.value) fst.now.states)))) }
{
    let arcs = fst.arcs(state);
    let mut line = [0; LINE_ROOM];
    match push_arcs::<W>(out, &mut line, options, state, arcs)? {
        Ok(()) => {}
        Err(fault) => return Ok(Err(fault)),
    }
    push_final::<W>(
        out,
        &mut line,
        options,
        state,
        fst.final_weight(state),
        arcs,
    )?;
    Ok(Ok(()))
}

/// Appends the lines of a state that is not the start.
fn push_other<W: Weight>(
    out: &mut Vec<u8>,
    options: &TextOptions,
    fst: &Fst<W>,
    start: u32,
    state: u32,
) -> Result<Result<(), PrintFault>, AllocError>
    requires { state < length fst.now.states }
    ensures text { IfOk result (λ r. OnOk r (out.new.items ≡ out.old.items ++ text_of_entries W.KIND options.now (if state == start then [] else entries_at state (map (valued_state W.value) fst.now.states)))) }
    ensures named { IfOk result (λ r. Names r (unnamed_label options.now (if state == start then [] else entries_at state (map (valued_state W.value) fst.now.states)))) }
{
    if state == start {
        return Ok(Ok(()));
    }
    push_state::<W>(out, options, fst, state)
}

/// Appends the lines of the states but the start.
fn push_others<W: Weight>(
    out: &mut Vec<u8>,
    options: &TextOptions,
    fst: &Fst<W>,
    start: u32,
) -> Result<Result<(), PrintFault>, AllocError>
    ensures text { IfOk result (λ r. OnOk r (out.new.items ≡ out.old.items ++ text_of_entries W.KIND options.now (other_entries start 0 (map (valued_state W.value) fst.now.states)))) }
    ensures named { IfOk result (λ r. Names r (unnamed_label options.now (other_entries start 0 (map (valued_state W.value) fst.now.states)))) }
{
    for state in 0..fst.states() {
        match push_other::<W>(out, options, fst, start, state)? {
            Ok(()) => {}
            Err(fault) => return Ok(Err(fault)),
        }
    }
    Ok(Ok(()))
}

/// The first of the arcs of a state with two different labels.
fn split_arc<W: Weight>(state: u32, arcs: &[FstArc<W>]) -> Option<PrintFault>
    requires { length arcs.now ≤ most_arcs }
    ensures { result ≡ split_arc state 0 (map (valued_arc W.value) arcs.now) }
{
    for (place, arc) in arcs.iter().enumerate() {
        if arc.ilabel != arc.olabel {
            return Some(PrintFault::NotAcceptor {
                state,
                place: place as u32,
            });
        }
    }
    None
}

/// The first arc of a machine with two different labels.
fn split_state<W: Weight>(fst: &Fst<W>) -> Option<PrintFault>
    ensures { result ≡ split_state 0 (map (valued_state W.value) fst.now.states) }
{
    for state in 0..fst.states() {
        match split_arc::<W>(state, fst.arcs(state)) {
            Some(fault) => return Some(fault),
            None => {}
        }
    }
    None
}

/// The bytes that are reserved for a text whose labels are numbers: most machines fit, and room that stays empty costs no
/// memory.
fn text_room<W: Weight>(fst: &Fst<W>) -> usize
    ensures { result ≡ arc_total fst.now.states * 32 + length fst.now.states * 16 }
{
    fst.arc_count() as usize * ARC_ROOM + fst.states() as usize * STATE_ROOM
}

/// The mean length of the names of a side; 0 where it has no symbol table.
fn mean_length(symbols: Option<&SymbolTable>) -> usize
    ensures { result ≡ mean_length (option_map (λ t. t.now) symbols.entry) }
{
    match symbols {
        Some(symbols) => symbols.mean_name_length(),
        None => 0,
    }
}

/// The mean length of the names of output labels; 0 where these are not printed, or printed as numbers.
fn output_length(options: &TextOptions) -> usize
    ensures { result ≡ output_length options.now }
{
    if options.acceptor {
        0
    } else {
        mean_length(options.osymbols)
    }
}

/// The bytes that are reserved for a text: for each name that is printed the mean length of those of its table, beside what
/// numbers take. So a text with long names is not copied while it grows.
fn named_room<W: Weight>(fst: &Fst<W>, options: &TextOptions) -> usize
    ensures { result ≡ named_room options.now fst.now.states }
{
    let arcs = fst.arc_count() as usize;
    let inputs = arcs.saturating_mul(mean_length(options.isymbols));
    let outputs = arcs.saturating_mul(output_length(options));
    text_room::<W>(fst)
        .saturating_add(inputs)
        .saturating_add(outputs)
}

/// Makes an empty room large enough for most texts of the machine. Where there is no memory for that, it is as large as if
/// all labels were numbers, since the names that are printed may be far shorter than the mean.
fn reserve<W: Weight>(
    room: &mut Vec<u8>,
    fst: &Fst<W>,
    options: &TextOptions,
) -> Result<(), AllocError>
    ensures same { room.new.items ≡ room.old.items }
    ensures room { OnOk result (arc_total fst.now.states * 32 + length fst.now.states * 16 ≤ vec_capacity room.new) }
{
    let numbers = text_room::<W>(fst);
    let names = named_room::<W>(fst, options);
    if names > numbers && room.reserve_exact(names).is_ok() {
        return Ok(());
    }
    room.reserve_exact(numbers)
}

/// The text of a machine with a start, in an empty room; the fault, where a label has no name.
fn print_from<W: Weight>(
    room: Vec<u8>,
    fst: &Fst<W>,
    options: &TextOptions,
    start: u32,
) -> Result<Result<Vec<u8>, PrintFault>, AllocError>
    requires start { start < length fst.now.states }
    requires empty { room.items ≡ [] }
    ensures text { IfOk result (λ r. IfOk r (λ text. text.items ≡ text_of_entries W.KIND options.now (entries_at start (map (valued_state W.value) fst.now.states) ++ other_entries start 0 (map (valued_state W.value) fst.now.states)))) }
    ensures named { IfOk result (λ r. Names r (unnamed_label options.now (entries_at start (map (valued_state W.value) fst.now.states) ++ other_entries start 0 (map (valued_state W.value) fst.now.states)))) }
{
    let mut out = room;
    reserve::<W>(&mut out, fst, options)?;
    match push_state::<W>(&mut out, options, fst, start)? {
        Ok(()) => {}
        Err(fault) => return Ok(Err(fault)),
    }
    match push_others::<W>(&mut out, options, fst, start)? {
        Ok(()) => {}
        Err(fault) => return Ok(Err(fault)),
    }
    Ok(Ok(out))
}

/// The text of a machine: the lines of the start, then those of the other states by number. A state's lines
/// are its arcs in order, then a final line where it is final; a state with no arcs that is not final has a
/// final line with weight Zero. Fields are joined by one tab, and a line feed ends each line. A label is
/// printed as its name where its side has a symbol table. A weight One is left out unless it is to be shown.
/// A machine without a start has the empty text.
///
/// `NotAcceptor` exactly where it is to be printed as an acceptor and an arc of any state has two different
/// labels; else `UnknownSymbol` exactly where a label that is to be printed has no name in the table of its
/// side.
pub fn print<W: Weight>(
    alloc: Global,
    fst: &Fst<W>,
    options: &TextOptions,
) -> Result<Vec<u8>, PrintFault>
    ensures { Prints (λ text. text.items) result (text_of_machine W.KIND options.now (valued W.value fst.now)) }
{
    print_into::<W>(Vec::new(alloc), fst, options)
}

/// The text of a machine, as `print` has it, made in a room that is given: what stands there goes, and a room that is
/// smaller than what `print` reserves grows to that first.
pub fn print_into<W: Weight>(
    room: Vec<u8>,
    fst: &Fst<W>,
    options: &TextOptions,
) -> Result<Vec<u8>, PrintFault>
    ensures { Prints (λ text. text.items) result (text_of_machine W.KIND options.now (valued W.value fst.now)) }
{
    if options.acceptor {
        if let Some(fault) = split_state::<W>(fst) {
            return Err(fault);
        }
    }
    let mut room = room;
    room.clear();
    let Some(start) = fst.start() else {
        return Ok(room);
    };
    match print_from::<W>(room, fst, options, start) {
        Ok(Ok(text)) => Ok(text),
        Ok(Err(fault)) => Err(fault),
        Err(_) => Err(PrintFault::Memory),
    }
}
