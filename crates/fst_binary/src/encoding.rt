//! Writing the binary form.

ghost use Rattle.std.specs.Prelude.{◌≡◌, ◌≢◌, ◌≤◌, ◌++◌, ◌∷◌, ◌+◌, ◌*◌, ◌<◌, drop, length, map, take, vec_capacity, [], All, Contains, IfOk, IsOk, Ok};
ghost use Rattle.std.specs.List.{flat_map};
ghost use Rattle.fst_machine.specs.Machine.{arc_total, most_arcs, most_states, valued, valued_arc, valued_state};
ghost use Rattle.fst_semiring.specs.Cost.{infinite};
ghost use Rattle.fst_semiring.specs.Names.{known, name_of};
ghost use Rattle.fst_bytes.specs.Reading.{has_best, number_count};
ghost use Rattle.fst_bytes.specs.Spelling.{HasField, long, signed, word};
ghost use Rattle.fst_binary.specs.Reading.{arc_type_of_bytes, machine_of_bytes, tabled_of_bytes};
ghost use Rattle.fst_binary.specs.Seeing.{tabled_seen};
ghost use Rattle.fst_binary.specs.Sides.{HasSides, flags_of, side_fields, version_of};
ghost use Rattle.fst_binary.specs.Spelling.{HasFields, HasSpelling, arc_fields, header_fields, spelling, start_number, state_fields, tabled_spelling, type_fields};

use crate::by_place::States;
use crate::sides::{LentTables, append_side, flags_of, side_length, version_of};
use crate::tabled::Tabled;
use byteorder::{ByteOrder, LittleEndian};
use fst_bytes::{
    append, append_arc_type, append_long, append_signed, append_text, append_weight, append_word,
    numbered_length, weight_length,
};
use fst_machine::{Fst, FstArc, Joined, Leaving};
use fst_semiring::{ArcType, Weight};
use std::alloc::{AllocError, Global};

/// Says that each weight of arcs has a field. Each weight tells it of itself, and nothing is made of what they tell, so that
/// the optimizer leaves no loop.
fn arcs_have_fields<W: Weight>(arcs: &[FstArc<W>])
    ensures { All (λ a. HasField W.KIND (W.value a.weight)) arcs.now }
{
    for arc in arcs {
        let _wide = arc.weight.widen();
    }
}

/// Whether a weight of the arc type may be the best value, which has a field of its own.
fn may_be_best(kind: ArcType) -> bool
    ensures { result ≡ has_best kind }
{
    match kind {
        ArcType::MinMax => true,
        _ => false,
    }
}

/// How many bytes an arc takes whose weight is neither Zero nor the best value.
#[tactic(auto, using(crate::proofs::Numbered::few_numbers))]
fn numbered_arc_length(kind: ArcType) -> usize
    ensures value { result ≡ 13 + 8 * number_count kind }
    ensures bound { result ≤ 29 }
{
    12 + numbered_length(kind)
}

/// How many bytes arcs take, each by its own weight.
fn arcs_length_each<W: Weight>(arcs: &[FstArc<W>]) -> usize
    requires { length arcs.now ≤ 33554432 }
    ensures value { result ≡ length (flat_map (arc_fields W.KIND) (map (valued_arc W.value) arcs.now)) }
    ensures bound { result ≤ 29 * length arcs.now }
{
    let mut len = 0;
    for arc in arcs {
        len += 12 + weight_length(arc.weight);
    }
    len
}

/// How many bytes the arcs take, whose weights are not Zero. Only a best value has a shorter field than the others.
fn arcs_length<W: Weight>(arcs: &[FstArc<W>]) -> usize
    requires few { length arcs.now ≤ 33554432 }
    requires weights { All (λ a. W.value a.weight ≢ infinite) arcs.now }
    ensures value { result ≡ length (flat_map (arc_fields W.KIND) (map (valued_arc W.value) arcs.now)) }
    ensures bound { result ≤ 29 * length arcs.now }
    ensures fits { All (λ a. HasField W.KIND (W.value a.weight)) arcs.now }
{
    arcs_have_fields(arcs);
    if may_be_best(W::KIND) {
        arcs_length_each(arcs)
    } else {
        arcs.len() * numbered_arc_length(W::KIND)
    }
}

/// How many bytes the states take, of which there are so many.
fn states_length<W: Weight, S: States<W>>(states: &S, count: usize) -> usize
    requires all { count ≡ length (S.states states.now) }
    requires few_states { count ≤ most_states }
    requires few_arcs { arc_total (S.states states.now) ≤ most_arcs }
    requires weights { All (λ s. All (λ a. W.value a.weight ≢ infinite) s.arcs) (S.states states.now) }
    ensures value { result ≡ length (flat_map (state_fields W.KIND) (map (valued_state W.value) (S.states states.now))) }
    ensures bound { result ≤ 25 * count + 29 * arc_total (S.states states.now) }
    ensures fits { All (HasFields W.value W.KIND) (S.states states.now) }
{
    let mut len = 0;
    for state in 0..count {
        len += 8 + weight_length(states.final_at(state)) + arcs_length(states.arcs_at(state));
    }
    len
}

/// Appends an arc whose weight field is the tag 1 and one number where there is room, all its bytes at once.
#[tactic(auto, unfolding(fst_bytes::specs::Spelling::word, fst_bytes::specs::Spelling::signed))]
fn append_arc_of_number(out: &mut Vec<u8>, ilabel: u32, olabel: u32, number: i64, next: u32)
    requires { length out.old.items + 21 ≤ vec_capacity out.old }
    ensures items { out.new.items ≡ out.old.items ++ (word ilabel ++ word olabel ++ (1 ∷ signed number) ++ word next) }
    ensures room { vec_capacity out.old ≤ vec_capacity out.new }
{
    let mut i = [0; 4];
    let mut o = [0; 4];
    let mut n = [0; 8];
    let mut q = [0; 4];
    LittleEndian::write_u32(&mut i, ilabel);
    LittleEndian::write_u32(&mut o, olabel);
    LittleEndian::write_i64(&mut n, number);
    LittleEndian::write_u32(&mut q, next);
    let bytes = [
        i[0], i[1], i[2], i[3], o[0], o[1], o[2], o[3], 1, n[0], n[1], n[2], n[3], n[4], n[5],
        n[6], n[7], q[0], q[1], q[2], q[3],
    ];
    append(out, &bytes);
}

/// Appends an arc where there is room, field by field.
fn append_arc_by_fields<W: Weight>(out: &mut Vec<u8>, arc: FstArc<W>)
    requires { length out.old.items + length (arc_fields W.KIND (valued_arc W.value arc)) ≤ vec_capacity out.old }
    ensures items { out.new.items ≡ out.old.items ++ arc_fields W.KIND (valued_arc W.value arc) }
    ensures room { vec_capacity out.old ≤ vec_capacity out.new }
{
    append_word(out, arc.ilabel);
    append_word(out, arc.olabel);
    append_weight(out, arc.weight);
    append_word(out, arc.next);
}

/// Appends an arc where there is room.
fn append_arc<W: Weight>(out: &mut Vec<u8>, arc: FstArc<W>)
    requires { length out.old.items + length (arc_fields W.KIND (valued_arc W.value arc)) ≤ vec_capacity out.old }
    ensures items { out.new.items ≡ out.old.items ++ arc_fields W.KIND (valued_arc W.value arc) }
    ensures room { vec_capacity out.old ≤ vec_capacity out.new }
{
    match arc.weight.single_number() {
        Some(number) => append_arc_of_number(out, arc.ilabel, arc.olabel, number, arc.next),
        None => append_arc_by_fields(out, arc),
    }
}

/// Appends arcs where there is room.
fn append_arcs<W: Weight>(out: &mut Vec<u8>, arcs: &[FstArc<W>])
    requires { length out.old.items + length (flat_map (arc_fields W.KIND) (map (valued_arc W.value) arcs.now)) ≤ vec_capacity out.old }
    ensures items { out.new.items ≡ out.old.items ++ flat_map (arc_fields W.KIND) (map (valued_arc W.value) arcs.now) }
    ensures room { vec_capacity out.old ≤ vec_capacity out.new }
{
    for arc in arcs {
        append_arc(out, *arc);
    }
}

/// Appends a state where there is room.
fn append_state<W: Weight>(out: &mut Vec<u8>, last: W, arcs: &[FstArc<W>])
    requires { length out.old.items + length (state_fields W.KIND (record { final = W.value last; arcs = map (valued_arc W.value) arcs.now })) ≤ vec_capacity out.old }
    ensures items { out.new.items ≡ out.old.items ++ state_fields W.KIND (record { final = W.value last; arcs = map (valued_arc W.value) arcs.now }) }
    ensures room { vec_capacity out.old ≤ vec_capacity out.new }
{
    append_weight(out, last);
    append_long(out, arcs.len() as u64);
    append_arcs(out, arcs);
}

/// Appends the first states where there is room.
fn append_first<W: Weight, S: States<W>>(out: &mut Vec<u8>, states: &S, count: usize)
    requires few { count ≤ length (S.states states.now) }
    requires room { length out.old.items + length (flat_map (state_fields W.KIND) (map (valued_state W.value) (S.states states.now))) ≤ vec_capacity out.old }
    ensures items { out.new.items ++ flat_map (state_fields W.KIND) (map (valued_state W.value) (drop count (S.states states.now))) ≡ out.old.items ++ flat_map (state_fields W.KIND) (map (valued_state W.value) (S.states states.now)) }
    ensures room { vec_capacity out.old ≤ vec_capacity out.new }
{
    for place in 0..count {
        append_state(out, states.final_at(place), states.arcs_at(place));
    }
}

/// Appends the states of a machine where there is room.
fn append_states<W: Weight>(out: &mut Vec<u8>, fst: &Fst<W>)
    requires { length out.old.items + length (flat_map (state_fields W.KIND) (map (valued_state W.value) fst.now.states)) ≤ vec_capacity out.old }
    ensures items { out.new.items ≡ out.old.items ++ flat_map (state_fields W.KIND) (map (valued_state W.value) fst.now.states) }
    ensures room { vec_capacity out.old ≤ vec_capacity out.new }
{
    append_first(out, fst, fst.states() as usize);
}

/// Appends the states of a list that is given away where there is room, and frees the list.
fn append_list<W: Weight>(out: &mut Vec<u8>, list: Leaving<W>)
    requires { length out.old.items + length (flat_map (state_fields W.KIND) (map (valued_state W.value) list)) ≤ vec_capacity out.old }
    ensures items { out.new.items ≡ out.old.items ++ flat_map (state_fields W.KIND) (map (valued_state W.value) list) }
    ensures room { vec_capacity out.old ≤ vec_capacity out.new }
{
    append_first(out, &list, list.len());
}

/// From so many arcs on, a machine that is given away is written in parts, where room had to be made for its bytes. The
/// room of a smaller one is not worth the time in which its arcs move.
const LARGE: u32 = 1 << 20;

/// In how many parts.
const PARTS: usize = 4;

/// Appends the states of a machine that is given away where there is room, part by part, and forgets each part.
fn append_leaving<W: Weight>(out: &mut Vec<u8>, leaving: Leaving<W>)
    requires room { length out.old.items + length (flat_map (state_fields W.KIND) (map (valued_state W.value) leaving)) ≤ vec_capacity out.old }
    ensures items { out.new.items ≡ out.old.items ++ flat_map (state_fields W.KIND) (map (valued_state W.value) leaving) }
    ensures room { vec_capacity out.old ≤ vec_capacity out.new }
{
    let mut left = leaving;
    let part = (left.len() / PARTS).max(1);
    while left.len() > 0 {
        let count = part.min(left.len());
        append_first(out, &left, count);
        left.forget(count);
    }
}

/// How many bytes stand before the tables.
fn header_length(kind: ArcType) -> usize
    ensures { result ≡ 58 + length (name_of kind) }
{
    58 + kind.name().len()
}

/// How many bytes the tables take.
fn tables_length(tables: &LentTables) -> usize
    ensures value { result ≡ length (side_fields tables.now.isymbols) + length (side_fields tables.now.osymbols) }
    ensures bound { result ≤ 42949672974 }
    ensures fits { HasSides tables.now }
{
    side_length(tables.isymbols) + side_length(tables.osymbols)
}

/// Appends the fields up to the flags where there is room.
fn append_types(out: &mut Vec<u8>, kind: ArcType, tables: &LentTables)
    requires { length out.old.items + 26 + length (name_of kind) ≤ vec_capacity out.old }
    ensures items { out.new.items ≡ out.old.items ++ (type_fields kind ++ word (version_of tables.now.isymbols tables.now.osymbols) ++ word (flags_of tables.now.isymbols tables.now.osymbols)) }
    ensures len { length out.new.items ≡ length out.old.items + 26 + length (name_of kind) }
    ensures room { vec_capacity out.old ≤ vec_capacity out.new }
{
    append_word(out, 2_125_659_606);
    append_text(out, b"vector");
    append_arc_type(out, kind);
    append_word(out, version_of(tables));
    append_word(out, flags_of(tables));
}

/// The start as a number, -1 for none.
fn start_field(start: Option<u32>) -> i64
    ensures { result ≡ start_number start }
{
    match start {
        None => -1,
        Some(start) => i64::from(start),
    }
}

/// Appends the start and the numbers of states and arcs where there is room.
fn append_counts(out: &mut Vec<u8>, start: Option<u32>, states: u32, arcs: u32)
    requires { length out.old.items + 24 ≤ vec_capacity out.old }
    ensures items { out.new.items ≡ out.old.items ++ (signed (start_number start) ++ long states ++ long arcs) }
    ensures len { length out.new.items ≡ length out.old.items + 24 }
    ensures room { vec_capacity out.old ≤ vec_capacity out.new }
{
    append_signed(out, start_field(start));
    append_long(out, u64::from(states));
    append_long(out, u64::from(arcs));
}

/// How many bytes a machine and its tables take.
fn whole_length<W: Weight>(fst: &Fst<W>, tables: &LentTables) -> usize
    ensures value { result ≡ length (tabled_spelling W.KIND (valued W.value fst.now) tables.now) }
    ensures fits { HasSpelling W.KIND (valued W.value fst.now) }
    ensures sides { HasSides tables.now }
{
    header_length(W::KIND) + tables_length(tables) + states_length(fst, fst.states() as usize)
}

/// A room without its content, for so many bytes or more. It grows by no more than what it lacks.
fn emptied(room: Vec<u8>, len: usize) -> Result<Vec<u8>, AllocError>
    ensures items { IfOk result (λ out. out.items ≡ []) }
    ensures room { IfOk result (λ out. len ≤ vec_capacity out) }
    ensures kept { IfOk result (λ out. vec_capacity room ≤ vec_capacity out) }
    ensures succeeds { len ≤ vec_capacity room → IsOk result }
{
    let mut room = room;
    room.clear();
    room.reserve_exact(len)?;
    Ok(room)
}

/// Puts all that stands before the states where nothing stands, where there is room.
fn append_header(
    out: &mut Vec<u8>,
    kind: ArcType,
    start: Option<u32>,
    states: u32,
    arcs: u32,
    tables: &LentTables,
)
    requires empty { out.old.items ≡ [] }
    requires room { 58 + length (name_of kind) + length (side_fields tables.now.isymbols) + length (side_fields tables.now.osymbols) ≤ vec_capacity out.old }
    ensures items { out.new.items ≡ header_fields kind tables.now start states arcs }
    ensures room { vec_capacity out.old ≤ vec_capacity out.new }
{
    append_types(out, kind, tables);
    append_long(out, 3);
    append_counts(out, start, states, arcs);
    append_side(out, tables.isymbols);
    append_side(out, tables.osymbols);
}

/// Puts all that stands before the states of a machine where nothing stands, where there is room for the whole machine.
fn append_header_of<W: Weight>(out: &mut Vec<u8>, fst: &Fst<W>, tables: &LentTables)
    requires empty { out.old.items ≡ [] }
    requires room { length (tabled_spelling W.KIND (valued W.value fst.now) tables.now) ≤ vec_capacity out.old }
    ensures items { out.new.items ++ flat_map (state_fields W.KIND) (map (valued_state W.value) fst.now.states) ≡ tabled_spelling W.KIND (valued W.value fst.now) tables.now }
    ensures left { length out.new.items + length (flat_map (state_fields W.KIND) (map (valued_state W.value) fst.now.states)) ≤ vec_capacity out.new }
    ensures room { vec_capacity out.old ≤ vec_capacity out.new }
{
    append_header(
        out,
        W::KIND,
        fst.start(),
        fst.states(),
        fst.arc_count(),
        tables,
    );
}

/// The bytes of a machine and its tables, which have a spelling.
fn write_whole<W: Weight>(
    alloc: Global,
    fst: &Fst<W>,
    tables: &LentTables,
) -> Result<Vec<u8>, AllocError>
    ensures spelled { IfOk result (λ bytes. bytes.items ≡ tabled_spelling W.KIND (valued W.value fst.now) tables.now) }
    ensures fits { HasSpelling W.KIND (valued W.value fst.now) }
    ensures sides { HasSides tables.now }
{
    let len = whole_length(fst, tables);
    let mut out = Vec::with_capacity(alloc, len)?;
    append_header_of(&mut out, fst, tables);
    append_states(&mut out, fst);
    Ok(out)
}

/// The bytes of a machine and of the tables that it carries, which have a spelling.
fn write_tabled<W: Weight>(alloc: Global, tabled: &Tabled<W>) -> Result<Vec<u8>, AllocError>
    ensures spelled { IfOk result (λ bytes. bytes.items ≡ tabled_spelling W.KIND (tabled_seen W.value tabled.now).machine (tabled_seen W.value tabled.now).sides) }
    ensures fits { HasSpelling W.KIND (tabled_seen W.value tabled.now).machine }
    ensures sides { HasSides (tabled_seen W.value tabled.now).sides }
{
    let tables = LentTables {
        isymbols: tabled.isymbols.as_ref(),
        osymbols: tabled.osymbols.as_ref(),
    };
    write_whole(alloc, &tabled.fst, &tables)
}

/// Appends the states of a machine that is given away, which are forgotten as they are written, where there is room.
fn append_parts<W: Weight>(out: &mut Vec<u8>, fst: Fst<W>)
    requires { length out.old.items + length (flat_map (state_fields W.KIND) (map (valued_state W.value) fst.states)) ≤ vec_capacity out.old }
    ensures items { out.new.items ≡ out.old.items ++ flat_map (state_fields W.KIND) (map (valued_state W.value) fst.states) }
    ensures room { vec_capacity out.old ≤ vec_capacity out.new }
{
    match fst.leave() {
        Ok(leaving) => append_leaving(out, leaving),
        Err(fst) => append_states(out, &fst),
    }
}

/// The bytes of a machine that is given away and of its tables, where the content of a room stood.
fn write_given<W: Weight>(
    room: Vec<u8>,
    fst: Fst<W>,
    tables: &LentTables,
) -> Result<Vec<u8>, AllocError>
    ensures spelled { IfOk result (λ bytes. bytes.items ≡ tabled_spelling W.KIND (valued W.value fst) tables.now) }
    ensures kept { IfOk result (λ bytes. vec_capacity room ≤ vec_capacity bytes) }
    ensures succeeds { length (tabled_spelling W.KIND (valued W.value fst) tables.now) ≤ vec_capacity room → IsOk result }
    ensures fits { HasSpelling W.KIND (valued W.value fst) }
    ensures sides { HasSides tables.now }
{
    let len = whole_length(&fst, tables);
    let suffices = len <= room.capacity();
    let mut out = emptied(room, len)?;
    append_header_of(&mut out, &fst, tables);
    if suffices || fst.arc_count() < LARGE {
        append_states(&mut out, &fst);
    } else {
        append_parts(&mut out, fst);
    }
    Ok(out)
}

/// How many bytes the states of a machine take that stand in two lists.
fn parts_length<W: Weight>(first: &Leaving<W>, second: &Leaving<W>) -> usize
    requires few_states { length (first.now ++ second.now) ≤ most_states }
    requires few_arcs { arc_total (first.now ++ second.now) ≤ most_arcs }
    requires weights { All (λ s. All (λ a. W.value a.weight ≢ infinite) s.arcs) (first.now ++ second.now) }
    ensures value { result ≡ length (flat_map (state_fields W.KIND) (map (valued_state W.value) (first.now ++ second.now))) }
    ensures bound { result ≤ 1077936128 }
    ensures fits { All (HasFields W.value W.KIND) (first.now ++ second.now) }
{
    states_length(first, first.len()) + states_length(second, second.len())
}

/// The bytes of a machine in two lists that is given away and of its tables, where the content of a room stood.
fn write_joined<W: Weight>(
    room: Vec<u8>,
    joined: Joined<W>,
    tables: &LentTables,
) -> Result<Vec<u8>, AllocError>
    ensures spelled { IfOk result (λ bytes. bytes.items ≡ tabled_spelling W.KIND (valued W.value joined) tables.now) }
    ensures kept { IfOk result (λ bytes. vec_capacity room ≤ vec_capacity bytes) }
    ensures succeeds { length (tabled_spelling W.KIND (valued W.value joined) tables.now) ≤ vec_capacity room → IsOk result }
    ensures fits { HasSpelling W.KIND (valued W.value joined) }
    ensures sides { HasSides tables.now }
{
    let start = joined.start();
    let states = joined.states();
    let arcs = joined.arc_count();
    let (first, second) = joined.into_parts();
    let len = header_length(W::KIND) + tables_length(tables) + parts_length(&first, &second);
    let mut out = emptied(room, len)?;
    append_header(&mut out, W::KIND, start, states, arcs, tables);
    append_list(&mut out, first);
    append_list(&mut out, second);
    Ok(out)
}

/// The bytes of a machine without symbol tables. Their exact number is reserved at first, and nothing fails after that.
pub fn encode<W: Weight>(alloc: Global, fst: &Fst<W>) -> Result<Vec<u8>, AllocError>
    // They are the spelling of the machine,
    ensures spelled { IfOk result (λ bytes. bytes.items ≡ spelling W.KIND (valued W.value fst.now)) }
    // they are read as the machine again,
    ensures again { IfOk result (λ bytes. machine_of_bytes W.KIND bytes.items ≡ Ok (valued W.value fst.now)) }
    // and their arc type is that of the weight.
    ensures named { IfOk result (λ bytes. Contains known W.KIND → arc_type_of_bytes bytes.items ≡ Ok W.KIND) }
    // Each machine has a spelling.
    ensures fits { HasSpelling W.KIND (valued W.value fst.now) }
{
    write_whole(alloc, fst, &LentTables::none())
}

/// The bytes of a machine and of the symbol tables that it carries. Their exact number is reserved at first, and nothing
/// fails after that. Takes time by these bytes.
pub fn encode_tabled<W: Weight>(alloc: Global, tabled: &Tabled<W>) -> Result<Vec<u8>, AllocError>
    // They are the spelling of the machine and its tables,
    ensures spelled { IfOk result (λ bytes. bytes.items ≡ tabled_spelling W.KIND (tabled_seen W.value tabled.now).machine (tabled_seen W.value tabled.now).sides) }
    // they are read as these again,
    ensures again { IfOk result (λ bytes. tabled_of_bytes W.KIND bytes.items ≡ Ok (tabled_seen W.value tabled.now)) }
    // and their arc type is that of the weight.
    ensures named { IfOk result (λ bytes. Contains known W.KIND → arc_type_of_bytes bytes.items ≡ Ok W.KIND) }
    // Each machine has a spelling, and each table: all its names together have fewer than 2 to the 32 bytes.
    ensures fits { HasSpelling W.KIND (tabled_seen W.value tabled.now).machine }
    ensures sides { HasSides (tabled_seen W.value tabled.now).sides }
{
    write_tabled(alloc, tabled)
}

/// The bytes of a machine that is given away and of symbol tables that are lent, written over the content of a room, which
/// is thrown away. A room that suffices is used as it is: then no memory is asked for, and nothing fails. One that does not
/// grows to the exact number of bytes. Where it grows, and the machine has 1,048,576 arcs or more whose states have none
/// apart from those of the others, their room is given back in about four parts as they are written. So a machine and its
/// bytes are not held whole beside each other. No room of the bytes is given back. Takes time by these bytes.
pub fn encode_tabled_into<W: Weight>(
    room: Vec<u8>,
    fst: Fst<W>,
    tables: &LentTables,
) -> Result<Vec<u8>, AllocError>
    // Whatever stood in the room, the bytes are those of `encode_tabled`.
    ensures spelled { IfOk result (λ bytes. bytes.items ≡ tabled_spelling W.KIND (valued W.value fst) tables.now) }
    ensures again { IfOk result (λ bytes. tabled_of_bytes W.KIND bytes.items ≡ Ok (record { machine = valued W.value fst; sides = tables.now })) }
    ensures named { IfOk result (λ bytes. Contains known W.KIND → arc_type_of_bytes bytes.items ≡ Ok W.KIND) }
    // The room is kept, and a room that suffices never fails.
    ensures kept { IfOk result (λ bytes. vec_capacity room ≤ vec_capacity bytes) }
    ensures succeeds { length (tabled_spelling W.KIND (valued W.value fst) tables.now) ≤ vec_capacity room → IsOk result }
    ensures fits { HasSpelling W.KIND (valued W.value fst) }
    ensures sides { HasSides tables.now }
{
    write_given(room, fst, tables)
}

/// The bytes of a machine in two lists that is given away and of symbol tables that are lent, written over the content of a
/// room as `encode_tabled_into` writes them. The first list is freed when it is written, before the second is.
pub fn encode_tabled_joined<W: Weight>(
    room: Vec<u8>,
    joined: Joined<W>,
    tables: &LentTables,
) -> Result<Vec<u8>, AllocError>
    // Whatever stood in the room, the bytes are those of the machine whose states stand in one list.
    ensures spelled { IfOk result (λ bytes. bytes.items ≡ tabled_spelling W.KIND (valued W.value joined) tables.now) }
    ensures again { IfOk result (λ bytes. tabled_of_bytes W.KIND bytes.items ≡ Ok (record { machine = valued W.value joined; sides = tables.now })) }
    ensures named { IfOk result (λ bytes. Contains known W.KIND → arc_type_of_bytes bytes.items ≡ Ok W.KIND) }
    // The room is kept, and a room that suffices never fails.
    ensures kept { IfOk result (λ bytes. vec_capacity room ≤ vec_capacity bytes) }
    ensures succeeds { length (tabled_spelling W.KIND (valued W.value joined) tables.now) ≤ vec_capacity room → IsOk result }
    ensures fits { HasSpelling W.KIND (valued W.value joined) }
    ensures sides { HasSides tables.now }
{
    write_joined(room, joined, tables)
}
