//! Reading the binary form.

ghost use Rattle.std.specs.Prelude.{◌≡◌, ◌≢◌, ◌≤◌, ◌<◌, ◌+◌, ◌-◌, ◌*◌, [], length, map, IfErr, IfOk, OnOk, IfSome, Ok, nat_le, nat_lt};
ghost use Rattle.std.specs.Result.{result_map_both};
ghost use Rattle.fst_semiring.specs.Cost.{Cost};
ghost use Rattle.fst_machine.specs.Machine.{Machine, arc_total, most_arcs, most_states, valued, valued_arc, valued_state};
ghost use Rattle.fst_machine.specs.OpenStates.{none_open};
ghost use Rattle.fst_binary.specs.Sides.{HasSides, Sides};
ghost use Rattle.fst_binary.specs.Spelling.{HasSpelling, Spells, TabledSpells};
ghost use Rattle.fst_binary.specs.Reading.{Gives, arc_at, arc_type_of_bytes, arcs_at, machine_at, machine_of_bytes, state_at, states_at, tabled_at, tabled_of_bytes};
ghost use Rattle.fst_binary.specs.Seeing.{tabled_seen};
ghost use Rattle.fst_bytes.specs.Reading.{number_count, number_where, with_front};
ghost use Rattle.fst_bytes.specs.Stopping.{Answers};

use crate::fault::BinaryKind::{
    self, BadCount, BadLabel, BadNext, BadWeight, Extra, Memory, Short,
};
use crate::fault::{BinaryFault, BinaryStop};
use crate::header::{Header, read_header, read_types};
use crate::sides::{has_input, has_output, read_side};
use crate::tabled::Tabled;
use fst_bytes::{
    expect_end, fault_at, most_that_fit, numbered_length, read_count, read_label,
    read_non_zero_weight, read_numbered, read_weight, read_word, word_at,
};
use fst_machine::{Fst, FstArc, MOST_LABEL, OpenList, StateList};
use fst_semiring::Weight;
use std::alloc::{AllocError, Global};

/// The number of one of the states, and the offset after it.
#[tactic(auto, unfolding(fst_bytes::specs::Reading::number_where))]
fn read_next(bytes: &[u8], at: usize, states: u32) -> Result<(u32, usize), BinaryFault>
    requires { at ≤ length bytes.now }
    ensures value { result ≡ number_where (λ n. nat_lt n states) BinaryKind.Short BinaryKind.BadNext 4 bytes.now at }
    ensures behind { IfOk result (λ x. x.1 ≤ length bytes.now) }
{
    let (next, behind) = read_word(bytes, at, Short)?;
    if next < states {
        Ok((next, behind))
    } else {
        Err(fault_at(at, BadNext))
    }
}

/// An arc of a machine with this number of states, and the offset after it.
#[tactic(auto, unfolding(crate::specs::Reading::arc_at))]
fn read_arc<W: Weight>(
    bytes: &[u8],
    at: usize,
    states: u32,
) -> Result<(FstArc<W>, usize), BinaryFault>
    requires { at ≤ length bytes.now }
    ensures value { result_map_both (λ x. (valued_arc W.value x.0, x.1)) (λ e. e) result ≡ arc_at W.KIND states bytes.now at }
    ensures behind { IfOk result (λ x. x.1 ≤ length bytes.now) }
{
    let (ilabel, behind) = read_label(bytes, at, Short, BadLabel)?;
    let (olabel, behind) = read_label(bytes, behind, Short, BadLabel)?;
    let (weight, behind) = read_non_zero_weight(bytes, behind, Short, BadWeight)?;
    let (next, behind) = read_next(bytes, behind, states)?;
    let arc = FstArc {
        ilabel,
        olabel,
        weight,
        next,
    };
    Ok((arc, behind))
}

/// An arc whose weight field has the tag 1, of a machine with this number of states, where all its bytes stand. `None`
/// where the tag is another one or a field is wrong: the fields one after the other tell which.
fn read_whole_arc<W: Weight>(bytes: &[u8], at: usize, states: u32) -> Option<FstArc<W>>
    requires { at + 13 + 8 * number_count W.KIND ≤ length bytes.now }
    ensures { IfSome result (λ arc. arc_at W.KIND states bytes.now at ≡ Ok (valued_arc W.value arc, at + 13 + 8 * number_count W.KIND)) }
{
    let ilabel = word_at(bytes, at);
    let olabel = word_at(bytes, at + 4);
    let next = word_at(bytes, at + 8 + numbered_length(W::KIND));
    if ilabel > MOST_LABEL || olabel > MOST_LABEL || next >= states {
        return None;
    }
    let Some(weight) = read_numbered(bytes, at + 8) else {
        return None;
    };
    Some(FstArc {
        ilabel,
        olabel,
        weight,
        next,
    })
}

/// Puts arcs of a state behind the states before it, each read from all its bytes at once, up to the first that has to be
/// read field by field, and gives how many they are, of so many, and the offset after them.
#[inline(never)]
fn read_whole_arcs<W: Weight>(
    bytes: &[u8],
    at: usize,
    states: u32,
    count: usize,
    list: &mut OpenList<W>,
) -> Result<(usize, usize), AllocError>
    requires behind { at ≤ length bytes.now }
    requires none { list.old.arcs ≡ [] }
    requires few { arc_total list.old.states + count ≤ most_arcs }
    ensures so_far { IfOk result (λ x. with_front (map (valued_arc W.value) list.new.arcs) (arcs_at W.KIND states (count - x.0) bytes.now x.1) ≡ arcs_at W.KIND states count bytes.now at) }
    ensures count { IfOk result (λ x. (length list.new.arcs ≡ x.0) × (x.0 ≤ count)) }
    ensures others { list.new.states ≡ list.old.states }
    ensures behind { IfOk result (λ x. x.1 ≤ length bytes.now) }
{
    let len = 12 + numbered_length(W::KIND);
    let mut behind = at;
    for read in 0..count {
        if bytes.len() - behind < len {
            return Ok((read, behind));
        }
        let Some(arc) = read_whole_arc(bytes, behind, states) else {
            return Ok((read, behind));
        };
        list.put_arc(arc)?;
        behind += len;
    }
    Ok((count, behind))
}

/// Puts so many arcs, read field by field, behind those of a state, and gives the offset after them. A refusal may leave
/// some of them there.
#[inline(never)]
fn read_more_arcs<W: Weight>(
    bytes: &[u8],
    at: usize,
    states: u32,
    count: usize,
    list: &mut OpenList<W>,
) -> Result<usize, BinaryStop>
    requires behind { at ≤ length bytes.now }
    requires few { arc_total list.old.states + length list.old.arcs + count ≤ most_arcs }
    ensures value { Answers (λ behind. (map (valued_arc W.value) list.new.arcs, behind)) result (with_front (map (valued_arc W.value) list.old.arcs) (arcs_at W.KIND states count bytes.now at)) }
    ensures count { OnOk result (length list.new.arcs ≡ length list.old.arcs + count) }
    ensures others { list.new.states ≡ list.old.states }
    ensures behind { IfOk result (λ behind. behind ≤ length bytes.now) }
{
    let mut behind = at;
    for _ in 0..count {
        let (arc, after) = read_arc(bytes, behind, states)?;
        list.put_arc(arc)?;
        behind = after;
    }
    Ok(behind)
}

/// Puts the arcs of a state behind the states before it, which with them have at most so many, and gives the offset
/// after them. A refusal may leave some of them there.
fn read_arcs<W: Weight>(
    bytes: &[u8],
    at: usize,
    states: u32,
    count: usize,
    list: &mut OpenList<W>,
) -> Result<usize, BinaryStop>
    requires behind { at ≤ length bytes.now }
    requires none { list.old.arcs ≡ [] }
    requires few { arc_total list.old.states + count ≤ most_arcs }
    ensures value { Answers (λ behind. (map (valued_arc W.value) list.new.arcs, behind)) result (arcs_at W.KIND states count bytes.now at) }
    ensures count { OnOk result (length list.new.arcs ≡ count) }
    ensures others { list.new.states ≡ list.old.states }
    ensures behind { IfOk result (λ behind. behind ≤ length bytes.now) }
{
    let (read, behind) = read_whole_arcs(bytes, at, states, count, list)?;
    read_more_arcs(bytes, behind, states, count - read, list)
}

/// The number of arcs of a state, which with those of the states before are at most the header's, and the offset after
/// it.
#[tactic(auto, unfolding(fst_bytes::specs::Reading::number_where))]
fn read_arc_count(
    bytes: &[u8],
    at: usize,
    arcs: u32,
    before: u32,
) -> Result<(u64, usize), BinaryFault>
    requires behind { at ≤ length bytes.now }
    requires before { before ≤ arcs }
    ensures value { result ≡ number_where (λ n. nat_le (before + n) arcs) BinaryKind.Short BinaryKind.BadCount 8 bytes.now at }
    ensures most { IfOk result (λ x. before + x.0 ≤ arcs) }
    ensures behind { IfOk result (λ x. x.1 ≤ length bytes.now) }
{
    read_count(bytes, at, u64::from(arcs - before), Short, BadCount)
}

/// The final weight of a state, and the offset after its arcs, which are put behind the states before it. Those have
/// some of the header's arcs.
#[tactic(auto, unfolding(crate::specs::Reading::state_at))]
fn read_state<W: Weight>(
    bytes: &[u8],
    at: usize,
    header: Header,
    before: u32,
    list: &mut OpenList<W>,
) -> Result<(W, usize), BinaryStop>
    requires behind { at ≤ length bytes.now }
    requires before { before ≤ header.arcs }
    requires none { list.old.arcs ≡ [] }
    requires count { arc_total list.old.states ≡ before }
    requires few_arcs { header.arcs ≤ most_arcs }
    ensures value { Answers (λ x. (record { final = W.value x.0; arcs = map (valued_arc W.value) list.new.arcs }, x.1)) result (state_at W.KIND header.states header.arcs before bytes.now at) }
    ensures most { OnOk result (before + length list.new.arcs ≤ header.arcs) }
    ensures others { list.new.states ≡ list.old.states }
    ensures behind { IfOk result (λ x. x.1 ≤ length bytes.now) }
{
    let (last, behind) = read_weight(bytes, at, Short, BadWeight)?;
    let (count, behind) = read_arc_count(bytes, behind, header.arcs, before)?;
    let behind = read_arcs(bytes, behind, header.states, count as usize, list)?;
    Ok((last, behind))
}

/// No states, with room for these numbers of states and arcs. That is no more than the bytes that are left can hold: a
/// state has at least nine bytes, and an arc thirteen.
fn reserve<W: Weight>(
    alloc: Global,
    left: usize,
    states: usize,
    arcs: usize,
) -> Result<OpenList<W>, AllocError>
    requires few_states { 9 * states ≤ left }
    requires few_arcs { 13 * arcs ≤ left }
    ensures { IfOk result (λ list. list ≡ none_open) }
{
    prove!(9 * states <= left && 13 * arcs <= left);
    OpenList::with_capacity(alloc, states, arcs)
}

/// The states of a header, which stand at an offset, and the offset after them. Space is reserved for no more than the
/// bytes from there on can hold.
fn read_states<W: Weight>(
    alloc: Global,
    bytes: &[u8],
    header: Header,
    at: usize,
) -> Result<(StateList<W>, usize), BinaryStop>
    requires behind { at ≤ length bytes.now }
    requires few_arcs { header.arcs ≤ most_arcs }
    ensures value { Answers (λ x. (map (valued_state W.value) x.0, x.1)) result (states_at W.KIND header.states header.arcs 0 header.states bytes.now at) }
    ensures few_arcs { IfOk result (λ x. arc_total x.0 ≤ header.arcs) }
    ensures behind { IfOk result (λ x. x.1 ≤ length bytes.now) }
{
    let left = bytes.len() - at;
    let room = most_that_fit(header.states as usize, left, 9);
    let arc_room = most_that_fit(header.arcs as usize, left, 13);
    let mut list = reserve(alloc, left, room, arc_room)?;
    let mut before = 0;
    let mut behind = at;
    for _ in 0..header.states {
        let (last, after) = read_state(bytes, behind, header, before, &mut list)?;
        before = list.arc_count() as u32;
        list.close(last)?;
        behind = after;
    }
    Ok((list.into_list(), behind))
}

/// There have to be as many arcs as the header says.
fn expect_arcs(arcs: usize, header: Header) -> Result<(), BinaryFault>
    ensures ok { OnOk result (arcs ≡ header.arcs) }
    ensures err { IfErr result (λ fault. (fault ≡ record { offset = header.counted; kind = BinaryKind.BadCount }) × (arcs ≢ header.arcs)) }
{
    if arcs == header.arcs as usize {
        Ok(())
    } else {
        Err(fault_at(header.counted, BadCount))
    }
}

/// The machine of a header and of its states, which stand at an offset and go to the end of the bytes.
#[tactic(auto, unfolding(crate::specs::Reading::machine_at))]
fn read_machine<W: Weight>(
    alloc: Global,
    bytes: &[u8],
    header: Header,
    at: usize,
) -> Result<Fst<W>, BinaryStop>
    requires behind { at ≤ length bytes.now }
    requires start { IfSome header.start (λ s. s < header.states) }
    requires few_states { header.states ≤ most_states }
    requires few_arcs { header.arcs ≤ most_arcs }
    ensures { Answers (λ m. valued W.value m) result (machine_at W.KIND header bytes.now at) }
{
    let (states, behind) = read_states(alloc, bytes, header, at)?;
    expect_arcs(states.arc_count(), header)?;
    expect_end(bytes, behind, Extra)?;
    Ok(states.into_machine(header.start))
}

/// The machine and the tables of a header and of what stands after it, to the end of the bytes.
#[tactic(auto, unfolding(crate::specs::Reading::tabled_at, crate::specs::Sides::sides_at))]
fn read_tabled<W: Weight>(
    alloc: Global,
    bytes: &[u8],
    header: Header,
) -> Result<Tabled<W>, BinaryStop>
    requires behind { header.behind ≤ length bytes.now }
    requires start { IfSome header.start (λ s. s < header.states) }
    requires few_states { header.states ≤ most_states }
    requires few_arcs { header.arcs ≤ most_arcs }
    ensures { Answers (λ t. tabled_seen W.value t) result (tabled_at W.KIND header bytes.now) }
{
    let (isymbols, behind) = read_side(alloc, bytes, header.behind, has_input(header.flags))?;
    let (osymbols, behind) = read_side(alloc, bytes, behind, has_output(header.flags))?;
    let fst = read_machine(alloc, bytes, header, behind)?;
    Ok(Tabled {
        fst,
        isymbols,
        osymbols,
    })
}

/// The machine and the tables of bytes whose arc type is that of the weight, or why reading them stopped.
fn read_file<W: Weight>(alloc: Global, bytes: &[u8]) -> Result<Tabled<W>, BinaryStop>
    requires { arc_type_of_bytes bytes.now ≡ Ok W.KIND }
    ensures { Answers (λ t. tabled_seen W.value t) result (tabled_of_bytes W.KIND bytes.now) }
{
    let (_, behind) = read_types(bytes)?;
    let header = read_header(bytes, behind)?;
    read_tabled(alloc, bytes, header)
}

/// The machine and the tables of bytes whose arc type is that of the weight.
fn read_whole<W: Weight>(alloc: Global, bytes: &[u8]) -> Result<Tabled<W>, BinaryFault>
    requires { arc_type_of_bytes bytes.now ≡ Ok W.KIND }
    ensures { Gives (λ t. tabled_seen W.value t) result (tabled_of_bytes W.KIND bytes.now) }
{
    match read_file(alloc, bytes) {
        Ok(tabled) => Ok(tabled),
        Err(stopped) => Err(stopped.into_fault(Memory)),
    }
}

/// The machine of bytes whose arc type is that of the weight, without its tables.
fn read_untabled<W: Weight>(alloc: Global, bytes: &[u8]) -> Result<Fst<W>, BinaryFault>
    requires { arc_type_of_bytes bytes.now ≡ Ok W.KIND }
    ensures { Gives (λ m. valued W.value m) result (machine_of_bytes W.KIND bytes.now) }
{
    match read_whole(alloc, bytes) {
        Ok(tabled) => Ok(tabled.fst),
        Err(fault) => Err(fault),
    }
}

/// The machine whose bytes these are, and the symbol tables that it carries, or the first fault of the bytes. `arc_type` of
/// the bytes has to be the arc type of the weight. Takes time by the bytes. Space is reserved for no more than the bytes can
/// hold, whatever a count says.
pub fn decode_tabled<W: Weight>(alloc: Global, bytes: &[u8]) -> Result<Tabled<W>, BinaryFault>
    requires { arc_type_of_bytes bytes.now ≡ Ok W.KIND }
    // What is read is spelled so.
    ensures found { IfOk result (λ t. TabledSpells W.KIND bytes.now (tabled_seen W.value t).machine (tabled_seen W.value t).sides × HasSpelling W.KIND (tabled_seen W.value t).machine × HasSides (tabled_seen W.value t).sides) }
    // What is spelled so is read, unless memory runs out.
    ensures only { (m : Machine Cost) (s : Sides) → HasSpelling W.KIND m → HasSides s → TabledSpells W.KIND bytes.now m s → Gives (λ t. tabled_seen W.value t) result (Ok (record { machine = m; sides = s })) }
    // Which fault it is.
    ensures exact { Gives (λ t. tabled_seen W.value t) result (tabled_of_bytes W.KIND bytes.now) }
{
    read_whole(alloc, bytes)
}

/// The machine whose bytes these are, without the symbol tables that it may carry, or the first fault of the bytes: they
/// are those of `decode_tabled`. `arc_type` of the bytes has to be the arc type of the weight. Space is reserved for no more
/// than the bytes can hold, whatever a count says.
pub fn decode<W: Weight>(alloc: Global, bytes: &[u8]) -> Result<Fst<W>, BinaryFault>
    requires { arc_type_of_bytes bytes.now ≡ Ok W.KIND }
    // What is read is spelled so.
    ensures found { IfOk result (λ m. Spells W.KIND bytes.now (valued W.value m) × HasSpelling W.KIND (valued W.value m)) }
    // What is spelled so is read, unless memory runs out.
    ensures only { (m : Machine Cost) → HasSpelling W.KIND m → Spells W.KIND bytes.now m → Gives (λ m. valued W.value m) result (Ok m) }
    // Which fault it is.
    ensures exact { Gives (λ m. valued W.value m) result (machine_of_bytes W.KIND bytes.now) }
{
    read_untabled(alloc, bytes)
}
