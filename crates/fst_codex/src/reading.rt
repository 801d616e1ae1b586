//! Reading the file form of a codex.

ghost use Rattle.std.specs.Prelude.{◌≡◌, ◌≢◌, ◌<◌, ◌≤◌, ◌*◌, [], length, map, All, IfOk, Ok, vec_capacity};
ghost use Rattle.std.specs.Result.{result_map_both};
ghost use Rattle.fst_semiring.specs.Cost.{Cost, infinite};
ghost use Rattle.fst_semiring.specs.Names.{known};
ghost use Rattle.fst_bytes.specs.Stopping.{Answers};
ghost use Rattle.fst_codex.specs.Reading.{Gives, codex_arc_type_of_bytes, codex_of_bytes, entries_at, entry_at, flag_at, least_of, magic_at, table_at, types_at, weight_part_at};
ghost use Rattle.fst_codex.specs.Spelling.{HasCodexSpelling, codex_spelling};
ghost use Rattle.fst_codex.specs.Table.{IsEntry, Table, valued_entry, valued_table};

use crate::codex::{Codex, CodexEntry, MOST_ENTRIES};
use crate::fault::CodexFault;
use crate::fault::CodexKind::{
    self, BadCount, BadFlags, BadLabel, BadMagic, BadWeight, Extra, Memory, Short, UnknownArcType,
};
use fst_bytes::{
    Stopped, expect_end, fault_at, most_that_fit, read_arc_type, read_bytes, read_count,
    read_label, read_non_zero_weight, short_of,
};
use fst_semiring::{ArcType, Weight};
use std::alloc::{AllocError, Global};

/// Why reading a codex stopped.
type CodexStop = Stopped<CodexKind>;

/// The offset after the magic bytes.
#[tactic(auto, unfolding(crate::specs::Reading::magic_at))]
fn read_magic(bytes: &[u8]) -> Result<usize, CodexFault>
    ensures value { result ≡ magic_at bytes.now }
    ensures behind { IfOk result (λ behind. behind ≤ length bytes.now) }
{
    let (magic, behind) = read_bytes(bytes, 0, 8, Short)?;
    if b"FSTCODEX".as_slice() == magic {
        Ok(behind)
    } else {
        Err(fault_at(0, BadMagic))
    }
}

/// The arc type of a codex's bytes, and the offset after its name.
#[tactic(auto, unfolding(crate::specs::Reading::types_at))]
fn read_types(bytes: &[u8]) -> Result<(ArcType, usize), CodexFault>
    ensures value { result ≡ types_at known bytes.now }
    ensures behind { IfOk result (λ x. x.1 ≤ length bytes.now) }
{
    let behind = read_magic(bytes)?;
    read_arc_type(bytes, behind, Short, UnknownArcType)
}

/// The arc type of a codex's bytes, or the first fault of the fields up to it. Takes no memory.
#[tactic(auto, unfolding(crate::specs::Reading::codex_arc_type_of_bytes))]
pub fn codex_arc_type(bytes: &[u8]) -> Result<ArcType, CodexFault>
    ensures { result ≡ codex_arc_type_of_bytes bytes.now }
{
    let (kind, _) = read_types(bytes)?;
    Ok(kind)
}

/// Whether weights stand in the entries, and the offset after the byte that says it.
#[tactic(auto, unfolding(crate::specs::Reading::flag_at))]
fn read_flag(bytes: &[u8], at: usize) -> Result<(bool, usize), CodexFault>
    requires { at ≤ length bytes.now }
    ensures value { result ≡ flag_at bytes.now at }
    ensures behind { IfOk result (λ x. x.1 ≤ length bytes.now) }
{
    if at == bytes.len() {
        return Err(short_of(bytes, Short));
    }
    match bytes[at] {
        0 => Ok((false, at + 1)),
        1 => Ok((true, at + 1)),
        _ => Err(fault_at(at, BadFlags)),
    }
}

/// The weight of an entry, and the offset after it, where weights stand in the entries; else One.
fn read_weight_part<W: Weight>(
    bytes: &[u8],
    at: usize,
    weights: bool,
) -> Result<(W, usize), CodexFault>
    requires { at ≤ length bytes.now }
    ensures value { result_map_both (λ x. (W.value x.0, x.1)) (λ e. e) result ≡ weight_part_at W.KIND weights bytes.now at }
    ensures not_zero { IfOk result (λ x. W.value x.0 ≢ infinite) }
    ensures behind { IfOk result (λ x. x.1 ≤ length bytes.now) }
{
    if weights {
        read_non_zero_weight(bytes, at, Short, BadWeight)
    } else {
        Ok((W::one(), at))
    }
}

/// An entry, and the offset after it.
#[tactic(auto, unfolding(crate::specs::Reading::entry_at))]
fn read_entry<W: Weight>(
    bytes: &[u8],
    at: usize,
    weights: bool,
) -> Result<(CodexEntry<W>, usize), CodexFault>
    requires { at ≤ length bytes.now }
    ensures value { result_map_both (λ x. (valued_entry W.value x.0, x.1)) (λ e. e) result ≡ entry_at W.KIND weights bytes.now at }
    ensures good { IfOk result (λ x. IsEntry W.KIND W.value weights x.0) }
    ensures behind { IfOk result (λ x. x.1 ≤ length bytes.now) }
{
    let (ilabel, behind) = read_label(bytes, at, Short, BadLabel)?;
    let (olabel, behind) = read_label(bytes, behind, Short, BadLabel)?;
    let (weight, behind) = read_weight_part(bytes, behind, weights)?;
    let entry = CodexEntry {
        ilabel,
        olabel,
        weight,
    };
    Ok((entry, behind))
}

/// How many bytes an entry has at least.
fn least_length(weights: bool) -> usize
    ensures value { result ≡ least_of weights }
    ensures some { 0 < result }
{
    if weights { 9 } else { 8 }
}

/// No entries, with room for this number of them. That is no more than the bytes that are left can hold.
fn reserve<W: Weight>(
    alloc: Global,
    left: usize,
    weights: bool,
    count: usize,
) -> Result<Vec<CodexEntry<W>>, AllocError>
    requires { least_of weights * count ≤ left }
    ensures none { IfOk result (λ list. list.items ≡ []) }
    ensures room { IfOk result (λ list. least_of weights * vec_capacity list ≤ left) }
{
    prove!(least_length(weights) * count <= left);
    Vec::with_capacity(alloc, count)
}

/// So many entries, and the offset after them. Space is reserved for no more than the bytes can hold.
fn read_entries<W: Weight>(
    alloc: Global,
    bytes: &[u8],
    at: usize,
    weights: bool,
    count: usize,
) -> Result<(Vec<CodexEntry<W>>, usize), CodexStop>
    requires { at ≤ length bytes.now }
    ensures value { Answers (λ x. (map (valued_entry W.value) x.0.items, x.1)) result (entries_at W.KIND weights count bytes.now at) }
    ensures good { IfOk result (λ x. All (IsEntry W.KIND W.value weights) x.0.items) }
    ensures count { IfOk result (λ x. length x.0.items ≡ count) }
    ensures behind { IfOk result (λ x. x.1 ≤ length bytes.now) }
{
    let left = bytes.len() - at;
    let room = most_that_fit(count, left, least_length(weights));
    let mut entries = reserve(alloc, left, weights, room)?;
    let mut behind = at;
    for _ in 0..count {
        let (entry, after) = read_entry(bytes, behind, weights)?;
        entries.push(entry)?;
        behind = after;
    }
    Ok((entries, behind))
}

/// The codex whose bytes stand after the arc type, to the end of the bytes.
#[tactic(auto, unfolding(crate::specs::Reading::table_at))]
fn read_table<W: Weight>(alloc: Global, bytes: &[u8], at: usize) -> Result<Codex<W>, CodexStop>
    requires { at ≤ length bytes.now }
    ensures { Answers (λ t. valued_table W.value t) result (table_at W.KIND bytes.now at) }
{
    let (weights, behind) = read_flag(bytes, at)?;
    let (count, behind) = read_count(bytes, behind, MOST_ENTRIES as u64, Short, BadCount)?;
    let (entries, behind) = read_entries(alloc, bytes, behind, weights, count as usize)?;
    expect_end(bytes, behind, Extra)?;
    Ok(Codex::new(weights, entries))
}

/// The codex of bytes whose arc type is that of the weight, or why reading it stopped.
fn read_file<W: Weight>(alloc: Global, bytes: &[u8]) -> Result<Codex<W>, CodexStop>
    requires { codex_arc_type_of_bytes bytes.now ≡ Ok W.KIND }
    ensures { Answers (λ t. valued_table W.value t) result (codex_of_bytes W.KIND bytes.now) }
{
    let (_, behind) = read_types(bytes)?;
    read_table(alloc, bytes, behind)
}

/// The codex of bytes whose arc type is that of the weight.
fn read_whole<W: Weight>(alloc: Global, bytes: &[u8]) -> Result<Codex<W>, CodexFault>
    requires { codex_arc_type_of_bytes bytes.now ≡ Ok W.KIND }
    ensures { Gives (λ t. valued_table W.value t) result (codex_of_bytes W.KIND bytes.now) }
{
    match read_file(alloc, bytes) {
        Ok(codex) => Ok(codex),
        Err(stopped) => Err(stopped.into_fault(Memory)),
    }
}

/// The codex whose bytes these are, or their first fault. `codex_arc_type` of the bytes has to be the arc type of
/// the weight. Space is reserved for no more than the bytes can hold, whatever the count says.
pub fn read_codex<W: Weight>(alloc: Global, bytes: &[u8]) -> Result<Codex<W>, CodexFault>
    requires { codex_arc_type_of_bytes bytes.now ≡ Ok W.KIND }
    // What is read is spelled so.
    ensures found { IfOk result (λ t. (bytes.now ≡ codex_spelling W.KIND (valued_table W.value t)) × HasCodexSpelling W.KIND (valued_table W.value t)) }
    // What is spelled so is read, unless memory runs out.
    ensures only { (t : Table Cost) → HasCodexSpelling W.KIND t → bytes.now ≡ codex_spelling W.KIND t → Gives (λ c. valued_table W.value c) result (Ok t) }
    // Which codex or fault it is.
    ensures exact { Gives (λ t. valued_table W.value t) result (codex_of_bytes W.KIND bytes.now) }
{
    read_whole(alloc, bytes)
}
