//! A symbol table in bytes, both ways.

ghost use Rattle.std.specs.Prelude.{◌≡◌, ◌≤◌, ◌<◌, ◌+◌, ◌*◌, ◌++◌, [], length, IfOk, vec_capacity};
ghost use Rattle.std.specs.List.{list_all};
ghost use Rattle.std.specs.Result.{result_map_both};
ghost use Rattle.fst_symbols.specs.Symbols.{IsName};
ghost use Rattle.fst_bytes.specs.Stopping.{Answers};
ghost use Rattle.fst_binary.specs.Tables.{HasTableFields, is_name_byte, name_at, symbol_fields, table_at, table_fields, with_symbol_at, with_symbols_at};

use crate::fault::BinaryKind::{BadCount, BadSymbols, Short};
use crate::fault::{BinaryFault, BinaryStop};
use fst_bytes::{
    Stopped, append_long, append_text, append_word, fault_at, read_bytes, read_count, read_label,
    read_word, word_at,
};
use fst_symbols::{AddSymbolFault, SymbolTable};
use std::alloc::Global;

/// The most symbols of a table: no two have one label for their number.
const MOST_SYMBOLS: u64 = 2_147_483_648;

/// Whether all bytes may stand in a name.
fn are_name_bytes(bytes: &[u8]) -> bool
    ensures { result ≡ list_all is_name_byte bytes.now }
{
    bytes.iter().all(|c| *c != b' ' && *c != b'\t' && *c != b'\r' && *c != b'\n')
}

/// A name, which stands after its length, and the offset after it.
#[tactic(auto, unfolding(crate::specs::Tables::name_at, fst_bytes::specs::Reading::number_where))]
fn read_name(bytes: &[u8], at: usize) -> Result<(&[u8], usize), BinaryFault>
    requires { at ≤ length bytes.now }
    ensures value { result_map_both (λ x. (x.0.now, x.1)) (λ e. e) result ≡ name_at bytes.now at }
    ensures name { IfOk result (λ x. IsName x.0.now) }
    ensures behind { IfOk result (λ x. x.1 ≤ length bytes.now) }
{
    let (count, behind) = read_word(bytes, at, Short)?;
    if count == 0 {
        return Err(fault_at(at, BadSymbols));
    }
    let (name, behind) = read_bytes(bytes, behind, count as usize, Short)?;
    if are_name_bytes(name) {
        Ok((name, behind))
    } else {
        Err(fault_at(at, BadSymbols))
    }
}

/// Adds the symbol at an offset, and gives the offset after it. After an `Err` the table may be any.
#[tactic(auto, unfolding(crate::specs::Tables::with_symbol_at))]
fn read_symbol(
    alloc: Global,
    bytes: &[u8],
    at: usize,
    table: &mut SymbolTable,
) -> Result<usize, BinaryStop>
    requires { at ≤ length bytes.now }
    ensures value { Answers (λ behind. (table.new, behind)) result (with_symbol_at table.old bytes.now at) }
    ensures behind { IfOk result (λ behind. behind ≤ length bytes.now) }
{
    let (name, numbered) = read_name(bytes, at)?;
    match read_label(bytes, numbered, Short, BadSymbols) {
        Ok((number, behind)) => match table.add(alloc, name, number) {
            Ok(()) => Ok(behind),
            Err(AddSymbolFault::SymbolTaken) => Err(Stopped::At(fault_at(at, BadSymbols))),
            Err(AddSymbolFault::NumberTaken) => Err(Stopped::At(fault_at(numbered, BadSymbols))),
            Err(AddSymbolFault::Memory) => Err(Stopped::Memory),
        },
        // A name that is there already is a fault before that of the number.
        Err(fault) => {
            if table.find(name).is_some() {
                Err(Stopped::At(fault_at(at, BadSymbols)))
            } else {
                Err(Stopped::At(fault))
            }
        }
    }
}

/// How many symbols, of so many, have all their bytes, and the offset after the last of these. Each takes eight bytes
/// beside its name.
fn whole_symbols(bytes: &[u8], at: usize, count: usize) -> (usize, usize)
    requires { at ≤ length bytes.now }
    ensures room { 8 * result.0 + at ≤ result.1 }
    ensures behind { result.1 ≤ length bytes.now }
{
    let mut behind = at;
    for whole in 0..count {
        if bytes.len() - behind < 8 {
            return (whole, behind);
        }
        let len = word_at(bytes, behind) as usize;
        if bytes.len() - behind - 8 < len {
            return (whole, behind);
        }
        behind += 8 + len;
    }
    (count, behind)
}

/// So many symbols, and the offset after them. There is room for no more than the bytes hold, and the names are hashed by a
/// seed that is drawn from them.
fn read_symbols(
    alloc: Global,
    bytes: &[u8],
    at: usize,
    count: usize,
) -> Result<(SymbolTable, usize), BinaryStop>
    requires { at ≤ length bytes.now }
    ensures value { Answers (λ x. x) result (with_symbols_at count [] bytes.now at) }
    ensures behind { IfOk result (λ x. x.1 ≤ length bytes.now) }
{
    let (whole, end) = whole_symbols(bytes, at, count);
    let mut table = SymbolTable::with_room(alloc, &bytes[at..end], whole)?;
    let mut behind = at;
    for _ in 0..count {
        let after = read_symbol(alloc, bytes, behind, &mut table)?;
        behind = after;
    }
    Ok((table, behind))
}

/// The table at an offset, and the offset after it. Takes time by its bytes, and memory by the symbols that have all their
/// bytes, whatever number of symbols they tell.
#[tactic(auto, unfolding(crate::specs::Tables::table_at))]
pub(crate) fn read_table(
    alloc: Global,
    bytes: &[u8],
    at: usize,
) -> Result<(SymbolTable, usize), BinaryStop>
    requires { at ≤ length bytes.now }
    ensures value { Answers (λ x. x) result (table_at bytes.now at) }
    ensures behind { IfOk result (λ x. x.1 ≤ length bytes.now) }
{
    let (count, behind) = read_count(bytes, at, MOST_SYMBOLS, Short, BadCount)?;
    read_symbols(alloc, bytes, behind, count as usize)
}

/// How many bytes a table takes: eight, eight for each symbol, and fewer than 2 to the 32 for the names.
#[tactic(auto, using(crate::proofs::Written::table_is_long, crate::proofs::Written::has_table_fields))]
pub(crate) fn table_length(table: &SymbolTable) -> usize
    ensures value { result ≡ length (table_fields table.now) }
    ensures bound { result ≤ 21474836487 }
    ensures fits { HasTableFields table.now }
{
    8 + 8 * table.len() as usize + table.name_bytes() as usize
}

/// Appends a symbol where there is room.
fn append_symbol(out: &mut Vec<u8>, name: &[u8], number: u32)
    requires room { length out.old.items + 8 + length name.now ≤ vec_capacity out.old }
    requires short { length name.now < 4294967296 }
    ensures items { out.new.items ≡ out.old.items ++ symbol_fields (record { name = name.now; number = number }) }
    ensures room { vec_capacity out.old ≤ vec_capacity out.new }
{
    append_text(out, name);
    append_word(out, number);
}

/// Appends a table where there is room.
pub(crate) fn append_table(out: &mut Vec<u8>, table: &SymbolTable)
    requires { length out.old.items + length (table_fields table.now) ≤ vec_capacity out.old }
    ensures items { out.new.items ≡ out.old.items ++ table_fields table.now }
    ensures room { vec_capacity out.old ≤ vec_capacity out.new }
{
    let count = table.len();
    append_long(out, count);
    for index in 0..count {
        let (name, number) = table.pair(index);
        append_symbol(out, name, number);
    }
}
