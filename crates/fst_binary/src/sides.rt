//! The symbol tables of the sides of a machine, and the version and the flags, which tell which are there.

ghost use Rattle.std.specs.Prelude.{◌≡◌, ◌≤◌, ◌+◌, ◌++◌, length, IfOk, vec_capacity};
ghost use Rattle.std.specs.Option.{option_map};
ghost use Rattle.fst_bytes.specs.Stopping.{Answers};
ghost use Rattle.fst_binary.specs.Sides.{HasSide, are_flags, flags_at, flags_of, has_input, has_output, neither, side_at, side_fields, version_of};

use crate::fault::BinaryKind::{BadFlags, BadVersion, Short};
use crate::fault::{BinaryFault, BinaryStop};
use crate::table::{append_table, read_table, table_length};
use fst_bytes::{fault_at, read_word};
use fst_symbols::SymbolTable;
use std::alloc::Global;
use std::marker::Model;

/// The symbol tables of the sides of a machine, lent: `None` for a side that has none. One table may be lent for both.
#[derive(Drop)]
pub struct LentTables<'t> {
    /// The names of the input labels.
    pub isymbols: Option<&'t SymbolTable>,
    /// The names of the output labels.
    pub osymbols: Option<&'t SymbolTable>,
}

impl<'t> Model for LentTables<'t> {
    ghost use Rattle.std.specs.Option.{option_map};
    ghost use Rattle.fst_binary.specs.Sides.{Sides};

    ghost Value = { Sides };

    ghost view = { λ t. record { isymbols = option_map (λ s. s.now) t.isymbols; osymbols = option_map (λ s. s.now) t.osymbols } };
}

impl<'t> LentTables<'t> {
    /// No table on either side. Takes no memory.
    pub fn none() -> LentTables<'t>
        ensures { result ≡ neither }
    {
        LentTables {
            isymbols: None,
            osymbols: None,
        }
    }
}

/// The version of a file with these tables.
pub(crate) fn version_of(tables: &LentTables) -> u32
    ensures { result ≡ version_of tables.now.isymbols tables.now.osymbols }
{
    match (tables.isymbols, tables.osymbols) {
        (None, None) => 2,
        _ => 3,
    }
}

/// The flags of a file with these tables.
pub(crate) fn flags_of(tables: &LentTables) -> u32
    ensures { result ≡ flags_of tables.now.isymbols tables.now.osymbols }
{
    match (tables.isymbols, tables.osymbols) {
        (None, None) => 0,
        (Some(_), None) => 1,
        (None, Some(_)) => 2,
        (Some(_), Some(_)) => 3,
    }
}

/// Whether a version may have these flags.
fn are_flags(version: u32, flags: u32) -> bool
    ensures { result ≡ are_flags version flags }
{
    if version == 2 {
        flags == 0
    } else {
        1 <= flags && flags <= 3
    }
}

/// The flags, after the version, and the offset after them.
#[tactic(auto, unfolding(crate::specs::Sides::flags_at, fst_bytes::specs::Reading::number_where))]
pub(crate) fn read_flags(bytes: &[u8], at: usize) -> Result<(u32, usize), BinaryFault>
    requires { at ≤ length bytes.now }
    ensures value { result ≡ flags_at bytes.now at }
    ensures behind { IfOk result (λ x. x.1 ≤ length bytes.now) }
{
    let (version, flagged) = read_word(bytes, at, Short)?;
    if !(2 <= version && version <= 3) {
        return Err(fault_at(at, BadVersion));
    }
    let (flags, behind) = read_word(bytes, flagged, Short)?;
    if are_flags(version, flags) {
        Ok((flags, behind))
    } else {
        Err(fault_at(flagged, BadFlags))
    }
}

/// Whether flags tell of a table of the input side.
pub(crate) fn has_input(flags: u32) -> bool
    ensures { result ≡ has_input flags }
{
    flags == 1 || flags == 3
}

/// Whether flags tell of a table of the output side.
pub(crate) fn has_output(flags: u32) -> bool
    ensures { result ≡ has_output flags }
{
    2 <= flags
}

/// The table of a side, where one is there, and the offset after it.
#[tactic(auto, unfolding(crate::specs::Sides::side_at))]
pub(crate) fn read_side(
    alloc: Global,
    bytes: &[u8],
    at: usize,
    here: bool,
) -> Result<(Option<SymbolTable>, usize), BinaryStop>
    requires { at ≤ length bytes.now }
    ensures value { Answers (λ x. x) result (side_at here bytes.now at) }
    ensures behind { IfOk result (λ x. x.1 ≤ length bytes.now) }
{
    if !here {
        return Ok((None, at));
    }
    let (table, behind) = read_table(alloc, bytes, at)?;
    Ok((Some(table), behind))
}

/// How many bytes the table of a side takes.
pub(crate) fn side_length(side: Option<&SymbolTable>) -> usize
    ensures value { result ≡ length (side_fields (option_map (λ t. t.now) side.entry)) }
    ensures bound { result ≤ 21474836487 }
    ensures fits { HasSide (option_map (λ t. t.now) side.entry) }
{
    match side {
        Some(table) => table_length(table),
        None => 0,
    }
}

/// Appends the table of a side where there is room.
pub(crate) fn append_side(out: &mut Vec<u8>, side: Option<&SymbolTable>)
    requires { length out.old.items + length (side_fields (option_map (λ t. t.now) side)) ≤ vec_capacity out.old }
    ensures items { out.new.items ≡ out.old.items ++ side_fields (option_map (λ t. t.now) side.entry) }
    ensures room { vec_capacity out.old ≤ vec_capacity out.new }
{
    match side {
        Some(table) => append_table(out, table),
        None => {}
    }
}
