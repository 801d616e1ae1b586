//! Worked examples of symbol tables in binary files, and each kind of fault of a table at its offset.

use crate::bytes::change;
use fst_binary::BinaryKind::{self, *};
use fst_binary::{
    BinaryFault, LentTables, Tabled, arc_type, decode, decode_tabled, encode, encode_tabled,
    encode_tabled_into,
};
use fst_machine::Fst;
use fst_semiring::{ArcType, Tropical};
use fst_symbols::SymbolTable;
use std::alloc::{AllocError, Global};
use std::test::Fail;

/// What stands before the tables, in version 2 and without flags: two states, of which 0 is the start, and one arc.
const HEADER: &[u8] =
    b"\xd6\xfd\xb2\x7e\x06\x00\x00\x00vector\x08\x00\x00\x00tropical\x02\x00\x00\x00\x00\x00\x00\x00\x03\x00\x00\x00\x00\x00\x00\x00\x00\x00\x00\x00\x00\x00\x00\x00\x02\x00\x00\x00\x00\x00\x00\x00\x01\x00\x00\x00\x00\x00\x00\x00";

/// What stands behind them: state 0 has the arc 1:2 with weight 5 to state 1, which is final with weight 3.
const STATES: &[u8] =
    b"\x00\x01\x00\x00\x00\x00\x00\x00\x00\x01\x00\x00\x00\x02\x00\x00\x00\x01\x05\x00\x00\x00\x00\x00\x00\x00\x01\x00\x00\x00\x01\x03\x00\x00\x00\x00\x00\x00\x00\x00\x00\x00\x00\x00\x00\x00\x00";

/// The table of `a`, whose number is 1.
const A: &[u8] = b"\x01\x00\x00\x00\x00\x00\x00\x00\x01\x00\x00\x00a\x01\x00\x00\x00";

/// The table of `bc`, whose number is 2, and of `d`, whose number is 0.
const BC: &[u8] =
    b"\x02\x00\x00\x00\x00\x00\x00\x00\x02\x00\x00\x00bc\x02\x00\x00\x00\x01\x00\x00\x00d\x00\x00\x00\x00";

/// The table without symbols.
const NONE: &[u8] = b"\x00\x00\x00\x00\x00\x00\x00\x00";

/// A file of this version and with these flags, up to the end of its tables.
fn front(alloc: Global, version: u8, flags: u8, tables: &[&[u8]]) -> Result<Vec<u8>, AllocError> {
    let mut bytes = change(alloc, HEADER, 26, &[version, 0, 0, 0, flags])?;
    for table in tables {
        bytes.extend_from_slice(table)?;
    }
    Ok(bytes)
}

/// The whole of it.
fn file(alloc: Global, version: u8, flags: u8, tables: &[&[u8]]) -> Result<Vec<u8>, AllocError> {
    let mut bytes = front(alloc, version, flags, tables)?;
    bytes.extend_from_slice(STATES)?;
    Ok(bytes)
}

/// No tropical machine.
const OTHER: BinaryFault = BinaryFault {
    offset: 0,
    kind: Memory,
};

fn read(alloc: Global, bytes: &[u8]) -> Result<Tabled<Tropical>, BinaryFault> {
    match arc_type(bytes)? {
        ArcType::Tropical => decode_tabled(alloc, bytes),
        _ => Err(OTHER),
    }
}

fn read_alone(alloc: Global, bytes: &[u8]) -> Result<Fst<Tropical>, BinaryFault> {
    match arc_type(bytes)? {
        ArcType::Tropical => decode(alloc, bytes),
        _ => Err(OTHER),
    }
}

/// Where the fault of bytes is and what it is, as `None` where they are read. Both readers have to tell the same.
fn fault_of(alloc: Global, bytes: &[u8]) -> Option<(u64, BinaryKind)> {
    match (read_alone(alloc, bytes).err(), read(alloc, bytes).err()) {
        (None, None) => None,
        (Some(one), Some(other)) if one == other => Some((one.offset, one.kind)),
        _ => Some((0, Memory)),
    }
}

/// How many symbols the tables of the two sides have.
fn sizes(tabled: &Tabled<Tropical>) -> (Option<u64>, Option<u64>) {
    (
        tabled.isymbols.as_ref().map(|t| t.len()),
        tabled.osymbols.as_ref().map(|t| t.len()),
    )
}

/// The number of a name in a table that is there.
fn number_in(table: &Option<SymbolTable>, name: &[u8]) -> Option<u32> {
    table.as_ref()?.find(name)
}

/// The flags of a file, its tables, and how many symbols those of the two sides have.
static BOTH_WAYS: [(u8, &[&[u8]], Option<u64>, Option<u64>); 6] = [
    (1, &[A], Some(1), None),
    (2, &[BC], None, Some(2)),
    (3, &[A, BC], Some(1), Some(2)),
    (3, &[BC, A], Some(2), Some(1)),
    (3, &[A, A], Some(1), Some(1)),
    (3, &[NONE, NONE], Some(0), Some(0)),
];

/// How many symbols the tables of a file have.
fn sizes_of(alloc: Global, bytes: &[u8]) -> Result<(Option<u64>, Option<u64>), BinaryFault> {
    let tabled = read(alloc, bytes)?;
    Ok(sizes(&tabled))
}

/// The bytes of a file, written anew with its tables.
fn again(alloc: Global, bytes: &[u8]) -> Result<Vec<u8>, Fail> {
    let tabled = read(alloc, bytes)?;
    Ok(encode_tabled(alloc, &tabled)?)
}

/// And without them.
fn untabled(alloc: Global, bytes: &[u8]) -> Result<Vec<u8>, Fail> {
    let alone = read_alone(alloc, bytes)?;
    Ok(encode(alloc, &alone)?)
}

/// And with the table of the input labels on both sides.
fn with_one_for_both(alloc: Global, bytes: &[u8]) -> Result<Vec<u8>, Fail> {
    let tabled = read(alloc, bytes)?;
    let lent = LentTables {
        isymbols: tabled.isymbols.as_ref(),
        osymbols: tabled.isymbols.as_ref(),
    };
    let alone = read_alone(alloc, bytes)?;
    Ok(encode_tabled_into(Vec::new(alloc), alone, &lent)?)
}

#[test]
fn tables_both_ways(rt: HostRuntime) -> Result<(), Fail> {
    let alloc = rt.alloc();
    for (flags, tables, input, output) in &BOTH_WAYS {
        let bytes = file(alloc, 3, *flags, tables)?;
        let found = sizes_of(alloc, bytes.as_slice())?;
        assert!(rt; found == (*input, *output), "flags {flags}");
        let written = again(alloc, bytes.as_slice())?;
        assert_eq!(rt; written.as_slice(), bytes.as_slice());
        assert_eq!(rt; written.capacity(), bytes.len());
    }
    Ok(())
}

#[test]
fn machines_stand_behind_tables(rt: HostRuntime) -> Result<(), Fail> {
    let alloc = rt.alloc();
    let plain = file(alloc, 2, 0, &[])?;
    for (flags, tables, _, _) in &BOTH_WAYS {
        let bytes = file(alloc, 3, *flags, tables)?;
        let written = untabled(alloc, bytes.as_slice())?;
        assert_eq!(rt; written.as_slice(), plain.as_slice());
    }
    Ok(())
}

#[test]
fn one_table_is_lent_for_both_sides(rt: HostRuntime) -> Result<(), Fail> {
    let alloc = rt.alloc();
    for (flags, tables, input, _) in &BOTH_WAYS {
        let bytes = file(alloc, 3, *flags, tables)?;
        let twice = with_one_for_both(alloc, bytes.as_slice())?;
        let found = sizes_of(alloc, twice.as_slice())?;
        assert!(rt; found == (*input, *input), "flags {flags}");
    }
    Ok(())
}

#[test]
fn names_and_numbers_are_read(rt: HostRuntime) -> Result<(), Fail> {
    let alloc = rt.alloc();
    let bytes = file(alloc, 3, 3, &[A, BC])?;
    let tabled = read(alloc, bytes.as_slice())?;
    assert!(rt; number_in(&tabled.isymbols, b"a") == Some(1));
    assert!(rt; number_in(&tabled.isymbols, b"bc").is_none());
    assert!(rt; number_in(&tabled.osymbols, b"bc") == Some(2));
    assert!(rt; number_in(&tabled.osymbols, b"d") == Some(0));
    Ok(())
}

#[test]
fn cut_tables_are_short(rt: HostRuntime) -> Result<(), Fail> {
    let alloc = rt.alloc();
    let whole = file(alloc, 3, 3, &[A, BC])?;
    assert!(rt; fault_of(alloc, whole.as_slice()).is_none());
    for end in 0..whole.len() {
        let cut = whole.as_slice().get(..end).unwrap_or(b"");
        assert!(rt;
            fault_of(alloc, cut) == Some((end as u64, Short)),
            "at {end}"
        );
    }
    Ok(())
}

/// The version, the flags and the tables of a file, and the fault with its offset.
static FAULTS: [(u8, u8, &[u8], u64, BinaryKind); 20] = [
    // Versions and flags that no file has.
    (4, 0, b"", 26, BadVersion),
    (1, 0, b"", 26, BadVersion),
    (2, 1, A, 30, BadFlags),
    (2, 3, A, 30, BadFlags),
    (3, 0, b"", 30, BadFlags),
    (3, 4, A, 30, BadFlags),
    // The number of pairs: above 2,147,483,648, and negative.
    (3, 1, b"\x01\x00\x00\x80\x00\x00\x00\x00", 66, BadCount),
    (3, 1, b"\xff\xff\xff\xff\xff\xff\xff\xff", 66, BadCount),
    // A name without a byte, and bytes that no name has.
    (
        3,
        1,
        b"\x01\x00\x00\x00\x00\x00\x00\x00\x00\x00\x00\x00a\x01\x00\x00\x00",
        74,
        BadSymbols,
    ),
    (
        3,
        1,
        b"\x01\x00\x00\x00\x00\x00\x00\x00\x01\x00\x00\x00\t\x01\x00\x00\x00",
        74,
        BadSymbols,
    ),
    (
        3,
        1,
        b"\x01\x00\x00\x00\x00\x00\x00\x00\x01\x00\x00\x00\n\x01\x00\x00\x00",
        74,
        BadSymbols,
    ),
    (
        3,
        1,
        b"\x01\x00\x00\x00\x00\x00\x00\x00\x01\x00\x00\x00\r\x01\x00\x00\x00",
        74,
        BadSymbols,
    ),
    (
        3,
        1,
        b"\x01\x00\x00\x00\x00\x00\x00\x00\x01\x00\x00\x00 \x01\x00\x00\x00",
        74,
        BadSymbols,
    ),
    // A number that is no label, a number given twice, and a name given twice, with a number that is new or no label.
    (
        3,
        1,
        b"\x01\x00\x00\x00\x00\x00\x00\x00\x01\x00\x00\x00a\x00\x00\x00\x80",
        79,
        BadSymbols,
    ),
    (
        3,
        1,
        b"\x02\x00\x00\x00\x00\x00\x00\x00\x01\x00\x00\x00a\x01\x00\x00\x00\x01\x00\x00\x00b\x01\x00\x00\x00",
        88,
        BadSymbols,
    ),
    (
        3,
        1,
        b"\x02\x00\x00\x00\x00\x00\x00\x00\x01\x00\x00\x00a\x01\x00\x00\x00\x01\x00\x00\x00a\x02\x00\x00\x00",
        83,
        BadSymbols,
    ),
    (
        3,
        1,
        b"\x02\x00\x00\x00\x00\x00\x00\x00\x01\x00\x00\x00a\x01\x00\x00\x00\x01\x00\x00\x00a\x00\x00\x00\x80",
        83,
        BadSymbols,
    ),
    // The same in the table of the output side.
    (
        3,
        2,
        b"\x02\x00\x00\x00\x00\x00\x00\x00\x01\x00\x00\x00a\x01\x00\x00\x00\x01\x00\x00\x00a\x02\x00\x00\x00",
        83,
        BadSymbols,
    ),
    (
        3,
        3,
        b"\x00\x00\x00\x00\x00\x00\x00\x00\x01\x00\x00\x00\x00\x00\x00\x00\x00\x00\x00\x00",
        82,
        BadSymbols,
    ),
    // A flag whose table is not there: the states are read as one.
    (3, 3, A, 130, Short),
];

/// Tables that end the file, and the fault with its offset.
static LAST: [(&[u8], u64, BinaryKind); 3] = [
    // A length of 0 is wrong, whatever follows.
    (
        b"\x01\x00\x00\x00\x00\x00\x00\x00\x00\x00\x00\x00",
        74,
        BadSymbols,
    ),
    // A name that stands there before is wrong, whether or not its number is whole.
    (
        b"\x02\x00\x00\x00\x00\x00\x00\x00\x01\x00\x00\x00a\x01\x00\x00\x00\x01\x00\x00\x00a\x02",
        83,
        BadSymbols,
    ),
    // Many pairs are told of, and none stands there.
    (b"\x00\x00\x00\x80\x00\x00\x00\x00", 74, Short),
];

#[test]
fn each_fault_of_a_table(rt: HostRuntime) -> Result<(), Fail> {
    let alloc = rt.alloc();
    for (version, flags, table, offset, kind) in &FAULTS {
        let bytes = file(alloc, *version, *flags, &[table])?;
        let fault = fault_of(alloc, bytes.as_slice());
        assert!(rt;
            fault == Some((*offset, *kind)),
            "{version} {flags} {table:?}: {fault:?}"
        );
    }
    for (table, offset, kind) in &LAST {
        let bytes = front(alloc, 3, 1, &[table])?;
        let fault = fault_of(alloc, bytes.as_slice());
        assert!(rt; fault == Some((*offset, *kind)), "{table:?}: {fault:?}");
    }
    Ok(())
}
