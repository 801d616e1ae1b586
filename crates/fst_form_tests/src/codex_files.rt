//! The file form of a codex, both ways, and each kind of fault at its offset.

use crate::bytes::change;
use fst_codex::CodexKind::{self, *};
use fst_codex::{Codex, CodexFault, codex_arc_type, read_codex, write_codex};
use fst_semiring::{ArcType, Boolean, Lexicographic, MinMax, Tropical, Weight};
use std::alloc::Global;
use std::process::Abort;
use std::test::Fail;

/// The entry 1, 2, without weights.
const BYTES: &[u8] =
    b"FSTCODEX\x08\x00\x00\x00tropical\x00\x01\x00\x00\x00\x00\x00\x00\x00\x01\x00\x00\x00\x02\x00\x00\x00";

/// The entry 1, 2, 5, with weights.
const WEIGHTED: &[u8] =
    b"FSTCODEX\x08\x00\x00\x00tropical\x01\x01\x00\x00\x00\x00\x00\x00\x00\x01\x00\x00\x00\x02\x00\x00\x00\x01\x05\x00\x00\x00\x00\x00\x00\x00";

/// The entry 0, 2147483647, true, twice.
const BOOLEAN: &[u8] =
    b"FSTCODEX\x07\x00\x00\x00boolean\x01\x02\x00\x00\x00\x00\x00\x00\x00\x00\x00\x00\x00\xff\xff\xff\x7f\x01\x00\x00\x00\x00\xff\xff\xff\x7f\x01";

/// The entries 1, 2, -7 and 2147483647, 0, 10 to the 18.
const TROPICAL: &[u8] =
    b"FSTCODEX\x08\x00\x00\x00tropical\x01\x02\x00\x00\x00\x00\x00\x00\x00\x01\x00\x00\x00\x02\x00\x00\x00\x01\xf9\xff\xff\xff\xff\xff\xff\xff\xff\xff\xff\x7f\x00\x00\x00\x00\x01\x00\x00d\xa7\xb3\xb6\xe0\x0d";

/// The entries 1, 2, -Infinity and 1, 2, -7.
const MINMAX: &[u8] =
    b"FSTCODEX\x06\x00\x00\x00minmax\x01\x02\x00\x00\x00\x00\x00\x00\x00\x01\x00\x00\x00\x02\x00\x00\x00\x02\x01\x00\x00\x00\x02\x00\x00\x00\x01\xf9\xff\xff\xff\xff\xff\xff\xff";

/// The entries 1, 2, (-7, 5) and 3, 0, (0, -10 to the 18).
const LEXICOGRAPHIC: &[u8] =
    b"FSTCODEX\x0d\x00\x00\x00lexicographic\x01\x02\x00\x00\x00\x00\x00\x00\x00\x01\x00\x00\x00\x02\x00\x00\x00\x01\xf9\xff\xff\xff\xff\xff\xff\xff\x05\x00\x00\x00\x00\x00\x00\x00\x03\x00\x00\x00\x00\x00\x00\x00\x01\x00\x00\x00\x00\x00\x00\x00\x00\x00\x00\x9cXLI\x1f\xf2";

fn read(alloc: Global, bytes: &[u8]) -> Result<Codex<Tropical>, CodexFault> {
    match codex_arc_type(bytes)? {
        ArcType::Tropical => read_codex(alloc, bytes),
        _ => Err(CodexFault {
            offset: 0,
            kind: Memory,
        }),
    }
}

/// Where the fault of bytes is and what it is, as `None` where they are read.
fn fault_of(alloc: Global, bytes: &[u8]) -> Option<(u64, CodexKind)> {
    match read(alloc, bytes) {
        Ok(_) => None,
        Err(fault) => Some((fault.offset, fault.kind)),
    }
}

#[test]
fn reads_entries(rt: HostRuntime) -> Result<(), Fail> {
    let five = Tropical::read_weight(b"5")?;
    for (bytes, weights, weight) in [(BYTES, false, Tropical::one()), (WEIGHTED, true, five)] {
        let codex = read(rt.alloc(), bytes)?;
        assert!(rt; codex.weights() == weights && codex.entries().len() == 1);
        for entry in codex.entries() {
            assert!(rt; entry.ilabel == 1 && entry.olabel == 2 && entry.weight == weight);
        }
    }
    Ok(())
}

/// Asks that bytes are read, with so many entries, and written as the same bytes.
fn both_ways<W: Weight>(
    rt: &impl Abort,
    alloc: Global,
    bytes: &[u8],
    entries: usize,
) -> Result<(), Fail> {
    let kind = codex_arc_type(bytes)?;
    assert!(rt; kind == W::KIND);
    let codex: Codex<W> = read_codex(alloc, bytes)?;
    let again = write_codex(alloc, &codex)?;
    assert_eq!(rt; codex.entries().len(), entries);
    assert_eq!(rt; again.as_slice(), bytes);
    assert_eq!(rt; again.capacity(), bytes.len());
    Ok(())
}

#[test]
fn codices_both_ways(rt: HostRuntime) -> Result<(), Fail> {
    let alloc = rt.alloc();
    both_ways::<Tropical>(&rt, alloc, BYTES, 1)?;
    both_ways::<Tropical>(&rt, alloc, WEIGHTED, 1)?;
    both_ways::<Boolean>(&rt, alloc, BOOLEAN, 2)?;
    both_ways::<Tropical>(&rt, alloc, TROPICAL, 2)?;
    both_ways::<MinMax>(&rt, alloc, MINMAX, 2)?;
    both_ways::<Lexicographic>(&rt, alloc, LEXICOGRAPHIC, 2)
}

/// Asks that each cut of bytes is too short.
fn cuts_are_short(rt: &impl Abort, alloc: Global, bytes: &[u8]) {
    for end in 0..bytes.len() {
        let cut = bytes.get(..end).unwrap_or(bytes);
        assert!(rt;
            fault_of(alloc, cut) == Some((end as u64, Short)),
            "at {end}"
        );
    }
}

#[test]
fn cut_bytes_are_short(rt: HostRuntime) {
    cuts_are_short(&rt, rt.alloc(), BYTES);
    cuts_are_short(&rt, rt.alloc(), WEIGHTED);
}

/// Bytes, the offset of a change, the bytes that stand there then, and the fault with its offset.
static FAULTS: [(&[u8], usize, &[u8], u64, CodexKind); 20] = [
    (WEIGHTED, 0, b"f", 0, BadMagic),
    (WEIGHTED, 7, b"Y", 0, BadMagic),
    // No known name has 9 bytes, or so many.
    (WEIGHTED, 8, b"\x09", 8, UnknownArcType),
    (WEIGHTED, 11, b"\x01", 8, UnknownArcType),
    (WEIGHTED, 19, b"m", 8, UnknownArcType),
    (WEIGHTED, 20, b"\x02", 20, BadFlags),
    // The number of entries: negative, above 33,554,432, as many as there may be, fewer than there are.
    (WEIGHTED, 28, b"\x80", 21, BadCount),
    (WEIGHTED, 21, b"\x01\x00\x00\x02", 21, BadCount),
    (WEIGHTED, 21, b"\x00\x00\x00\x02", 46, Short),
    (BYTES, 21, b"\x00\x00\x00\x02", 37, Short),
    (WEIGHTED, 21, b"\x00", 29, Extra),
    (WEIGHTED, 32, b"\x80", 29, BadLabel),
    (WEIGHTED, 36, b"\xff", 33, BadLabel),
    // The weight: Zero, which leaves bytes after it, a tag of min-max, a number past 10 to the 18.
    (WEIGHTED, 37, b"\x00", 37, BadWeight),
    (WEIGHTED, 37, b"\x02", 37, BadWeight),
    (WEIGHTED, 45, b"\x7f", 37, BadWeight),
    // Without weights the weight is extra.
    (WEIGHTED, 20, b"\x00", 37, Extra),
    // The first of two faults.
    (WEIGHTED, 0, b"fSTCODEX\x09", 0, BadMagic),
    (
        WEIGHTED,
        20,
        b"\x02\x00\x00\x00\x00\x00\x00\x00\x80",
        20,
        BadFlags,
    ),
    (WEIGHTED, 32, b"\x80\x02\x00\x00\x80", 29, BadLabel),
];

/// Changes that leave a codex: the greatest labels, and the greatest number.
static READ: [(usize, &[u8]); 2] = [
    (29, b"\xff\xff\xff\x7f\xff\xff\xff\x7f"),
    (38, b"\x00\x00\x64\xa7\xb3\xb6\xe0\x0d"),
];

#[test]
fn each_fault_at_its_field(rt: HostRuntime) -> Result<(), Fail> {
    let alloc = rt.alloc();
    for (whole, at, bytes, offset, kind) in &FAULTS {
        let changed = change(alloc, whole, *at, bytes)?;
        let fault = fault_of(alloc, changed.as_slice());
        assert!(rt; fault == Some((*offset, *kind)), "at {at}: {bytes:?}");
    }
    for (at, bytes) in &READ {
        let changed = change(alloc, WEIGHTED, *at, bytes)?;
        assert!(rt;
            fault_of(alloc, changed.as_slice()).is_none(),
            "at {at}: {bytes:?}"
        );
    }
    Ok(())
}

/// A length that no known name has is refused though the name is cut; a known one is too short.
static CUT_NAMES: [(&[u8], u64, CodexKind); 3] = [
    (b"FSTCODEX\x09\x00\x00\x00mi", 8, UnknownArcType),
    (b"FSTCODEX\x0d\x00\x00\x00mi", 14, Short),
    (b"FSTCODEX\x06\x00\x00\x00minman", 8, UnknownArcType),
];

#[test]
fn cut_name_by_its_length(rt: HostRuntime) {
    for (bytes, offset, kind) in &CUT_NAMES {
        assert!(rt;
            fault_of(rt.alloc(), bytes) == Some((*offset, *kind)),
            "{bytes:?}"
        );
    }
}
