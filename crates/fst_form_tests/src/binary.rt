//! Worked examples of the binary form, and each kind of fault at its offset.

use crate::bytes::change;
use crate::texts::is_printed;
use fst_binary::BinaryKind::{self, *};
use fst_binary::{
    BinaryFault, WeightFieldFault, arc_type, decode, encode, push_weight_field, read_weight_field,
};
use fst_machine::Fst;
use fst_semiring::{ArcType, Tropical, Weight};
use std::alloc::Global;
use std::test::Fail;

/// Two states: 0 is the start and has the arc 1:2 with weight 5 to state 1, which is final with weight 3.
const BYTES: &[u8] =
    b"\xd6\xfd\xb2\x7e\x06\x00\x00\x00vector\x08\x00\x00\x00tropical\x02\x00\x00\x00\x00\x00\x00\x00\x03\x00\x00\x00\x00\x00\x00\x00\x00\x00\x00\x00\x00\x00\x00\x00\x02\x00\x00\x00\x00\x00\x00\x00\x01\x00\x00\x00\x00\x00\x00\x00\x00\x01\x00\x00\x00\x00\x00\x00\x00\x01\x00\x00\x00\x02\x00\x00\x00\x01\x05\x00\x00\x00\x00\x00\x00\x00\x01\x00\x00\x00\x01\x03\x00\x00\x00\x00\x00\x00\x00\x00\x00\x00\x00\x00\x00\x00\x00";

/// No states and no start.
const EMPTY: &[u8] =
    b"\xd6\xfd\xb2\x7e\x06\x00\x00\x00vector\x08\x00\x00\x00tropical\x02\x00\x00\x00\x00\x00\x00\x00\x03\x00\x00\x00\x00\x00\x00\x00\xff\xff\xff\xff\xff\xff\xff\xff\x00\x00\x00\x00\x00\x00\x00\x00\x00\x00\x00\x00\x00\x00\x00\x00";

fn read(alloc: Global, bytes: &[u8]) -> Result<Fst<Tropical>, BinaryFault> {
    match arc_type(bytes)? {
        ArcType::Tropical => decode(alloc, bytes),
        _ => Err(BinaryFault {
            offset: 0,
            kind: Memory,
        }),
    }
}

/// Where the fault of bytes is and what it is, as `None` where they are read.
fn fault_of(alloc: Global, bytes: &[u8]) -> Option<(u64, BinaryKind)> {
    match read(alloc, bytes) {
        Ok(_) => None,
        Err(fault) => Some((fault.offset, fault.kind)),
    }
}

/// Bytes, and the text of their machine.
static BOTH_WAYS: [(&[u8], &[u8]); 2] = [(BYTES, b"0 1 1 2 5\n1 3\n"), (EMPTY, b"")];

#[test]
fn machines_both_ways(rt: HostRuntime) -> Result<(), Fail> {
    let alloc = rt.alloc();
    for (bytes, text) in &BOTH_WAYS {
        let machine = read(alloc, bytes)?;
        is_printed(&rt, alloc, &machine, text)?;
        let again = encode(alloc, &machine)?;
        assert_eq!(rt; again.as_slice(), *bytes);
        assert_eq!(rt; again.capacity(), bytes.len());
    }
    Ok(())
}

#[test]
fn cut_bytes_are_short(rt: HostRuntime) {
    for end in 0..113usize {
        let cut = BYTES.get(..end).unwrap_or(BYTES);
        assert!(rt;
            fault_of(rt.alloc(), cut) == Some((end as u64, Short)),
            "at {end}"
        );
    }
}

/// A header that names 4,194,304 states, and 60 bytes.
#[test]
fn lying_header_is_short(rt: HostRuntime) -> Result<(), Fail> {
    let start_and_states = b"\0\0\0\0\0\0\0\0\0\0\x40".as_slice();
    let mut bytes = change(rt.alloc(), EMPTY, 42, start_and_states)?;
    bytes.resize(126, 0)?;
    assert!(rt; fault_of(rt.alloc(), bytes.as_slice()) == Some((126, Short)));
    Ok(())
}

/// The offset of a change, the bytes that stand there then, and the fault with its offset.
static FAULTS: [(usize, &[u8], u64, BinaryKind); 40] = [
    (0, b"\xd7", 0, BadMagic),
    (3, b"\xfe", 0, BadMagic),
    // The fst type: its length, then its text.
    (4, b"\x07", 4, UnknownFstType),
    (7, b"\x01", 4, UnknownFstType),
    (13, b"s", 4, UnknownFstType),
    // The arc type. No known name has 7 or 113 bytes.
    (14, b"\x07", 14, UnknownArcType),
    (14, b"\x71", 14, UnknownArcType),
    (25, b"m", 14, UnknownArcType),
    (26, b"\x01", 26, BadVersion),
    (26, b"\x04", 26, BadVersion),
    // Flags in version 2, and none in version 3.
    (30, b"\x01", 30, BadFlags),
    (26, b"\x03", 30, BadFlags),
    (33, b"\x80", 30, BadFlags),
    // The start: not below the number of states, above every state, negative.
    (42, b"\x02", 42, BadStart),
    (45, b"\x01", 42, BadStart),
    (49, b"\x80", 42, BadStart),
    (50, b"\x00", 42, BadStart),
    // The number of states: above 4,194,304, negative, and as many as there may be.
    (53, b"\x01", 50, BadCount),
    (50, b"\x01\x00\x40", 50, BadCount),
    (57, b"\x80", 50, BadCount),
    (50, b"\x00\x00\x40", 113, Short),
    // The number of arcs: above 33,554,432, negative, more and fewer than the states have.
    (61, b"\x04", 58, BadCount),
    (65, b"\x80", 58, BadCount),
    (58, b"\x02", 58, BadCount),
    (58, b"\x00", 67, BadCount),
    // A final weight: a tag of min-max, a tag of none, a number past 10 to the 18 on either side.
    (66, b"\x02", 66, BadWeight),
    (66, b"\x03", 66, BadWeight),
    (97, b"\x01\x00\x64\xa7\xb3\xb6\xe0\x0d", 96, BadWeight),
    (97, b"\xff\xff\x9b\x58\x4c\x49\x1f\xf2", 96, BadWeight),
    // The arcs of a state: too many, negative, too many with those before.
    (67, b"\x02", 67, BadCount),
    (74, b"\x80", 67, BadCount),
    (105, b"\x01", 105, BadCount),
    (78, b"\x80", 75, BadLabel),
    (82, b"\xff", 79, BadLabel),
    // The weight of an arc: Zero, an unknown tag, a number past 10 to the 18.
    (83, b"\x00", 83, BadWeight),
    (83, b"\x04", 83, BadWeight),
    (91, b"\x7f", 83, BadWeight),
    (92, b"\x02", 92, BadNext),
    // The first of two faults.
    (26, b"\x04\x00\x00\x00\x01", 26, BadVersion),
    (91, b"\x7f\x02", 83, BadWeight),
];

/// Changes that leave a machine: any properties, no start, and the greatest label and number.
static READ: [(usize, &[u8]); 5] = [
    (34, b"\xff\x01\x02\x03\x04\x05\x06\x80"),
    (42, b"\xff\xff\xff\xff\xff\xff\xff\xff"),
    (75, b"\xff\xff\xff\x7f\xff\xff\xff\x7f"),
    (84, b"\x00\x00\x64\xa7\xb3\xb6\xe0\x0d"),
    (84, b"\x00\x00\x9c\x58\x4c\x49\x1f\xf2"),
];

#[test]
fn each_fault_at_its_field(rt: HostRuntime) -> Result<(), Fail> {
    let alloc = rt.alloc();
    for (at, bytes, offset, kind) in &FAULTS {
        let changed = change(alloc, BYTES, *at, bytes)?;
        let fault = fault_of(alloc, changed.as_slice());
        assert!(rt; fault == Some((*offset, *kind)), "at {at}: {bytes:?}");
    }
    for (at, bytes) in &READ {
        let changed = change(alloc, BYTES, *at, bytes)?;
        assert!(rt;
            fault_of(alloc, changed.as_slice()).is_none(),
            "at {at}: {bytes:?}"
        );
    }
    let mut longer = Vec::from_slice(alloc, BYTES)?;
    longer.push(0)?;
    assert!(rt; fault_of(alloc, longer.as_slice()) == Some((113, Extra)));
    Ok(())
}

/// Texts of weights, each with its field.
static WEIGHTS: [(&[u8], &[u8]); 4] = [
    (b"Infinity", b"\x00"),
    (b"0", b"\x01\x00\x00\x00\x00\x00\x00\x00\x00"),
    (b"-1", b"\x01\xff\xff\xff\xff\xff\xff\xff\xff"),
    (b"258", b"\x01\x02\x01\x00\x00\x00\x00\x00\x00"),
];

/// Bytes that are no field.
static NO_WEIGHTS: [(&[u8], WeightFieldFault); 3] = [
    (b"", WeightFieldFault::Short),
    (b"\x01\x00", WeightFieldFault::Short),
    (b"\x02", WeightFieldFault::BadWeight),
];

#[test]
fn weight_fields(rt: HostRuntime) -> Result<(), Fail> {
    for (text, field) in &WEIGHTS {
        let weight = Tropical::read_weight(text)?;
        let mut out = Vec::new(rt.alloc());
        push_weight_field(&mut out, weight)?;
        assert_eq!(rt; out.as_slice(), *field);
        let (read, end) = read_weight_field::<Tropical>(field, 0)?;
        assert!(rt; read == weight && end == field.len(), "{text:?}");
    }
    for (bytes, want) in &NO_WEIGHTS {
        let fault = read_weight_field::<Tropical>(bytes, 0).err();
        assert!(rt; fault == Some(*want), "{bytes:?}");
    }
    Ok(())
}
