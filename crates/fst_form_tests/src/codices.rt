//! Labels encoded and decoded.

use crate::texts::{is_printed, machine};
use fst_codex::{Codex, DecodeFault, decode_labels, encode_labels};
use fst_semiring::{Tropical, Weight};
use std::process::Abort;
use std::test::Fail;

/// Two arcs with the same labels and other weights.
const TWICE: &[u8] = b"0 1 1 2 5\n0 1 1 2 6\n1 3\n";

/// An entry: its labels, and the text of its weight.
type Entry = (u32, u32, &'static [u8]);

/// A machine, whether its weights are encoded, the machine that it is encoded as, and the entries of the codex.
static ENCODED: [(&[u8], bool, &[u8], &[Entry]); 2] = [
    (
        TWICE,
        false,
        b"0 1 1 1 5\n0 1 1 1 6\n1 3\n",
        &[(1, 2, b"0")],
    ),
    (
        TWICE,
        true,
        b"0 1 1 1\n0 1 2 2\n1 3\n",
        &[(1, 2, b"5"), (1, 2, b"6")],
    ),
];

/// Asks that a codex has these entries.
fn has_entries(rt: &impl Abort, codex: &Codex<Tropical>, entries: &[Entry]) {
    assert_eq!(rt; codex.entries().len(), entries.len());
    for (own, (ilabel, olabel, weight)) in codex.entries().iter().zip(entries) {
        assert!(rt; own.ilabel == *ilabel && own.olabel == *olabel);
        assert!(rt;
            Ok(own.weight) == Tropical::read_weight(weight),
            "{weight:?}"
        );
    }
}

#[test]
fn encodes_labels_and_weights(rt: HostRuntime) -> Result<(), Fail> {
    let alloc = rt.alloc();
    for (text, weights, want, entries) in &ENCODED {
        let (encoded, codex) = encode_labels(alloc, &machine(alloc, text)?, *weights)?;
        is_printed(&rt, alloc, &encoded, want)?;
        assert!(rt; codex.weights() == *weights);
        has_entries(&rt, &codex, entries);
    }
    Ok(())
}

#[test]
fn decodes_what_was_encoded(rt: HostRuntime) -> Result<(), Fail> {
    let alloc = rt.alloc();
    let text = b"0 1 1 2 5\n0 1 0 0 4\n1 0 1 2 6\n1 3\n";
    let fst = machine(alloc, text)?;
    for weights in [false, true] {
        let (encoded, codex) = encode_labels(alloc, &fst, weights)?;
        let decoded = decode_labels(alloc, &encoded, &codex)?;
        is_printed(&rt, alloc, &decoded, text)?;
    }
    Ok(())
}

/// Machines, and why they are not decoded by the codex of two arcs with weights, of which the first is the greatest.
static ASKED: [(&[u8], Option<DecodeFault>); 7] = [
    (b"0 1 2 2 5\n0 1 0 0 5\n1\n", None),
    (b"0 1 1 1 -5\n1\n", None),
    (b"0 1 3 3\n1\n", Some(DecodeFault::NotInCodex { label: 3 })),
    (
        b"0 1 2 2\n1 1 4 4\n1 1 3 3\n1\n",
        Some(DecodeFault::NotInCodex { label: 4 }),
    ),
    (
        b"0 1 3 3\n1 1 1 1 1\n1 1 2 1\n1\n",
        Some(DecodeFault::NotAcceptor { state: 1, place: 1 }),
    ),
    (
        b"0 1 1 1 1\n1 1 3 3\n1\n",
        Some(DecodeFault::NotInCodex { label: 3 }),
    ),
    (
        b"0 1 1 1\n1 1 1 1 1\n1\n",
        Some(DecodeFault::Overflow { state: 1 }),
    ),
];

#[test]
fn refuses_the_first_fault(rt: HostRuntime) -> Result<(), Fail> {
    let alloc = rt.alloc();
    let fst = machine(alloc, b"0 1 1 2 1000000000000000000\n0 1 3 4 6\n1 3\n")?;
    let (_, codex) = encode_labels(alloc, &fst, true)?;
    for (text, want) in &ASKED {
        let fault = decode_labels(alloc, &machine(alloc, text)?, &codex).err();
        assert!(rt; fault == *want, "{text:?} gives {fault:?}");
    }
    Ok(())
}
