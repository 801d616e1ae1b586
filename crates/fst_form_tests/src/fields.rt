//! Worked examples of lines and fields.

use fst_fields::{next_field, next_line, read_decimal, read_label};

/// A field, the greatest number of its digits, and its number.
static DECIMALS: [(&[u8], usize, Option<u64>); 10] = [
    (b"0", 19, Some(0)),
    (b"007", 19, Some(7)),
    (b"1000000000000000000", 19, Some(1000000000000000000)),
    (b"9999999999999999999", 19, Some(9999999999999999999)),
    (b"10000000000000000000", 19, None),
    (b"1000000000000000000", 18, None),
    (b"", 19, None),
    (b"-1", 19, None),
    (b"1 ", 19, None),
    (b"12a", 19, None),
];

/// A field, and its label.
static LABELS: [(&[u8], Option<u32>); 8] = [
    (b"0", Some(0)),
    (b"000000000000000007", Some(7)),
    (b"2147483647", Some(2147483647)),
    (b"2147483648", None),
    (b"999999999999999999", None),
    (b"0000000000000000007", None),
    (b"", None),
    (b"-1", None),
];

#[test]
fn reads_numbers_and_labels(rt: HostRuntime) {
    for (field, most, want) in &DECIMALS {
        assert_eq!(rt; read_decimal(field, *most), *want, "at {field:?}");
    }
    for (field, want) in &LABELS {
        assert_eq!(rt; read_label(field), *want, "at {field:?}");
    }
}

/// A text, its first line, and what is after it.
static LINES: [(&[u8], Option<(&[u8], &[u8])>); 4] = [
    (b"\t0  1\r\n\nlast", Some((b"\t0  1\r", b"\nlast"))),
    (b"\nlast", Some((b"", b"last"))),
    (b"last", Some((b"last", b""))),
    (b"", None),
];

/// A line, its first field, and what is after it.
static FIELDS: [(&[u8], Option<(&[u8], &[u8])>); 4] = [
    (b"\t0  1\r", Some((b"0", b"  1\r"))),
    (b"  1\r", Some((b"1", b"\r"))),
    (b"\r", None),
    (b" \t\r", None),
];

/// Whether what was taken is what is wanted.
fn is_taken(found: Option<(&[u8], &[u8])>, want: &Option<(&[u8], &[u8])>) -> bool {
    match (found, want) {
        (Some((a, b)), Some((c, d))) => a == *c && b == *d,
        (None, None) => true,
        _ => false,
    }
}

#[test]
fn takes_lines_and_fields(rt: HostRuntime) {
    for (text, want) in &LINES {
        assert!(rt; is_taken(next_line(text), want), "at {text:?}");
    }
    for (line, want) in &FIELDS {
        assert!(rt; is_taken(next_field(line), want), "at {line:?}");
    }
}
