//! Worked examples of weights, their texts and their keys, and of Plus, Times and division, written out by hand.

use fst_semiring::{
    ArcType, Boolean, Key, LIMIT, Lexicographic, MinMax, Tropical, Weight, is_zero,
};
use std::alloc::{AllocError, Global};
use std::cmp::Ordering;
use std::process::Abort;
use std::test::Fail;

/// What is asked of the weights of an arc type.
struct Rows {
    /// Texts, each with the printed form of the weight that it stands for; nothing where it stands for none.
    texts: &'static [(&'static str, &'static str)],
    /// Products and quotients.
    cases: &'static [Case],
    /// The classes of the keys of One and Zero.
    ends: (u8, u8),
}

/// Two weights, how they compare, their product, and the worse divided by the better. A text without bytes stands
/// for no answer: a number past the limit, or a division by Zero.
type Case = (
    &'static str,
    &'static str,
    Ordering,
    &'static str,
    &'static str,
);

const PAST: i128 = 1_000_000_000_000_000_001;

static BOOLEAN: Rows = Rows {
    texts: &[
        ("0", "0"),
        ("1", "1"),
        ("", ""),
        ("2", ""),
        ("00", ""),
        ("01", ""),
        ("10", ""),
        ("-0", ""),
        ("1 ", ""),
        ("true", ""),
        ("Infinity", ""),
    ],
    cases: &[
        ("1", "0", Ordering::Less, "0", "0"),
        ("0", "1", Ordering::Greater, "0", "0"),
        ("1", "1", Ordering::Equal, "1", "1"),
        ("0", "0", Ordering::Equal, "0", ""),
    ],
    ends: (1, 2),
};

static TROPICAL: Rows = Rows {
    texts: &[
        ("0", "0"),
        ("-0", "0"),
        ("007", "7"),
        ("-42", "-42"),
        ("1000000000000000000", "1000000000000000000"),
        ("-1000000000000000000", "-1000000000000000000"),
        ("1000000000000000001", ""),
        ("-1000000000000000001", ""),
        ("0000000000000000012", "12"),
        ("00000000000000000012", ""),
        ("9999999999999999999", ""),
        ("Infinity", "Infinity"),
        ("-Infinity", ""),
        ("infinity", ""),
        ("", ""),
        ("-", ""),
        ("+1", ""),
        ("1.5", ""),
    ],
    cases: &[
        ("3", "5", Ordering::Less, "8", "2"),
        ("5", "3", Ordering::Greater, "8", "2"),
        ("-4", "-4", Ordering::Equal, "-8", "0"),
        ("0", "Infinity", Ordering::Less, "Infinity", "Infinity"),
        ("Infinity", "Infinity", Ordering::Equal, "Infinity", ""),
        (
            "600000000000000000",
            "400000000000000000",
            Ordering::Greater,
            "1000000000000000000",
            "200000000000000000",
        ),
        (
            "-600000000000000000",
            "-400000000000000001",
            Ordering::Less,
            "",
            "199999999999999999",
        ),
        (
            "-1000000000000000000",
            "1000000000000000000",
            Ordering::Less,
            "0",
            "",
        ),
    ],
    ends: (1, 2),
};

static MINMAX: Rows = Rows {
    texts: &[
        ("0", "0"),
        ("-0", "0"),
        ("-007", "-7"),
        ("1000000000000000000", "1000000000000000000"),
        ("-1000000000000000000", "-1000000000000000000"),
        ("1000000000000000001", ""),
        ("-1000000000000000001", ""),
        ("-0000000000000000012", "-12"),
        ("-00000000000000000012", ""),
        ("Infinity", "Infinity"),
        ("-Infinity", "-Infinity"),
        ("+Infinity", ""),
        ("-infinity", ""),
        ("--Infinity", ""),
        ("Infinity ", ""),
        ("", ""),
        ("-", ""),
        ("--1", ""),
        ("1,2", ""),
    ],
    cases: &[
        ("3", "5", Ordering::Less, "5", "5"),
        ("4", "4", Ordering::Equal, "4", "4"),
        ("-Infinity", "-7", Ordering::Less, "-7", "-7"),
        (
            "Infinity",
            "-Infinity",
            Ordering::Greater,
            "Infinity",
            "Infinity",
        ),
        ("Infinity", "Infinity", Ordering::Equal, "Infinity", ""),
    ],
    ends: (0, 2),
};

static LEXICOGRAPHIC: Rows = Rows {
    texts: &[
        ("3,-4", "3,-4"),
        ("-0,007", "0,7"),
        (
            "1000000000000000000,-1000000000000000000",
            "1000000000000000000,-1000000000000000000",
        ),
        ("1000000000000000001,0", ""),
        ("0,1000000000000000001", ""),
        ("-1000000000000000001,0", ""),
        ("0,-1000000000000000001", ""),
        ("0000000000000000001,-0000000000000000002", "1,-2"),
        ("00000000000000000001,2", ""),
        ("1,00000000000000000002", ""),
        ("Infinity,Infinity", "Infinity,Infinity"),
        ("Infinity,0", ""),
        ("0,Infinity", ""),
        ("Infinity", ""),
        ("-Infinity,-Infinity", ""),
        ("Infinity,Infinity,0", ""),
        ("1,2,3", ""),
        ("1,,2", ""),
        ("1, 2", ""),
        (" 1,2", ""),
        ("1;2", ""),
        (",2", ""),
        ("1,", ""),
        (",", ""),
        ("", ""),
        ("1", ""),
    ],
    cases: &[
        ("1,9", "2,0", Ordering::Less, "3,9", "1,-9"),
        ("1,3", "1,2", Ordering::Greater, "2,5", "0,1"),
        (
            "0,0",
            "Infinity,Infinity",
            Ordering::Less,
            "Infinity,Infinity",
            "Infinity,Infinity",
        ),
        (
            "0,600000000000000000",
            "0,400000000000000001",
            Ordering::Greater,
            "",
            "0,199999999999999999",
        ),
    ],
    ends: (1, 2),
};

/// The class, the first and the second of a key, and the printed form of its boolean, tropical, min-max and
/// lexicographic weight; nothing where it has none.
type KeyRow = (u8, i128, i128, [&'static str; 4]);

static KEYS: [KeyRow; 12] = [
    (0, 0, 0, ["", "", "-Infinity", ""]),
    (1, 0, 0, ["1", "0", "0", "0,0"]),
    (2, 0, 0, ["0", "Infinity", "Infinity", "Infinity,Infinity"]),
    (3, 0, 0, ["", "", "", ""]),
    (0, 1, 0, ["", "", "", ""]),
    (1, 5, 0, ["", "5", "5", "5,0"]),
    (1, -5, 6, ["", "", "", "-5,6"]),
    (2, 0, 1, ["", "", "", ""]),
    (1, PAST, 0, ["", "", "", ""]),
    (1, -PAST, 0, ["", "", "", ""]),
    (1, 0, PAST, ["", "", "", ""]),
    (1, 0, -PAST, ["", "", "", ""]),
];

/// What a row of keys says of an arc type.
fn wanted(kind: ArcType, texts: [&'static str; 4]) -> &'static str {
    let [boolean, tropical, minmax, lexicographic] = texts;
    match kind {
        ArcType::Boolean => boolean,
        ArcType::Tropical => tropical,
        ArcType::MinMax => minmax,
        ArcType::Lexicographic => lexicographic,
    }
}

/// The printed form of the weight with a key; nothing where there is none.
fn printed_key<W: Weight>(alloc: Global, key: Key) -> Result<Vec<u8>, AllocError> {
    match W::from_key(key) {
        Some(weight) => weight.weight_text(alloc),
        None => Ok(Vec::new(alloc)),
    }
}

/// The printed form of the weight with the key of the weight that a text stands for; nothing where the text
/// stands for none.
fn printed<W: Weight>(alloc: Global, text: &str) -> Result<Vec<u8>, AllocError> {
    match W::read_weight(text.as_bytes()) {
        Ok(weight) => printed_key::<W>(alloc, W::key(weight.widen())),
        Err(_) => Ok(Vec::new(alloc)),
    }
}

/// A weight divided by a better or equal one that is not Zero.
fn divided<W: Weight>(a: W, by: W) -> Option<W> {
    if by.compare(W::zero()) != Ordering::Less {
        return None;
    }
    match by.compare(a) {
        Ordering::Greater => None,
        _ => W::narrow(W::wide_divide(a.widen(), by.widen())),
    }
}

/// Whether a weight is what a text stands for, or there is neither.
fn is_text<W: Weight>(found: Option<W>, text: &str) -> bool {
    match (found, W::read_weight(text.as_bytes())) {
        (Some(weight), Ok(wanted)) => weight == wanted,
        (None, Err(_)) => true,
        _ => false,
    }
}

/// Whether the calls answer what the row says.
fn holds<W: Weight>(rt: &impl Abort, row: &Case) -> bool {
    let (a, b, order, product, quotient) = *row;
    let a = W::read_weight(a.as_bytes()).expect(rt, "a weight");
    let b = W::read_weight(b.as_bytes()).expect(rt, "a weight");
    let (better, worse) = match order {
        Ordering::Greater => (b, a),
        _ => (a, b),
    };
    let sum = W::wide_plus(a.widen(), b.widen());
    a.compare(b) == order
        && a.plus(b) == better
        && W::wide_compare(sum, better.widen()) == Ordering::Equal
        && is_text(W::narrow(a.times(b)), product)
        && is_text(divided(worse, better), quotient)
}

/// Asks what the rows of texts and of keys say.
fn reads_and_prints<W: Weight>(rt: &impl Abort, alloc: Global, rows: &Rows) -> Result<(), Fail> {
    for (text, want) in rows.texts {
        assert!(rt;
            printed::<W>(alloc, text)?.as_slice() == want.as_bytes(),
            "at {text}"
        );
    }
    for (class, first, second, texts) in &KEYS {
        let key = Key {
            class: *class,
            first: *first,
            second: *second,
        };
        let want = wanted(W::KIND, *texts);
        assert!(rt;
            printed_key::<W>(alloc, key)?.as_slice() == want.as_bytes(),
            "at {key:?}"
        );
    }
    Ok(())
}

/// Asks what the rows of an arc type say.
fn check<W: Weight>(rt: &impl Abort, alloc: Global, rows: &Rows) -> Result<(), Fail> {
    reads_and_prints::<W>(rt, alloc, rows)?;
    for row in rows.cases {
        assert!(rt; holds::<W>(rt, row), "at {row:?}");
    }
    let (one, zero) = (W::key(W::one().widen()), W::key(W::zero().widen()));
    assert_eq!(rt; (one.class, zero.class), rows.ends);
    assert_eq!(rt; (one.first, zero.first), (0, 0));
    assert!(rt; is_zero(W::zero()) && !is_zero(W::one()));
    Ok(())
}

#[test]
fn answers_by_the_rows(rt: HostRuntime) -> Result<(), Fail> {
    let alloc = rt.alloc();
    assert_eq!(rt; i128::from(LIMIT) + 1, PAST);
    check::<Boolean>(&rt, alloc, &BOOLEAN)?;
    check::<Tropical>(&rt, alloc, &TROPICAL)?;
    check::<MinMax>(&rt, alloc, &MINMAX)?;
    check::<Lexicographic>(&rt, alloc, &LEXICOGRAPHIC)
}

#[test]
fn packed_sizes(rt: HostRuntime) {
    let sizes = [
        size_of::<Boolean>(),
        size_of::<Tropical>(),
        size_of::<MinMax>(),
        size_of::<Lexicographic>(),
    ];
    assert_eq!(rt; sizes, [1, 8, 8, 16]);
}
