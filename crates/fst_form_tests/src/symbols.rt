//! Worked examples of symbol tables.

use fst_symbols::{AddSymbolFault, SymbolTable, SymbolsFault};
use std::test::Fail;

const DENSE: &[u8] = b"<eps> 0\na 1\nb 2\n";

const WIDE: &[u8] = b"far 1999999999\n\n a\t1 \r\nb 2\nlong-name-of-a-symbol 2147483647";

/// A text, and a name with its number.
static FOUND: [(&[u8], &[u8], u32); 7] = [
    (DENSE, b"<eps>", 0),
    (DENSE, b"a", 1),
    (DENSE, b"b", 2),
    (WIDE, b"far", 1999999999),
    (WIDE, b"a", 1),
    (WIDE, b"b", 2),
    (WIDE, b"long-name-of-a-symbol", 2147483647),
];

/// A text, a name that it has not, and a number that it has not.
static MISSING: [(&[u8], &[u8], u32); 7] = [
    (DENSE, b"", 3),
    (DENSE, b"0", 2147483647),
    (WIDE, b"<eps", 0),
    (WIDE, b"A", 4),
    (WIDE, b"long-name-of-a-symbo", 2147483646),
    (b" \n\n", b"a", 0),
    (b"", b"a", 1),
];

#[test]
fn finds_names_and_numbers(rt: HostRuntime) -> Result<(), Fail> {
    for (text, name, number) in &FOUND {
        let table = SymbolTable::read(rt.alloc(), text)?;
        assert!(rt; table.find(name) == Some(*number), "of {name:?}");
        assert!(rt;
            table.name(*number).is_some_and(|own| own == *name),
            "of {number}"
        );
    }
    for (text, name, number) in &MISSING {
        let table = SymbolTable::read(rt.alloc(), text)?;
        assert!(rt; table.find(name).is_none(), "of {name:?}");
        assert!(rt; table.name(*number).is_none(), "of {number}");
    }
    Ok(())
}

static FAULTS: [(&[u8], SymbolsFault); 12] = [
    (b"a\n", SymbolsFault::BadColumns { line: 1 }),
    (b"\na 1\nb 2 3\n", SymbolsFault::BadColumns { line: 3 }),
    (b"a x y\n", SymbolsFault::BadColumns { line: 1 }),
    (b"a x\n", SymbolsFault::BadNumber { line: 1 }),
    (b"a 2147483648\n", SymbolsFault::BadNumber { line: 1 }),
    (b"a -1\n", SymbolsFault::BadNumber { line: 1 }),
    (b"a 1\na x\n", SymbolsFault::BadNumber { line: 2 }),
    (b"a 1\na 2\n", SymbolsFault::DuplicateSymbol { line: 2 }),
    (b"a 1\na 1\n", SymbolsFault::DuplicateSymbol { line: 2 }),
    (b"a 1\nb 1\n", SymbolsFault::DuplicateNumber { line: 2 }),
    (b"a 1\nb 01\nc\n", SymbolsFault::DuplicateNumber { line: 2 }),
    (
        b"a 2000000000\n\nb 2000000000\n",
        SymbolsFault::DuplicateNumber { line: 3 },
    ),
];

#[test]
fn names_the_first_fault(rt: HostRuntime) {
    for (text, want) in &FAULTS {
        let fault = SymbolTable::read(rt.alloc(), text).err();
        assert!(rt; fault == Some(*want), "{text:?} gives {fault:?}");
    }
}

/// A name and a number that are added one after the other, and what is answered.
static ADDED: [(&[u8], u32, Result<(), AddSymbolFault>); 9] = [
    (b"a", 1, Ok(())),
    (b"a", 2, Err(AddSymbolFault::SymbolTaken)),
    (b"b", 1, Err(AddSymbolFault::NumberTaken)),
    (b"a", 1, Err(AddSymbolFault::SymbolTaken)),
    (b"<eps>", 0, Ok(())),
    (b"b", 2147483647, Ok(())),
    (b"c", 2147483647, Err(AddSymbolFault::NumberTaken)),
    (b"b", 0, Err(AddSymbolFault::SymbolTaken)),
    (b"\xc3\xa4", 3, Ok(())),
];

/// The symbols that stand then.
static STANDING: [(&[u8], u32); 4] = [
    (b"a", 1),
    (b"<eps>", 0),
    (b"b", 2147483647),
    (b"\xc3\xa4", 3),
];

#[test]
fn adds_or_leaves_the_table(rt: HostRuntime) {
    let mut table = SymbolTable::new(rt.alloc());
    assert!(rt; table.len() == 0);
    for (name, number, want) in &ADDED {
        let before = table.len();
        let answer = table.add(rt.alloc(), name, *number);
        assert!(rt; answer == *want, "{name:?} {number} gives {answer:?}");
        assert!(rt; table.len() == before + u64::from(answer.is_ok()));
    }
    assert!(rt; table.len() == STANDING.len() as u64);
    for place in 0..STANDING.len() {
        let (name, number) = table.pair(place as u64);
        let (want, wanted) = STANDING[place];
        assert!(rt; name == want && number == wanted, "at {place}");
        assert!(rt; table.find(want) == Some(wanted));
        assert!(rt; table.name(wanted).is_some_and(|own| own == want));
    }
    assert!(rt; table.name_bytes() == 9);
    assert!(rt; table.mean_name_length() == 3);
}
