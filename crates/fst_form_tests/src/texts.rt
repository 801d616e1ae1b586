//! Worked examples of the text form.

use fst_machine::Fst;
use fst_semiring::Tropical;
use fst_symbols::SymbolTable;
use fst_text::{PrintFault, TextFault, TextOptions, compile, print};
use std::alloc::Global;
use std::process::Abort;
use std::test::Fail;

/// How a text is read and printed, as letters: `a` as an acceptor, `k` with the numbers of its states, `w` with weight
/// One shown, `i` and `o` with symbols for the labels of the input side and of the output side.
type Form = &'static str;

/// The options of a form, with these tables for the two sides.
fn options<'t>(form: Form, input: &'t SymbolTable, output: &'t SymbolTable) -> TextOptions<'t> {
    TextOptions {
        acceptor: form.contains('a'),
        keep_state_numbering: form.contains('k'),
        show_weight_one: form.contains('w'),
        isymbols: if form.contains('i') {
            Some(input)
        } else {
            None
        },
        osymbols: if form.contains('o') {
            Some(output)
        } else {
            None
        },
    }
}

/// The options without tables, by which states keep their numbers.
fn kept_options<'t>() -> TextOptions<'t> {
    TextOptions {
        acceptor: false,
        keep_state_numbering: true,
        show_weight_one: false,
        isymbols: None,
        osymbols: None,
    }
}

/// The machine of a text, with the numbers of its states.
pub(crate) fn machine(alloc: Global, text: &[u8]) -> Result<Fst<Tropical>, Fail> {
    let fst = compile(alloc, text, &kept_options())?;
    Ok(fst)
}

/// Asks that a machine is printed so, with tabs for the spaces here.
pub(crate) fn is_printed(
    rt: &impl Abort,
    alloc: Global,
    fst: &Fst<Tropical>,
    text: &[u8],
) -> Result<(), Fail> {
    let wanted = machine(alloc, text)?;
    let wanted = print(alloc, &wanted, &kept_options())?;
    let printed = print(alloc, fst, &kept_options())?;
    assert_eq!(rt; printed.as_slice(), wanted.as_slice());
    Ok(())
}

/// A text, how it is read and printed, and what is printed.
static PRINTED: [(&[u8], Form, &[u8]); 26] = [
    (b"0 1 1 2 5\n1 3\n", "", b"0\t1\t1\t2\t5\n1\t3\n"),
    (b"", "", b""),
    (b" \n\t\r\n", "", b""),
    (b"7 3 1 1\n3 7 2 2\n7\n", "", b"0\t1\t1\t1\n0\n1\t0\t2\t2\n"),
    (
        b"7 3 1 1\n3 7 2 2\n7\n",
        "k",
        b"7\t3\t1\t1\n7\n0\tInfinity\n1\tInfinity\n2\tInfinity\n3\t7\t2\t2\n4\tInfinity\n5\tInfinity\n6\tInfinity\n",
    ),
    (
        b"0 1 1 2\n0 1 5\n",
        "a",
        b"0\t1\t1\t2\n0\t1\t5\n1\tInfinity\n",
    ),
    (
        b"0 1 1 1 1000000000000000000\n1\n",
        "",
        b"0\t1\t1\t1\t1000000000000000000\n1\n",
    ),
    (
        b"0 1 1 1\n0 2 2 2\n1 4\n",
        "",
        b"0\t1\t1\t1\n0\t2\t2\t2\n1\t4\n2\tInfinity\n",
    ),
    (
        b"0\t1\t1\t1\n0\t2\t2\t2\n1\t4\n2\tInfinity\n",
        "",
        b"0\t1\t1\t1\n0\t2\t2\t2\n1\t4\n2\tInfinity\n",
    ),
    (
        b"\n\n  3\t4  1 2 \r\n4 Infinity",
        "",
        b"0\t1\t1\t2\n1\tInfinity\n",
    ),
    (b"0 1\n0 7\n0 4\n", "", b"0\t4\n"),
    (b"0 7\n0\n", "", b"0\n"),
    (b"0 7\n0\n", "w", b"0\t0\n"),
    (b"01 1 2147483647 0 -3\n", "", b"0\t0\t2147483647\t0\t-3\n"),
    (b"2 0 5 6\n0\n", "k", b"2\t0\t5\t6\n0\n1\tInfinity\n"),
    (
        b"999999999999999999 5 1 1\n5 999999999999999999 2 2\n5\n",
        "w",
        b"0\t1\t1\t1\t0\n1\t0\t2\t2\t0\n1\t0\n",
    ),
    // Lines of numbers alone: the last with no end, one with a separator at its end, and one with two between fields.
    (
        b"0\t1\t1\t2\t5\n1\t2\t3\t4",
        "k",
        b"0\t1\t1\t2\t5\n1\t2\t3\t4\n2\tInfinity\n",
    ),
    (
        b"0 1 1 2 5 \n1 2 3 4\r\n2  0 1 1\n",
        "k",
        b"0\t1\t1\t2\t5\n1\t2\t3\t4\n2\t0\t1\t1\n",
    ),
    (
        b"0 1 1\n1 2 3 4\n\n2 0 7 8",
        "ka",
        b"0\t1\t1\n1\t2\t3\t4\n2\t0\t7\t8\n",
    ),
    (
        b"000000000000000000 1 000000000000000002 3\n",
        "k",
        b"0\t1\t2\t3\n1\tInfinity\n",
    ),
    (b"0 1 b A\n1\n", "io", b"0\t1\tb\tA\n1\n"),
    (b"0 0 <eps> -1\n0\n", "io", b"0\t0\t<eps>\t-1\n0\n"),
    (b"0 1 a 9 5\n1\n", "i", b"0\t1\ta\t9\t5\n1\n"),
    (b"0 1 9 -1 5\n1\n", "o", b"0\t1\t9\t-1\t5\n1\n"),
    (
        b"0 1 b\n1 0 <eps> 2\n1\n",
        "aio",
        b"0\t1\tb\n1\t0\t<eps>\t2\n1\n",
    ),
    (b"0 1 7\n1\n", "ao", b"0\t1\t7\n1\n"),
];

/// The tables of the two sides.
const LETTERS: &[u8] = b"<eps> 0\na 1\nb 2\n";

const CAPITALS: &[u8] = b"A 1\nB 2\n-1 3\n";

/// Asks that a text is printed so.
fn prints(
    rt: &impl Abort,
    alloc: Global,
    options: &TextOptions,
    text: &[u8],
    want: &[u8],
) -> Result<(), Fail> {
    let fst: Fst<Tropical> = compile(alloc, text, options)?;
    let printed = print(alloc, &fst, options)?;
    assert_eq!(rt; printed.as_slice(), want, "of {text:?}");
    Ok(())
}

#[test]
fn compiles_and_prints(rt: HostRuntime) -> Result<(), Fail> {
    let alloc = rt.alloc();
    let letters = SymbolTable::read(alloc, LETTERS)?;
    let capitals = SymbolTable::read(alloc, CAPITALS)?;
    for (text, form, want) in &PRINTED {
        prints(&rt, alloc, &options(*form, &letters, &capitals), text, want)?;
    }
    // One table for both sides.
    let both = options("io", &letters, &letters);
    prints(&rt, alloc, &both, b"0 1 a b 5\n1\n", b"0\t1\ta\tb\t5\n1\n")
}

/// A text, how it is read, and its first fault.
static FAULTS: [(&[u8], Form, TextFault); 30] = [
    (b"0 1 1\n", "", TextFault::BadColumns { line: 1 }),
    (b"0 1 1 2\n0 1 5\n", "", TextFault::BadColumns { line: 2 }),
    (b"x x x x x x\n", "", TextFault::BadColumns { line: 1 }),
    (b"0 1 1 1 1\n", "a", TextFault::BadColumns { line: 1 }),
    (b"\n \nx\n", "", TextFault::BadState { line: 3 }),
    (b"0 -1 x x x\n", "", TextFault::BadState { line: 1 }),
    (
        b"1234567890123456789\n",
        "",
        TextFault::BadState { line: 1 },
    ),
    (
        b"0 1 1 1\n0 0000000000000000001 1 1\n",
        "",
        TextFault::BadState { line: 2 },
    ),
    (
        b"0 1 1 1 2\n\n0 1 0000000000000000001 1\n",
        "",
        TextFault::BadLabel { line: 3 },
    ),
    (b"0 1 1,1 1\n", "", TextFault::BadLabel { line: 1 }),
    (
        b"0 1 1 1\n1 2 3 4 5 6\n",
        "",
        TextFault::BadColumns { line: 2 },
    ),
    (b"0 1 2147483648 1\n", "", TextFault::BadLabel { line: 1 }),
    (b"0 1 1 1x 0.5\n", "", TextFault::BadLabel { line: 1 }),
    (
        b"0 1 1 1 1000000000000000001\n1\n",
        "",
        TextFault::BadWeight { line: 1 },
    ),
    (
        b"0 1 1 1 Infinity\n1\n",
        "",
        TextFault::BadWeight { line: 1 },
    ),
    (b"0 1 1 1 0.5\n1\n", "", TextFault::BadWeight { line: 1 }),
    (b"0 1 1 1\n1 x\ny\n", "", TextFault::BadWeight { line: 2 }),
    (b"4194304\n", "k", TextFault::TooManyStates { line: 1 }),
    (
        b"0\n0 4194304 x x\n",
        "k",
        TextFault::TooManyStates { line: 2 },
    ),
    (
        b"4194304 x 1 1\n",
        "k",
        TextFault::TooManyStates { line: 1 },
    ),
    (b"0 1 c A\n", "io", TextFault::UnknownSymbol { line: 1 }),
    (
        b"0 1 a A\n1 2 a 1\n",
        "io",
        TextFault::UnknownSymbol { line: 2 },
    ),
    (b"0 1 1 b\n", "o", TextFault::UnknownSymbol { line: 1 }),
    (b"0 1 x b\n", "o", TextFault::BadLabel { line: 1 }),
    (b"0 1 c x\n", "i", TextFault::UnknownSymbol { line: 1 }),
    (b"0 1 a x\n", "i", TextFault::BadLabel { line: 1 }),
    (b"0 1 A\n", "aio", TextFault::UnknownSymbol { line: 1 }),
    (b"0 x c A\n", "io", TextFault::BadState { line: 1 }),
    (b"0 1 c A x\n", "io", TextFault::UnknownSymbol { line: 1 }),
    (b"0 1 a A x\n", "io", TextFault::BadWeight { line: 1 }),
];

#[test]
fn names_the_first_fault(rt: HostRuntime) -> Result<(), Fail> {
    let alloc = rt.alloc();
    let letters = SymbolTable::read(alloc, LETTERS)?;
    let capitals = SymbolTable::read(alloc, CAPITALS)?;
    for (text, form, want) in &FAULTS {
        let options = options(*form, &letters, &capitals);
        let fault = compile::<Tropical>(alloc, text, &options).err();
        assert!(rt; fault == Some(*want), "{text:?} gives {fault:?}");
    }
    Ok(())
}

/// A text whose states keep their numbers, how it is printed, and why it is not. The start is printed first, and the
/// input label of an arc before its output label.
static UNPRINTED: [(&[u8], Form, PrintFault); 7] = [
    (
        b"0 1 1 2 5\n1 3\n",
        "o",
        PrintFault::UnknownSymbol { label: 2 },
    ),
    (
        b"1 0 3 1\n0 1 5 1\n",
        "io",
        PrintFault::UnknownSymbol { label: 5 },
    ),
    (
        b"1 0 3 1\n1 0 4 7\n0 1 5 1\n",
        "io",
        PrintFault::UnknownSymbol { label: 7 },
    ),
    (b"0 1 6 7\n", "io", PrintFault::UnknownSymbol { label: 6 }),
    (
        b"0 1 3 3\n1 0 5 5\n",
        "aio",
        PrintFault::UnknownSymbol { label: 5 },
    ),
    (
        b"0 1 5 5\n1 0 1 3\n",
        "aio",
        PrintFault::NotAcceptor { state: 1, place: 0 },
    ),
    (
        b"0 1 1 1\n1 0 3 3\n1 0 3 4\n2 0 1 2\n",
        "a",
        PrintFault::NotAcceptor { state: 1, place: 1 },
    ),
];

#[test]
fn names_the_first_label_that_is_not_printed(rt: HostRuntime) -> Result<(), Fail> {
    let alloc = rt.alloc();
    let three = SymbolTable::read(alloc, b"x 3\ny 4\nz 1\n")?;
    let one = SymbolTable::read(alloc, b"a 1\n")?;
    for (text, form, want) in &UNPRINTED {
        let fst = machine(alloc, text)?;
        let fault = print(alloc, &fst, &options(*form, &three, &one)).err();
        assert!(rt; fault == Some(*want), "{text:?} gives {fault:?}");
    }
    Ok(())
}

/// The text of 2,000 arcs, each to the next state, whose names are so far apart.
fn chain(alloc: Global, gap: u64) -> Result<String, Fail> {
    let mut text = String::new(alloc);
    let mut state = 0u64;
    for _ in 0..2000 {
        let next = state.saturating_add(gap);
        let line = format!(in alloc; "{state}\t{next}\t1\t1\n")?;
        text.push_str(line.as_str())?;
        state = next;
    }
    Ok(text)
}

/// States are numbered in the order in which they come, whatever their names are, through several growths of the table
/// of names.
#[test]
fn numbers_states_in_order(rt: HostRuntime) -> Result<(), Fail> {
    let alloc = rt.alloc();
    let none = SymbolTable::read(alloc, b"")?;
    let plain = options("", &none, &none);
    let mut want = chain(alloc, 1)?;
    want.push_str("2000\tInfinity\n")?;
    for gap in [1, 7, 1000, 832_040, 4_294_967_296, 999_999_999_989] {
        let text = chain(alloc, gap)?;
        prints(&rt, alloc, &plain, text.as_bytes(), want.as_bytes())?;
    }
    Ok(())
}
