//! Deterministic machines of small acceptors, written out from the definition by hand, and the weights of all pairs.

use fst_determinize::{DeterminizeFault, SubsetWeight, determinize};
use fst_machine::Fst;
use fst_samples::{chain, is_text, machine, same, weigh_alike};
use fst_semiring::{Boolean, Lexicographic, MinMax, Tropical};
use std::alloc::Global;
use std::process::Abort;
use std::test::Fail;

/// Two states that one word reaches, with a residual; one subset that comes again with other residuals; label 0 as a
/// symbol; arcs out of order; a residual of 2 times 10 to the 18 on a way that leads nowhere; and no states.
static TROPICAL: [(&[u8], &[u8]); 6] = [
    (
        b"0 1 1 1 1\n0 2 1 1 2\n1 3 3 3 5\n2 3 3 3 1\n3\n",
        b"0 1 1 1 1\n1 2 3 3 2\n2\n",
    ),
    (
        b"0 1 1 1 0\n0 2 1 1 1\n0 1 2 2 0\n0 2 2 2 3\n1 3\n2 1\n",
        b"0 1 1 1\n0 2 2 2\n1 2\n2 3\n",
    ),
    (b"0 1 0 0 2\n0 1 0 0 1\n1\n", b"0 1 0 0 1\n1\n"),
    (
        b"0 1 2 2 1\n0 2 1 1 2\n1\n2 4\n",
        b"0 1 1 1 2\n0 2 2 2 1\n1 4\n2\n",
    ),
    (
        b"0 1 1 1 -1000000000000000000\n0 2 1 1 1000000000000000000\n1\n",
        b"0 1 1 1 -1000000000000000000\n1\n",
    ),
    (b"", b""),
];

/// The worse of two weights is their product, and division leaves the value.
static MIN_MAX: [(&[u8], &[u8]); 1] = [(
    b"0 1 1 1 3\n0 2 1 1 5\n1 3 2 2 4\n2 3 2 2 1\n3 -Infinity\n",
    b"0 1 1 1 3\n1 2 2 2 4\n2 4\n",
)];

static LEXICOGRAPHIC: [(&[u8], &[u8]); 1] = [(
    b"0 1 1 1 1,5\n0 2 1 1 1,2\n1 3 2 2 0,0\n2 3 2 2 1,0\n3\n",
    b"0 1 1 1 1,2\n1 2 2 2 0,3\n2\n",
)];

static BOOLEAN: [(&[u8], &[u8]); 1] = [(
    b"0 1 1 1\n0 2 1 1\n1 3 2 2\n2\n3\n",
    b"0 1 1 1\n1 2 2 2\n1\n2\n",
)];

/// A machine, the greatest number of states, and why it is not determinized: labels that differ; residuals without end;
/// and a weight past the range behind a residual that is.
static REFUSED: [(&[u8], u32, DeterminizeFault); 3] = [
    (
        b"0 1 1 1\n0 1 1 2\n1\n",
        5,
        DeterminizeFault::NotAcceptor { state: 0, place: 1 },
    ),
    (
        b"0 1 1 1\n0 2 1 1\n1 1 2 2 1\n2 2 2 2 2\n1\n2\n",
        5,
        DeterminizeFault::StateLimit { limit: 5 },
    ),
    (
        b"0 1 1 1 -1000000000000000000\n0 2 1 1 1000000000000000000\n2 3 3 3\n3\n",
        5,
        DeterminizeFault::Overflow { state: 1 },
    ),
];

/// Whether a machine has this deterministic one, with the same weight of each pair of either.
fn becomes<W: SubsetWeight>(alloc: Global, text: &[u8], want: &[u8]) -> Result<bool, Fail> {
    let fst: Fst<W> = machine(alloc, text)?;
    let made = determinize(alloc, &fst, 9)?;
    let alike = weigh_alike(alloc, &fst, &made.fst)?;
    Ok(alike && is_text(alloc, &made.fst, want)?)
}

/// Asks this of each machine and the other.
fn determinizes<W: SubsetWeight>(
    rt: &impl Abort,
    alloc: Global,
    given: &[(&[u8], &[u8])],
) -> Result<(), Fail> {
    for (text, want) in given {
        assert!(rt; becomes::<W>(alloc, text, want)?, "{text:?}");
    }
    Ok(())
}

#[test]
fn makes_the_machine_of_subsets(rt: HostRuntime) -> Result<(), Fail> {
    let alloc = rt.alloc();
    determinizes::<Tropical>(&rt, alloc, &TROPICAL)?;
    determinizes::<MinMax>(&rt, alloc, &MIN_MAX)?;
    determinizes::<Lexicographic>(&rt, alloc, &LEXICOGRAPHIC)?;
    determinizes::<Boolean>(&rt, alloc, &BOOLEAN)
}

/// Why a machine has no deterministic one with at most so many states.
fn refusal(
    rt: &impl Abort,
    alloc: Global,
    text: &[u8],
    limit: u32,
) -> Result<Option<DeterminizeFault>, Fail> {
    let fst: Fst<Tropical> = machine(alloc, text)?;
    assert!(rt; limit > 0 && limit < 10);
    Ok(determinize(alloc, &fst, limit).err())
}

#[test]
fn tells_why_there_is_no_deterministic_machine(rt: HostRuntime) -> Result<(), Fail> {
    let alloc = rt.alloc();
    for (text, limit, want) in &REFUSED {
        assert_eq!(rt; refusal(&rt, alloc, text, *limit)?, Some(*want));
    }
    Ok(())
}

/// Whether a deterministic machine is made as it is, with as many states as the limit.
fn stays(alloc: Global, fst: &Fst<Tropical>) -> Result<bool, Fail> {
    let made = determinize(alloc, fst, 6_001)?;
    Ok(same(&made.fst, fst))
}

#[test]
fn makes_as_many_subsets_as_the_limit(rt: HostRuntime) -> Result<(), Fail> {
    let fst = chain(rt.alloc(), 6_000)?;
    assert_eq!(rt; fst.states(), 6_001);
    assert!(rt; stays(rt.alloc(), &fst)?);
    let fault = determinize(rt.alloc(), &fst, 6_000).err();
    assert!(rt; fault == Some(DeterminizeFault::StateLimit { limit: 6_000 }));
    Ok(())
}
