//! Searches among the arcs of a state, and the arcs of a name by searches of either side, by hand.

ghost use Rattle.std.specs.Prelude.{◌≡◌, ◌<◌};

use fst_compose::{ComposeKey, KeyArc, expand, expand_counted};
use fst_machine::{Fst, FstArc, Steps};
use fst_samples::machine;
use fst_semiring::Tropical;
use fst_trim::{Side, find_run, is_sorted, run_from, stands_by};
use std::alloc::{AllocError, Global};
use std::marker::Brand;
use std::sync::ledger::{Blank, Ledger};
use std::test::Fail;

/// Four arcs with the input labels 1, 3, 3 and 8, and a state without arcs.
const FOUR: &[u8] = b"0 0 1 1\n0 0 3 1\n0 0 3 2\n0 0 8 1\n0\n";

const NONE: &[u8] = b"0\n";

/// A machine, a label, and where its arcs stand.
static RUNS: [(&[u8], u32, (usize, usize)); 4] = [
    (FOUR, 3, (1, 3)),
    (FOUR, 2, (1, 1)),
    (FOUR, 9, (4, 4)),
    (NONE, 3, (0, 0)),
];

/// Where the arcs with a label stand, by both searches; `None` where the arcs are in no order.
fn places<L: Ledger>(
    arcs: &[FstArc<Tropical>],
    label: u32,
    blank: Blank,
) -> Option<[(usize, usize); 2]>
    requires name { blank.name ≡ L.name }
    requires parts { blank.parts ≡ L.parts }
    requires some { 0 < blank.parts }
{
    if !stands_by(arcs, Side::Input) {
        return None;
    }
    let mut steps = Steps::<L>::new(blank);
    let whole = find_run(arcs, Side::Input, label, &mut steps);
    let near = run_from(arcs, Side::Input, label, 0, &mut steps);
    Some([whole, near])
}

#[test]
fn finds_runs_of_a_label(rt: HostRuntime) -> Result<(), Fail> {
    for (text, label, want) in &RUNS {
        let fst: Fst<Tropical> = machine(rt.alloc(), text)?;
        assert!(rt; fst.states() > 0);
        let found = places::<Brand>(fst.arcs(0), *label, Blank::new(1));
        assert!(rt; found == Some([*want, *want]), "{label}: {found:?}");
    }
    Ok(())
}

/// Labels of two arcs and of an epsilon on each side, and more of one label.
const FIRST: &[u8] = b"0 0 1 0\n0 0 2 1\n0 0 3 1\n0 0 4 2\n0\n";

const SECOND: &[u8] = b"0 0 0 9\n0 0 1 5\n0 0 1 6\n0 0 3 7\n0\n";

/// Seven arcs, and three that are in no order.
const SEVEN: &[u8] = b"0 0 1 1\n0 0 2 2\n0 0 3 3\n0 0 4 3\n0 0 5 5\n0 0 6 6\n0 0 7 7\n0\n";

const UNSORTED: &[u8] = b"0 0 3 1\n0 0 1 2\n0 0 3 4\n0\n";

/// The labels of the arcs of the first names.
static BOTH: [(u32, u32); 6] = [(1, 0), (2, 5), (2, 6), (3, 5), (3, 6), (0, 9)];

static SEARCHED: [(u32, u32); 5] = [(1, 2), (3, 1), (3, 4), (4, 1), (4, 4)];

/// The arcs of the first name of two machines by searches of this side; `None` where one of them is in no order.
fn searched<L: Ledger>(
    alloc: Global,
    a: &Fst<Tropical>,
    b: &Fst<Tropical>,
    side: Side,
    blank: Blank,
) -> Result<Option<Vec<KeyArc<Tropical>>>, AllocError>
    requires name { blank.name ≡ L.name }
    requires parts { blank.parts ≡ L.parts }
    requires some { 0 < blank.parts }
{
    if a.states() == 0 || b.states() == 0 {
        return Ok(None);
    }
    if !is_sorted(a, Side::Output) || !is_sorted(b, Side::Input) {
        return Ok(None);
    }
    let key = ComposeKey {
        first: 0,
        second: 0,
        filter: 0,
    };
    let mut steps = Steps::<L>::new(blank);
    Ok(Some(expand_counted(alloc, a, b, key, side, &mut steps)?))
}

/// Whether the arcs have these labels, in this order.
fn have_labels(arcs: &[KeyArc<Tropical>], labels: &[(u32, u32)]) -> bool {
    arcs.len() == labels.len()
        && arcs.iter().zip(labels).all(|(arc, (input, output))| arc.ilabel == *input
            && arc.olabel == *output)
}

#[test]
fn either_side_gives_the_same_arcs(rt: HostRuntime) -> Result<(), Fail> {
    let alloc = rt.alloc();
    let a: Fst<Tropical> = machine(alloc, FIRST)?;
    let b: Fst<Tropical> = machine(alloc, SECOND)?;
    for side in [Side::Input, Side::Output] {
        let arcs = searched::<Brand>(alloc, &a, &b, side, Blank::new(1))?;
        let same = arcs.is_some_and(|arcs| have_labels(arcs.as_slice(), &BOTH));
        assert!(rt; same, "{side:?}");
    }
    Ok(())
}

#[test]
fn searches_the_first_where_the_second_is_in_no_order(rt: HostRuntime) -> Result<(), Fail> {
    let alloc = rt.alloc();
    let a: Fst<Tropical> = machine(alloc, SEVEN)?;
    let b: Fst<Tropical> = machine(alloc, UNSORTED)?;
    let (first, second) = (a.states(), b.states());
    assert!(rt; first > 0 && second > 0);
    assert!(rt; is_sorted(&a, Side::Output));
    let here = ComposeKey {
        first: 0,
        second: 0,
        filter: 0,
    };
    let arcs = expand(alloc, &a, &b, here)?;
    assert!(rt; have_labels(arcs.as_slice(), &SEARCHED));
    Ok(())
}
