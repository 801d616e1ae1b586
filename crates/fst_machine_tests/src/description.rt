//! What is told of small tropical machines, with answers from the definitions.

use fst_machine::{Fst, Step};
use fst_samples::machine;
use fst_semiring::{ArcType, Tropical};
use fst_trim::{
    Info, Side, info, is_acceptor, is_deterministic, is_sorted, not_acceptor_at,
    not_deterministic_at,
};
use std::alloc::Global;
use std::test::Fail;

/// Two arcs with one label, the other labels between them going down.
const DOWN: &[u8] = b"0 0 7 7\n1 0 9 9\n1 0 5 5\n1 0 3 3\n1 0 5 6\n";

/// The first arc with two labels, and the first with a repeated label.
static FIRST_ARCS: [(&[u8], Option<(u32, u32)>, Option<(u32, u32)>); 7] = [
    (b"0\n1\n", None, None),
    (b"0 0 1 5\n0 0 2 5\n1\n", Some((0, 0)), None),
    (b"0 0 1 2\n1\n", Some((0, 0)), None),
    (b"1 0 1 2\n0 1 3 3\n0 1 3 4\n", Some((0, 1)), Some((0, 1))),
    (b"0 0 1 1\n1 0 1 1\n", None, None),
    (DOWN, Some((1, 3)), Some((1, 3))),
    (b"1 0 2 2\n1 0 2 2\n1 1 2 2\n", None, Some((1, 1))),
];

/// The step of a state and a place.
fn step(at: Option<(u32, u32)>) -> Option<Step> {
    let (state, place) = at?;
    Some(Step { state, place })
}

/// Whether the first arc with two labels is this one, and the machine an acceptor exactly where there is none.
fn splits_at(fst: &Fst<Tropical>, split: Option<Step>) -> bool {
    not_acceptor_at(fst) == split && is_acceptor(fst) == split.is_none()
}

/// Whether the first arc with a repeated label is this one, and the machine deterministic exactly where there is none.
fn repeats_at(alloc: Global, fst: &Fst<Tropical>, repeat: Option<Step>) -> bool {
    not_deterministic_at(alloc, fst) == repeat && is_deterministic(alloc, fst) == repeat.is_none()
}

#[test]
fn finds_the_first_arc(rt: HostRuntime) -> Result<(), Fail> {
    let alloc = rt.alloc();
    for (text, split, repeat) in &FIRST_ARCS {
        let fst: Fst<Tropical> = machine(alloc, text)?;
        assert!(rt; splits_at(&fst, step(*split)), "{text:?}");
        assert!(rt; repeats_at(alloc, &fst, step(*repeat)), "{text:?}");
    }
    Ok(())
}

/// Whether the arcs are sorted by input labels, and by output labels.
static ORDERS: [(&[u8], bool, bool); 4] = [
    (b"0\n1\n", true, true),
    (b"0 0 1 2\n0 0 1 1\n", true, false),
    (b"0 0 2 1\n0 0 1 1\n1 0 0 0\n", false, true),
    (DOWN, false, false),
];

#[test]
fn tests_the_order_of_one_side(rt: HostRuntime) -> Result<(), Fail> {
    for (text, input, output) in &ORDERS {
        let fst: Fst<Tropical> = machine(rt.alloc(), text)?;
        let sorted = (is_sorted(&fst, Side::Input), is_sorted(&fst, Side::Output));
        assert!(rt; sorted == (*input, *output), "{text:?}");
    }
    Ok(())
}

/// The machine without states; and one in which state 1 is not reached, state 3 reaches no final state, and states 0
/// and 2 are on successful paths.
static DESCRIPTIONS: [(&[u8], Info); 2] = [
    (
        b"",
        Info {
            arc_type: ArcType::Tropical,
            states: 0,
            arcs: 0,
            start: None,
            final_states: 0,
            input_epsilons: 0,
            output_epsilons: 0,
            both_epsilons: 0,
            accessible: 0,
            coaccessible: 0,
            connected: 0,
            acceptor: true,
            input_sorted: true,
            output_sorted: true,
            deterministic: true,
        },
    ),
    (
        b"0 2 0 0\n0 3 0 4\n1 2 2 0\n1 1 1 1\n2 0 6 5\n2 3 7 5\n2\n1\n",
        Info {
            arc_type: ArcType::Tropical,
            states: 4,
            arcs: 6,
            start: Some(0),
            final_states: 2,
            input_epsilons: 2,
            output_epsilons: 2,
            both_epsilons: 1,
            accessible: 3,
            coaccessible: 3,
            connected: 2,
            acceptor: false,
            input_sorted: false,
            output_sorted: true,
            deterministic: false,
        },
    ),
];

#[test]
fn counts_what_is_there(rt: HostRuntime) -> Result<(), Fail> {
    for (text, want) in &DESCRIPTIONS {
        let fst: Fst<Tropical> = machine(rt.alloc(), text)?;
        assert!(rt; info(rt.alloc(), &fst)? == *want, "{text:?}");
    }
    Ok(())
}
