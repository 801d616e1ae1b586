//! Machines, wide machines and paths as their calls make them, and the walk.

use fst_machine::{
    Fst, FstArc, GrowFault, MOST_STATES, NarrowFault, Path, Paths, Step, WideArc, WideFst,
    narrow_all, walk,
};
use fst_samples::{is_text, machine};
use fst_semiring::{Tropical, Weight, WideTropical};
use std::alloc::Global;
use std::process::Abort;
use std::test::Fail;

/// Adds an arc with this label from a state to state 0.
fn add(rt: &impl Abort, fst: &mut Fst<Tropical>, state: u32, label: u16) -> Result<(), GrowFault> {
    let states = fst.states();
    assert!(rt; state < states);
    let arc = FstArc {
        ilabel: u32::from(label),
        olabel: 0,
        weight: Tropical::one(),
        next: 0,
    };
    fst.add_arc(state, arc)
}

#[test]
fn keeps_arcs_in_the_order_of_each_state(rt: HostRuntime) -> Result<(), Fail> {
    let mut fst: Fst<Tropical> = Fst::new(rt.alloc());
    assert_eq!(rt; fst.start(), None);
    for number in 0..3u32 {
        assert_eq!(rt; fst.add_state()?, number);
    }
    // The states take turns, so that no state's arcs stay side by side.
    for label in 1..9u16 {
        add(&rt, &mut fst, u32::from(label % 3), label)?;
    }
    assert_eq!(rt; fst.arc_count(), 8);
    let states = fst.states();
    assert!(rt; states == 3);
    fst.set_start(2);
    fst.set_final(1, Tropical::one());
    let text = b"2 0 2 0\n2 0 5 0\n2 0 8 0\n0 0 3 0\n0 0 6 0\n1 0 1 0\n1 0 4 0\n1 0 7 0\n1\n";
    assert!(rt; is_text(rt.alloc(), &fst, text)?);
    Ok(())
}

#[test]
fn has_a_greatest_number_of_states(rt: HostRuntime) -> Result<(), Fail> {
    let mut fst: Fst<Tropical> = Fst::new(rt.alloc());
    for _ in 0..MOST_STATES {
        fst.add_state()?;
    }
    assert_eq!(rt; fst.add_state(), Err(GrowFault::TooManyStates));
    Ok(())
}

/// The product of the weights that two texts stand for.
fn product(rt: &impl Abort, texts: (&str, &str)) -> WideTropical {
    let a = Tropical::read_weight(texts.0.as_bytes()).expect(rt, "a weight");
    let b = Tropical::read_weight(texts.1.as_bytes()).expect(rt, "a weight");
    a.times(b)
}

/// Two states, of which 1 is the start, with an arc of this weight to state 0, whose final weight is `last`.
fn wide_machine(
    rt: &impl Abort,
    alloc: Global,
    weight: WideTropical,
    last: WideTropical,
) -> Result<WideFst<Tropical>, GrowFault> {
    let mut wide: WideFst<Tropical> = WideFst::new(alloc);
    assert_eq!(rt; wide.start(), None);
    assert_eq!(rt; wide.add_state()?, 0);
    assert_eq!(rt; wide.add_state()?, 1);
    let states = wide.states();
    assert!(rt; states == 2 && weight != Tropical::zero().widen());
    let arc = WideArc::<Tropical> {
        ilabel: 3,
        olabel: 4,
        weight,
        next: 0,
    };
    wide.add_arc(1, arc)?;
    wide.set_start(1);
    wide.set_final(0, last);
    Ok(wide)
}

const MOST: &str = "1000000000000000000";

const LEAST: &str = "-1000000000000000000";

#[test]
fn a_wide_machine_is_what_its_calls_made(rt: HostRuntime) -> Result<(), Fail> {
    let past = product(&rt, (MOST, "1"));
    let last = product(&rt, (LEAST, "-7"));
    let wide = wide_machine(&rt, rt.alloc(), past, last)?;
    assert!(rt; wide.start() == Some(1) && wide.arc_count() == 1);
    let states = wide.states();
    assert!(rt; states == 2);
    let want = FstArc {
        ilabel: 3,
        olabel: 4,
        weight: past,
        next: 0,
    };
    assert!(rt; wide.arcs(0).is_empty() && wide.arcs(1) == [want].as_slice());
    assert!(rt; wide.final_weight(0) == last && wide.final_weight(1) == Tropical::zero().widen());
    Ok(())
}

/// The factors of the arc's weight and those of the final weight, and the state whose weight is past the range.
static WIDE: [((&str, &str), (&str, &str), Option<u32>); 7] = [
    ((MOST, "1"), (MOST, "1"), Some(0)),
    ((MOST, "1"), (MOST, "0"), Some(1)),
    ((MOST, "0"), (MOST, "1"), Some(0)),
    ((LEAST, "-1"), (LEAST, "0"), Some(1)),
    ((LEAST, "0"), (LEAST, "-1"), Some(0)),
    ((MOST, LEAST), ("Infinity", MOST), None),
    ((MOST, "0"), (LEAST, "0"), None),
];

#[test]
fn the_least_state_past_the_range_is_named(rt: HostRuntime) -> Result<(), Fail> {
    for (arc, last, state) in &WIDE {
        let wide = wide_machine(&rt, rt.alloc(), product(&rt, *arc), product(&rt, *last))?;
        let want = state.map(|state| NarrowFault::Overflow { state });
        assert!(rt;
            narrow_all(rt.alloc(), &wide).err() == want,
            "{arc:?} {last:?}"
        );
    }
    Ok(())
}

#[test]
fn a_wide_machine_in_range_is_narrowed(rt: HostRuntime) -> Result<(), Fail> {
    let weight = product(&rt, ("999999999999999999", "1"));
    let last = product(&rt, ("-5", "0"));
    let wide = wide_machine(&rt, rt.alloc(), weight, last)?;
    let fst = narrow_all(rt.alloc(), &wide)?;
    assert!(rt; is_text(rt.alloc(), &fst, b"1 0 3 4 1000000000000000000\n0 -5\n")?);
    Ok(())
}

#[test]
fn keeps_steps_and_paths_in_order(rt: HostRuntime) -> Result<(), Fail> {
    let mut paths = Paths::new(rt.alloc());
    for length in 0..3u32 {
        let mut path = Path::new(rt.alloc());
        for step in 0..length {
            path.push(Step {
                state: step,
                place: length,
            })?;
        }
        paths.push(path)?;
    }
    assert!(rt; paths.len() == 3);
    let path = paths.item(2);
    assert!(rt; path.len() == 2);
    let step = path.item(1);
    assert!(rt; step.state == 1 && step.place == 2);
    Ok(())
}

#[test]
fn walks_in_breadth_first_order(rt: HostRuntime) -> Result<(), Fail> {
    // State 4 leads to 0, and nothing leads to it.
    let text = b"1 3 1 1\n1 0 1 1\n1 3 1 1\n3 2 1 1\n0 1 1 1\n4 0 1 1\n";
    let fst: Fst<Tropical> = machine(rt.alloc(), text)?;
    assert!(rt; fst.states() == 5);
    assert_eq!(rt;
        walk(rt.alloc(), &fst, 1)?.as_slice(),
        [1u32, 3, 0, 2].as_slice()
    );
    Ok(())
}
