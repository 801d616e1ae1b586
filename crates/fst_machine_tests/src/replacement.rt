//! Replacements of small tropical machines, by hand.

use fst_machine::{Fst, MOST_LABEL};
use fst_replace::{AddFault, ReplaceFault, Rule, Rules, replace};
use fst_samples::{is_text, machine};
use fst_semiring::Tropical;
use std::alloc::Global;
use std::process::Abort;
use std::test::Fail;

/// A machine whose second arc calls label 5.
const ROOT: &[u8] = b"0 1 1 1\n1 2 2 5 2\n2\n";

/// Labels with machines, of which the first is the root, and what is made of them.
static GIVEN: [(&[(u32, &[u8])], &[u8]); 3] = [
    (
        &[(100, ROOT), (5, b"0 1 7 8 3\n1 4\n")],
        b"0 1 1 1\n1 3 0 0 2\n3 4 7 8 3\n4 2 0 0 4\n2\n",
    ),
    // A call of a machine with no start is dropped.
    (&[(100, ROOT), (5, b"")], b"0 1 1 1\n2\n"),
    // A recursive rule that the root does not reach.
    (
        &[(100, b"0 1 1 1\n1\n"), (5, b"0 1 1 5\n1\n")],
        b"0 1 1 1\n1\n",
    ),
];

/// Labels with machines, and the label of the first rule that is reached and calls itself.
static RECURSIVE: [(&[(u32, &[u8])], u32); 4] = [
    (&[(100, ROOT), (5, b"0 1 1 5\n1\n")], 5),
    (
        &[
            (100, b"0 1 1 7\n1\n"),
            (6, b"0 1 1 7\n1\n"),
            (7, b"0 1 1 6\n1\n"),
        ],
        6,
    ),
    // A ring of four, which the root calls.
    (
        &[
            (100, b"0 1 1 8\n1\n"),
            (6, b"0 1 1 7\n1\n"),
            (7, b"0 1 1 8\n1\n"),
            (8, b"0 1 1 9\n1\n"),
            (9, b"0 1 1 6\n1\n"),
        ],
        6,
    ),
    // A ring of four, which is reached by a rule that does not stand in it.
    (
        &[
            (100, ROOT),
            (5, b"0 1 1 6\n1\n"),
            (9, b"0 1 1 6\n1\n"),
            (8, b"0 1 1 9\n1\n"),
            (7, b"0 1 1 8\n1\n"),
            (6, b"0 1 1 7\n1\n"),
        ],
        9,
    ),
];

/// A label with a machine.
type Labelled = (u32, Fst<Tropical>);

/// The machines of rules.
fn machines_of(alloc: Global, rules: &[(u32, &[u8])]) -> Result<Vec<Labelled>, Fail> {
    let mut machines = Vec::new(alloc);
    for (label, text) in rules {
        machines.push((*label, machine(alloc, text)?))?;
    }
    Ok(machines)
}

/// Rules with these machines.
fn rules_of<'m>(
    rt: &impl Abort,
    alloc: Global,
    machines: &'m [Labelled],
) -> Result<Rules<'m, Tropical>, AddFault> {
    let mut rules = None;
    for (label, machine) in machines {
        let label = *label;
        assert!(rt; label > 0 && label <= MOST_LABEL);
        let rule = Rule { label, machine };
        match &mut rules {
            None => rules = Some(Rules::new(alloc, rule).expect(rt, "memory")),
            Some(rules) => rules.add(rule)?,
        }
    }
    Ok(rules.expect(rt, "a root"))
}

/// What is made of machines with labels that differ.
fn replaced(
    rt: &impl Abort,
    alloc: Global,
    machines: &[Labelled],
) -> Result<Fst<Tropical>, ReplaceFault> {
    let rules = rules_of(rt, alloc, machines).expect(rt, "new labels");
    replace(alloc, &rules)
}

#[test]
fn enters_the_blocks_of_calls(rt: HostRuntime) -> Result<(), Fail> {
    let alloc = rt.alloc();
    for (rules, want) in &GIVEN {
        let machines = machines_of(alloc, rules)?;
        let made = replaced(&rt, alloc, machines.as_slice())?;
        assert!(rt; is_text(alloc, &made, want)?, "{want:?}");
    }
    Ok(())
}

#[test]
fn names_the_first_recursive_rule(rt: HostRuntime) -> Result<(), Fail> {
    let alloc = rt.alloc();
    for (rules, label) in &RECURSIVE {
        let machines = machines_of(alloc, rules)?;
        let fault = replaced(&rt, alloc, machines.as_slice()).err();
        assert!(rt; fault == Some(ReplaceFault::Recursive { label: *label }));
    }
    Ok(())
}

#[test]
fn takes_no_label_twice(rt: HostRuntime) -> Result<(), Fail> {
    let twice: &[(u32, &[u8])] = &[(100, ROOT), (100, ROOT)];
    let machines = machines_of(rt.alloc(), twice)?;
    let fault = rules_of(&rt, rt.alloc(), machines.as_slice()).err();
    assert!(rt; fault == Some(AddFault::LabelTaken));
    Ok(())
}

/// So many machines, of which each calls the next one twice.
fn doubling(alloc: Global, count: u16) -> Result<Vec<Labelled>, Fail> {
    let mut machines = Vec::new(alloc);
    for place in 0..count {
        let (label, next) = (u32::from(place) + 1, u32::from(place) + 2);
        let text = format!(in alloc; "0 1 1 {next}\n1 2 1 {next}\n2\n")?;
        machines.push((label, machine(alloc, text.as_bytes())?))?;
    }
    Ok(machines)
}

#[test]
fn makes_no_more_states_than_there_may_be(rt: HostRuntime) -> Result<(), Fail> {
    let alloc = rt.alloc();
    let few = doubling(alloc, 16)?;
    assert_eq!(rt; replaced(&rt, alloc, few.as_slice())?.states(), 196_605);
    let many = doubling(alloc, 21)?;
    let fault = replaced(&rt, alloc, many.as_slice()).err();
    assert!(rt; fault == Some(ReplaceFault::TooManyStates));
    Ok(())
}
