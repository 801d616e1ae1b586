//! The files and the labels that plans name.

ghost use Rattle.std.specs.Prelude.{◌≡◌};
ghost use Rattle.fst_words.specs.PlanLaws.{IsWhole};
ghost use Rattle.fst_words.specs.declared.verb.Verb.TheVariants.{Replace};

use crate::words::owned;
use fst_words::{Plan, Verb, read_words};
use std::test::Fail;

/// Words, the files of the command's own that are fetched, those that are stored, and the labels of rules.
type Row = (
    &'static [&'static str],
    &'static [&'static str],
    &'static [&'static str],
    &'static [u32],
);

static PLANS: [Row; 4] = [
    (
        &["replace", "r", "100", "s", "0101", "o"],
        &["r", "s"],
        &["o"],
        &[100, 101],
    ),
    (
        &["encode", "--encode_labels", "m", "c"],
        &["m"],
        &["c", "-"],
        &[],
    ),
    (
        &["encode", "--decode", "m", "c", "o"],
        &["m", "c"],
        &["o"],
        &[],
    ),
    (
        &["compose", "--connect=false", "a", "b"],
        &["a", "b"],
        &["-"],
        &[],
    ),
];

/// Whether these files are fetched, in this order.
fn fetches(plan: &Plan, wanted: &[&str]) -> bool {
    let count = plan.input_count();
    if count != wanted.len() {
        return false;
    }
    for place in 0..count {
        if plan.input(place).text() != wanted[place] {
            return false;
        }
    }
    true
}

/// Whether these files are stored, in this order.
fn stores(plan: &Plan, wanted: &[&str]) -> bool {
    let count = plan.output_count();
    if count != wanted.len() {
        return false;
    }
    for place in 0..count {
        if plan.output(place).text() != wanted[place] {
            return false;
        }
    }
    true
}

/// Whether the rules of `replace` have these labels, in this order.
fn are_labels(plan: &Plan, wanted: &[u32]) -> bool
    requires whole { IsWhole plan.now }
    requires replaces { plan.now.command ≡ Replace }
{
    let count = plan.input_count();
    if count != wanted.len() {
        return false;
    }
    for place in 0..count {
        if plan.rule_label(place) != wanted[place] {
            return false;
        }
    }
    true
}

/// Whether a command has these labels: only `replace` has any.
fn has_labels(plan: &Plan, wanted: &[u32]) -> bool
    requires { IsWhole plan.now }
{
    match plan.command {
        Verb::Replace => are_labels(plan, wanted),
        _ => wanted.is_empty(),
    }
}

#[test]
fn a_plan_answers_for_its_names(rt: HostRuntime) -> Result<(), Fail> {
    let alloc = rt.alloc();
    for (words, inputs, outputs, labels) in &PLANS {
        let list = owned(alloc, words)?;
        let plan = read_words(alloc, list.as_slice()).expect(&rt, "a plan");
        assert!(rt; fetches(&plan, inputs), "{words:?}");
        assert!(rt; stores(&plan, outputs), "{words:?}");
        assert!(rt; has_labels(&plan, labels), "{words:?}");
    }
    Ok(())
}
