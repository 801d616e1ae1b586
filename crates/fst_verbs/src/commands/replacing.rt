//! `replace`.

ghost use Rattle.std.specs.Prelude.{◌≡◌, ◌<◌, IfOk, length, map, true};
ghost use Rattle.std.specs.Result.{result_map_both};
ghost use Rattle.fst_machine.specs.Machine.{valued};
ghost use Rattle.fst_words.specs.PlanLaws.{IsWhole};
ghost use Rattle.fst_words.specs.Plans.{is_replace, rule_labels};
ghost use Rattle.fst_replace.specs.Faults.{replace_text};
ghost use Rattle.fst_verbs.specs.Causes.{faulty, refused, unmade};
ghost use Rattle.fst_verbs.specs.Meaning.{Settles};
ghost use Rattle.fst_verbs.specs.Replacing.{replace_meaning, ruled};
ghost use Rattle.fst_verbs.specs.Seeing.{given_seen, just, made_seen};
ghost use Rattle.fst_verbs.specs.Told.{IsMade};

use crate::given::Given;
use crate::outputs::Made;
use crate::refusal::{Refusal, unmade};
use fst_machine::Fst;
use fst_replace::{AddFault, ReplaceFault, Rule, Rules, replace};
use fst_semiring::Weight;
use fst_words::Plan;
use std::alloc::{AllocError, Global};

/// The rules of a command: its machines under their labels.
fn rules_of<'m, W: Weight>(
    alloc: Global,
    plan: &Plan,
    list: &'m [Fst<W>],
) -> Result<Rules<'m, W>, AllocError>
    requires whole { IsWhole plan.now }
    requires rules { is_replace plan.now.command ≡ true }
    requires some { 0 < length list.now }
    requires all { length list.now ≡ length (rule_labels plan.now) }
    ensures { IfOk result (λ rules. rules ≡ ruled (rule_labels plan.now) list.entry.now) }
{
    let root = Rule {
        label: plan.rule_label(0),
        machine: &list[0],
    };
    let mut rules = Rules::new(alloc, root)?;
    for place in 1..list.len() {
        let rule = Rule {
            label: plan.rule_label(place),
            machine: &list[place],
        };
        match rules.add(rule) {
            Ok(()) => {}
            Err(AddFault::LabelTaken) => unreachable!(),
            Err(AddFault::Memory) => return Err(AllocError),
        }
    }
    Ok(rules)
}

/// Why there is no replacement.
fn unreplaced(alloc: Global, fault: ReplaceFault) -> Refusal
    ensures made { IsMade (refused (faulty (unmade (replace_text fault)))) result }
    ensures memory { fault ≡ ReplaceFault.Memory → result ≡ Refusal.Memory }
{
    match fault {
        ReplaceFault::Memory => Refusal::Memory,
        _ => unmade(alloc, fault),
    }
}

/// The machine of the rules of a command.
fn expanded<W: Weight>(alloc: Global, plan: &Plan, list: &[Fst<W>]) -> Result<Made<W>, Refusal>
    requires whole { IsWhole plan.now }
    requires rules { is_replace plan.now.command ≡ true }
    requires some { 0 < length list.now }
    requires all { length list.now ≡ length (rule_labels plan.now) }
    ensures { Settles (replace_meaning (rule_labels plan.now)) (just W.KIND (map (valued W.value) list.now)) (result_map_both (made_seen W.KIND W.value) (λ e. e) result) }
{
    let rules = rules_of(alloc, plan, list)?;
    match replace(alloc, &rules) {
        Ok(made) => Ok(Made::Machine(made)),
        Err(fault) => Err(unreplaced(alloc, fault)),
    }
}

/// `replace`.
pub(crate) fn replaced<W: Weight>(
    alloc: Global,
    plan: &Plan,
    given: Given<W>,
) -> Result<Made<W>, Refusal>
    requires whole { IsWhole plan.now }
    requires rules { is_replace plan.now.command ≡ true }
    requires some { 0 < length given.machines.items }
    requires all { length given.machines.items ≡ length (rule_labels plan.now) }
    ensures { Settles (replace_meaning (rule_labels plan.now)) (given_seen W.KIND W.value given) (result_map_both (made_seen W.KIND W.value) (λ e. e) result) }
{
    expanded(alloc, plan, given.machines.as_slice())
}
