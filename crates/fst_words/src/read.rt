//! The words of a command line.

ghost use Rattle.std.specs.Prelude.{◌≡◌, ◌<◌, ◌≤◌, ◌++◌, ◌-◌, ◌^◌, IfOk, codes, length, map, replicate, string_bytes};
ghost use Rattle.clap.specs.Matches.{found_of};
ghost use Rattle.clap.specs.Walk.{rows_of};
ghost use Rattle.fst_words.specs.Commands.{takes_names};
ghost use Rattle.fst_words.specs.Values.{options_in};
ghost use Rattle.fst_words.specs.PlanLaws.{IsWhole};
ghost use Rattle.fst_words.specs.Plans.{Answers, filled, plan_by, plan_found, plan_of};

use crate::fault::WordsFault;
use crate::form::form_of;
use crate::found::found_in;
use crate::given::{names_in, options_in, values_stand};
use crate::name::{Name, Names};
use crate::plan::Plan;
use crate::rules::is_allowed;
use crate::verb::{Verb, verb_of};
use clap::ArgMatches;
use std::alloc::{AllocError, Global};

/// Whether the command takes so many names.
fn takes_names(verb: Verb, given: usize) -> bool
    ensures { result ≡ takes_names verb given }
{
    let shape = form_of(verb).shape;
    shape.least() <= given && given <= shape.all(given)
}

/// The names, and `-` behind them until there are so many.
fn with_dashes(alloc: Global, names: Names, count: usize) -> Result<Names, AllocError>
    ensures { IfOk result (λ n. n ≡ names ++ replicate (count - length names) (codes "-")) }
{
    let mut longer = names;
    while longer.len() < count {
        let dash = Name::new(alloc, "-")?;
        longer.push(dash)?;
    }
    Ok(longer)
}

/// The names, with `-` for each that is missing.
#[tactic(auto, unfolding(crate::specs::Plans::filled))]
fn filled(alloc: Global, verb: Verb, names: Names) -> Result<Names, AllocError>
    ensures { IfOk result (λ n. n ≡ filled verb names) }
{
    let count = form_of(verb).shape.all(names.len());
    with_dashes(alloc, names, count)
}

/// The plan of a command, its names and what was found in its words.
fn plan_with(
    alloc: Global,
    verb: Verb,
    names: Names,
    found: &ArgMatches<'_>,
) -> Result<Plan, AllocError>
    ensures { IfOk result (λ p. p ≡ record { command = verb; names = filled verb names; options = options_in (rows_of (found_of found.now)) }) }
{
    let names = filled(alloc, verb, names)?;
    let options = options_in(alloc, found)?;
    Ok(Plan {
        command: verb,
        names,
        options,
    })
}

/// The plan of a command and what was found in its words, where the names, the values and the rules allow it.
#[tactic(auto, unfolding(crate::specs::Plans::plan_found))]
fn plan_found(alloc: Global, verb: Verb, found: &ArgMatches<'_>) -> Result<Plan, WordsFault>
    ensures { Answers (plan_found verb (rows_of (found_of found.now))) result }
{
    let names = names_in(alloc, found)?;
    if !takes_names(verb, names.len()) || !values_stand(found) {
        return Err(WordsFault::Usage);
    }
    let plan = plan_with(alloc, verb, names, found)?;
    if is_allowed(alloc, &plan)? {
        Ok(plan)
    } else {
        Err(WordsFault::Usage)
    }
}

/// The plan of a command's words, the first of which names it.
#[tactic(auto, unfolding(crate::specs::Plans::plan_by))]
fn plan_by(alloc: Global, verb: Verb, words: &[String]) -> Result<Plan, WordsFault>
    ensures { Answers (plan_by verb (map (λ w. string_bytes w) words.now)) result }
{
    let found = found_in(alloc, verb, words)?;
    plan_found(alloc, verb, &found)
}

/// What the words ask for.
#[tactic(auto, unfolding(crate::specs::Plans::plan_of))]
fn plan_of(alloc: Global, words: &[String]) -> Result<Plan, WordsFault>
    ensures { Answers (plan_of (map (λ w. string_bytes w) words.now)) result }
{
    let Some(first) = words.first() else {
        return Err(WordsFault::Usage);
    };
    match verb_of(first.as_str()) {
        Some(verb) => plan_by(alloc, verb, words),
        None => Err(WordsFault::Usage),
    }
}

/// What the words of a command line, those behind the program's name, ask for. `Usage` exactly where they are not
/// the words of a command; `Memory` may be the answer in place of either.
pub fn read_words(alloc: Global, words: &[String]) -> Result<Plan, WordsFault>
    ensures plan { Answers (plan_of (map (λ w. string_bytes w) words.now)) result }
    ensures whole { IfOk result IsWhole }
{
    plan_of(alloc, words)
}
