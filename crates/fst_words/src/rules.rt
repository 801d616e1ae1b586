//! The rules on what stands together in the words of a command.

ghost use Rattle.std.specs.Prelude.{◌≡◌, ◌≤◌, ◌<◌, ◌+◌, [], IfOk, count_by, drop, length, option_to_list, slice_get, take};
ghost use Rattle.std.specs.List.{list_any, slice_index_or};
ghost use Rattle.std.specs.Str.{bytes_eq};
ghost use Rattle.fst_words.specs.Plans.{are_labels, flags_fit, input_files, inputs_fit, inputs_of, is_allowed, is_dash, is_replace, labels_fit, option_files, output_place_of, outputs_fit, pair_labels, pair_machines, texts_differ};

use crate::form::form_of;
use crate::name::{Name, Names};
use crate::options::Options;
use crate::plan::Plan;
use crate::values::label_of;
use crate::verb::Verb;
use std::alloc::{AllocError, Global};
use std::collections::HashSet;

/// Whether the command's flags stand that it needs, and those alone that may stand together and beside its options.
fn flags_fit(verb: Verb, options: &Options) -> bool
    ensures { result ≡ flags_fit verb options.now }
{
    match verb {
        Verb::Compile => {
            (!options.keep_isymbols || options.isymbols.is_some())
                && (!options.keep_osymbols || options.osymbols.is_some())
        }
        Verb::Print => {
            !options.numeric || !(options.isymbols.is_some() || options.osymbols.is_some())
        }
        Verb::Push => options.push_weights,
        Verb::Encode => {
            if options.decode {
                !options.encode_labels && !options.encode_weights
            } else {
                options.encode_labels
            }
        }
        _ => true,
    }
}

/// Whether the texts behind the machines are labels, and no two are the same.
fn are_labels(alloc: Global, names: &Names) -> Result<bool, AllocError>
    ensures { IfOk result (λ b. b ≡ are_labels (pair_labels names.now)) }
{
    let mut seen: HashSet<u64> = HashSet::new(alloc);
    for pair in 0..names.len() / 2 {
        let Some(label) = label_of(names.item(2 * pair + 1).text()) else {
            return Ok(false);
        };
        if !seen.insert(label)? {
            return Ok(false);
        }
    }
    Ok(true)
}

/// Whether the names of a command are rules, and then an output.
pub(crate) fn has_rules(verb: Verb) -> bool
    ensures { result ≡ is_replace verb }
{
    form_of(verb).shape.has_rules()
}

/// The same of a command that has such pairs.
fn labels_fit(alloc: Global, plan: &Plan) -> Result<bool, AllocError>
    ensures { IfOk result (λ b. b ≡ labels_fit plan.now) }
{
    if has_rules(plan.command) {
        are_labels(alloc, &plan.names)
    } else {
        Ok(true)
    }
}

/// Whether the name stands for a standard stream.
fn is_dash(name: &Name) -> bool
    ensures { result ≡ is_dash name.now }
{
    name.text() == "-"
}

/// How often `-` stands as the name of an option's file.
fn dashes_at(name: &Option<Name>) -> usize
    ensures value { result ≡ count_by is_dash (option_to_list name.now) }
    ensures few { result ≤ 1 }
{
    match name {
        Some(name) => { if is_dash(name) { 1 } else { 0 } }
        None => 0,
    }
}

/// How often `-` stands among the option files.
fn option_dashes(options: &Options) -> usize
    ensures value { result ≡ count_by is_dash (option_files options.now) }
    ensures few { result ≤ 4 }
{
    dashes_at(&options.isymbols)
        + (dashes_at(&options.osymbols)
            + (dashes_at(&options.relabel_ipairs) + dashes_at(&options.relabel_opairs)))
}

/// How often `-` stands among the names in front of a place.
fn front_dashes(names: &Names, end: usize) -> usize
    ensures value { result ≡ count_by is_dash (take end names.now) }
    ensures few { result ≤ length names.now }
{
    let mut count: usize = 0;
    for place in 0..end.min(names.len()) {
        if is_dash(names.item(place)) {
            count += 1;
        }
    }
    count
}

/// How often `-` stands among the machines of the pairs.
fn machine_dashes(names: &Names) -> usize
    ensures value { result ≡ count_by is_dash (pair_machines names.now) }
    ensures few { result ≤ length names.now }
{
    let mut count: usize = 0;
    for pair in 0..names.len() / 2 {
        if is_dash(names.item(2 * pair)) {
            count += 1;
        }
    }
    count
}

/// The place of the first name that is stored.
pub(crate) fn output_place_of(plan: &Plan) -> usize
    ensures { result ≡ output_place_of plan.now }
{
    form_of(plan.command)
        .shape
        .output_place(plan.options.decode, plan.names.len())
}

/// How often `-` stands among the input files.
fn input_dashes(plan: &Plan) -> usize
    ensures value { result ≡ count_by is_dash (input_files plan.now) }
    ensures few { result ≤ length plan.now.names }
{
    if has_rules(plan.command) {
        machine_dashes(&plan.names)
    } else {
        front_dashes(&plan.names, output_place_of(plan))
    }
}

/// Whether `-` stands at most once among the files that are fetched.
#[tactic(auto, unfolding(crate::specs::Plans::inputs_of))]
fn inputs_fit(plan: &Plan) -> bool
    ensures { result ≡ inputs_fit plan.now }
{
    let dashes = option_dashes(&plan.options);
    dashes <= 1 && input_dashes(plan) <= 1 - dashes
}

/// Whether the name in a place stands once more behind it.
fn stands_again(names: &Names, place: usize) -> bool
    requires { place < length names.now }
    ensures { result ≡ list_any (λ other. bytes_eq other (slice_index_or names.now place [])) (drop (place + 1) names.now) }
{
    let name = names.item(place);
    let count = names.len();
    for other in place + 1..count {
        if names.item(other).text() == name.text() {
            return true;
        }
    }
    false
}

/// Whether the names from a place on are different.
fn names_differ(names: &Names, start: usize) -> bool
    ensures { result ≡ texts_differ (drop start names.now) }
{
    for place in start..names.len() {
        if stands_again(names, place) {
            return false;
        }
    }
    true
}

/// Whether the files that are stored have different names.
#[tactic(auto, unfolding(crate::specs::Plans::outputs_of))]
fn outputs_fit(plan: &Plan) -> bool
    ensures { result ≡ outputs_fit plan.now }
{
    names_differ(&plan.names, output_place_of(plan))
}

/// Whether the plan keeps all the rules.
#[tactic(auto, unfolding(crate::specs::Plans::is_allowed))]
pub(crate) fn is_allowed(alloc: Global, plan: &Plan) -> Result<bool, AllocError>
    ensures { IfOk result (λ b. b ≡ is_allowed plan.now) }
{
    let labels = labels_fit(alloc, plan)?;
    Ok(
        flags_fit(plan.command, &plan.options)
            && (labels && (inputs_fit(plan) && outputs_fit(plan))),
    )
}
