//! The names and the options as they were found.

ghost use Rattle.std.specs.Prelude.{◌≡◌, IfOk, codes, map};
ghost use Rattle.std.specs.Option.{option_map};
ghost use Rattle.clap.specs.Matches.{found_of};
ghost use Rattle.clap.specs.Walk.{rows_of};
ghost use Rattle.fst_words.specs.Values.{arc_type_of, flag_in, is_among, names_in, number_in, numbers_stand, options_in, passes_at, reads_at, text_in, value_in, values_stand, words_stand};

use crate::name::{Name, Names};
use crate::options::Options;
use crate::values::{
    LINES, MAX_STATES, NSHORTEST, NumberRange, QUEUE_TYPES, SEED, SORT_TYPES, TRUTH_VALUES,
    WORKERS, is_among, number_in,
};
use clap::ArgMatches;
use fst_semiring::ArcType;
use std::alloc::{AllocError, Global};

/// Texts as names of their own.
fn kept(alloc: Global, texts: &[&str]) -> Result<Names, AllocError>
    ensures { IfOk result (λ n. n ≡ map (λ s. s.now) texts.now) }
{
    let mut names = Names::new(alloc);
    for text in texts {
        let name = Name::new(alloc, text)?;
        names.push(name)?;
    }
    Ok(names)
}

/// The names, in the order of the words.
pub(crate) fn names_in(alloc: Global, found: &ArgMatches<'_>) -> Result<Names, AllocError>
    ensures { IfOk result (λ n. n ≡ names_in (rows_of (found_of found.now))) }
{
    match found.get_strs("names") {
        Some(texts) => kept(alloc, texts),
        None => Ok(Names::new(alloc)),
    }
}

/// The text of an option.
fn text_in<'a>(found: &ArgMatches<'a>, id: &str) -> Option<&'a str>
    ensures { option_map (λ s. s.now) result ≡ text_in id.now (rows_of (found_of found.now)) }
{
    found.get_str(id)
}

/// The text of an option, kept.
fn name_in(alloc: Global, found: &ArgMatches<'_>, id: &str) -> Result<Option<Name>, AllocError>
    ensures { IfOk result (λ n. n ≡ text_in id.now (rows_of (found_of found.now))) }
{
    match text_in(found, id) {
        Some(text) => {
            let name = Name::new(alloc, text)?;
            Ok(Some(name))
        }
        None => Ok(None),
    }
}

/// Whether a flag stands.
fn flag_in(found: &ArgMatches<'_>, id: &str) -> bool
    ensures { result ≡ flag_in id.now (rows_of (found_of found.now)) }
{
    match text_in(found, id) {
        Some(text) => text == "true",
        None => false,
    }
}

/// The number of an option, where it has one in the range.
fn number_at(found: &ArgMatches<'_>, id: &str, range: NumberRange) -> Option<u64>
    ensures { result ≡ value_in (number_in range.low range.high) id.now (rows_of (found_of found.now)) }
{
    match text_in(found, id) {
        Some(text) => number_in(range, text),
        None => None,
    }
}

/// The arc type of `--arc_type`, where it is one.
fn arc_type_at(found: &ArgMatches<'_>) -> Option<ArcType>
    ensures { result ≡ value_in arc_type_of (codes "arc_type") (rows_of (found_of found.now)) }
{
    match text_in(found, "arc_type") {
        Some(text) => ArcType::named(text.as_bytes()),
        None => None,
    }
}

/// Whether an option is missing or has a number in the range.
fn number_reads(found: &ArgMatches<'_>, id: &str, range: NumberRange) -> bool
    ensures { result ≡ reads_at (number_in range.low range.high) id.now (rows_of (found_of found.now)) }
{
    match text_in(found, id) {
        Some(text) => number_in(range, text).is_some(),
        None => true,
    }
}

/// Whether `--arc_type` is missing or an arc type.
fn arc_type_reads(found: &ArgMatches<'_>) -> bool
    ensures { result ≡ reads_at arc_type_of (codes "arc_type") (rows_of (found_of found.now)) }
{
    match text_in(found, "arc_type") {
        Some(text) => ArcType::named(text.as_bytes()).is_some(),
        None => true,
    }
}

/// Whether an option is missing or one of these words.
fn word_passes(found: &ArgMatches<'_>, id: &str, words: &[&str]) -> bool
    ensures { result ≡ passes_at (is_among (map (λ s. s.now) words.now)) id.now (rows_of (found_of found.now)) }
{
    match text_in(found, id) {
        Some(text) => is_among(words, text),
        None => true,
    }
}

/// Whether each option whose values are words has one of them.
fn words_stand(found: &ArgMatches<'_>) -> bool
    ensures { result ≡ words_stand (rows_of (found_of found.now)) }
{
    word_passes(found, "sort_type", &SORT_TYPES)
        && (word_passes(found, "connect", &TRUTH_VALUES)
            && (word_passes(found, "queue_type", &QUEUE_TYPES) && arc_type_reads(found)))
}

/// Whether each option whose values are numbers has one in its range.
fn numbers_stand(found: &ArgMatches<'_>) -> bool
    ensures { result ≡ numbers_stand (rows_of (found_of found.now)) }
{
    number_reads(found, "max_states", MAX_STATES)
        && (number_reads(found, "nshortest", NSHORTEST)
            && (number_reads(found, "workers", WORKERS)
                && (number_reads(found, "seed", SEED) && number_reads(found, "lines", LINES))))
}

/// Whether each option that stands has a value that it may have.
#[tactic(auto, unfolding(crate::specs::Values::values_stand))]
pub(crate) fn values_stand(found: &ArgMatches<'_>) -> bool
    ensures { result ≡ values_stand (rows_of (found_of found.now)) }
{
    words_stand(found) && numbers_stand(found)
}

/// The options. One that does not stand is `None`, or false.
#[tactic(auto, unfolding(crate::specs::Values::options_in))]
pub(crate) fn options_in(alloc: Global, found: &ArgMatches<'_>) -> Result<Options, AllocError>
    ensures { IfOk result (λ o. o ≡ options_in (rows_of (found_of found.now))) }
{
    let isymbols = name_in(alloc, found, "isymbols")?;
    let osymbols = name_in(alloc, found, "osymbols")?;
    let relabel_ipairs = name_in(alloc, found, "relabel_ipairs")?;
    let relabel_opairs = name_in(alloc, found, "relabel_opairs")?;
    let sort_type = name_in(alloc, found, "sort_type")?;
    let connect = name_in(alloc, found, "connect")?;
    let queue_type = name_in(alloc, found, "queue_type")?;
    let weight = name_in(alloc, found, "weight")?;
    Ok(Options {
        arc_type: arc_type_at(found),
        acceptor: flag_in(found, "acceptor"),
        keep_state_numbering: flag_in(found, "keep_state_numbering"),
        show_weight_one: flag_in(found, "show_weight_one"),
        isymbols,
        osymbols,
        keep_isymbols: flag_in(found, "keep_isymbols"),
        keep_osymbols: flag_in(found, "keep_osymbols"),
        numeric: flag_in(found, "numeric"),
        closure_plus: flag_in(found, "closure_plus"),
        project_output: flag_in(found, "project_output"),
        relabel_ipairs,
        relabel_opairs,
        sort_type,
        connect,
        max_states: number_at(found, "max_states", MAX_STATES),
        queue_type,
        weight,
        reverse: flag_in(found, "reverse"),
        nshortest: number_at(found, "nshortest", NSHORTEST),
        unique: flag_in(found, "unique"),
        push_weights: flag_in(found, "push_weights"),
        remove_total_weight: flag_in(found, "remove_total_weight"),
        encode_labels: flag_in(found, "encode_labels"),
        encode_weights: flag_in(found, "encode_weights"),
        decode: flag_in(found, "decode"),
        workers: number_at(found, "workers", WORKERS),
        summary: flag_in(found, "summary"),
        seed: number_at(found, "seed", SEED),
        lines: number_at(found, "lines", LINES),
    })
}
