//! What `clap` finds in the words of a command.

ghost use Rattle.std.specs.Prelude.{◌≡◌, ◌∷◌, ◌++◌, [], IfOk, Some, false, map, string_bytes};
ghost use Rattle.std.specs.Result.{result_map_both};
ghost use Rattle.clap.specs.Matches.{found_of};
ghost use Rattle.clap.specs.Simple.{app_of};
ghost use Rattle.clap.specs.Walk.{rows_of, rule_of};
ghost use Rattle.fst_words.specs.Commands.{app_of_verb, argument_rule, bare_app, found_in, names_rule, with_arguments};
ghost use Rattle.fst_words.specs.Plans.{Answers};

use crate::fault::WordsFault;
use crate::form::form_of;
use crate::verb::Verb;
use clap::error::ErrorKind;
use clap::{Arg, ArgAction, ArgMatches, Command};
use std::alloc::{AllocError, Global};

/// A command without options, to which help is a word like any other.
fn bare<'a>(alloc: Global) -> Command<'a>
    ensures { app_of result ≡ bare_app }
{
    Command::new(alloc, "fst").disable_help_flag(true)
}

/// An option with a value, or a flag.
fn argument<'a>(alloc: Global, name: &'a str, valued: bool) -> Arg<'a>
    ensures rule { rule_of result ≡ argument_rule valued name.entry.now }
    ensures local { result.global ≡ false }
{
    let argument = Arg::new(alloc, name).long(name);
    if valued {
        argument.action(ArgAction::Set)
    } else {
        argument.action(ArgAction::SetTrue)
    }
}

/// The positional argument, which takes several values.
fn names_arg<'a>(alloc: Global) -> Arg<'a>
    ensures rule { rule_of result ≡ names_rule }
    ensures local { result.global ≡ false }
{
    Arg::new(alloc, "names").action(ArgAction::Append)
}

/// The command with these options, or flags, more.
fn with_arguments<'a>(
    alloc: Global,
    command: Command<'a>,
    names: &'static [&'static str],
    valued: bool,
) -> Result<Command<'a>, AllocError>
    ensures { IfOk result (λ c. app_of c ≡ with_arguments valued (app_of command.entry) (map (λ s. s.now) names.entry.now)) }
{
    let mut grown = command;
    for name in names {
        grown = grown.arg(argument(alloc, name, valued))?;
    }
    Ok(grown)
}

/// The command of a verb, and of no other.
#[tactic(auto, unfolding(crate::specs::Commands::app_of_verb))]
fn command_of<'a>(alloc: Global, verb: Verb) -> Result<Command<'a>, AllocError>
    ensures { IfOk result (λ c. app_of c ≡ app_of_verb verb) }
{
    let form = form_of(verb);
    let command = with_arguments(alloc, bare(alloc), form.options, true)?;
    let command = with_arguments(alloc, command, form.flags, false)?;
    command.arg(names_arg(alloc))
}

/// What is found in the words, the first of which is the command's name. A parse that is refused for another
/// cause than that memory ran out is `Usage`.
#[tactic(auto, unfolding(crate::specs::Commands::found_in))]
pub(crate) fn found_in<'a>(
    alloc: Global,
    verb: Verb,
    words: &'a [String],
) -> Result<ArgMatches<'a>, WordsFault>
    ensures { Answers (found_in verb (map (λ w. string_bytes w) words.entry.now)) (result_map_both (λ m. rows_of (found_of m)) (λ e. e) result) }
{
    let command = command_of(alloc, verb)?;
    match command.try_get_matches_from(words) {
        Ok(found) => Ok(found),
        Err(error) => {
            if error.kind() == ErrorKind::OutOfMemory {
                Err(WordsFault::Memory)
            } else {
                Err(WordsFault::Usage)
            }
        }
    }
}
