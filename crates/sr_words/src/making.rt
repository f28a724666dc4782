//! The words of `make`, read by clap.

ghost use Rattle.std.specs.Prelude.{◌≡◌, false, IfOk, map, string_bytes};
ghost use Rattle.clap.specs.Words.{app_of, found_of, rows_of, rule_of};
ghost use Rattle.sr_words.specs.Making.{make_command as make_app, number_option as option_rule, AreNumbersOf, IsNumberOf, ShowNumbers};

use clap::error::ErrorKind;
use clap::{Arg, ArgAction, ArgMatches, Command};
use sr_make::{FEWEST_NODES, MOST_MADE_NODES};
use std::alloc::{AllocError, Global};

/// The greatest number that `make` starts from.
pub const MOST_START: u32 = u32::MAX;

/// The option of this name, that has to be given, with one number of this range for its value.
fn number_option<'a>(alloc: Global, name: &'a str, least: u32, most: u32) -> Arg<'a>
    ensures rule { rule_of result ≡ option_rule (record { name = name.now; least = least; most = most }) }
    ensures local { result.global ≡ false }
{
    Arg::new(alloc, name)
        .long(name)
        .required(true)
        .action(ArgAction::Set)
        .value_parser(clap::value_parser!(u32).range(i64::from(least)..=i64::from(most)))
}

/// `make` as a command of clap.
fn make_command<'a>(alloc: Global) -> Result<Command<'a>, AllocError>
    ensures { IfOk result (λ command. app_of command ≡ make_app) }
{
    Command::new(alloc, "make")
        .no_binary_name(true)
        .disable_help_flag(true)
        .arg(number_option(alloc, "nodes", FEWEST_NODES as u32, MOST_MADE_NODES as u32))?
        .arg(number_option(alloc, "start", 0, MOST_START))
}

/// The number that these matches show for the option, and None exactly where they show none in this range.
fn number_shown(matches: &ArgMatches<'_>, name: &str, least: u32, most: u32) -> Option<u32>
    ensures { IsNumberOf (record { name = name.now; least = least; most = most })
        (rows_of (found_of matches.now)) result }
{
    let number = matches.get_one::<u32>(name)?;
    if least <= number && number <= most {
        Some(number)
    } else {
        None
    }
}

/// The numbers that these matches show for the two options, and None exactly where they show none.
fn shown_numbers(matches: &ArgMatches<'_>) -> Option<(u16, u32)>
    ensures { ShowNumbers (rows_of (found_of matches.now)) result }
{
    match number_shown(
        matches,
        "nodes",
        FEWEST_NODES as u32,
        MOST_MADE_NODES as u32,
    ) {
        Some(nodes) => match number_shown(matches, "start", 0, MOST_START) {
            Some(start) => Some((nodes as u16, start)),
            None => None,
        },
        None => None,
    }
}

/// The two numbers that the words behind `make` give, and None exactly where the command doesn't take these words.
pub(crate) fn given_numbers(
    alloc: Global,
    words: &[String],
) -> Result<Option<(u16, u32)>, AllocError>
    ensures { IfOk result (AreNumbersOf (map string_bytes words.now)) }
{
    let command = make_command(alloc)?;
    match command.try_get_matches_from(words) {
        Ok(matches) => Ok(shown_numbers(&matches)),
        Err(error) => match error.kind() {
            ErrorKind::OutOfMemory => Err(AllocError),
            _ => Ok(None),
        },
    }
}
