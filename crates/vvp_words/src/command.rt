//! The command, and what its words say before their values are read.

ghost use Rattle.std.specs.Prelude.{◌≡◌, false, Some, None, map, option_map, string_bytes, IfOk, IsErrOf};
ghost use Rattle.vvp_words.specs.Command.{bare, given, given_by, is_true, operand_rule, option_rule, simple_command, stats_rule};
ghost use Rattle.vvp_words.specs.Seen.{seen_given};
ghost use Rattle.clap.specs.Words.{app_of, found_of, kind_of, rows_of, rule_of};

use clap::error::ErrorKind;
use clap::{Arg, ArgAction, ArgMatches, Command, Error};
use std::alloc::{AllocError, Global};

/// What the words say, before their values are read.
#[derive(Clone, Copy, Debug)]
pub(crate) struct Given<'a> {
    pub(crate) operand: &'a str,
    pub(crate) events: Option<&'a str>,
    pub(crate) mode: Option<&'a str>,
    pub(crate) order: Option<&'a str>,
    pub(crate) stats: bool,
}

/// Why there is nothing that the words say.
#[derive(Clone, Copy, Debug, PartialEq, Eq)]
pub enum WordsFault {
    /// They aren't those of the command.
    Refused,
    /// Memory ran out.
    Memory,
}

impl From<AllocError> for WordsFault {
    ghost use Rattle.std.specs.Prelude.{◌≡◌};
    ghost use Rattle.vvp_words.specs.declared.command.WordsFault.TheVariants.{Memory};

    ghost from_gives = { λ _ e. e ≡ Memory };

    fn from(_: AllocError) -> Self {
        WordsFault::Memory
    }
}

// The operand, which is required.
fn operand_arg<'a>(alloc: Global) -> Arg<'a>
    ensures rule { rule_of result ≡ operand_rule }
    ensures local { result.global ≡ false }
{
    Arg::new(alloc, "file")
        .required(true)
        .action(ArgAction::Set)
}

// An option that takes a value.
fn option_arg<'a>(alloc: Global, name: &'a str) -> Arg<'a>
    ensures rule { rule_of result ≡ option_rule name.entry.now }
    ensures local { result.global ≡ false }
{
    Arg::new(alloc, name).long(name).action(ArgAction::Set)
}

// The flag `--stats`.
fn stats_arg<'a>(alloc: Global) -> Arg<'a>
    ensures rule { rule_of result ≡ stats_rule }
    ensures local { result.global ≡ false }
{
    Arg::new(alloc, "stats")
        .long("stats")
        .action(ArgAction::SetTrue)
}

// The command without what it takes.
fn bare_command<'a>(alloc: Global) -> Command<'a>
    ensures { app_of result ≡ bare }
{
    Command::new(alloc, "vvp")
        .no_binary_name(true)
        .disable_help_flag(true)
        .disable_version_flag(true)
}

// The command: one required operand, `--events`, `--mode`, `--order` and `--stats`.
fn simple_command<'a>(alloc: Global) -> Result<Command<'a>, AllocError>
    ensures { IfOk result (λ c. app_of c ≡ simple_command) }
{
    bare_command(alloc)
        .arg(operand_arg(alloc))?
        .arg(option_arg(alloc, "events"))?
        .arg(option_arg(alloc, "mode"))?
        .arg(option_arg(alloc, "order"))?
        .arg(stats_arg(alloc))
}

// The text of a flag that was given.
fn is_true(text: Option<&str>) -> bool
    ensures { result ≡ is_true (option_map (λ s. s.now) text.entry) }
{
    match text {
        None => false,
        Some(text) => text == "true",
    }
}

// Why the parse failed.
fn words_fault(error: &Error) -> WordsFault
    ensures { result ≡ WordsFault.Refused → kind_of error.now ≡ ErrorKind.OutOfMemory → ⊥ }
{
    match error.kind() {
        ErrorKind::OutOfMemory => WordsFault::Memory,
        _ => WordsFault::Refused,
    }
}

// What the entries of a parse say.
fn given_by<'a>(matches: &ArgMatches<'a>) -> Option<Given<'a>>
    ensures { option_map seen_given result ≡ given_by (rows_of (found_of matches.now)) }
{
    match matches.get_str("file") {
        None => None,
        Some(operand) => Some(Given {
            operand,
            events: matches.get_str("events"),
            mode: matches.get_str("mode"),
            order: matches.get_str("order"),
            stats: is_true(matches.get_str("stats")),
        }),
    }
}

/// What the words say, before their values are read. They leave out the program's name.
pub(crate) fn read_given<'a>(alloc: Global, words: &'a [String]) -> Result<Given<'a>, WordsFault>
    ensures ok { IfOk result (λ g. given (map string_bytes words.entry.now) ≡ Some (seen_given g)) }
    ensures refused { IsErrOf result WordsFault.Refused → given (map string_bytes words.entry.now) ≡ None }
{
    let command = simple_command(alloc)?;
    match command.try_get_matches_from(words) {
        Err(error) => Err(words_fault(&error)),
        Ok(matches) => match given_by(&matches) {
            None => Err(WordsFault::Refused),
            Some(given) => Ok(given),
        },
    }
}
