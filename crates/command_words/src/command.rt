//! The command line, as `clap` takes it.
ghost use Rattle.std.specs.Prelude.{◌≡◌, IfOk, IsErrOf, OnOk, map, true, false, string_bytes, option_map};
ghost use Rattle.clap.specs.Words.{app_of, found_of, rows_of, rule_of};
ghost use Rattle.command_words.specs.Command.{action_rule, are_taken, bare, command, file_rule, option_rule, parts_of, rows_given, with_options, words_in};
ghost use Rattle.command_words.specs.Given.{parts_in};

use clap::error::ErrorKind;
use clap::{Arg, ArgAction, ArgMatches, Command};
use std::alloc::{AllocError, Global};

/// What the words give each argument of the command line; an option that isn't given is `None`.
#[derive(Debug, Drop)]
pub struct Given<'a> {
    /// ACTION.
    pub action: Option<&'a str>,
    /// `--date`.
    pub date: Option<&'a str>,
    /// `--type`.
    pub device: Option<&'a str>,
    /// `--serial`.
    pub serial: Option<&'a str>,
    /// `--vtoc`.
    pub vtoc: Option<&'a str>,
    /// `--cyls`.
    pub cylinders: Option<&'a str>,
    /// `--count`.
    pub count: Option<&'a str>,
    /// FILE, as often as it stands.
    pub files: Vec<&'a str>,
}

/// What the words give, the program's name first; `None` where they aren't of the form of the command line.
#[tactic(auto, unfolding(crate::specs::Command::words_in))]
pub fn parts_given<'a>(alloc: Global, words: &'a [String]) -> Result<Option<Given<'a>>, AllocError>
    ensures { IfOk result (λ found. option_map parts_in found ≡ words_in (map string_bytes words.entry.now)) }
{
    match matches(alloc, words) {
        Ok(matches) => Ok(Some(parts(alloc, &matches)?)),
        Err(WordsErr::Refused) => Ok(None),
        Err(WordsErr::Memory) => Err(AllocError),
    }
}

// What the matches of the command line give.
fn parts<'a>(alloc: Global, matches: &ArgMatches<'a>) -> Result<Given<'a>, AllocError>
    ensures { IfOk result (λ given. parts_in given ≡ parts_of (rows_of (found_of matches.now))) }
{
    Ok(Given {
        action: matches.get_str("ACTION"),
        date: matches.get_str("date"),
        device: matches.get_str("type"),
        serial: matches.get_str("serial"),
        vtoc: matches.get_str("vtoc"),
        cylinders: matches.get_str("cyls"),
        count: matches.get_str("count"),
        files: Vec::from_slice(alloc, matches.get_strs("FILE").unwrap_or(&[]))?,
    })
}

// Why the words give nothing.
#[derive(Clone, Copy, Debug, PartialEq, Eq)]
enum WordsErr {
    // They aren't of the form of the command line.
    Refused,
    // Memory ran out.
    Memory,
}

// What `clap` makes of the words.
fn matches<'a>(alloc: Global, words: &'a [String]) -> Result<ArgMatches<'a>, WordsErr>
    ensures rows { IfOk result (λ m. rows_of (found_of m) ≡ rows_given (map string_bytes words.entry.now)) }
    ensures taken { OnOk result (are_taken (map string_bytes words.entry.now) ≡ true) }
    ensures refused { IsErrOf result WordsErr.Refused → are_taken (map string_bytes words.entry.now) ≡ false }
{
    let Ok(command) = command(alloc) else {
        return Err(WordsErr::Memory);
    };
    match command.try_get_matches_from(words) {
        Ok(matches) => Ok(matches),
        Err(error) => {
            let cause = error.kind();
            match cause {
                ErrorKind::OutOfMemory => Err(WordsErr::Memory),
                _ => Err(WordsErr::Refused),
            }
        }
    }
}

// The command line: ACTION, the options, and FILE at the end.
fn command<'a>(alloc: Global) -> Result<Command<'a>, AllocError>
    ensures { IfOk result (λ c. app_of c ≡ command) }
{
    with_options(alloc)?.arg(file(alloc))
}

// The command with its action and its options.
fn with_options<'a>(alloc: Global) -> Result<Command<'a>, AllocError>
    ensures { IfOk result (λ c. app_of c ≡ with_options) }
{
    let command = bare_command(alloc).arg(action(alloc))?;
    let command = command.arg(option(alloc, "date"))?;
    let command = command.arg(option(alloc, "type"))?;
    let command = command.arg(option(alloc, "serial"))?;
    let command = command.arg(option(alloc, "vtoc"))?;
    let command = command.arg(option(alloc, "cyls"))?;
    command.arg(option(alloc, "count"))
}

fn bare_command<'a>(alloc: Global) -> Command<'a>
    ensures { app_of result ≡ bare }
{
    Command::new(alloc, "volman")
        .disable_help_flag(true)
        .disable_version_flag(true)
}

fn action<'a>(alloc: Global) -> Arg<'a>
    ensures rule { rule_of result ≡ action_rule }
    ensures plain { result.global ≡ false }
{
    Arg::new(alloc, "ACTION").required(true)
}

fn option<'a>(alloc: Global, name: &'a str) -> Arg<'a>
    ensures rule { rule_of result ≡ option_rule name.entry.now }
    ensures plain { result.global ≡ false }
{
    Arg::new(alloc, name).long(name)
}

fn file<'a>(alloc: Global) -> Arg<'a>
    ensures rule { rule_of result ≡ file_rule }
    ensures plain { result.global ≡ false }
{
    Arg::new(alloc, "FILE")
        .required(true)
        .action(ArgAction::Append)
}
