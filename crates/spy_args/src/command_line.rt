//! The command line, by `clap`: one required word and five options, and no flag.

ghost use Rattle.std.specs.Prelude.{◌≡◌, ◌≢◌, true, false, IfOk, IfErr};
ghost use Rattle.clap.specs.Words.{kind_of, found_of, rows_of, rule_of};
ghost use Rattle.spy_args.specs.CommandLine.{command_rule, given_texts, is_taken, option_rule, rows_in, texts_of, values_in, values_of};

use clap::error::ErrorKind;
use clap::{Arg, ArgAction, ArgMatches, Command, Error};
use std::alloc::{AllocError, Global};

/// A command, and the value of each option that is there.
#[derive(Clone, Copy)]
pub struct CommandWords<'a> {
    pub command: &'a str,
    pub size: Option<&'a str>,
    pub task: Option<&'a str>,
    pub req: Option<&'a str>,
    pub point: Option<&'a str>,
    pub field: Option<&'a str>,
}

/// The command that the words give, and their options, where they are taken. The first word is the program's name.
pub fn given<'a>(
    alloc: Global,
    words: &'a [&'a str],
) -> Result<Option<CommandWords<'a>>, AllocError>
    ensures { IfOk result (λ r. given_texts r ≡ values_in (texts_of words.now)) }
{
    match matches_in(alloc, words) {
        Ok(matches) => Ok(given_by(&matches)),
        Err(error) => {
            if error.kind() == ErrorKind::OutOfMemory {
                Err(AllocError)
            } else {
                Ok(None)
            }
        }
    }
}

/// What the matches give.
fn given_by<'a>(matches: &ArgMatches<'a>) -> Option<CommandWords<'a>>
    ensures { given_texts result ≡ values_of (rows_of (found_of matches.now)) }
{
    let command = matches.get_str("command")?;
    Some(CommandWords {
        command,
        size: matches.get_str("size"),
        task: matches.get_str("task"),
        req: matches.get_str("req"),
        point: matches.get_str("point"),
        field: matches.get_str("field"),
    })
}

/// The command, which has to be there.
fn command(alloc: Global) -> Arg<'static>
    ensures rule { rule_of result ≡ command_rule }
    ensures own { result.global ≡ false }
{
    Arg::new(alloc, "command")
        .required(true)
        .action(ArgAction::Set)
}

/// An option with one value.
fn option<'a>(alloc: Global, name: &'a str) -> Arg<'a>
    ensures rule { rule_of result ≡ option_rule name.now }
    ensures own { result.global ≡ false }
{
    Arg::new(alloc, name).long(name).action(ArgAction::Set)
}

/// The matches of the words, where they are taken.
fn matches_in<'a>(alloc: Global, words: &'a [&'a str]) -> Result<ArgMatches<'a>, Error>
    ensures taken { IfOk result (λ _. is_taken (texts_of words.now) ≡ true) }
    ensures rows { IfOk result (λ m. rows_of (found_of m) ≡ rows_in (texts_of words.now)) }
    ensures refused { IfErr result (λ e. kind_of e ≢ ErrorKind.OutOfMemory
        → is_taken (texts_of words.now) ≡ false) }
{
    let spy = Command::new(alloc, "spy")
        .disable_help_flag(true)
        .arg(command(alloc))?
        .arg(option(alloc, "size"))?
        .arg(option(alloc, "task"))?
        .arg(option(alloc, "req"))?
        .arg(option(alloc, "point"))?
        .arg(option(alloc, "field"))?;
    spy.try_get_matches_from(words)
}
