//! The grammar of a command, as `clap` is told it, and a parse by it.

ghost use Rattle.std.specs.Prelude.{◌≡◌, IfOk, MatchResult, None, false, map, string_bytes};
ghost use Rattle.clap.specs.Simple.{app_of};
ghost use Rattle.clap.specs.Values.{kind_of};
ghost use Rattle.clap.specs.Walk.{rule_of, texts};
ghost use Rattle.sf_words.specs.Reading.{is_one_of, read};
ghost use Rattle.sf_words.specs.inner.Grammar.{Denies, Gave, denied, grammar_app, told_option, told_words, words_id};

use super::{UsageFault, WordsFault};
use clap::error::ErrorKind;
use clap::{Arg, ArgAction, ArgMatches};
use std::alloc::{AllocError, Global};

// An option of a name, with a value.
fn option_arg(alloc: Global, name: &str) -> Arg<'_>
    ensures rule { rule_of result ≡ told_option name.now }
    ensures local { result.global ≡ false }
{
    Arg::new(alloc, name).long(name).action(ArgAction::Append)
}

// The positional words.
fn words_arg(alloc: Global) -> Arg<'static>
    ensures rule { rule_of result ≡ told_words }
    ensures local { result.global ≡ false }
{
    Arg::new(alloc, "WORDS").action(ArgAction::Append)
}

// A command with these options.
fn grammar<'a>(
    alloc: Global,
    name: &'a str,
    options: &[&'a str],
) -> Result<clap::Command<'a>, AllocError>
    ensures { IfOk result (λ c. app_of c ≡ grammar_app name.entry.now (texts options.now)) }
{
    let mut command = clap::Command::new(alloc, name)
        .no_binary_name(true)
        .disable_help_flag(true);
    for option in options {
        command = command.arg(option_arg(alloc, option))?;
    }
    command.arg(words_arg(alloc))
}

// Why a parse failed: without memory, or by the words.
fn denied(error: &clap::Error) -> WordsFault
    ensures { result ≡ denied (kind_of error.now) }
{
    match error.kind() {
        ErrorKind::OutOfMemory => WordsFault::NoMemory,
        _ => WordsFault::Usage(UsageFault::Words),
    }
}

/// What the words after a command's give to a command with these options.
pub(crate) fn parse<'a>(
    alloc: Global,
    name: &'a str,
    options: &[&'a str],
    words: &'a [String],
) -> Result<ArgMatches<'a>, WordsFault>
    requires { is_one_of (texts options.now) words_id ≡ false }
    ensures { MatchResult result (Gave (read (texts options.now) None (map string_bytes words.entry.now)))
        (Denies (read (texts options.now) None (map string_bytes words.entry.now))) }
{
    let command = grammar(alloc, name, options)?;
    match command.try_get_matches_from(words) {
        Ok(matches) => Ok(matches),
        Err(error) => Err(denied(&error)),
    }
}
