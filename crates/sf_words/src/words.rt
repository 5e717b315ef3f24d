//! Words, read as a command.

ghost use Rattle.std.specs.Prelude.{◌≡◌, [], None, map, string_bytes, IfOk};
ghost use Rattle.sf_words.specs.Commands.{IsRead, asked, command, extract_asked, extract_options, list_asked, make_asked, make_options, record_asked, record_options};
ghost use Rattle.sf_words.specs.Ranges.{IsInRange};
ghost use Rattle.sf_words.specs.Reading.{read};

use super::grammar::parse;
use super::{Command, UsageFault, WordsFault, asked};
use std::alloc::Global;

static RECORD_OPTIONS: [&str; 7] = [
    "start-us",
    "interleave-us",
    "max-bytes",
    "max-duration-us",
    "max-files",
    "threads",
    "out",
];

static EXTRACT_OPTIONS: [&str; 5] = ["pages", "low", "high", "threads", "out"];

static LIST_OPTIONS: [&str; 0] = [];

static MAKE_OPTIONS: [&str; 1] = ["threads"];

// The words after `record`.
fn read_record(alloc: Global, words: &[String]) -> Result<Command, WordsFault>
    ensures { IsRead (asked record_asked (read record_options None (map string_bytes words.now))) result }
{
    match parse(alloc, "record", RECORD_OPTIONS.as_slice(), words) {
        Ok(matches) => asked::record(alloc, &matches),
        Err(fault) => Err(fault),
    }
}

// The words after `extract`.
fn read_extract(alloc: Global, words: &[String]) -> Result<Command, WordsFault>
    ensures { IsRead (asked extract_asked (read extract_options None (map string_bytes words.now))) result }
{
    match parse(alloc, "extract", EXTRACT_OPTIONS.as_slice(), words) {
        Ok(matches) => asked::extract(alloc, &matches),
        Err(fault) => Err(fault),
    }
}

// The words after `list`.
fn read_list(alloc: Global, words: &[String]) -> Result<Command, WordsFault>
    ensures { IsRead (asked (λ given values. list_asked given) (read [] None (map string_bytes words.now))) result }
{
    match parse(alloc, "list", LIST_OPTIONS.as_slice(), words) {
        Ok(matches) => asked::list(alloc, &matches),
        Err(fault) => Err(fault),
    }
}

// The words after `make`.
fn read_make(alloc: Global, words: &[String]) -> Result<Command, WordsFault>
    ensures { IsRead (asked make_asked (read make_options None (map string_bytes words.now))) result }
{
    match parse(alloc, "make", MAKE_OPTIONS.as_slice(), words) {
        Ok(matches) => asked::make(&matches),
        Err(fault) => Err(fault),
    }
}

// What words ask for.
#[tactic(auto, unfolding(crate::specs::Commands::command))]
fn read_command(alloc: Global, words: &[String]) -> Result<Command, WordsFault>
    ensures { IsRead (command (map string_bytes words.now)) result }
{
    let [first, others @ ..] = words else {
        return Err(WordsFault::Usage(UsageFault::Command));
    };
    if first.as_str() == "record" {
        return read_record(alloc, others);
    }
    if first.as_str() == "extract" {
        return read_extract(alloc, others);
    }
    if first.as_str() == "list" {
        return read_list(alloc, others);
    }
    if first.as_str() == "make" {
        return read_make(alloc, others);
    }
    Err(WordsFault::Usage(UsageFault::Command))
}

/// What the words of a command line ask for. `NoMemory` comes only for want of memory, and the words are refused exactly as
/// `specs/Commands.antt` says.
#[tactic(auto, using(crate::proofs::Ranges::read_in_range))]
pub fn read_words(alloc: Global, words: &[String]) -> Result<Command, WordsFault>
    // What the words ask for, or what is wrong with them.
    ensures read { IsRead (command (map string_bytes words.now)) result }

    // What is asked is within its ranges.
    ensures range { IfOk result IsInRange }
{
    read_command(alloc, words)
}
