//! The values of options and of positional words, as they are judged after `clap`.

ghost use Rattle.std.specs.Prelude.{◌≡◌, ◌≤◌, codes, length, nat_le, Some, None, IfOk, IfErr, MatchResult, option_map};
ghost use Rattle.std.specs.List.{list_all};
ghost use Rattle.clap.specs.Walk.{texts};
ghost use Rattle.sf_words.specs.declared.command.Threads.TheVariants.{Threaded};
ghost use Rattle.sf_words.specs.declared.faults.UsageFault.TheVariants.{Words};
ghost use Rattle.sf_words.specs.declared.faults.WordsFault.TheVariants.{Usage};
ghost use Rattle.sf_words.specs.Values.{is_digit, number, said, text, threads, words_from};
ghost use Rattle.sf_words.specs.inner.Grammar.{matched, only_value, or_words, small_number, words_id};

use super::{Threads, UsageFault, WordsFault};
use clap::ArgMatches;
use sf_list::{Items, Text};
use std::alloc::{AllocError, Global};

const REFUSED: WordsFault = WordsFault::Usage(UsageFault::Words);

// Whether each byte is an ASCII digit.
fn are_digits(bytes: &[u8]) -> bool
    ensures { result ≡ list_all is_digit bytes.now }
{
    for byte in bytes {
        if !byte.is_ascii_digit() {
            return false;
        }
    }
    true
}

// The number that a word is, where it has 1 to 20 digits and a u64 holds it.
fn small_number(word: &str) -> Option<u64>
    ensures { result ≡ small_number word.now }
{
    let digits = word.as_bytes();
    if digits.is_empty() || digits.len() > 20 || !are_digits(digits) {
        return None;
    }
    word.parse::<u64>().ok()
}

/// The number that a word is, in a range.
pub(crate) fn read_number(word: &str, least: u64, most: u64) -> Result<u64, WordsFault>
    ensures { result ≡ or_words (number least most word.now) }
{
    match small_number(word) {
        Some(number) if least <= number && number <= most => Ok(number),
        _ => Err(REFUSED),
    }
}

// The only value among some, if there is one.
fn only<'v>(values: &[&'v str]) -> Result<Option<&'v str>, WordsFault>
    ensures { MatchResult result (λ value. only_value (texts values.now) ≡ Some (option_map (λ v. v.now) value)) (λ fault. (only_value (texts values.now) ≡ None) × (fault ≡ Usage Words)) }
{
    match values {
        [] => Ok(None),
        [value] => Ok(Some(*value)),
        _ => Err(REFUSED),
    }
}

// The value that is given to an option, if one is.
fn value_of<'a>(matches: &ArgMatches<'a>, name: &str) -> Result<Option<&'a str>, WordsFault>
    ensures { MatchResult result (λ value. only_value (matched name.now matches.now) ≡ Some (option_map (λ v. v.now) value)) (λ fault. (only_value (matched name.now matches.now) ≡ None) × (fault ≡ Usage Words)) }
{
    let Some(values) = matches.get_raw(name) else {
        return Ok(None);
    };
    only(values)
}

/// The number that an option says, or its default.
pub(crate) fn number(
    matches: &ArgMatches<'_>,
    name: &str,
    default: u64,
    least: u64,
    most: u64,
) -> Result<u64, WordsFault>
    ensures { result ≡ or_words (said default (number least most) (matched name.now matches.now)) }
{
    let Some(value) = value_of(matches, name)? else {
        return Ok(default);
    };
    read_number(value, least, most)
}

/// The way of working that `--threads` says.
pub(crate) fn threads(matches: &ArgMatches<'_>) -> Result<Threads, WordsFault>
    ensures { result ≡ or_words (said Threaded threads (matched (codes "threads") matches.now)) }
{
    let Some(value) = value_of(matches, "threads")? else {
        return Ok(Threads::Threaded);
    };
    if read_number(value, 0, 1)? == 0 {
        return Ok(Threads::Serial);
    }
    Ok(Threads::Threaded)
}

/// The text that `--out` says.
#[tactic(auto, unfolding(crate::specs::Values::text))]
pub(crate) fn out<'a>(matches: &ArgMatches<'a>) -> Result<&'a str, WordsFault>
    ensures { MatchResult result (λ word. said (codes "out") text (matched (codes "out") matches.now) ≡ Some word.now)
        (λ fault. (said (codes "out") text (matched (codes "out") matches.now) ≡ None) × (fault ≡ Usage Words)) }
{
    let Some(value) = value_of(matches, "out")? else {
        return Ok("out");
    };
    if value.is_empty() {
        return Err(REFUSED);
    }
    Ok(value)
}

// Whether no word is empty.
fn are_filled(words: &[&str]) -> bool
    ensures { result ≡ list_all (λ w. nat_le 1 (length w)) (texts words.now) }
{
    for word in words {
        if word.is_empty() {
            return false;
        }
    }
    true
}

/// The positional words, where none is empty and there are so many.
#[tactic(auto, unfolding(crate::specs::Values::words_from))]
pub(crate) fn words_from<'m, 'a>(
    matches: &'m ArgMatches<'a>,
    least: usize,
    most: usize,
) -> Result<&'m [&'a str], WordsFault>
    requires { 1 ≤ least }
    ensures { MatchResult result (λ words. words_from least most (matched words_id matches.now) ≡ Some (texts words.now))
        (λ fault. (words_from least most (matched words_id matches.now) ≡ None) × (fault ≡ Usage Words)) }
{
    let Some(words) = matches.get_raw("WORDS") else {
        return Err(REFUSED);
    };
    if words.len() < least || words.len() > most || !are_filled(words) {
        return Err(REFUSED);
    }
    Ok(words)
}

/// Copies of words.
pub(crate) fn copied(alloc: Global, words: &[&str]) -> Result<Items<Text>, AllocError>
    ensures { IfOk result (λ copies. copies ≡ texts words.now) }
{
    let mut copies = Items::new(alloc);
    for word in words {
        copies.push(Text::from_str(alloc, word)?)?;
    }
    Ok(copies)
}
