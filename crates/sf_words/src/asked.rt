//! What the values ask of each command.

ghost use Rattle.std.specs.Prelude.{◌≡◌};
ghost use Rattle.sf_words.specs.Commands.{extract_asked, extract_numbers, list_asked, make_asked, record_asked, record_numbers};
ghost use Rattle.sf_words.specs.inner.Grammar.{Takes, or_words, values_in, words_id, matched};

use super::command::{
    Command, ExtractAsked, ExtractNumbers, MakeAsked, RecordAsked, RecordNumbers,
};
use super::values::{copied, number, out, read_number, threads, words_from};
use super::{UsageFault, WordsFault};
use clap::ArgMatches;
use sf_list::Text;
use std::alloc::Global;

// 2 ^ 48 microseconds, which is close to nine years
const MOST_US: u64 = 281_474_976_710_656;

// 2 ^ 62 bytes
const MOST_BYTES: u64 = 4_611_686_018_427_387_904;

// The numbers that are asked of `record`.
#[tactic(auto, unfolding(crate::specs::Commands::record_numbers))]
fn record_numbers(matches: &ArgMatches<'_>) -> Result<RecordNumbers, WordsFault>
    ensures { result ≡ or_words (record_numbers (values_in matches.now)) }
{
    let start_us = number(matches, "start-us", 0, 0, MOST_US)?;
    let interleave_us = number(matches, "interleave-us", 1_000_000, 0, MOST_US)?;
    let max_bytes = number(matches, "max-bytes", 0, 0, MOST_BYTES)?;
    let max_duration_us = number(matches, "max-duration-us", 0, 0, MOST_US)?;
    let max_files = number(matches, "max-files", 1, 1, 99_999)?;
    Ok(RecordNumbers {
        start_us,
        interleave_us,
        max_bytes,
        max_duration_us,
        max_files,
    })
}

/// `record INPUT..`
#[tactic(auto, unfolding(crate::specs::Commands::record_asked))]
pub(crate) fn record(alloc: Global, matches: &ArgMatches<'_>) -> Result<Command, WordsFault>
    ensures { Takes (record_asked (matched words_id matches.now) (values_in matches.now)) result }
{
    let numbers = record_numbers(matches)?;
    let threads = threads(matches)?;
    let out = out(matches)?;
    let inputs = words_from(matches, 1, 16)?;
    Ok(Command::Record(RecordAsked {
        inputs: copied(alloc, inputs)?,
        numbers,
        threads,
        out: Text::from_str(alloc, out)?,
    }))
}

// The numbers that are asked of `extract`.
#[tactic(auto, unfolding(crate::specs::Commands::extract_numbers))]
fn extract_numbers(matches: &ArgMatches<'_>) -> Result<ExtractNumbers, WordsFault>
    ensures { result ≡ or_words (extract_numbers (values_in matches.now)) }
{
    let pages = number(matches, "pages", 400, 1, 4096)?;
    let low = number(matches, "low", 4_194_304, 0, 1_073_741_824)?;
    let high = number(matches, "high", 20_971_520, 0, 1_073_741_824)?;
    if low > high {
        return Err(WordsFault::Usage(UsageFault::Words));
    }
    Ok(ExtractNumbers { pages, low, high })
}

/// `extract MOVIE PLAN..`
#[tactic(auto, unfolding(crate::specs::Commands::extract_asked))]
pub(crate) fn extract(alloc: Global, matches: &ArgMatches<'_>) -> Result<Command, WordsFault>
    ensures { Takes (extract_asked (matched words_id matches.now) (values_in matches.now)) result }
{
    let numbers = extract_numbers(matches)?;
    let threads = threads(matches)?;
    let out = out(matches)?;
    let [movie, plans @ ..] = words_from(matches, 2, 17)? else {
        return Err(WordsFault::Usage(UsageFault::Words));
    };
    Ok(Command::Extract(ExtractAsked {
        movie: Text::from_str(alloc, movie)?,
        plans: copied(alloc, plans)?,
        numbers,
        threads,
        out: Text::from_str(alloc, out)?,
    }))
}

/// `list MOVIE`
#[tactic(auto, unfolding(crate::specs::Commands::list_asked))]
pub(crate) fn list(alloc: Global, matches: &ArgMatches<'_>) -> Result<Command, WordsFault>
    ensures { Takes (list_asked (matched words_id matches.now)) result }
{
    let [movie] = words_from(matches, 1, 1)? else {
        return Err(WordsFault::Usage(UsageFault::Words));
    };
    Ok(Command::List(Text::from_str(alloc, movie)?))
}

/// `make COUNT TRACKS`
#[tactic(auto, unfolding(crate::specs::Commands::make_asked))]
pub(crate) fn make(matches: &ArgMatches<'_>) -> Result<Command, WordsFault>
    ensures { Takes (make_asked (matched words_id matches.now) (values_in matches.now)) result }
{
    let [count, tracks] = words_from(matches, 2, 2)? else {
        return Err(WordsFault::Usage(UsageFault::Words));
    };
    Ok(Command::Make(MakeAsked {
        count: read_number(count, 0, 200_000)?,
        tracks: read_number(tracks, 1, 8)?,
        threads: threads(matches)?,
    }))
}
