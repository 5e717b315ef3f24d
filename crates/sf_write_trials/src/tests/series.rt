//! A series of files: which chunks stand in which, where it ends, and what fails.

ghost use Rattle.std.specs.Prelude.{IsTrue};
ghost use Rattle.sf_series.specs.Series.{AreLimits};

use super::{SAMPLE, sound};
use sf_entry::TrackSetup;
use sf_file::are_setups;
use sf_list::{Bytes, Text};
use sf_meaning::{PlainMovie, PlainTrack, plain_file};
use sf_series::{LimitShown, Limits, Report, Series, SeriesFault, Wrote};
use sf_tick::{Chunk, Samples, Stored, to_tick};
use sf_world::{MemShelf, Shelf};
use std::alloc::{AllocError, Global};
use std::test::Fail;

mod failures;
mod names;
mod several;
mod sizes;

/// Why a series of the tests didn't go on.
#[derive(Clone, Copy, Debug, PartialEq, Eq)]
enum Stop {
    /// A chunk, the setups or the limits don't fit.
    Unfit,
    Fault(SeriesFault),
}

impl From<AllocError> for Stop {
    fn from(_: AllocError) -> Stop {
        Stop::Fault(SeriesFault::NoMemory)
    }
}

/// So many tracks of sound.
fn sounds(alloc: Global, count: u32) -> Result<Vec<TrackSetup>, AllocError> {
    let mut setups = Vec::new(alloc);
    for _ in 0..count {
        setups.push(sound(alloc, 48_000)?)?;
    }
    Ok(setups)
}

/// The most bytes of a file, how long it goes on in microseconds, each 0 for no such limit, and the most files.
type Most = (u64, u64, u32);

/// Limits of the series.
fn limits(alloc: Global, most: Most) -> Result<Limits, AllocError> {
    Ok(Limits {
        max_bytes: most.0,
        max_duration_us: most.1,
        max_files: most.2,
        stem: Text::from_str(alloc, "out")?,
    })
}

/// A chunk of a track with its number, of sync samples that are decoded at these microseconds.
fn chunk(alloc: Global, track: u32, number: u64, times: &[u64]) -> Result<Chunk, AllocError> {
    let mut samples = Samples::new(alloc);
    for dts_us in times {
        let decode = to_tick(*dts_us % (1 << 48), 48_000);
        samples.push(Stored {
            dts_us: *dts_us,
            decode,
            compose: decode,
            sync: true,
            bytes: Bytes::from_slice(alloc, &SAMPLE)?,
        })?;
    }
    Ok(Chunk {
        track,
        number,
        first_us: times.first().copied().unwrap_or(0),
        samples,
        last: false,
    })
}

/// Whether limits are within their ranges.
fn are_limits(limits: &Limits) -> bool
    ensures { IsTrue result → AreLimits limits.now }
{
    limits.max_bytes <= 1 << 62
        && limits.max_duration_us <= 1 << 48
        && limits.max_files >= 1
        && limits.max_files <= 99_999
}

/// Starts a series of so many tracks of sound.
fn start<O: Shelf>(
    alloc: Global,
    tracks: u32,
    most: Most,
    shelf: &mut O,
) -> Result<Series<O>, Stop> {
    let setups = sounds(alloc, tracks)?;
    let limits = limits(alloc, most)?;
    if !are_setups(&setups) || !are_limits(&limits) {
        return Err(Stop::Unfit);
    }
    match Series::start(alloc, setups, limits, shelf) {
        Ok(series) => Ok(series),
        Err(fault) => Err(Stop::Fault(fault)),
    }
}

/// Why a series of one track isn't started.
fn not_started<O: Shelf>(alloc: Global, most: Most, shelf: &mut O) -> Option<Stop> {
    start(alloc, 1, most, shelf).err()
}

/// Hands a chunk.
fn hand<O: Shelf>(series: &mut Series<O>, chunk: Chunk) -> Result<(), Stop> {
    if series.fault().is_none() && !series.can_take(&chunk) {
        return Err(Stop::Unfit);
    }
    match series.hand(chunk) {
        Ok(()) => Ok(()),
        Err(_) => Err(Stop::Fault(SeriesFault::NoMemory)),
    }
}

/// Writes the chunk that is next.
fn write<O: Shelf>(series: &mut Series<O>, shelf: &mut O) -> Result<Wrote, Stop> {
    if series.fault().is_some() {
        return Err(Stop::Unfit);
    }
    match series.write_one(shelf) {
        Ok(wrote) => Ok(wrote),
        Err(fault) => Err(Stop::Fault(fault)),
    }
}

/// The chunks of one track of sound, each with its first sample's microseconds.
const SINGLE: [&[u64]; 3] = [&[0], &[21_333], &[42_667]];

/// One chunk of the same samples.
const TOGETHER: [&[u64]; 1] = [&[0, 21_333, 42_667]];

/// Hands chunks of one track of sound, the first one with this number.
fn hand_all<O: Shelf>(
    alloc: Global,
    series: &mut Series<O>,
    first: u64,
    chunks: &[&[u64]],
) -> Result<(), Stop> {
    let mut number = first;
    for times in chunks {
        hand(series, chunk(alloc, 0, number, times)?)?;
        number = number.wrapping_add(1);
    }
    Ok(())
}

/// Records chunks of one track of sound.
fn record<O: Shelf>(
    alloc: Global,
    chunks: &[&[u64]],
    most: Most,
    shelf: &mut O,
) -> Result<(Report, Result<(), SeriesFault>), Stop> {
    let mut series = start(alloc, 1, most, shelf)?;
    hand_all(alloc, &mut series, 0, chunks)?;
    Ok(series.finish(shelf))
}

/// An empty shelf, no call of which fails.
fn sure_shelf(alloc: Global) -> MemShelf {
    MemShelf::new(alloc, Vec::new(alloc))
}

/// A shelf on which chunks of one track of sound are recorded.
fn recorded(alloc: Global, chunks: &[&[u64]], most: Most) -> Result<MemShelf, Stop> {
    let mut shelf = sure_shelf(alloc);
    match record(alloc, chunks, most, &mut shelf)?.1 {
        Ok(()) => Ok(shelf),
        Err(fault) => Err(Stop::Fault(fault)),
    }
}

/// The length of a file that a shelf keeps, if it was kept.
fn length_of(shelf: &MemShelf, number: u32) -> Option<u64> {
    match shelf.file(number) {
        Some(file) => Some(file.len() as u64),
        None => None,
    }
}

/// Whether a shelf keeps files of these lengths, at most eight, and no more.
fn keeps(shelf: &MemShelf, lengths: &[u64]) -> bool {
    let mut same = lengths.len() <= 8;
    for number in 0..9u32 {
        same = same && length_of(shelf, number) == lengths.get(number as usize).copied();
    }
    same
}

/// How many files a shelf keeps, of the first nine.
fn kept(shelf: &MemShelf) -> u32 {
    let mut count = 0;
    for number in 0..9u32 {
        if shelf.file(number).is_some() {
            count = number + 1;
        }
    }
    count
}

/// What a track of a movie is: its lead in microseconds, and the places of its samples.
type Shown<'a> = (u64, &'a [u64]);

/// Whether a track of a movie is this one.
fn is_track(track: &PlainTrack, shown: &Shown<'_>) -> bool {
    let samples = track.samples.as_slice();
    let mut same = track.lead == shown.0 && samples.len() == shown.1.len();
    for (sample, place) in samples.iter().zip(shown.1) {
        same = same && sample.place == *place;
    }
    same
}

/// Whether a movie starts at this many microseconds and its tracks are these.
fn is_movie(movie: &PlainMovie, start_us: u64, tracks: &[Shown<'_>]) -> bool {
    let found = movie.tracks.as_slice();
    let mut same = movie.start_us == start_us && found.len() == tracks.len();
    for (track, shown) in found.iter().zip(tracks) {
        same = same && is_track(track, shown);
    }
    same
}

/// Whether a file of the shelf is a movie that starts at this many microseconds with these tracks.
fn reads_as(
    alloc: Global,
    shelf: &MemShelf,
    file: u32,
    start_us: u64,
    tracks: &[Shown<'_>],
) -> bool {
    let Some(bytes) = shelf.file(file) else {
        return false;
    };
    match plain_file(alloc, bytes) {
        Ok(movie) => is_movie(&movie, start_us, tracks),
        Err(_) => false,
    }
}
