//! The list of a movie, put into a text.

ghost use Rattle.std.specs.Prelude.{◌≡◌, ◌≤◌, ◌<◌, [], ◌++◌, length, string_bytes, OnOk, IfErr, IfOk, MatchResult};
ghost use Rattle.sf_app.specs.ListText.{kind_word, listed, sample_line, sample_lines, start_line, sync_count, sync_number, track_line, track_lines};
ghost use Rattle.sf_app.specs.AnswerText.{Puts};
ghost use Rattle.sf_app.specs.inner.Listing.{track_at};
ghost use Rattle.sf_app.specs.inner.Gathered.{PutsList, Stops, Takes};
ghost use Rattle.sf_world.specs.Views.{Gains};

use sf_list::Bytes;
use sf_movie::{Movie, PlainSample, TrackKind};
use sf_world::{Denied, Sink};
use std::alloc::{AllocError, Global};
use std::fmt::Write;

// How many bytes of lines are gathered before they are put into the text.
const GATHERED: usize = 65_536;

// Puts what was gathered into the text.
fn put_gathered<T: Sink>(text: &mut T, gathered: &mut Bytes) -> Result<(), Denied>
    ensures ok { OnOk result (Gains gathered.old (T.seen text.old) (T.seen text.new)) }
    ensures none { OnOk result (gathered.new ≡ []) }
    ensures err { IfErr result (λ denied. Stops gathered.old denied (T.seen text.old) (T.seen text.new)) }
    ensures later { (T.seen text.old).faults ≤ (T.seen text.new).faults }
{
    text.append(gathered.as_slice())?;
    gathered.cut(0);
    Ok(())
}

// Gathers a line, after those before it.
fn put_line<T: Sink>(text: &mut T, gathered: &mut Bytes, line: &str) -> Result<(), Denied>
    ensures ok { OnOk result (Takes line.now (T.seen text.old) gathered.old (T.seen text.new) gathered.new) }
    ensures err { IfErr result (λ denied. Stops (gathered.old ++ line.now) denied (T.seen text.old) (T.seen text.new)) }
    ensures later { (T.seen text.old).faults ≤ (T.seen text.new).faults }
{
    if gathered.len() >= GATHERED {
        put_gathered(text, gathered)?;
    }
    gathered.append(line.as_bytes())?;
    Ok(())
}

// Whether decoding can begin at a sample, as a number.
fn sync_number(sync: bool) -> u8
    ensures { result ≡ sync_number sync }
{
    if sync { 1 } else { 0 }
}

// The line of a sample of a track, both counted from 0, in place of another line.
#[tactic(auto, unfolding(crate::specs::ListText::sample_line))]
fn sample_line(
    line: &mut String,
    track: u32,
    number: u64,
    sample: &PlainSample,
) -> Result<(), AllocError>
    ensures { OnOk result (string_bytes line.new ≡ sample_line track number sample.now) }
{
    let PlainSample {
        decode,
        compose,
        sync,
        size,
        ..
    } = *sample;
    let sync = sync_number(sync);
    line.clear();
    write!(line, "sample {track} {number} {decode} ")?;
    write!(line, "{compose} {sync} {size}\n")?;
    Ok(())
}

// The lines of the samples of a track.
fn put_samples<T: Sink>(
    alloc: Global,
    text: &mut T,
    gathered: &mut Bytes,
    movie: &Movie,
    track: u32,
) -> Result<(), Denied>
    requires { track < length movie.now.movie.tracks }
    ensures ok { OnOk result (Takes (sample_lines track 0 (track_at movie.now.movie track).samples) (T.seen text.old) gathered.old (T.seen text.new) gathered.new) }
    ensures err { IfErr result (λ denied. Stops (gathered.old ++ sample_lines track 0 (track_at movie.now.movie track).samples) denied (T.seen text.old) (T.seen text.new)) }
    ensures later { (T.seen text.old).faults ≤ (T.seen text.new).faults }
{
    let mut line = String::new(alloc);
    for number in 0..movie.count(track) {
        sample_line(&mut line, track, number, &movie.sample(track, number))?;
        put_line(text, gathered, line.as_str())?;
    }
    Ok(())
}

// The word of what a track's samples are.
fn kind_word(kind: TrackKind) -> &'static str
    ensures { result.now ≡ kind_word kind }
{
    match kind {
        TrackKind::Avc => "avc",
        TrackKind::Aac => "aac",
        TrackKind::Other => "other",
    }
}

// How many samples of a track are sync.
fn sync_count(movie: &Movie, track: u32) -> u64
    requires { track < length movie.now.movie.tracks }
    ensures { result ≡ sync_count (track_at movie.now.movie track).samples }
{
    let mut syncs = 0u64;
    for number in 0..movie.count(track) {
        if movie.sample(track, number).sync {
            syncs += 1;
        }
    }
    syncs
}

// The line of a track of a movie.
#[tactic(auto, unfolding(crate::specs::ListText::track_line))]
fn track_line(alloc: Global, movie: &Movie, track: u32) -> Result<String, AllocError>
    requires { track < length movie.now.movie.tracks }
    ensures { IfOk result (λ line. string_bytes line ≡ track_line movie.now.movie.scale track (track_at movie.now.movie track)) }
{
    let kind = kind_word(movie.kind(track));
    let scale = movie.scale(track);
    let samples = movie.count(track);
    let syncs = sync_count(movie, track);
    let lead = movie.lead_us(track);
    let mut line = format!(in alloc; "track {track} {kind} {scale} ")?;
    write!(line, "{samples} {syncs} {lead}\n")?;
    Ok(line)
}

// The lines of a track.
fn put_track<T: Sink>(
    alloc: Global,
    text: &mut T,
    gathered: &mut Bytes,
    movie: &Movie,
    track: u32,
) -> Result<(), Denied>
    requires { track < length movie.now.movie.tracks }
    ensures ok { OnOk result (Takes (track_line movie.now.movie.scale track (track_at movie.now.movie track) ++ sample_lines track 0 (track_at movie.now.movie track).samples)
        (T.seen text.old) gathered.old (T.seen text.new) gathered.new) }
    ensures err { IfErr result (λ denied. Stops (gathered.old ++ (track_line movie.now.movie.scale track (track_at movie.now.movie track) ++ sample_lines track 0 (track_at movie.now.movie track).samples)) denied (T.seen text.old) (T.seen text.new)) }
    ensures later { (T.seen text.old).faults ≤ (T.seen text.new).faults }
{
    let line = track_line(alloc, movie, track)?;
    put_line(text, gathered, line.as_str())?;
    put_samples(alloc, text, gathered, movie, track)
}

// The lines of the tracks.
fn put_tracks<T: Sink>(
    alloc: Global,
    text: &mut T,
    gathered: &mut Bytes,
    movie: &Movie,
) -> Result<(), Denied>
    ensures ok { OnOk result (Takes (track_lines movie.now.movie.scale 0 movie.now.movie.tracks) (T.seen text.old) gathered.old (T.seen text.new) gathered.new) }
    ensures err { IfErr result (λ denied. Stops (gathered.old ++ track_lines movie.now.movie.scale 0 movie.now.movie.tracks) denied (T.seen text.old) (T.seen text.new)) }
    ensures later { (T.seen text.old).faults ≤ (T.seen text.new).faults }
{
    for track in 0..movie.track_count() {
        put_track(alloc, text, gathered, movie, track)?;
    }
    Ok(())
}

// The line of a movie that starts then, in microseconds.
#[tactic(auto, unfolding(crate::specs::ListText::start_line))]
fn start_line(alloc: Global, start_us: u64) -> Result<String, AllocError>
    ensures { IfOk result (λ line. string_bytes line ≡ start_line start_us) }
{
    format!(in alloc; "start {start_us}\n")
}

// Puts the lines of the tracks of a movie into a text. After an error a first part of them was put
// there.
fn put_all_tracks<T: Sink>(alloc: Global, text: &mut T, movie: &Movie) -> Result<(), Denied>
    ensures ok { OnOk result (Gains (track_lines movie.now.movie.scale 0 movie.now.movie.tracks) (T.seen text.old) (T.seen text.new)) }
    ensures err { IfErr result (λ denied. Stops (track_lines movie.now.movie.scale 0 movie.now.movie.tracks) denied (T.seen text.old) (T.seen text.new)) }
    ensures later { (T.seen text.old).faults ≤ (T.seen text.new).faults }
{
    let mut gathered = Bytes::new(alloc);
    put_tracks(alloc, text, &mut gathered, movie)?;
    put_gathered(text, &mut gathered)
}

/// Why a list wasn't put whole.
#[derive(Clone, Copy, Debug, PartialEq, Eq)]
pub(crate) enum PutFault {
    /// The text failed, and has a first part of the list.
    WriteFault,
    /// There was no memory, and nothing was put.
    NoMemory,
    /// There was no memory for the whole list, of which the text has a first part.
    NoMemoryWithin,
}

// Puts the first line of a list into a text.
fn put_start<T: Sink>(alloc: Global, text: &mut T, start_us: u64) -> Result<(), Denied>
    ensures puts { Puts (start_line start_us) result (T.seen text.old) (T.seen text.new) }
    ensures later { (T.seen text.old).faults ≤ (T.seen text.new).faults }
{
    let line = start_line(alloc, start_us)?;
    text.append(line.as_bytes())
}

/// Puts the list of a movie into a text. The first line is put by itself, so that want of memory
/// before it is told apart from want of memory within the list.
#[tactic(auto, unfolding(crate::specs::ListText::listed))]
pub(crate) fn put_movie<T: Sink>(alloc: Global, text: &mut T, movie: &Movie) -> Result<(), PutFault>
    ensures puts { PutsList (listed movie.now.movie) result (T.seen text.old) (T.seen text.new) }
    ensures later { (T.seen text.old).faults ≤ (T.seen text.new).faults }
{
    match put_start(alloc, text, movie.start_us()) {
        Ok(()) => {}
        Err(Denied::Failed) => return Err(PutFault::WriteFault),
        Err(Denied::NoMemory) => return Err(PutFault::NoMemory),
    }
    match put_all_tracks(alloc, text, movie) {
        Ok(()) => Ok(()),
        Err(Denied::Failed) => Err(PutFault::WriteFault),
        Err(Denied::NoMemory) => Err(PutFault::NoMemoryWithin),
    }
}
