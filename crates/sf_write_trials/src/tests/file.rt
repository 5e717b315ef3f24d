//! One file: what stands in it, how long it is, and what fails.

use super::{SAMPLE, sound};
use sf_entry::TrackSetup;
use sf_file::{Closing, FileFault, OutFile, are_setups};
use sf_list::Bytes;
use sf_tick::{Chunk, Kind, Samples, Stored};
use sf_world::{MemShelf, MemSink, Shelf, Sink};
use std::alloc::{AllocError, Global};
use std::test::Fail;

mod bytes;
mod failures;
mod read_back;
mod several;
mod sizes;

/// The sample entry box of video of 640 by 360 pixels: 111 bytes (ISO/IEC 14496-12, 12.1.3;
/// ISO/IEC 14496-15, 5.4.2.1).
const VIDEO_ENTRY: [u8; 111] = *b"\0\0\0\x6Favc1\0\0\0\0\0\0\0\x01\
    \0\0\0\0\0\0\0\0\0\0\0\0\0\0\0\0\x02\x80\x01\x68\
    \0\x48\0\0\0\x48\0\0\0\0\0\0\0\x01\
    \0\0\0\0\0\0\0\0\0\0\0\0\0\0\0\0\0\0\0\0\0\0\0\0\0\0\0\0\0\0\0\0\
    \0\x18\xFF\xFF\
    \0\0\0\x19avcC\x01\x42\xC0\x1E\xFF\xE1\0\x04\x67\x42\xC0\x1E\x01\0\x02\x68\xCE";

/// When a sample is decoded, in microseconds and in ticks.
type Times = (u64, u64);

/// Three samples at 48000 ticks a second, each 1024 ticks long.
const THREE: [Times; 3] = [(0, 0), (21_333, 1024), (42_667, 2048)];

/// Why a file of the tests wasn't written.
#[derive(Clone, Copy, Debug, PartialEq, Eq)]
enum Stop {
    /// There is no file, or a chunk or the setups don't fit.
    Unfit,
    Fault(FileFault),
}

impl From<AllocError> for Stop {
    fn from(_: AllocError) -> Stop {
        Stop::Fault(FileFault::NoMemory)
    }
}

/// A track of video at so many ticks a second.
fn video(alloc: Global, scale: u32) -> Result<TrackSetup, AllocError> {
    Ok(TrackSetup {
        kind: Kind::Avc,
        scale,
        width: 640,
        height: 360,
        entry: Bytes::from_slice(alloc, &VIDEO_ENTRY)?,
    })
}

/// A chunk of a track with samples of these times.
fn chunk(alloc: Global, track: u32, times: &[Times]) -> Result<Chunk, AllocError> {
    let mut samples = Samples::new(alloc);
    for (dts_us, decode) in times {
        samples.push(Stored {
            dts_us: *dts_us,
            decode: *decode,
            compose: *decode,
            sync: true,
            bytes: Bytes::from_slice(alloc, &SAMPLE)?,
        })?;
    }
    Ok(chunk_of(track, samples))
}

/// A chunk of a track with these samples.
fn chunk_of(track: u32, samples: Samples) -> Chunk {
    Chunk {
        track,
        number: 0,
        first_us: 0,
        samples,
        last: false,
    }
}

/// Writes a chunk, and gives what the file was told to be with it.
fn append<S: Sink>(file: &mut OutFile<S>, chunk: &Chunk) -> Result<Closing, Stop> {
    if !file.can_append(chunk) {
        return Err(Stop::Unfit);
    }
    let told = file.size_with(chunk);
    if told.movie_box > 1 << 28 {
        return Err(Stop::Unfit);
    }
    match file.append(chunk) {
        Ok(()) => Ok(told),
        Err(fault) => Err(Stop::Fault(fault)),
    }
}

/// Begins a file with these setups in a sink, which comes back where it wasn't begun.
fn begin<S: Sink>(alloc: Global, sink: S, setups: &[TrackSetup]) -> Result<OutFile<S>, (S, Stop)> {
    if !are_setups(setups) {
        return Err((sink, Stop::Unfit));
    }
    match OutFile::begin(alloc, sink, setups) {
        Ok(file) => Ok(file),
        Err((sink, fault)) => Err((sink, Stop::Fault(fault))),
    }
}

/// A file of no chunk on the shelf, with these setups.
fn begun(
    alloc: Global,
    shelf: &mut MemShelf,
    setups: &[TrackSetup],
) -> Result<OutFile<MemSink>, Stop> {
    let Ok(sink) = shelf.create("file") else {
        return Err(Stop::Unfit);
    };
    match begin(alloc, sink, setups) {
        Ok(file) => Ok(file),
        Err((_, stop)) => Err(stop),
    }
}

/// A chunk that is written: its track, and the times of its samples.
type Written<'a> = (u32, &'a [Times]);

/// Writes chunks, and closes the file where all were written. The sink comes back with why it wasn't
/// closed.
fn finish<S: Sink>(
    alloc: Global,
    file: OutFile<S>,
    chunks: &[Written<'_>],
) -> (S, Result<(), Stop>) {
    let mut file = file;
    for (track, times) in chunks {
        let appended = match chunk(alloc, *track, times) {
            Ok(chunk) => append(&mut file, &chunk),
            Err(_) => Err(Stop::Fault(FileFault::NoMemory)),
        };
        if let Err(stop) = appended {
            return (file.give_sink(), Err(stop));
        }
    }
    match file.close() {
        Ok(sink) => (sink, Ok(())),
        Err((sink, fault)) => (sink, Err(Stop::Fault(fault))),
    }
}

/// Writes a file of chunks, and keeps it on the shelf as far as it was written.
fn write<H: Shelf>(
    alloc: Global,
    shelf: &mut H,
    setups: &[TrackSetup],
    chunks: &[Written<'_>],
) -> Result<(), Stop> {
    let Ok(sink) = shelf.create("file") else {
        return Err(Stop::Unfit);
    };
    let (sink, ended) = match begin(alloc, sink, setups) {
        Ok(file) => finish(alloc, file, chunks),
        Err((sink, stop)) => (sink, Err(stop)),
    };
    shelf.keep(sink);
    ended
}

/// What a file of chunks holds once it is closed.
fn written(alloc: Global, setups: &[TrackSetup], chunks: &[Written<'_>]) -> Result<Bytes, Stop> {
    let mut shelf = MemShelf::new(alloc, Vec::new(alloc));
    write(alloc, &mut shelf, setups, chunks)?;
    match shelf.file(0) {
        Some(bytes) => Ok(Bytes::from_slice(alloc, bytes)?),
        None => Err(Stop::Unfit),
    }
}

/// Whether these bytes stand at a place in others.
fn stand_at(bytes: &[u8], at: usize, wanted: &[u8]) -> bool {
    at <= bytes.len() && bytes.split_at(at).1.starts_with(wanted)
}
