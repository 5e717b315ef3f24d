//! A file that is being written.

ghost use Rattle.std.specs.Prelude.{◌≡◌, ℕ, ◌+◌, ◌^◌, ◌<◌, ◌≤◌, ◌==◌, List, [], ◌∷◌, ◌++◌, length, slice_get, Option, Err, OnOk, OnErr, IfOk, IfErr, IsTrue, MatchResult};
ghost use Rattle.sf_tick.specs.declared.types.Chunk.{Chunk};
ghost use Rattle.sf_world.specs.Contents.{grown};
ghost use Rattle.sf_world.specs.Counts.{Rose};
ghost use Rattle.sf_world.specs.Views.{GainsPart};
ghost use Rattle.sf_layout.specs.Layout.{layout, start_of, stored_bytes, track_samples, tracks_of};
ghost use Rattle.sf_file.specs.FileHead.{file_head};
ghost use Rattle.sf_file.specs.Open.{Appendable, AreSetups, ClosesAs, HalfClosed, HeldTrack, IsEmpty, Stands, Stays, closing_box, closing_box_with, count_of, rows_in, setups_of, tracks_with};

use crate::faults::FileFault;
use crate::open_track::OpenTrack;
use crate::pieces::{bytes_of, chunk_bytes, file_head, put};
use crate::tracks::{
    add, count, earliest, earliest_with, heads, open_tracks, reserve, tables, totals, totals_with,
};
use sf_entry::TrackSetup;
use sf_list::Bytes;
use sf_moov::encode_moov;
use sf_tick::Chunk;
use sf_world::Sink;
use std::alloc::{AllocError, Global};
use std::marker::Model;

/// Where the media data box begins.
const DATA_PLACE: u64 = 24;

/// Where the size of the media data box stands.
const SIZE_PLACE: u64 = 32;

/// Where the content of the media data box begins.
const FIRST_PLACE: u64 = 40;

/// What a file would be if it were closed with a chunk: its length and that of its movie box in bytes, and
/// the samples of the chunk's track in it.
#[derive(Clone, Copy, Debug, PartialEq, Eq)]
pub struct Closing {
    pub bytes: u64,
    pub movie_box: u64,
    pub samples: u64,
}

/// A file of 1 to 64 tracks that is being written, chunk by chunk.
#[derive(Drop)]
pub struct OutFile<S: Sink> {
    alloc: Global,
    sink: S,
    pub(crate) tracks: Vec<OpenTrack>,
    /// Where the next chunk begins.
    end: u64,
}

impl<S: Sink> Model for OutFile<S> {
    ghost use Rattle.sf_file.specs.Open.{OpenFile};
    ghost use Rattle.sf_file.specs.inner.Tracks.{held_in};
    ghost use Rattle.sf_file.specs.inner.Sound.{Sound};

    ghost Value = { OpenFile };

    ghost view = { λ f. record { tracks = held_in f.tracks.items; end = f.end; sink = S.seen f.sink } };

    ghost invariant = { λ f. Sound (held_in f.tracks.items) f.end (S.seen f.sink).size };
}

impl<S: Sink> OutFile<S> {
    /// Begins a file in an empty sink, with the setups of its tracks, of which it keeps copies. Its own
    /// memory is taken before the sink is called. After an error the sink comes back.
    pub fn begin(
        alloc: Global,
        sink: S,
        setups: &[TrackSetup],
    ) -> Result<OutFile<S>, (S, FileFault)>
        requires { AreSetups setups.now }
        ensures stands { IfOk result (λ f. Stands (S.seen sink).content [] f) }
        ensures setups { IfOk result (λ f. setups_of f ≡ setups.now) }
        ensures part { IfErr result (λ e. GainsPart (file_head 16) (S.seen sink) (S.seen e.0)) }
        ensures no_memory { IfErr result (λ e. e.1 ≡ FileFault.NoMemory → S.seen e.0 ≡ S.seen sink) }
        ensures later { MatchResult result (λ f. (S.seen sink).faults ≤ f.sink.faults) (λ e. (S.seen sink).faults ≤ (S.seen e.0).faults) }
        ensures failed { IfErr result (λ e. e.1 ≡ FileFault.WriteFault → Rose (S.seen sink).faults (S.seen e.0).faults) }
    {
        let mut sink = sink;
        let Ok(tracks) = open_tracks(alloc, setups) else {
            return Err((sink, FileFault::NoMemory));
        };
        if let Err(fault) = put(&mut sink, &file_head()) {
            return Err((sink, fault));
        }
        Ok(OutFile {
            alloc,
            sink,
            tracks,
            end: FIRST_PLACE,
        })
    }

    /// Whether a chunk can be written after the others: it is of one of the file's tracks, isn't empty, and its samples
    /// follow the track's last one, within what a track may hold.
    pub fn can_append(&self, chunk: &Chunk) -> bool
        ensures holds { IsTrue result → Appendable self.now chunk.now }
        ensures only { Appendable self.now chunk.now → IsTrue result }
    {
        match self.tracks.get(chunk.track as usize) {
            Some(track) => track.can_join(chunk),
            None => false,
        }
    }

    // How long the movie box would be with one more chunk.
    fn movie_box_with(&self, chunk: &Chunk) -> u64
        requires { Appendable self.now chunk.now }
        ensures exact { result ≡ length (closing_box_with self.now chunk.now) }
        ensures bound { result < 2 ^ 50 }
    {
        let start_us = earliest_with(&self.tracks, 0, chunk).unwrap_or(0);
        totals_with(&self.tracks, 0, start_us, self.end, chunk).size()
    }

    /// What the file would be, if it were closed with one more chunk. It takes as long for many samples
    /// in the file as for few.
    pub fn size_with(&self, chunk: &Chunk) -> Closing
        requires { Appendable self.now chunk.now }
        ensures movie_box { result.movie_box ≡ length (closing_box_with self.now chunk.now) }
        ensures bytes { result.bytes ≡ self.now.end + length (stored_bytes chunk.now.samples) + length (closing_box_with self.now chunk.now) }
        ensures samples { (t : HeldTrack) → slice_get self.now.tracks chunk.now.track ≡ Option.Some t
            → result.samples ≡ count_of t + length chunk.now.samples }
        ensures whole { (begun : Option (List ℕ)) (chunks : List Chunk) → Stands begun chunks self.now
            → ClosesAs (setups_of self.now) (chunks ++ chunk.now ∷ []) chunk.now.track result }
    {
        let movie_box = self.movie_box_with(chunk);
        let samples = chunk.samples.as_slice();
        Closing {
            bytes: self.end + bytes_of(samples) + movie_box,
            movie_box,
            samples: count(&self.tracks, chunk.track) + samples.len() as u64,
        }
    }

    /// How long the file would be, if it were closed as it is.
    pub fn size(&self) -> u64
        ensures bytes { result ≡ self.now.end + length (closing_box self.now) }
        ensures whole { (begun : Option (List ℕ)) (chunks : List Chunk) → Stands begun chunks self.now
            → result ≡ length (layout (setups_of self.now) chunks) }
    {
        self.end + totals(&self.tracks, self.start_us()).size()
    }

    /// Writes a chunk after the others. Its own memory is taken before the sink is called. After an
    /// error the file holds what it held. Where the sink failed it may have gained a first part of the
    /// chunk, and only `give_sink` is called then.
    pub fn append(&mut self, chunk: &Chunk) -> Result<(), FileFault>
        requires appendable { Appendable self.old chunk.now }
        requires movie_box { length (closing_box_with self.old chunk.now) ≤ 2 ^ 28 }
        ensures stands { OnOk result ((begun : Option (List ℕ)) (chunks : List Chunk) → Stands begun chunks self.old
            → Stands begun (chunks ++ chunk.now ∷ []) self.new) }
        ensures tracks { OnOk result (self.new.tracks ≡ tracks_with 0 self.old.tracks self.old.end chunk.now) }
        ensures setups { setups_of self.new ≡ setups_of self.old }
        ensures stays { OnErr result (Stays self.old self.new) }
        ensures part { OnErr result (GainsPart (stored_bytes chunk.now.samples) self.old.sink self.new.sink) }
        ensures no_memory { result ≡ Err FileFault.NoMemory → self.new.sink ≡ self.old.sink }
        ensures later { self.old.sink.faults ≤ self.new.sink.faults }
        ensures failed { result ≡ Err FileFault.WriteFault → Rose self.old.sink.faults self.new.sink.faults }
    {
        if reserve(&mut self.tracks, chunk).is_err() {
            return Err(FileFault::NoMemory);
        }
        let Ok(bytes) = chunk_bytes(self.alloc, chunk.samples.as_slice()) else {
            return Err(FileFault::NoMemory);
        };
        put(&mut self.sink, bytes.as_slice())?;
        add(&mut self.tracks, self.end, chunk);
        self.end += bytes.len() as u64;
        Ok(())
    }

    // The movie box of the file as it is.
    fn movie_box(&self) -> Result<Bytes, AllocError>
        ensures { IfOk result (λ b. b ≡ closing_box self.now) }
    {
        let start_us = self.start_us();
        let heads = heads(self.alloc, &self.tracks, start_us)?;
        let tables = tables(self.alloc, &self.tracks)?;
        let mut out = Bytes::new(self.alloc);
        encode_moov(&heads, start_us, &tables, &mut out)?;
        Ok(out)
    }

    /// Writes the movie box at the end, and then the size of the media data box. After an error the
    /// sink comes back.
    pub fn close(self) -> Result<S, (S, FileFault)>
        ensures closed { IfOk result (λ s. (begun : Option (List ℕ)) (chunks : List Chunk) → IsEmpty begun → Stands begun chunks self
            → (S.seen s).content ≡ grown begun (layout (setups_of self) chunks)) }
        ensures part { IfErr result (λ e. HalfClosed (closing_box self) self.sink (S.seen e.0)) }
        ensures no_memory { IfErr result (λ e. e.1 ≡ FileFault.NoMemory → S.seen e.0 ≡ self.sink) }
        ensures later { MatchResult result (λ s. self.sink.faults ≤ (S.seen s).faults) (λ e. self.sink.faults ≤ (S.seen e.0).faults) }
        ensures failed { IfErr result (λ e. e.1 ≡ FileFault.WriteFault → Rose self.sink.faults (S.seen e.0).faults) }
    {
        let movie_box = self.movie_box();
        let size = self.end - DATA_PLACE;
        let mut sink = self.sink;
        let Ok(movie_box) = movie_box else {
            return Err((sink, FileFault::NoMemory));
        };
        if let Err(fault) = put(&mut sink, movie_box.as_slice()) {
            return Err((sink, fault));
        }
        match sink.patch(SIZE_PLACE, &size.to_be_bytes()) {
            Ok(()) => Ok(sink),
            Err(_) => Err((sink, FileFault::WriteFault)),
        }
    }

    /// When the file starts, in microseconds: with the first sample of all its tracks, and at 0 without
    /// samples.
    pub fn start_us(&self) -> u64
        ensures start { result ≡ start_of (rows_in self.now.tracks) }
        ensures whole { (begun : Option (List ℕ)) (chunks : List Chunk) → Stands begun chunks self.now
            → result ≡ start_of (tracks_of (setups_of self.now) chunks) }
    {
        earliest(&self.tracks).unwrap_or(0)
    }

    /// How many samples of a track the file holds.
    pub fn samples(&self, track: u32) -> u64
        requires { track < length self.now.tracks }
        ensures { (begun : Option (List ℕ)) (chunks : List Chunk) → Stands begun chunks self.now
            → result ≡ length (track_samples track chunks) }
    {
        count(&self.tracks, track)
    }

    /// Whether the file holds no chunks.
    pub fn is_empty(&self) -> bool
        ensures place { result ≡ (self.now.end == 40) }
        ensures whole { (begun : Option (List ℕ)) (chunks : List Chunk) → Stands begun chunks self.now
            → result ≡ (length chunks == 0) }
    {
        self.end == FIRST_PLACE
    }

    /// The sink, as far as it was written.
    pub fn give_sink(self) -> S
        ensures { S.seen result ≡ self.sink }
    {
        self.sink
    }
}
