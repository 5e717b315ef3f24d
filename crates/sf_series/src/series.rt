//! A series of files, into which chunks are handed and written.

ghost use Rattle.std.specs.Prelude.{◌≡◌, ◌≢◌, ◌⊎◌, ℕ, ◌+◌, ◌≤◌, Bool, true, false, List, [], length, replicate, Some, None, Ok, Err, IfErr, IfOk, IsTrue, OnErr, OnOk};
ghost use Rattle.sf_tick.specs.declared.types.Chunk.{Chunk};
ghost use Rattle.sf_world.specs.Counts.{Rose};
ghost use Rattle.sf_world.specs.Views.{KeptAtMost, ShelfView};
ghost use Rattle.sf_gather.specs.Proper.{Tail};
ghost use Rattle.sf_interleave.specs.Waiting.{earliest_front, how_many};
ghost use Rattle.sf_file.specs.Open.{AreSetups};
ghost use Rattle.sf_series.specs.declared.limits.LimitShown.{LimitShown};
ghost use Rattle.sf_series.specs.Core.{State, failed, fresh, hand, write};
ghost use Rattle.sf_series.specs.Ending.{Broken, Finished, IsLeft, Reports, Stopped, written, written_out};
ghost use Rattle.sf_series.specs.Names.{file_name};
ghost use Rattle.sf_series.specs.Shelved.{BrokenOn, closed_in};
ghost use Rattle.sf_series.specs.Series.{AreLimits, Breaks, CanTake, IsNothing, MeetsLimit, Stands, wrote_as};
ghost use Rattle.sf_series.specs.Switching.{closed_length, passes};
ghost use Rattle.sf_series.specs.inner.Tails.{fresh_tail};
ghost use Rattle.sf_series.specs.inner.Writing.{SameSetups};

use crate::faults::SeriesFault;
use crate::limits::Limits;
use crate::report::Report;
use crate::series_files::SeriesFiles;
use crate::tails::HandedTail;
use sf_entry::TrackSetup;
use sf_interleave::Pending;
use sf_tick::Chunk;
use sf_world::Shelf;
use std::alloc::{AllocError, Global};
use std::marker::Model;

/// What a write did.
#[derive(Clone, Copy, Debug, PartialEq, Eq)]
pub enum Wrote {
    /// It wrote a chunk of this track.
    OneChunk(u32),
    /// No chunk waits.
    Idle,
}

/// A series of files on a shelf, with the chunks that wait to be written into them.
#[derive(Drop)]
pub struct Series<O: Shelf> {
    pub(crate) pending: Pending,
    /// The chunk that was picked when the series ended. It still waits, in front of its track's.
    pub(crate) left: Option<Chunk>,
    /// One for each track.
    pub(crate) tails: Vec<HandedTail>,
    pub(crate) files: SeriesFiles<O>,
    /// Why nothing more is written, if that is so.
    pub(crate) fault: Option<SeriesFault>,
}

impl<O: Shelf> Model for Series<O> {
    ghost use Rattle.sf_series.specs.Series.{OpenSeries};
    ghost use Rattle.sf_series.specs.inner.Waits.{SoundSeries, with_left};

    ghost Value = { OpenSeries };

    ghost view = { λ s. record { pending = with_left s.left s.pending; tails = s.tails.items; files = s.files; fault = s.fault } };

    ghost invariant = { λ s. SoundSeries s.pending s.tails.items s.files s.left s.fault };
}

// What is kept of so many tracks of which nothing was handed.
fn fresh_tails(alloc: Global, tracks: usize) -> Result<Vec<HandedTail>, AllocError>
    ensures { IfOk result (λ tails. tails.items ≡ replicate tracks fresh_tail) }
{
    let mut tails = Vec::new(alloc);
    for _ in 0..tracks {
        tails.push(HandedTail::new())?;
    }
    Ok(tails)
}

impl<O: Shelf> Series<O> {
    /// Starts with one file without chunks on the shelf. No file is made where even that passes the limit of bytes. After
    /// another error a file that was made is kept.
    pub fn start(
        alloc: Global,
        setups: Vec<TrackSetup>,
        limits: Limits,
        shelf: &mut O,
    ) -> Result<Series<O>, SeriesFault>
        requires setups { AreSetups setups.items }
        requires limits { AreLimits limits }
        ensures stands { IfOk result (λ s. Stands (O.seen shelf.old) (fresh (length setups.items)) s (O.seen shelf.new)) }
        ensures setups { IfOk result (λ s. s.files.setups ≡ setups.items) }
        ensures limits { IfOk result (λ s. s.files.limits ≡ limits) }
        ensures goes_on { IfOk result (λ s. s.fault ≡ None) }
        // A limit is told exactly where an empty file passes it, unless memory ran out before.
        ensures nothing { (shown : LimitShown) → IfErr result (λ e. e ≡ SeriesFault.Limit shown → IsNothing limits setups.items shown × (O.seen shelf.new ≡ O.seen shelf.old)) }
        ensures passed { passes limits.max_bytes (closed_length setups.items []) ≡ true
            → (O.seen shelf.new ≡ O.seen shelf.old) × IfOk result (λ s. ⊥) × IfErr result (λ e. e ≢ SeriesFault.WriteFault) }
        ensures kept { OnErr result (KeptAtMost (file_name limits.stem 1) (O.seen shelf.old) (O.seen shelf.new)) }
        ensures write { IfErr result (λ e. e ≡ SeriesFault.WriteFault → Rose (O.seen shelf.old).faults (O.seen shelf.new).faults) }
        ensures later { (O.seen shelf.old).faults ≤ (O.seen shelf.new).faults }
    {
        let tracks = setups.len();
        let pending = Pending::new(alloc, tracks as u32)?;
        let tails = fresh_tails(alloc, tracks)?;
        let files = SeriesFiles::begin(alloc, setups, limits, shelf)?;
        Ok(Series {
            pending,
            left: None,
            tails,
            files,
            fault: None,
        })
    }

    /// Why nothing more is written, if that is so.
    pub fn fault(&self) -> Option<SeriesFault>
        ensures { result ≡ self.now.fault }
    {
        self.fault
    }

    /// Whether a chunk can be handed: it is of one of the tracks, and goes on from what was handed of this one.
    pub fn can_take(&self, chunk: &Chunk) -> bool
        ensures holds { IsTrue result → CanTake self.now chunk.now }
        ensures only { CanTake self.now chunk.now → IsTrue result }
    {
        let track = chunk.track as usize;
        match (self.files.setups.get(track), self.tails.get(track)) {
            (Some(setup), Some(tail)) => tail.takes(setup.scale, chunk),
            _ => false,
        }
    }

    /// Hands a chunk of a track. One without samples only marks the track's end, and after a fault nothing is kept of
    /// any. A chunk comes back for want of memory alone.
    pub fn hand(&mut self, chunk: Chunk) -> Result<(), Chunk>
        requires { self.old.fault ≡ None → CanTake self.old chunk }
        ensures stands { OnOk result ((begun shelf : ShelfView) (state : State) → Stands begun state self.old shelf
            → Stands begun (hand state chunk) self.new shelf) }
        ensures same { self.new.files ≡ self.old.files }
        ensures fault { self.new.fault ≡ self.old.fault }
        ensures back { IfErr result (λ back. (back ≡ chunk) × (self.new ≡ self.old)) }
    {
        if self.fault.is_some() {
            return Ok(());
        }
        let track = chunk.track as usize;
        let tail = self.tails[track].with(&chunk);
        if chunk.samples.is_empty() {
            self.tails[track] = tail;
            return Ok(());
        }
        self.pending.hand(chunk)?;
        self.tails[track] = tail;
        Ok(())
    }

    /// Writes the earliest chunk that waits into the open file or into the next one, or meets a limit. Each file that is
    /// closed is put on the shelf. After a limit the open file stays as it was. After another error no file is open: each
    /// that was made is on the shelf, the last one as far as it was written.
    pub fn write_one(&mut self, shelf: &mut O) -> Result<Wrote, SeriesFault>
        requires { self.old.fault ≡ None }
        ensures done { OnOk result ((begun : ShelfView) (state : State) → Stands begun state self.old (O.seen shelf.old)
            → Stands begun (write self.old.files.limits self.old.files.setups state) self.new (O.seen shelf.new)) }
        ensures wrote { IfOk result (λ wrote. wrote ≡ wrote_as (earliest_front self.old.pending)) }
        ensures goes_on { OnOk result (self.new.fault ≡ None) }
        ensures fewer { (track : ℕ) → result ≡ Ok (Wrote.OneChunk track) → how_many self.new.pending + 1 ≡ how_many self.old.pending }
        ensures idle { result ≡ Ok Wrote.Idle → (self.new ≡ self.old) × (shelf.new ≡ shelf.old) }
        // The limit is the one that the rule tells for the files and the next chunk.
        ensures limit { (shown : LimitShown) → result ≡ Err (SeriesFault.Limit shown) → (shelf.new ≡ shelf.old)
            × ((begun : ShelfView) (state : State) → Stands begun state self.old (O.seen shelf.old)
            → MeetsLimit self.old.files.limits self.old.files.setups state shown
            × Stands begun (write self.old.files.limits self.old.files.setups state) self.new (O.seen shelf.new)) }
        ensures broken { IfErr result (λ fault. Breaks fault → (closed : Bool) × ((begun : ShelfView) (state : State)
            → Stands begun state self.old (O.seen shelf.old) → Stands begun (failed closed state) self.new (O.seen shelf.new))) }
        ensures ended { IfErr result (λ fault. self.new.fault ≡ Some fault) }
        ensures same { SameSetups self.old.files self.new.files }
        ensures write { result ≡ Err SeriesFault.WriteFault → Rose (O.seen shelf.old).faults (O.seen shelf.new).faults }
        ensures later { (O.seen shelf.old).faults ≤ (O.seen shelf.new).faults }
    {
        let Some(chunk) = self.pending.pick() else {
            return Ok(Wrote::Idle);
        };
        match self.files.put(&chunk, shelf) {
            Ok(()) => Ok(Wrote::OneChunk(chunk.track)),
            Err(fault) => {
                self.left = Some(chunk);
                self.fault = Some(fault);
                Err(fault)
            }
        }
    }

    // Writes all that waits, unless a fault came before.
    fn write_all(&mut self, shelf: &mut O) -> Result<(), SeriesFault>
        ensures done { OnOk result ((begun : ShelfView) (state : State) → Stands begun state self.old (O.seen shelf.old)
            → Stands begun (written_out self.old.files.limits self.old.files.setups state) self.new (O.seen shelf.new)) }
        ensures all { OnOk result (earliest_front self.new.pending ≡ None) }
        ensures goes_on { OnOk result (self.new.fault ≡ None) }
        ensures limit { (shown : LimitShown) → result ≡ Err (SeriesFault.Limit shown) → (begun : ShelfView) (state : State)
            → Stands begun state self.old (O.seen shelf.old) → MeetsLimit self.old.files.limits self.old.files.setups (written_out self.old.files.limits self.old.files.setups state) shown
            × Stands begun (written_out self.old.files.limits self.old.files.setups state) self.new (O.seen shelf.new) }
        ensures broken { IfErr result (λ fault. Breaks fault → (begun : ShelfView) (state : State) → Stands begun state self.old (O.seen shelf.old)
            → (left : State) × IsLeft self.old state left × Stands begun left self.new (O.seen shelf.new)) }
        ensures ended { IfErr result (λ fault. self.new.fault ≡ Some fault) }
        ensures same { SameSetups self.old.files self.new.files }
        ensures again { (fault : SeriesFault) → self.old.fault ≡ Some fault → (result ≡ Err fault) × (self.new ≡ self.old) × (shelf.new ≡ shelf.old) }
        ensures write { result ≡ Err SeriesFault.WriteFault → (self.old.fault ≡ Some SeriesFault.WriteFault) ⊎ Rose (O.seen shelf.old).faults (O.seen shelf.new).faults }
        ensures later { (O.seen shelf.old).faults ≤ (O.seen shelf.new).faults }
    {
        if let Some(fault) = self.fault {
            return Err(fault);
        }
        while self.write_one(shelf)? != Wrote::Idle {}
        Ok(())
    }

    /// Writes what waits, and closes and keeps the open file. A fault that came before is told again, after its limit the
    /// open file is closed and kept. A fault of that closing is told in place of the limit. After a fault other than a
    /// limit each file that was made is on the shelf, the last one as far as it was written.
    pub fn finish(self, shelf: &mut O) -> (Report, Result<(), SeriesFault>)
        ensures done { OnOk result.1 ((begun : ShelfView) (state : State) → Stands begun state self (O.seen shelf.old)
            → Finished begun self state result.0 (O.seen shelf.new)) }
        ensures limit { (shown : LimitShown) → result.1 ≡ Err (SeriesFault.Limit shown) → (begun : ShelfView) (state : State)
            → Stands begun state self (O.seen shelf.old) → Stopped begun self state shown result.0 (O.seen shelf.new) }
        ensures broken { IfErr result.1 (λ fault. Breaks fault → (begun : ShelfView) (state : State) → Stands begun state self (O.seen shelf.old)
            → Broken begun self state result.0 (O.seen shelf.new)) }
        // A fault that came before is told again, and after one that isn't a limit the shelf stays as it was, with the
        // files of that moment.
        ensures again { (fault : SeriesFault) → self.fault ≡ Some fault → Breaks fault → (result.1 ≡ Err fault) × (shelf.new ≡ shelf.old) }
        ensures stays { (fault : SeriesFault) → self.fault ≡ Some fault → Breaks fault → (begun : ShelfView) (state : State) → Stands begun state self (O.seen shelf.old)
            → BrokenOn begun self.files.limits.stem self.files.setups state.files (O.seen shelf.new) × Reports self.files.setups state.files (closed_in state.files) result.0 }
        ensures ended { OnOk result.1 (self.fault ≡ None) }
        ensures write { result.1 ≡ Err SeriesFault.WriteFault → (self.fault ≡ Some SeriesFault.WriteFault) ⊎ Rose (O.seen shelf.old).faults (O.seen shelf.new).faults }
        ensures later { (O.seen shelf.old).faults ≤ (O.seen shelf.new).faults }
    {
        let mut series = self;
        let written = series.write_all(shelf);
        series.files.end(written, shelf)
    }
}
