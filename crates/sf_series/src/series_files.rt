//! The files of a series: those that are closed, and the open one.

ghost use Rattle.std.specs.Prelude.{◌≡◌, ◌≢◌, ◌⊎◌, ℕ, ◌+◌, ◌*◌, ◌^◌, ◌<◌, ◌≤◌, Bool, true, List, [], ◌∷◌, ◌++◌, length, get_or, slice_get, Some, None, Ok, Err, IfErr, IfNone, IfOk, IfSome, IsOk, IsSome, OnErr, OnOk, if◌then◌else◌};
ghost use Rattle.sf_tick.specs.declared.types.Chunk.{Chunk};
ghost use Rattle.sf_world.specs.Counts.{Rose};
ghost use Rattle.sf_world.specs.Views.{KeptAtMost, ShelfView};
ghost use Rattle.sf_file.specs.Open.{AreSetups, setups_of};
ghost use Rattle.sf_series.specs.declared.limits.LimitShown.{LimitShown};
ghost use Rattle.sf_series.specs.Ending.{Reports};
ghost use Rattle.sf_series.specs.Files.{into_next, into_open};
ghost use Rattle.sf_series.specs.Names.{file_name};
ghost use Rattle.sf_series.specs.Series.{AreLimits, Breaks, FilesClosed, FilesStand, IsNothing};
ghost use Rattle.sf_series.specs.Shelved.{AllKept, BrokenOn, closed_in};
ghost use Rattle.sf_series.specs.Switching.{Limit, closed_length, files_after, passes, put};
ghost use Rattle.sf_series.specs.inner.Rule.{put_as};
ghost use Rattle.sf_series.specs.inner.Writing.{CanPut, CountsFit, HasRoomAlone, HasRoomFor, IsFresh, SameBesides, SameSetups, WentInto};

use crate::faults::SeriesFault;
use crate::keeping::{close_file, make_file};
use crate::limits::{LimitShown, Limits};
use crate::names::file_name;
use crate::report::Report;
use crate::rule::{Place, Prospect, is_lead, passes, place_of};
use sf_entry::TrackSetup;
use sf_file::OutFile;
use sf_list::Items;
use sf_tick::Chunk;
use sf_world::{MemText, Shelf};
use std::alloc::Global;
use std::marker::Model;

/// The files of a series, of which at most one is open.
#[derive(Drop)]
pub(crate) struct SeriesFiles<O: Shelf> {
    alloc: Global,
    pub(crate) setups: Vec<TrackSetup>,
    limits: Limits,
    /// A file without chunks, which tells how long the next one would be.
    empty: OutFile<MemText>,
    /// How many samples of each track stand in files.
    counts: Vec<u64>,
    /// The length of each closed file, in bytes.
    closed: Vec<u64>,
    /// None once it failed.
    file: Option<OutFile<O::Out>>,
}

impl<O: Shelf> Model for SeriesFiles<O> {
    ghost use Rattle.sf_series.specs.Series.{OpenFiles};
    ghost use Rattle.sf_series.specs.inner.Writing.{SoundFiles};

    ghost Value = { OpenFiles };

    ghost view = { λ f. record { setups = f.setups.items; limits = f.limits; counts = f.counts.items; closed = f.closed.items; file = f.file } };

    ghost invariant = { λ f. SoundFiles (record { setups = f.setups.items; limits = f.limits; counts = f.counts.items; closed = f.closed.items; file = f.file }) f.empty };
}

impl<O: Shelf> SeriesFiles<O> {
    /// Begins with one file without chunks, unless even that is too long.
    pub fn begin(
        alloc: Global,
        setups: Vec<TrackSetup>,
        limits: Limits,
        shelf: &mut O,
    ) -> Result<SeriesFiles<O>, SeriesFault>
        requires setups { AreSetups setups.items }
        requires limits { AreLimits limits }
        ensures stands { IfOk result (λ f. FilesStand (O.seen shelf.old) ([] ∷ []) f (O.seen shelf.new)) }
        ensures fresh { IfOk result (λ f. IfSome f.file (λ file. IsFresh setups.items file)) }
        ensures is_open { IfOk result (λ f. IsSome f.file) }
        ensures setups { IfOk result (λ f. f.setups ≡ setups.items) }
        ensures limits { IfOk result (λ f. f.limits ≡ limits) }
        ensures nothing { (shown : LimitShown) → IfErr result (λ e. e ≡ SeriesFault.Limit shown → IsNothing limits setups.items shown × (O.seen shelf.new ≡ O.seen shelf.old)) }
        ensures passed { passes limits.max_bytes (closed_length setups.items []) ≡ true
            → (O.seen shelf.new ≡ O.seen shelf.old) × IfOk result (λ f. ⊥) × IfErr result (λ e. e ≢ SeriesFault.WriteFault) }
        ensures kept { OnErr result (KeptAtMost (file_name limits.stem 1) (O.seen shelf.old) (O.seen shelf.new)) }
        ensures failed { IfErr result (λ e. e ≡ SeriesFault.WriteFault → Rose (O.seen shelf.old).faults (O.seen shelf.new).faults) }
        ensures later { (O.seen shelf.old).faults ≤ (O.seen shelf.new).faults }
    {
        let Ok(empty) = OutFile::begin(alloc, MemText::new(alloc), &setups) else {
            return Err(SeriesFault::NoMemory);
        };
        let size = empty.size();
        if passes(limits.max_bytes, size) {
            let max = limits.max_bytes;
            let would_be = size;
            return Err(SeriesFault::Limit(LimitShown::Nothing { would_be, max }));
        }
        let counts = vec![in alloc; 0u64; setups.len()]?;
        let mut files = SeriesFiles {
            alloc,
            setups,
            limits,
            empty,
            counts,
            closed: Vec::new(alloc),
            file: None,
        };
        files.make(shelf)?;
        Ok(files)
    }

    // Makes the next file, without chunks, after all others are closed.
    fn make(&mut self, shelf: &mut O) -> Result<(), SeriesFault>
        requires more { length self.old.closed + 1 ≤ self.old.limits.max_files }
        requires none { self.old.file ≡ None }
        requires counts { CountsFit self.old.counts self.old.closed None }
        ensures stands { (begun : ShelfView) (files : List (List Chunk)) → FilesClosed begun files self.old (O.seen shelf.old)
            → FilesStand begun (files ++ [] ∷ []) self.new (O.seen shelf.new) }
        ensures fresh { IfSome self.new.file (λ file. IsFresh self.old.setups file) }
        ensures is_open { OnOk result (IsSome self.new.file) }
        ensures is_broken { OnErr result (self.new.file ≡ None) }
        ensures same { SameBesides self.old self.new }
        ensures kept { OnErr result (KeptAtMost (file_name self.old.limits.stem (length self.old.closed + 1)) (O.seen shelf.old) (O.seen shelf.new)) }
        ensures no_limit { (shown : LimitShown) → result ≢ Err (SeriesFault.Limit shown) }
        ensures failed { result ≡ Err SeriesFault.WriteFault → Rose (O.seen shelf.old).faults (O.seen shelf.new).faults }
        ensures later { (O.seen shelf.old).faults ≤ (O.seen shelf.new).faults }
    {
        let number = self.closed.len() as u64 + 1;
        let name = file_name(self.alloc, self.limits.stem.as_str(), number)?;
        let file = make_file(self.alloc, &self.setups, name.as_str(), shelf)?;
        self.file = Some(file);
        Ok(())
    }

    // Closes the open file, and keeps it. After an error it is kept as far as it was written.
    fn close(&mut self, shelf: &mut O) -> Result<(), SeriesFault>
        requires { IsSome self.old.file }
        ensures closed { OnOk result ((begun : ShelfView) (files : List (List Chunk)) → FilesStand begun files self.old (O.seen shelf.old)
            → FilesClosed begun files self.new (O.seen shelf.new)) }
        ensures broken { OnErr result ((begun : ShelfView) (files : List (List Chunk)) → FilesStand begun files self.old (O.seen shelf.old)
            → FilesStand begun files self.new (O.seen shelf.new)) }
        ensures none { self.new.file ≡ None }
        ensures counts { OnOk result (CountsFit self.new.counts self.new.closed None) }
        ensures one_more { OnOk result (length self.new.closed ≡ length self.old.closed + 1) }
        ensures same { SameSetups self.old self.new }
        ensures same_counts { self.new.counts ≡ self.old.counts }
        ensures no_limit { (shown : LimitShown) → result ≢ Err (SeriesFault.Limit shown) }
        ensures failed { result ≡ Err SeriesFault.WriteFault → Rose (O.seen shelf.old).faults (O.seen shelf.new).faults }
        ensures later { (O.seen shelf.old).faults ≤ (O.seen shelf.new).faults }
    {
        let Some(file) = self.file.take() else {
            unreachable!()
        };
        if self.closed.reserve(1).is_err() {
            shelf.keep(file.give_sink());
            return Err(SeriesFault::NoMemory);
        }
        let size = file.size();
        close_file(file, shelf)?;
        self.closed.push_reserved(size);
        Ok(())
    }

    // Writes a chunk after the others of the open file. After an error the file is kept as far as it was written.
    fn append(&mut self, chunk: &Chunk, shelf: &mut O) -> Result<(), SeriesFault>
        requires is_open { IsSome self.old.file }
        requires can_put { IfSome self.old.file (λ f. CanPut f chunk.now) }
        requires room { IfSome self.old.file (λ f. HasRoomFor f chunk.now) }
        ensures done { OnOk result ((begun : ShelfView) (files : List (List Chunk)) → FilesStand begun files self.old (O.seen shelf.old)
            → FilesStand begun (into_open files chunk.now) self.new (O.seen shelf.new)) }
        ensures broken { OnErr result ((begun : ShelfView) (files : List (List Chunk)) → FilesStand begun files self.old (O.seen shelf.old)
            → FilesStand begun files self.new (O.seen shelf.new)) }
        ensures went { OnOk result (WentInto self.old.setups self.old.file chunk.now self.new.file) }
        ensures none { OnErr result (self.new.file ≡ None) }
        ensures same { SameSetups self.old self.new }
        ensures no_limit { (shown : LimitShown) → result ≢ Err (SeriesFault.Limit shown) }
        ensures failed { result ≡ Err SeriesFault.WriteFault → Rose (O.seen shelf.old).faults (O.seen shelf.new).faults }
        ensures later { (O.seen shelf.old).faults ≤ (O.seen shelf.new).faults }
    {
        let Some(mut file) = self.file.take() else {
            unreachable!()
        };
        match file.append(chunk) {
            Ok(()) => {
                self.counts[chunk.track as usize] += chunk.samples.len() as u64;
                self.file = Some(file);
                Ok(())
            }
            Err(fault) => {
                shelf.keep(file.give_sink());
                Err(fault.into())
            }
        }
    }

    // Where a chunk goes, or the limit that it meets.
    fn place(&self, chunk: &Chunk) -> Result<Place, LimitShown>
        requires is_open { IsSome self.now.file }
        requires can_put { IfSome self.now.file (λ f. CanPut f chunk.now) }
        ensures exact { (begun shelf : ShelfView) (files : List (List Chunk)) → FilesStand begun files self.now shelf
            → put_as result ≡ put self.now.limits self.now.setups files chunk.now }
        ensures into { result ≡ Ok Place.Open → IfSome self.now.file (λ f. HasRoomFor f chunk.now) }
        ensures next { result ≡ Ok Place.Next → HasRoomAlone self.now.setups chunk.now }
        ensures more { result ≡ Ok Place.Next → length self.now.closed + 1 < self.now.limits.max_files }
    {
        let Some(file) = &self.file else {
            unreachable!()
        };
        let seen = Prospect {
            with_it: file.size_with(chunk),
            alone: self.empty.size_with(chunk),
            start_us: file.start_us(),
            is_empty: file.is_empty(),
            more: (self.closed.len() as u64 + 1) < u64::from(self.limits.max_files),
            leads: is_lead(&self.setups, chunk),
            sample: self.counts[chunk.track as usize],
        };
        place_of(&self.limits, &seen, chunk)
    }

    // Closes the open file, and puts a chunk into the next one.
    fn put_next(&mut self, chunk: &Chunk, shelf: &mut O) -> Result<(), SeriesFault>
        requires is_open { IsSome self.old.file }
        requires own { IfSome self.old.file (λ f. setups_of f ≡ self.old.setups) }
        requires can_put { IfSome self.old.file (λ f. CanPut f chunk.now) }
        requires room { HasRoomAlone self.old.setups chunk.now }
        requires more { length self.old.closed + 1 < self.old.limits.max_files }
        ensures done { OnOk result ((begun : ShelfView) (files : List (List Chunk)) → FilesStand begun files self.old (O.seen shelf.old)
            → FilesStand begun (into_next files chunk.now) self.new (O.seen shelf.new)) }
        ensures went { OnOk result (WentInto self.old.setups self.old.file chunk.now self.new.file) }
        ensures broken { OnErr result ((closed : Bool) × ((begun : ShelfView) (files : List (List Chunk))
            → FilesStand begun files self.old (O.seen shelf.old) → FilesStand begun (if closed then files ++ [] ∷ [] else files) self.new (O.seen shelf.new))) }
        ensures none { OnErr result (self.new.file ≡ None) }
        ensures same { SameSetups self.old self.new }
        ensures no_limit { (shown : LimitShown) → result ≢ Err (SeriesFault.Limit shown) }
        ensures failed { result ≡ Err SeriesFault.WriteFault → Rose (O.seen shelf.old).faults (O.seen shelf.new).faults }
        ensures later { (O.seen shelf.old).faults ≤ (O.seen shelf.new).faults }
    {
        self.close(shelf)?;
        self.make(shelf)?;
        self.append(chunk, shelf)
    }

    /// Puts a chunk into the open file, or closes that and puts the chunk into the next one. After a limit all is as
    /// it was. After another fault no file is open, and each that was made is kept.
    pub fn put(&mut self, chunk: &Chunk, shelf: &mut O) -> Result<(), SeriesFault>
        requires is_open { IsSome self.old.file }
        requires own { IfSome self.old.file (λ f. setups_of f ≡ self.old.setups) }
        requires can_put { IfSome self.old.file (λ f. CanPut f chunk.now) }
        ensures done { OnOk result ((begun : ShelfView) (files : List (List Chunk)) → FilesStand begun files self.old (O.seen shelf.old)
            → FilesStand begun (files_after files chunk.now (put self.old.limits self.old.setups files chunk.now)) self.new (O.seen shelf.new)) }
        ensures within { OnOk result ((begun : ShelfView) (files : List (List Chunk)) (shown : LimitShown) → FilesStand begun files self.old (O.seen shelf.old)
            → put self.old.limits self.old.setups files chunk.now ≢ Limit shown) }
        ensures went { OnOk result (WentInto self.old.setups self.old.file chunk.now self.new.file) }
        ensures limit { (shown : LimitShown) → result ≡ Err (SeriesFault.Limit shown) → (self.new ≡ self.old) × (shelf.new ≡ shelf.old)
            × ((begun : ShelfView) (files : List (List Chunk)) → FilesStand begun files self.old (O.seen shelf.old)
            → put self.old.limits self.old.setups files chunk.now ≡ Limit shown) }
        ensures broken { IfErr result (λ fault. Breaks fault → (self.new.file ≡ None) × ((closed : Bool) × ((begun : ShelfView) (files : List (List Chunk))
            → FilesStand begun files self.old (O.seen shelf.old) → FilesStand begun (if closed then files ++ [] ∷ [] else files) self.new (O.seen shelf.new)))) }
        ensures same { SameSetups self.old self.new }
        ensures failed { result ≡ Err SeriesFault.WriteFault → Rose (O.seen shelf.old).faults (O.seen shelf.new).faults }
        ensures later { (O.seen shelf.old).faults ≤ (O.seen shelf.new).faults }
    {
        match self.place(chunk)? {
            Place::Open => self.append(chunk, shelf),
            Place::Next => self.put_next(chunk, shelf),
        }
    }

    // What the files hold.
    fn into_report(self) -> Report
        ensures files { result.files ≡ self.closed }
        ensures tracks { result.tracks ≡ self.counts }
        ensures one_each { length result.tracks ≡ length self.setups }
    {
        Report {
            files: Items::from_vec(self.closed),
            tracks: Items::from_vec(self.counts),
        }
    }

    // Closes the open file, unless a fault other than a limit came before. A fault of the closing is told in place of
    // what came before.
    fn close_last(
        &mut self,
        written: Result<(), SeriesFault>,
        shelf: &mut O,
    ) -> Result<(), SeriesFault>
        requires is_open { OnOk written (IsSome self.old.file) }
        requires at_limit { (shown : LimitShown) → written ≡ Err (SeriesFault.Limit shown) → IsSome self.old.file }
        requires is_broken { IfErr written (λ fault. Breaks fault → self.old.file ≡ None) }
        ensures done { OnOk result ((begun : ShelfView) (files : List (List Chunk)) → FilesStand begun files self.old (O.seen shelf.old)
            → FilesClosed begun files self.new (O.seen shelf.new)) }
        ensures limit { (shown : LimitShown) → result ≡ Err (SeriesFault.Limit shown) → (begun : ShelfView) (files : List (List Chunk))
            → FilesStand begun files self.old (O.seen shelf.old) → FilesClosed begun files self.new (O.seen shelf.new) }
        ensures broken { IfErr result (λ fault. Breaks fault → (begun : ShelfView) (files : List (List Chunk)) → FilesStand begun files self.old (O.seen shelf.old)
            → FilesStand begun files self.new (O.seen shelf.new)) }
        ensures none { self.new.file ≡ None }
        ensures same { SameSetups self.old self.new }
        ensures told { OnOk result (IsOk written) }
        ensures told_limit { (shown : LimitShown) → result ≡ Err (SeriesFault.Limit shown) → written ≡ Err (SeriesFault.Limit shown) }
        ensures failed { result ≡ Err SeriesFault.WriteFault → (written ≡ Err SeriesFault.WriteFault) ⊎ Rose (O.seen shelf.old).faults (O.seen shelf.new).faults }
        ensures stays { (fault : SeriesFault) → written ≡ Err fault → Breaks fault → (result ≡ Err fault) × (self.new ≡ self.old) × (shelf.new ≡ shelf.old) }
        ensures later { (O.seen shelf.old).faults ≤ (O.seen shelf.new).faults }
    {
        match written {
            Ok(()) => self.close(shelf),
            Err(SeriesFault::Limit(_)) => {
                self.close(shelf)?;
                written
            }
            Err(_) => written,
        }
    }

    /// Closes the open file, unless a fault other than a limit came before, and tells what the files hold. A fault of
    /// the closing is told in place of what came before.
    pub fn end(
        self,
        written: Result<(), SeriesFault>,
        shelf: &mut O,
    ) -> (Report, Result<(), SeriesFault>)
        requires is_open { OnOk written (IsSome self.file) }
        requires at_limit { (shown : LimitShown) → written ≡ Err (SeriesFault.Limit shown) → IsSome self.file }
        requires is_broken { IfErr written (λ fault. Breaks fault → self.file ≡ None) }
        ensures done { OnOk result.1 ((begun : ShelfView) (files : List (List Chunk)) → FilesStand begun files self (O.seen shelf.old)
            → AllKept begun self.limits.stem self.setups files (O.seen shelf.new) × Reports self.setups files files result.0) }
        ensures limit { (shown : LimitShown) → result.1 ≡ Err (SeriesFault.Limit shown) → (begun : ShelfView) (files : List (List Chunk))
            → FilesStand begun files self (O.seen shelf.old) → AllKept begun self.limits.stem self.setups files (O.seen shelf.new) × Reports self.setups files files result.0 }
        ensures broken { IfErr result.1 (λ fault. Breaks fault → (begun : ShelfView) (files : List (List Chunk)) → FilesStand begun files self (O.seen shelf.old)
            → BrokenOn begun self.limits.stem self.setups files (O.seen shelf.new) × Reports self.setups files (closed_in files) result.0) }
        ensures told { OnOk result.1 (IsOk written) }
        ensures told_limit { (shown : LimitShown) → result.1 ≡ Err (SeriesFault.Limit shown) → written ≡ Err (SeriesFault.Limit shown) }
        ensures failed { result.1 ≡ Err SeriesFault.WriteFault → (written ≡ Err SeriesFault.WriteFault) ⊎ Rose (O.seen shelf.old).faults (O.seen shelf.new).faults }
        ensures stays { (fault : SeriesFault) → written ≡ Err fault → Breaks fault → (result.1 ≡ Err fault) × (shelf.new ≡ shelf.old) }
        ensures later { (O.seen shelf.old).faults ≤ (O.seen shelf.new).faults }
    {
        let mut files = self;
        let ended = files.close_last(written, shelf);
        (files.into_report(), ended)
    }
}
