//! Plans are read out of a movie through its source, by one reader after the other.

ghost use Rattle.std.specs.Prelude.{◌≡◌, ◌≢◌, ℕ, ◌+◌, ◌≤◌, ◌⊎◌, List, [], ◌∷◌, ◌++◌, length, map, string_bytes, Ok, Err, IfOk, IfErr, OnOk, OnErr, refl, Some};
ghost use Rattle.std.specs.List.{AllByRecursion};
ghost use Rattle.sf_world.specs.Contents.{BeginsEmpty};
ghost use Rattle.sf_world.specs.Counts.{Rose};
ghost use Rattle.sf_world.specs.Views.{Unchanged};
ghost use Rattle.sf_movie.specs.Loads.{OfTold};
ghost use Rattle.sf_extract.specs.Current.{unmoved};
ghost use Rattle.sf_extract.specs.Readout.{read_out};
ghost use Rattle.sf_extract.specs.declared.plan.Command.{Command};
ghost use Rattle.sf_reader.specs.Dumps.{dump_name, dump_names, first_missing, readouts};
ghost use Rattle.sf_reader.specs.Extracted.{Extracted};
ghost use Rattle.sf_reader.specs.inner.Readers.{Answers, KeptOne, PlansEnd, Ran, answer_of, of_load};
ghost use Rattle.sf_reader.specs.inner.Reading.{Dumped, EndsWithin};

use crate::dump::{Buffers, ReaderFault, read_dump};
use crate::laws::loaded_samples_end_within;
use crate::outcome::{ExtractEnd, ExtractOutcome, Missing, first_fault, where_done};
use sf_extract::{Plan, PlanRun, missing_track};
use sf_list::Items;
use sf_movie::{LoadFault, Movie};
use sf_world::{Shelf, Sink, Source, contents_grow};
use std::alloc::{AllocError, Global};

/// A reader: its plan, and the sink of its dump.
#[derive(Drop)]
struct Reader<K: Sink> {
    plan: Plan,
    sink: K,
}

// The name of the dump of a number, from 1 on, for names that begin with the stem.
fn dump_name(alloc: Global, stem: &str, number: u64) -> Result<String, AllocError>
    ensures { IfOk result (λ name. string_bytes name ≡ dump_name stem.now number) }
{
    format!(in alloc; "{stem}-{number}.dump")
}

// The first command of the lowest reader that names a track which the movie doesn't have.
fn missing_in(plans: &[Plan], movie: &Movie) -> Option<Missing>
    requires { length plans.now ≤ 16 }
    ensures { result ≡ first_missing (length movie.now.movie.tracks) 0 plans.now }
{
    for (reader, plan) in plans.iter().enumerate() {
        if let Some(command) = missing_track(plan, movie) {
            return Some(Missing {
                reader: reader as u32,
                command,
            });
        }
    }
    None
}

// The answer for a fault of a reader.
fn answer_to(reader: u32, fault: ReaderFault) -> ExtractOutcome
    ensures { result ≡ answer_of reader fault }
{
    match fault {
        ReaderFault::Bad(bad) => ExtractOutcome::BadSample {
            reader,
            track: bad.track,
            sample: bad.sample,
            at: bad.at,
        },
        ReaderFault::ReadFault => ExtractOutcome::ReadFault,
        ReaderFault::WriteFault => ExtractOutcome::WriteFault,
        ReaderFault::NoMemory => ExtractOutcome::NoMemory,
    }
}

// The answer of a reader, which notes the length of its dump.
fn answer_of(
    reader: u32,
    read: Result<u64, ReaderFault>,
    lengths: &mut Items<u64>,
) -> ExtractOutcome
    ensures { Answers reader read lengths.old lengths.new result }
{
    match read {
        Ok(length) => match lengths.push(length) {
            Ok(()) => ExtractOutcome::Done,
            Err(_) => ExtractOutcome::NoMemory,
        },
        Err(fault) => answer_to(reader, fault),
    }
}

// Makes the dump of a plan.
fn make_reader<O: Shelf>(
    alloc: Global,
    number: u64,
    plan: Plan,
    stem: &str,
    shelf: &mut O,
) -> Result<Reader<O::Out>, ReaderFault>
    ensures plan { IfOk result (λ r. r.plan ≡ plan) }
    ensures empty { IfOk result (λ r. BeginsEmpty (O.seen shelf.old).files (O.Out.seen r.sink).content) }
    ensures named { OnOk result ((O.seen shelf.new).names ≡ (O.seen shelf.old).names ++ dump_name stem.now number ∷ []) }
    ensures unnamed { OnErr result ((O.seen shelf.new).names ≡ (O.seen shelf.old).names) }
    ensures files { (O.seen shelf.new).files ≡ (O.seen shelf.old).files }
    ensures fault { IfErr result (λ fault. (fault ≡ ReaderFault.WriteFault) ⊎ (fault ≡ ReaderFault.NoMemory)) }
    ensures write { result ≡ Err ReaderFault.WriteFault → Rose (O.seen shelf.old).faults (O.seen shelf.new).faults }
    ensures later { (O.seen shelf.old).faults ≤ (O.seen shelf.new).faults }
{
    let name = dump_name(alloc, stem, number)?;
    let sink = shelf.create(&name)?;
    Ok(Reader { plan, sink })
}

// Makes the dumps of plans, in order. Where one isn't made the readers of those before it stand.
fn make_readers<O: Shelf>(
    alloc: Global,
    plans: Vec<Plan>,
    stem: &str,
    shelf: &mut O,
    readers: &mut Vec<Reader<O::Out>>,
) -> Result<(), ReaderFault>
    requires few { length plans.items ≤ 16 }
    requires none { readers.old.items ≡ [] }
    ensures plans { (more : List (List Command)) × (plans.items ≡ map (λ r. r.plan) readers.new.items ++ more) }
    ensures all { OnOk result (plans.items ≡ map (λ r. r.plan) readers.new.items) }
    ensures empty { AllByRecursion (λ r. BeginsEmpty (O.seen shelf.old).files (O.Out.seen r.sink).content) readers.new.items }
    ensures names { (O.seen shelf.new).names ≡ (O.seen shelf.old).names ++ dump_names stem.now (length readers.new.items) }
    ensures files { (O.seen shelf.new).files ≡ (O.seen shelf.old).files }
    ensures fault { IfErr result (λ fault. (fault ≡ ReaderFault.WriteFault) ⊎ (fault ≡ ReaderFault.NoMemory)) }
    ensures write { result ≡ Err ReaderFault.WriteFault → Rose (O.seen shelf.old).faults (O.seen shelf.new).faults }
    ensures later { (O.seen shelf.old).faults ≤ (O.seen shelf.new).faults }
{
    readers.reserve(plans.len())?;
    for plan in plans {
        let number = readers.len() as u64 + 1;
        let reader = make_reader(alloc, number, plan, stem, shelf)?;
        readers.push_reserved(reader);
    }
    Ok(())
}

// Reads a plan out of a movie into a sink, and answers the length of the dump.
fn read_into<S: Source, K: Sink>(
    alloc: Global,
    movie: &Movie,
    plan: Plan,
    source: &mut S,
    sink: &mut K,
    buffers: &mut Buffers,
) -> Result<u64, ReaderFault>
    requires { EndsWithin (S.seen source.old).size movie.now }
    ensures dumped { OfTold (S.seen source.old).content (λ file. Dumped (read_out file plan (unmoved movie.now)) result (K.seen sink.old) (K.seen sink.new)) }
    ensures read { result ≡ Err ReaderFault.ReadFault → Rose (S.seen source.old).faults (S.seen source.new).faults }
    ensures write { result ≡ Err ReaderFault.WriteFault → Rose (K.seen sink.old).faults (K.seen sink.new).faults }
    ensures later { (K.seen sink.old).faults ≤ (K.seen sink.new).faults }
    ensures source { Unchanged (S.seen source.old) (S.seen source.new) }
{
    contents_grow();
    let run = PlanRun::new(alloc, movie, plan)?;
    read_dump(run, source, sink, buffers)
}

// Runs a reader, and keeps its dump.
fn run_reader<S: Source, O: Shelf>(
    alloc: Global,
    movie: &Movie,
    reader: Reader<O::Out>,
    source: &mut S,
    shelf: &mut O,
    buffers: &mut Buffers,
) -> Result<u64, ReaderFault>
    requires { EndsWithin (S.seen source.old).size movie.now }
    ensures kept { OfTold (S.seen source.old).content (λ file. KeptOne (read_out file reader.plan (unmoved movie.now)) result (O.Out.seen reader.sink).content
        (O.seen shelf.old) (O.seen shelf.new)) }
    ensures names { (O.seen shelf.new).names ≡ (O.seen shelf.old).names }
    ensures read { result ≡ Err ReaderFault.ReadFault → Rose (S.seen source.old).faults (S.seen source.new).faults }
    ensures write { result ≡ Err ReaderFault.WriteFault → Rose (O.seen shelf.old).faults (O.seen shelf.new).faults }
    ensures later { (O.seen shelf.old).faults ≤ (O.seen shelf.new).faults }
    ensures source { Unchanged (S.seen source.old) (S.seen source.new) }
{
    let Reader { plan, mut sink } = reader;
    let read = read_into(alloc, movie, plan, source, &mut sink, buffers);
    shelf.keep(sink);
    read
}

// Runs all readers, in order, and keeps their dumps. Those after one with a fault run too.
fn run_readers<S: Source, O: Shelf>(
    alloc: Global,
    movie: &Movie,
    readers: Vec<Reader<O::Out>>,
    source: &mut S,
    shelf: &mut O,
    lengths: &mut Items<u64>,
) -> ExtractOutcome
    requires few { length readers.items ≤ 16 }
    requires empty { AllByRecursion (λ r. BeginsEmpty (O.seen shelf.old).files (O.Out.seen r.sink).content) readers.items }
    requires within { EndsWithin (S.seen source.old).size movie.now }
    requires lengths { lengths.old ≡ [] }
    ensures ran { OfTold (S.seen source.old).content (λ file. Ran (readouts file movie.now (map (λ r. r.plan) readers.items)) result lengths.new
        (O.seen shelf.old) (O.seen shelf.new)) }
    ensures names { (O.seen shelf.new).names ≡ (O.seen shelf.old).names }
    ensures read { result ≡ ExtractOutcome.ReadFault → Rose (S.seen source.old).faults (S.seen source.new).faults }
    ensures write { result ≡ ExtractOutcome.WriteFault → Rose (O.seen shelf.old).faults (O.seen shelf.new).faults }
    ensures later { (O.seen shelf.old).faults ≤ (O.seen shelf.new).faults }
    ensures source { Unchanged (S.seen source.old) (S.seen source.new) }
{
    let mut outcome = ExtractOutcome::Done;
    let mut buffers = Buffers::new(alloc);
    let mut number = 0;
    for reader in readers {
        let read = run_reader::<S, O>(alloc, movie, reader, source, shelf, &mut buffers);
        outcome = first_fault(outcome, answer_of(number, read, lengths));
        number += 1;
    }
    outcome
}

// Reads plans out of a movie whose tracks they all name.
fn extract_plans<S: Source, O: Shelf>(
    alloc: Global,
    movie: &Movie,
    plans: Vec<Plan>,
    source: &mut S,
    stem: &str,
    shelf: &mut O,
    lengths: &mut Items<u64>,
) -> ExtractOutcome
    requires few { length plans.items ≤ 16 }
    requires within { EndsWithin (S.seen source.old).size movie.now }
    requires lengths { lengths.old ≡ [] }
    ensures ends { OfTold (S.seen source.old).content (λ file. PlansEnd (readouts file movie.now plans.items) stem.now result lengths.new (O.seen shelf.old) (O.seen shelf.new)) }
    ensures read { result ≡ ExtractOutcome.ReadFault → Rose (S.seen source.old).faults (S.seen source.new).faults }
    ensures write { result ≡ ExtractOutcome.WriteFault → Rose (O.seen shelf.old).faults (O.seen shelf.new).faults }
    ensures later { (O.seen shelf.old).faults ≤ (O.seen shelf.new).faults }
    ensures source { Unchanged (S.seen source.old) (S.seen source.new) }
{
    let mut readers = Vec::new(alloc);
    let made = make_readers(alloc, plans, stem, shelf, &mut readers);
    let ran = run_readers::<S, O>(alloc, movie, readers, source, shelf, lengths);
    match made {
        Ok(()) => ran,
        Err(fault) => answer_to(0, fault),
    }
}

// The answer where no movie is loaded.
fn load_answer(fault: LoadFault) -> ExtractOutcome
    ensures { result ≡ of_load fault }
{
    match fault {
        LoadFault::Refused(fault) => ExtractOutcome::Refused(fault),
        LoadFault::ReadFault => ExtractOutcome::ReadFault,
        LoadFault::NoMemory => ExtractOutcome::NoMemory,
    }
}

// Loads the movie of a source, checks the plans, and reads them out.
fn extract<S: Source, O: Shelf>(
    alloc: Global,
    source: &mut S,
    plans: Vec<Plan>,
    stem: &str,
    shelf: &mut O,
    lengths: &mut Items<u64>,
) -> ExtractOutcome
    requires few { length plans.items ≤ 16 }
    requires lengths { lengths.old ≡ [] }
    ensures extracted { OfTold (S.seen source.old).content (λ file. Extracted file plans.items stem.now result lengths.new (O.seen shelf.old) (O.seen shelf.new)) }
    ensures write { result ≡ ExtractOutcome.WriteFault → Rose (O.seen shelf.old).faults (O.seen shelf.new).faults }
    ensures read { result ≡ ExtractOutcome.ReadFault → Rose (S.seen source.old).faults (S.seen source.new).faults }
    ensures later { (O.seen shelf.old).faults ≤ (O.seen shelf.new).faults }
    ensures source { Unchanged (S.seen source.old) (S.seen source.new) }
{
    loaded_samples_end_within();
    let movie = match Movie::load(alloc, source) {
        Ok(movie) => movie,
        Err(fault) => return load_answer(fault),
    };
    if let Some(Missing { reader, command }) = missing_in(&plans, &movie) {
        return ExtractOutcome::NoTrack { reader, command };
    }
    extract_plans(alloc, &movie, plans, source, stem, shelf, lengths)
}

/// Reads plans out of the movie of a source, each into a dump of its own on the shelf, whose names begin with
/// the stem. The source comes back, and each dump that was made is kept.
pub fn extract_direct<S: Source, O: Shelf>(
    alloc: Global,
    source: S,
    plans: Vec<Plan>,
    stem: &str,
    shelf: &mut O,
) -> ExtractEnd<S>
    requires least { 1 ≤ length plans.items }
    requires most { length plans.items ≤ 16 }
    // What each answer says of the movie and the plans, and which dumps are kept with it.
    ensures extracted { OfTold (S.seen source).content (λ file. Extracted file plans.items stem.now result.outcome result.dumps (O.seen shelf.old) (O.seen shelf.new)) }
    // Lengths are told only where all was done.
    ensures lengths { result.outcome ≢ ExtractOutcome.Done → result.dumps ≡ [] }
    // Faults are told only where a count rose in this call.
    ensures write { result.outcome ≡ ExtractOutcome.WriteFault → Rose (O.seen shelf.old).faults (O.seen shelf.new).faults }
    ensures read { result.outcome ≡ ExtractOutcome.ReadFault → Rose (S.seen source).faults (S.seen result.source).faults }
    ensures shelf_later { (O.seen shelf.old).faults ≤ (O.seen shelf.new).faults }
    ensures source { Unchanged (S.seen source) (S.seen result.source) }
{
    let mut source = source;
    let mut lengths = Items::new(alloc);
    let outcome = extract(alloc, &mut source, plans, stem, shelf, &mut lengths);
    ExtractEnd {
        source,
        dumps: where_done(alloc, outcome, lengths),
        outcome,
    }
}
