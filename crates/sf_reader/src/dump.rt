//! One reader: a plan is carried out over a movie, and its dump is written.

ghost use Rattle.std.specs.Prelude.{◌≡◌, ◌≢◌, ◌+◌, ◌-◌, ◌^◌, ◌<◌, ◌≤◌, ◌⊎◌, min, true, [], length, take, drop, Ok, Err, IfErr, OnOk, OnErr};
ghost use Rattle.sf_world.specs.Counts.{Rose};
ghost use Rattle.sf_world.specs.Views.{Gains, GainsPart, SinkView, Unchanged};
ghost use Rattle.sf_movie.specs.Loads.{OfTold};
ghost use Rattle.sf_extract.specs.Readout.{Readout};
ghost use Rattle.sf_extract.specs.Runs.{rest_of, weight};
ghost use Rattle.sf_reader.specs.inner.Reading.{Dumped, EndsWithin, ReadOn, Turned, Waits, denied_as, given_as};
ghost use Rattle.sf_reader.specs.declared.dump.ReaderFault.TheVariants.{NoMemory};

use sf_extract::{BadSample, GiveFault, Place, PlanRun, Turn};
use sf_list::Bytes;
use sf_world::{Denied, Sink, Source, parts_grow};
use std::alloc::{AllocError, Global};

/// So many bytes of a dump are written at once, at least.
const BLOCK: usize = 65_536;

/// Why a reader stopped.
#[derive(Clone, Copy)]
pub(crate) enum ReaderFault {
    Bad(BadSample),
    ReadFault,
    WriteFault,
    NoMemory,
}

impl From<AllocError> for ReaderFault {
    ghost from_gives = { λ _ fault. fault ≡ NoMemory };

    fn from(_error: AllocError) -> ReaderFault {
        ReaderFault::NoMemory
    }
}

impl From<Denied> for ReaderFault {
    ghost from_gives = { λ denied fault. fault ≡ denied_as denied };

    fn from(denied: Denied) -> ReaderFault {
        match denied {
            Denied::Failed => ReaderFault::WriteFault,
            Denied::NoMemory => ReaderFault::NoMemory,
        }
    }
}

impl From<GiveFault> for ReaderFault {
    ghost from_gives = { λ given fault. fault ≡ given_as given };

    fn from(fault: GiveFault) -> ReaderFault {
        match fault {
            GiveFault::Bad(bad) => ReaderFault::Bad(bad),
            GiveFault::NoMemory => ReaderFault::NoMemory,
        }
    }
}

/// The buffers of readers, which are used again for each sample.
#[derive(Drop)]
pub(crate) struct Buffers {
    /// The stored bytes of a sample.
    stored: Vec<u8>,
    /// What isn't yet written of a dump.
    out: Bytes,
}

impl Buffers {
    /// Empty buffers.
    pub(crate) fn new(alloc: Global) -> Buffers
        ensures stored { result.stored.items ≡ [] }
        ensures out { result.out ≡ [] }
    {
        Buffers {
            stored: Vec::new(alloc),
            out: Bytes::new(alloc),
        }
    }
}

// Reads the bytes of a sample.
fn read_sample<S: Source>(
    source: &mut S,
    place: Place,
    stored: &mut Vec<u8>,
) -> Result<(), ReaderFault>
    requires { place.at + place.len ≤ (S.seen source.old).size }
    ensures stored { OfTold (S.seen source.old).content (λ file. OnOk result (stored.new.items ≡ take place.len (drop place.at file))) }
    ensures len { OnOk result (length stored.new.items ≡ place.len) }
    ensures fault { IfErr result (λ fault. (fault ≡ ReaderFault.ReadFault) ⊎ (fault ≡ ReaderFault.NoMemory)) }
    ensures read { result ≡ Err ReaderFault.ReadFault → Rose (S.seen source.old).faults (S.seen source.new).faults }
    ensures source { Unchanged (S.seen source.old) (S.seen source.new) }
{
    stored.resize(place.len as usize, 0)?;
    match source.read_at(place.at, stored) {
        Ok(_) => Ok(()),
        Err(_) => Err(ReaderFault::ReadFault),
    }
}

// Goes on up to the next sample, with its record, and says whether the plan goes on.
fn read_next<'a, S: Source>(
    run: &mut PlanRun<'a>,
    source: &mut S,
    buffers: &mut Buffers,
) -> Result<bool, ReaderFault>
    requires { EndsWithin (S.seen source.old).size run.old.at.loaded }
    ensures next { OfTold (S.seen source.old).content (λ file. ReadOn file buffers.old.out buffers.new.out run.old run.new result) }
    ensures lighter { result ≡ Ok true → weight run.new < weight run.old }
    ensures loaded { run.new.at.loaded ≡ run.old.at.loaded }
    ensures read { result ≡ Err ReaderFault.ReadFault → Rose (S.seen source.old).faults (S.seen source.new).faults }
    ensures write { result ≢ Err ReaderFault.WriteFault }
    ensures source { Unchanged (S.seen source.old) (S.seen source.new) }
{
    match run.step(&mut buffers.out)? {
        Turn::Done => Ok(false),
        Turn::Read(place) => {
            read_sample(source, place, &mut buffers.stored)?;
            run.give(&buffers.stored, &mut buffers.out)?;
            Ok(true)
        }
    }
}

// Writes what waits, and counts it.
fn write_out<O: Sink>(out: &mut Bytes, sink: &mut O, written: &mut u64) -> Result<(), ReaderFault>
    ensures gained { OnOk result (Gains out.old (O.seen sink.old) (O.seen sink.new)) }
    ensures count { OnOk result (written.new ≡ min (written.old + length out.old) (2 ^ 64 - 1)) }
    ensures empty { OnOk result (out.new ≡ []) }
    ensures part { OnErr result (GainsPart out.old (O.seen sink.old) (O.seen sink.new)) }
    ensures fault { IfErr result (λ fault. (fault ≡ ReaderFault.WriteFault) ⊎ (fault ≡ ReaderFault.NoMemory)) }
    ensures write { result ≡ Err ReaderFault.WriteFault → Rose (O.seen sink.old).faults (O.seen sink.new).faults }
    ensures later { (O.seen sink.old).faults ≤ (O.seen sink.new).faults }
{
    parts_grow();
    sink.append(out.as_slice())?;
    *written = written.saturating_add(out.len() as u64);
    out.cut(0);
    Ok(())
}

// Goes on up to the next sample. What waits is written where it fills a block, and where the plan is over or
// met a fault.
fn read_turn<'a, S: Source, O: Sink>(
    run: &mut PlanRun<'a>,
    source: &mut S,
    sink: &mut O,
    buffers: &mut Buffers,
    written: &mut u64,
) -> Result<bool, ReaderFault>
    requires { EndsWithin (S.seen source.old).size run.old.at.loaded }
    ensures turned { OfTold (S.seen source.old).content (λ file. (r : Readout) (begun : SinkView)
        → Waits r (rest_of file run.old) begun buffers.old.out written.old (O.seen sink.old)
        → Turned file r begun result buffers.new.out written.new run.new (O.seen sink.new)) }
    ensures lighter { result ≡ Ok true → weight run.new < weight run.old }
    ensures loaded { run.new.at.loaded ≡ run.old.at.loaded }
    ensures read { result ≡ Err ReaderFault.ReadFault → Rose (S.seen source.old).faults (S.seen source.new).faults }
    ensures write { result ≡ Err ReaderFault.WriteFault → Rose (O.seen sink.old).faults (O.seen sink.new).faults }
    ensures later { (O.seen sink.old).faults ≤ (O.seen sink.new).faults }
    ensures source { Unchanged (S.seen source.old) (S.seen source.new) }
{
    match read_next(run, source, buffers) {
        Ok(true) => {
            if buffers.out.len() >= BLOCK {
                write_out(&mut buffers.out, sink, written)?;
            }
            Ok(true)
        }
        Ok(false) => {
            write_out(&mut buffers.out, sink, written)?;
            Ok(false)
        }
        Err(fault) => {
            write_out(&mut buffers.out, sink, written)?;
            Err(fault)
        }
    }
}

/// Carries out a plan up to its end or to the first fault, and writes its dump up to there into a sink. It
/// answers the length of the dump in bytes.
pub(crate) fn read_dump<'a, S: Source, O: Sink>(
    mut run: PlanRun<'a>,
    source: &mut S,
    sink: &mut O,
    buffers: &mut Buffers,
) -> Result<u64, ReaderFault>
    requires { EndsWithin (S.seen source.old).size run.at.loaded }
    ensures dumped { OfTold (S.seen source.old).content (λ file. Dumped (rest_of file run.entry) result (O.seen sink.old) (O.seen sink.new)) }
    ensures read { result ≡ Err ReaderFault.ReadFault → Rose (S.seen source.old).faults (S.seen source.new).faults }
    ensures write { result ≡ Err ReaderFault.WriteFault → Rose (O.seen sink.old).faults (O.seen sink.new).faults }
    ensures later { (O.seen sink.old).faults ≤ (O.seen sink.new).faults }
    ensures source { Unchanged (S.seen source.old) (S.seen source.new) }
{
    let mut written = 0;
    buffers.out.cut(0);
    while read_turn(&mut run, source, sink, buffers, &mut written)? {}
    Ok(written)
}
