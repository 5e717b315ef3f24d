//! All chunks of an input, proved to be those of its accepted samples.

ghost use Rattle.std.specs.Prelude.{◌≡◌, [], List, IfOk};
ghost use Rattle.sf_tick.specs.declared.types.Stored.{Stored};
ghost use Rattle.sf_gather.specs.Chunks.{chunks};
ghost use Rattle.sf_record.specs.Reading.{EndsBy};
ghost use Rattle.sf_record.specs.Pump.{NotEndedEarly, Stands};

use super::{input, options, pump_of};
use crate::{Pump, Stepped};
use sf_tick::Chunk;
use sf_world::Source;
use std::alloc::{AllocError, Global};
use std::test::Fail;

// All chunks of an input: those of the samples that are accepted of it, and its fault is kept.
fn all_chunks<S: Source>(alloc: Global, pump: &mut Pump<S>) -> Result<Vec<Chunk>, AllocError>
    requires stands { Stands pump.old.coded.source.content [] [] pump.old }
    requires not_early { NotEndedEarly pump.old }
    ensures { IfOk result (λ v. (accepted : List Stored) × (v.items ≡ chunks pump.new.given accepted)
        × EndsBy pump.new.coded.source.content pump.new.given accepted pump.new.fault) }
{
    let mut chunks = Vec::new(alloc);
    loop {
        match pump.step() {
            Stepped::Moved => {}
            Stepped::HasChunk => {
                if let Some(chunk) = pump.take_chunk() {
                    chunks.push(chunk)?;
                }
            }
            Stepped::Done => return Ok(chunks),
            Stepped::NoMemory => return Err(AllocError),
        }
    }
}

#[test]
fn the_chunks_together_are_those_of_the_input(rt: HostRuntime) -> Result<(), Fail> {
    let alloc = rt.alloc();
    let bytes = input(alloc, &[0, 21_333, 42_667])?;
    if let Some(mut pump) = pump_of(alloc, bytes, Vec::new(alloc), options(30_000)) {
        let chunks = all_chunks(alloc, &mut pump)?;
        assert_eq!(rt; chunks.len(), 2);
    }
    Ok(())
}
