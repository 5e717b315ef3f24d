//! The tables of a track (ISO/IEC 14496-12, 8.5.1), each read whole.

ghost use Rattle.std.specs.Prelude.{◌≡◌, ◌^◌, ◌≤◌, ◌<◌, true, length, IfOk};
ghost use Rattle.sf_meaning.specs.Answers.{Gives};
ghost use Rattle.sf_meaning.specs.inner.Entries.{time_runs, spreads_as, Rises};
ghost use Rattle.sf_meaning.specs.inner.Found.{piece, pieces, maybe_piece};
ghost use Rattle.sf_meaning.specs.SampleTables.{begins_rising, in_stbl, needed_table, either_table, offsets_told, syncs_told};
ghost use Rattle.sf_meaning.specs.TrackSamples.{times_table, chunks_table, sizes_table, places_table, tables_told};
ghost use Rattle.sf_meaning.specs.ReadTables.{sizes_view};
ghost use Rattle.sf_meaning.specs.inner.TrackTables.{IsInOrder, tables_view};

use crate::boxes::{boxes_in, first};
use crate::ctts::read_ctts;
use crate::entries::{ChunkRun, TimeRun};
use crate::faults::TableFault;
use crate::found::Found;
use crate::place_list::PlaceList;
use crate::places::read_places;
use crate::sizes::{Sizes, read_sizes};
use crate::stsc::read_stsc;
use crate::stss::read_stss;
use crate::stts::read_stts;
use sf_box::{BoxFault, ChildrenFault, FourCc};
use sf_list::Items;
use std::alloc::Global;

/// What the tables of a track say.
#[derive(Drop)]
pub struct Tables {
    /// Of decode times, in ticks.
    pub deltas: Items<TimeRun>,
    /// The place of the box of the deltas.
    pub stts_at: u64,
    /// The version of the box of the offsets.
    pub version: u8,
    pub offsets: Items<TimeRun>,
    /// What holds in the chunks.
    pub spreads: Items<ChunkRun>,
    /// The place of the box that says it.
    pub stsc_at: u64,
    pub sizes: Sizes,
    /// Of the chunks, in bytes from the start of the file.
    pub places: PlaceList,
    /// The numbers of the sync samples, where they are told.
    pub sync: Option<Items<u32>>,
}

/// The boxes inside a sample table box.
#[tactic(auto, unfolding(crate::specs::SampleTables::in_stbl))]
pub(crate) fn in_stbl<'a>(alloc: Global, stbl: Found<'a>) -> Result<Items<Found<'a>>, TableFault>
    ensures { Gives TableFault.NoMemory pieces result (in_stbl (piece stbl.entry)) }
{
    match boxes_in(alloc, stbl.body, stbl.head.at + stbl.head.head) {
        Ok(boxes) => Ok(boxes),
        Err(ChildrenFault::Short { at }) => Err(TableFault::Tiling(BoxFault::Short { at })),
        Err(ChildrenFault::Overrun { at, size }) => {
            Err(TableFault::Tiling(BoxFault::Overrun { at, size }))
        }
        Err(ChildrenFault::NoMemory) => Err(TableFault::NoMemory),
    }
}

/// The first box of a type, which must stand among the boxes of a holder whose body begins at a place.
pub(crate) fn needed_table<'a>(
    at: u64,
    kind: FourCc,
    boxes: &[Found<'a>],
) -> Result<Found<'a>, TableFault>
    ensures { Gives TableFault.NoMemory piece result (needed_table at kind.0 (pieces boxes.now)) }
{
    match first(boxes, kind) {
        Some(found) => Ok(found),
        None => Err(TableFault::Missing { kind, at }),
    }
}

// The first box of a type, or else of another.
fn either_table<'a>(
    at: u64,
    kind: FourCc,
    other: FourCc,
    boxes: &[Found<'a>],
) -> Result<Found<'a>, TableFault>
    ensures { Gives TableFault.NoMemory piece result (either_table at kind.0 other.0 (pieces boxes.now)) }
{
    if let Some(found) = first(boxes, kind) {
        return Ok(found);
    }
    match first(boxes, other) {
        Some(found) => Ok(found),
        None => Err(TableFault::Missing { kind, at }),
    }
}

// The deltas of decode times, and the place of their box.
#[tactic(auto, unfolding(crate::specs::TrackSamples::times_table))]
fn times_table(
    alloc: Global,
    at: u64,
    boxes: &[Found<'_>],
) -> Result<(u64, Items<TimeRun>), TableFault>
    ensures { Gives TableFault.NoMemory (λ x. (x.0, time_runs x.1)) result (times_table at (pieces boxes.now)) }
{
    let stts = needed_table(at, FourCc(*b"stts"), boxes)?;
    let runs = read_stts(alloc, stts.head, stts.body)?;
    Ok((stts.head.at, runs))
}

// The composition offsets, where there are any.
fn offsets_told(alloc: Global, ctts: Option<Found<'_>>) -> Result<(u8, Items<TimeRun>), TableFault>
    ensures { Gives TableFault.NoMemory (λ x. (x.0, time_runs x.1)) result (offsets_told (maybe_piece ctts.entry)) }
{
    match ctts {
        Some(ctts) => read_ctts(alloc, ctts.head, ctts.body),
        None => Ok((0, Items::new(alloc))),
    }
}

// What holds in the chunks, and the place of the box that says it.
#[tactic(auto, unfolding(crate::specs::TrackSamples::chunks_table))]
fn chunks_table(
    alloc: Global,
    at: u64,
    boxes: &[Found<'_>],
) -> Result<(u64, Items<ChunkRun>), TableFault>
    ensures table { Gives TableFault.NoMemory (λ x. (x.0, spreads_as x.1)) result (chunks_table at (pieces boxes.now)) }
    ensures rising { IfOk result (λ x. begins_rising (spreads_as x.1) ≡ true) }
{
    let stsc = needed_table(at, FourCc(*b"stsc"), boxes)?;
    let runs = read_stsc(alloc, stsc.head, stsc.body)?;
    Ok((stsc.head.at, runs))
}

// The sizes of the samples.
#[tactic(auto, unfolding(crate::specs::TrackSamples::sizes_table))]
fn sizes_table(alloc: Global, at: u64, boxes: &[Found<'_>]) -> Result<Sizes, TableFault>
    ensures table { Gives TableFault.NoMemory sizes_view result (sizes_table at (pieces boxes.now)) }
    ensures few { IfOk result (λ sizes. length (sizes_view sizes) ≤ 16777216) }
{
    let stsz = either_table(at, FourCc(*b"stsz"), FourCc(*b"stz2"), boxes)?;
    read_sizes(alloc, stsz.head, stsz.body)
}

// The places of the chunks.
#[tactic(auto, unfolding(crate::specs::TrackSamples::places_table))]
fn places_table(alloc: Global, at: u64, boxes: &[Found<'_>]) -> Result<PlaceList, TableFault>
    ensures table { Gives TableFault.NoMemory (λ places. places) result (places_table at (pieces boxes.now)) }
    ensures few { IfOk result (λ places. length places < 2 ^ 32) }
{
    let stco = either_table(at, FourCc(*b"stco"), FourCc(*b"co64"), boxes)?;
    read_places(alloc, stco.head, stco.body)
}

// The numbers of the sync samples, where they are told.
#[tactic(auto, unfolding(crate::specs::SampleTables::syncs_told))]
fn syncs_told(alloc: Global, stss: Option<Found<'_>>) -> Result<Option<Items<u32>>, TableFault>
    ensures told { Gives TableFault.NoMemory (λ numbers. numbers) result (syncs_told (maybe_piece stss.entry)) }
    ensures rising { IfOk result (λ numbers. Rises 0 numbers) }
{
    let Some(stss) = stss else {
        return Ok(None);
    };
    let numbers = read_stss(alloc, stss.head, stss.body)?;
    Ok(Some(numbers))
}

/// The tables among the boxes of a sample table box whose body begins at a place.
#[tactic(auto, unfolding(crate::specs::TrackSamples::tables_told))]
pub fn tables_told(alloc: Global, at: u64, boxes: &[Found<'_>]) -> Result<Tables, TableFault>
    ensures told { Gives TableFault.NoMemory tables_view result (tables_told at (pieces boxes.now)) }
    ensures order { IfOk result IsInOrder }
{
    let (stts_at, deltas) = times_table(alloc, at, boxes)?;
    let (version, offsets) = offsets_told(alloc, first(boxes, FourCc(*b"ctts")))?;
    let (stsc_at, spreads) = chunks_table(alloc, at, boxes)?;
    let sizes = sizes_table(alloc, at, boxes)?;
    let places = places_table(alloc, at, boxes)?;
    let sync = syncs_told(alloc, first(boxes, FourCc(*b"stss")))?;
    Ok(Tables {
        deltas,
        stts_at,
        version,
        offsets,
        spreads,
        stsc_at,
        sizes,
        places,
        sync,
    })
}
