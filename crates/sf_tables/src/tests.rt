ghost use Rattle.std.specs.Prelude.{◌≡◌, ◌+◌, ◌^◌, ◌<◌, ◌≤◌, map, IsTrue, Option};
ghost use Rattle.sf_meaning.specs.Rows.{timed};
ghost use Rattle.sf_tables.specs.Rows.{Addable, AllHaveRoom, HasRoom, last_in_rows};

use super::*;
use sf_list::Bytes;
use sf_tick::{Chunk, Samples, Stored};
use std::alloc::{AllocError, Global};
use std::test::Fail;

mod chunks;
mod samples;
mod whole;

/// The only sample entry of the tests.
const ENTRY: [u8; 4] = *b"ntry";

/// A sample: when it is decoded and shown, in ticks, whether it is sync, and how many bytes it has.
type Given = (u64, u64, bool, usize);

/// A sample as it is stored. Its time in microseconds is seven times that in ticks.
fn stored(alloc: Global, given: &Given) -> Result<Stored, AllocError> {
    Ok(Stored {
        dts_us: given.0.saturating_mul(7),
        decode: given.0,
        compose: given.1,
        sync: given.2,
        bytes: Bytes::from_vec(vec![in alloc; 1; given.3]?),
    })
}

/// A chunk of such samples.
fn chunk(alloc: Global, given: &[Given]) -> Result<Chunk, AllocError> {
    let mut samples = Samples::new(alloc);
    for one in given {
        samples.push(stored(alloc, one)?)?;
    }
    Ok(Chunk {
        track: 1,
        number: 0,
        first_us: 0,
        samples,
        last: false,
    })
}

/// Whether a sample has room in the tables.
fn has_room(last: Option<u64>, sample: &Stored) -> bool
    ensures { IsTrue result → HasRoom last (timed sample.now) }
{
    let behind = match last {
        Some(tick) => tick <= sample.decode && sample.decode - tick < 1 << 32,
        None => true,
    };
    behind
        && sample.compose.saturating_sub(sample.decode) < 1 << 31
        && sample.decode.saturating_sub(sample.compose) <= 1 << 31
        && sample.bytes.len() < 1 << 32
}

/// Whether all samples have room in the tables, one after the other.
fn all_have_room(last: Option<u64>, samples: &[Stored]) -> bool
    ensures { IsTrue result → AllHaveRoom last (map timed samples.now) }
{
    let [first, others @ ..] = samples else {
        return true;
    };
    has_room(last, first) && all_have_room(Some(first.decode), others)
}

/// The last tick in the tables.
fn last_tick(tables: &Tables) -> Option<u64>
    ensures { result ≡ last_in_rows tables.now.rows }
{
    let totals = &tables.of_samples;
    if totals.count == 0 {
        None
    } else {
        Some(totals.decode)
    }
}

/// Whether a chunk can be added.
fn is_addable(tables: &Tables, chunk: &Chunk) -> bool
    ensures { IsTrue result → Addable tables.now.rows chunk.now }
{
    !chunk.samples.is_empty()
        && all_have_room(last_tick(tables), chunk.samples.as_slice())
        && tables.count().saturating_add(chunk.samples.len() as u64) < 1 << 32
}

/// The tables of chunks at these places, and whether size and duration were told before each chunk.
fn tables(alloc: Global, chunks: &[(u64, &[Given])]) -> Result<(Tables, bool), AllocError> {
    let mut tables = Tables::new(alloc);
    let mut told = true;
    for (place, samples) in chunks {
        let chunk = chunk(alloc, samples)?;
        if !is_addable(&tables, &chunk) {
            return Ok((tables, false));
        }
        let size = tables.size_with(4, *place, &chunk);
        let duration = tables.duration_with(&chunk);
        tables.reserve_chunk(&chunk)?;
        tables.add_chunk(*place, &chunk);
        told = told && tables.size(4) == size && tables.duration() == duration;
    }
    Ok((tables, told))
}

/// The sample table box of such tables, or nothing where a size or a duration was told wrong.
fn encoded(alloc: Global, chunks: &[(u64, &[Given])]) -> Result<Bytes, AllocError> {
    let (tables, told) = tables(alloc, chunks)?;
    let mut out = Bytes::new(alloc);
    let size = tables.size(4);
    if !told || size >= 1 << 32 {
        return Ok(out);
    }
    tables.encode(&ENTRY, &mut out)?;
    if out.len() as u64 != size {
        out.cut(0);
    }
    Ok(out)
}

/// Whether these bytes stand somewhere in others.
fn holds_bytes(bytes: &Bytes, wanted: &[u8]) -> bool {
    for at in 0..bytes.len() {
        let (_, rest) = bytes.as_slice().split_at(at);
        if rest.starts_with(wanted) {
            return true;
        }
    }
    false
}
