//! The boxes of the sample table box, from what is kept of samples and chunks (8.5.1).

ghost use Rattle.std.specs.Prelude.{◌≡◌, ℕ, ◌+◌, ◌*◌, ◌^◌, ◌<◌, ◌≤◌, ◌==◌, true, List, [], ◌∷◌, ◌++◌, codes, length, map, take, None, OnOk, if◌then◌else◌};
ghost use Rattle.std.specs.List.{AllByRecursion, flat_map};
ghost use Rattle.sf_box.specs.Boxes.{be32, be64, box_of};
ghost use Rattle.sf_box.specs.Parts.{tiled};
ghost use Rattle.sf_meaning.specs.Stbl.{Timed, Row, timed_of, places_in_rows, counts_in_rows, stbl_parts, ctts_parts, stss_parts, places_part, stsd_body, stts_body, ctts_body, stss_body, stsz_body, stsc_body, stco_body, co64_body, deltas_of, offset_words, sync_numbers, all_sync, all_in_time, all_near, none_early, runs_of, run_bytes, spread_from, spread_bytes, uniform};
ghost use Rattle.sf_tables.specs.inner.Kept.{OffsetFits, counts_kept, of_chunks, of_samples, places_kept, sizes_kept, stbl_from, ticks_kept, timed_kept};
ghost use Rattle.sf_tables.specs.Rows.{AllHaveRoom};
ghost use Rattle.sf_tables.specs.inner.Totals.{CountsChunks, CountsSamples};

use crate::kept::{KeptChunk, KeptSample};
use crate::runs::{OpenRun, end_run, take_value};
use crate::totals::{ChunkTotals, SampleTotals, offset_word};
use sf_box::{FourCc, begin_box, end_box, put_bytes, put_u32, put_u64};
use sf_list::Bytes;
use std::alloc::AllocError;

// The version and flags with which most of the tables begin.
const VERSION_AND_FLAGS: [u8; 4] = [0; 4];

// Puts the sample description box, which holds this entry (8.5.2).
fn put_stsd(out: &mut Bytes, entry: &[u8]) -> Result<(), AllocError>
    requires { length entry.now + 16 < 2 ^ 32 }
    ensures put { OnOk result (out.new ≡ out.old ++ box_of (codes "stsd") (stsd_body entry.now)) }
    ensures grows { take (length out.old) out.new ≡ out.old }
{
    let mark = begin_box(out, FourCc(*b"stsd"))?;
    put_bytes(out, &[0, 0, 0, 0, 0, 0, 0, 1])?;
    put_bytes(out, entry)?;
    end_box(out, mark);
    Ok(())
}

// Puts the runs of the samples' deltas.
fn put_delta_runs(out: &mut Bytes, samples: &[KeptSample]) -> Result<(), AllocError>
    requires few { length samples.now < 2 ^ 32 }
    requires room { AllHaveRoom None (map timed_kept samples.now) }
    ensures put { OnOk result (out.new ≡ out.old ++ flat_map run_bytes (runs_of (deltas_of (ticks_kept samples.now)))) }
    ensures grows { take (length out.old) out.new ≡ out.old }
{
    let [first, others @ ..] = samples else {
        return Ok(());
    };
    let mut run = OpenRun { count: 0, value: 0 };
    let mut decode = first.decode;
    let mut delta = 0;
    for sample in others {
        delta = (sample.decode - decode) as u32;
        run = take_value(out, run, delta)?;
        decode = sample.decode;
    }
    let last = take_value(out, run, delta)?;
    end_run(out, last)
}

// Puts the decoding time to sample box (8.6.1.2).
#[tactic(auto, using(crate::proofs::BoxLengths::length_facts), unfolding(sf_meaning::specs::Stbl::stts_body))]
fn put_stts(out: &mut Bytes, samples: &[KeptSample], runs: u32) -> Result<(), AllocError>
    requires few { length samples.now < 2 ^ 32 }
    requires room { AllHaveRoom None (map timed_kept samples.now) }
    requires runs { runs ≡ length (runs_of (deltas_of (ticks_kept samples.now))) }
    requires size { 16 + 8 * runs < 2 ^ 32 }
    ensures put { OnOk result (out.new ≡ out.old ++ box_of (codes "stts") (stts_body (deltas_of (ticks_kept samples.now)))) }
    ensures grows { take (length out.old) out.new ≡ out.old }
{
    let mark = begin_box(out, FourCc(*b"stts"))?;
    put_bytes(out, &VERSION_AND_FLAGS)?;
    put_u32(out, runs)?;
    put_delta_runs(out, samples)?;
    end_box(out, mark);
    Ok(())
}

// Puts the runs of the samples' composition offsets.
fn put_offset_runs(out: &mut Bytes, samples: &[KeptSample]) -> Result<(), AllocError>
    requires few { length samples.now < 2 ^ 32 }
    requires room { AllByRecursion OffsetFits (map timed_kept samples.now) }
    ensures put { OnOk result (out.new ≡ out.old ++ flat_map run_bytes (runs_of (offset_words (map timed_kept samples.now)))) }
    ensures grows { take (length out.old) out.new ≡ out.old }
{
    let mut run = OpenRun { count: 0, value: 0 };
    for sample in samples {
        let offset = offset_word(sample.decode, sample.compose);
        run = take_value(out, run, offset)?;
    }
    end_run(out, run)
}

// Puts the composition time to sample box (8.6.1.3). Version 1 has signed offsets.
#[tactic(auto, using(crate::proofs::BoxLengths::length_facts), unfolding(sf_meaning::specs::Stbl::ctts_body))]
fn put_ctts(
    out: &mut Bytes,
    samples: &[KeptSample],
    none_early: bool,
    runs: u32,
) -> Result<(), AllocError>
    requires few { length samples.now < 2 ^ 32 }
    requires room { AllByRecursion OffsetFits (map timed_kept samples.now) }
    requires runs { runs ≡ length (runs_of (offset_words (map timed_kept samples.now))) }
    requires size { 16 + 8 * runs < 2 ^ 32 }
    ensures put { OnOk result (out.new ≡ out.old ++ box_of (codes "ctts") (ctts_body (if none_early then 0 else 1) (offset_words (map timed_kept samples.now)))) }
    ensures grows { take (length out.old) out.new ≡ out.old }
{
    let version = if none_early { 0 } else { 1 };
    let mark = begin_box(out, FourCc(*b"ctts"))?;
    put_bytes(out, &[version, 0, 0, 0])?;
    put_u32(out, runs)?;
    put_offset_runs(out, samples)?;
    end_box(out, mark);
    Ok(())
}

// Puts the numbers of the sync samples, from 1.
fn put_sync_numbers(out: &mut Bytes, samples: &[KeptSample]) -> Result<(), AllocError>
    requires { length samples.now < 2 ^ 32 }
    ensures put { OnOk result (out.new ≡ out.old ++ flat_map be32 (sync_numbers (map timed_kept samples.now))) }
    ensures grows { take (length out.old) out.new ≡ out.old }
{
    for (index, sample) in samples.iter().enumerate() {
        if sample.sync {
            put_u32(out, index as u32 + 1)?;
        }
    }
    Ok(())
}

// Puts the sync sample box (8.6.2).
#[tactic(auto, using(crate::proofs::BoxLengths::length_facts), unfolding(sf_meaning::specs::Stbl::stss_body))]
fn put_stss(out: &mut Bytes, samples: &[KeptSample], syncs: u32) -> Result<(), AllocError>
    requires few { length samples.now < 2 ^ 32 }
    requires syncs { syncs ≡ length (sync_numbers (map timed_kept samples.now)) }
    requires size { 16 + 4 * syncs < 2 ^ 32 }
    ensures put { OnOk result (out.new ≡ out.old ++ box_of (codes "stss") (stss_body (sync_numbers (map timed_kept samples.now)))) }
    ensures grows { take (length out.old) out.new ≡ out.old }
{
    let mark = begin_box(out, FourCc(*b"stss"))?;
    put_bytes(out, &VERSION_AND_FLAGS)?;
    put_u32(out, syncs)?;
    put_sync_numbers(out, samples)?;
    end_box(out, mark);
    Ok(())
}

// Puts the sizes of the samples, in bytes.
fn put_sizes(out: &mut Bytes, samples: &[KeptSample]) -> Result<(), AllocError>
    ensures put { OnOk result (out.new ≡ out.old ++ flat_map be32 (sizes_kept samples.now)) }
    ensures grows { take (length out.old) out.new ≡ out.old }
{
    for sample in samples {
        put_u32(out, sample.size)?;
    }
    Ok(())
}

// Puts the sample size box (8.7.3.2): one size for all samples, or one for each.
#[tactic(auto, using(crate::proofs::BoxLengths::length_facts), unfolding(sf_meaning::specs::Stbl::stsz_body))]
fn put_stsz(out: &mut Bytes, samples: &[KeptSample], size: u32) -> Result<(), AllocError>
    requires uniform { size ≡ uniform (sizes_kept samples.now) }
    requires few { length samples.now < 2 ^ 32 }
    requires size { size ≡ 0 → 20 + 4 * length samples.now < 2 ^ 32 }
    ensures put { OnOk result (out.new ≡ out.old ++ box_of (codes "stsz") (stsz_body (sizes_kept samples.now))) }
    ensures grows { take (length out.old) out.new ≡ out.old }
{
    let mark = begin_box(out, FourCc(*b"stsz"))?;
    put_bytes(out, &VERSION_AND_FLAGS)?;
    put_u32(out, size)?;
    put_u32(out, samples.len() as u32)?;
    if size == 0 {
        put_sizes(out, samples)?;
    }
    end_box(out, mark);
    Ok(())
}

// Puts the composition time to sample box where one offset isn't 0.
fn put_offsets(
    out: &mut Bytes,
    samples: &[KeptSample],
    totals: &SampleTotals,
) -> Result<(), AllocError>
    requires few { length samples.now < 2 ^ 32 }
    requires room { AllByRecursion OffsetFits (map timed_kept samples.now) }
    requires totals { CountsSamples totals.now (map timed_kept samples.now) }
    requires size { length (tiled (ctts_parts (map timed_kept samples.now))) < 2 ^ 32 }
    ensures put { OnOk result (out.new ≡ out.old ++ tiled (ctts_parts (map timed_kept samples.now))) }
    ensures grows { take (length out.old) out.new ≡ out.old }
{
    if totals.in_time {
        return Ok(());
    }
    put_ctts(out, samples, totals.none_early, totals.offset_runs)
}

// Puts the sync sample box where one sample isn't sync.
fn put_syncs(
    out: &mut Bytes,
    samples: &[KeptSample],
    totals: &SampleTotals,
) -> Result<(), AllocError>
    requires few { length samples.now < 2 ^ 32 }
    requires totals { CountsSamples totals.now (map timed_kept samples.now) }
    requires size { length (tiled (stss_parts (map timed_kept samples.now))) < 2 ^ 32 }
    ensures put { OnOk result (out.new ≡ out.old ++ tiled (stss_parts (map timed_kept samples.now))) }
    ensures grows { take (length out.old) out.new ≡ out.old }
{
    if totals.all_sync {
        return Ok(());
    }
    put_stss(out, samples, totals.syncs)
}

// Puts the entries of the sample-to-chunk box: an entry where a chunk's count isn't that of the chunk
// before. Each names the only sample description.
fn put_spreads(out: &mut Bytes, chunks: &[KeptChunk]) -> Result<(), AllocError>
    requires { length chunks.now < 2 ^ 32 }
    ensures put { OnOk result (out.new ≡ out.old ++ flat_map spread_bytes (spread_from 1 0 (counts_kept chunks.now))) }
    ensures grows { take (length out.old) out.new ≡ out.old }
{
    let mut last = 0;
    for (index, chunk) in chunks.iter().enumerate() {
        if chunk.count != last {
            put_spread(out, index as u32 + 1, chunk.count)?;
            last = chunk.count;
        }
    }
    Ok(())
}

// Puts one entry: the first chunk, and how many samples it has.
fn put_spread(out: &mut Bytes, first: u32, count: u32) -> Result<(), AllocError>
    ensures put { OnOk result (out.new ≡ out.old ++ (be32 first ++ (be32 count ++ be32 1))) }
    ensures grows { take (length out.old) out.new ≡ out.old }
{
    put_u32(out, first)?;
    put_u32(out, count)?;
    put_u32(out, 1)
}

// Puts the sample-to-chunk box (8.7.4).
#[tactic(auto, using(crate::proofs::BoxLengths::length_facts), unfolding(sf_meaning::specs::Stbl::stsc_body))]
fn put_stsc(out: &mut Bytes, chunks: &[KeptChunk], spreads: u32) -> Result<(), AllocError>
    requires few { length chunks.now < 2 ^ 32 }
    requires spreads { spreads ≡ length (spread_from 1 0 (counts_kept chunks.now)) }
    requires size { 16 + 12 * spreads < 2 ^ 32 }
    ensures put { OnOk result (out.new ≡ out.old ++ box_of (codes "stsc") (stsc_body (counts_kept chunks.now))) }
    ensures grows { take (length out.old) out.new ≡ out.old }
{
    let mark = begin_box(out, FourCc(*b"stsc"))?;
    put_bytes(out, &VERSION_AND_FLAGS)?;
    put_u32(out, spreads)?;
    put_spreads(out, chunks)?;
    end_box(out, mark);
    Ok(())
}

// Puts the places of chunks, of four bytes each.
fn put_near_places(out: &mut Bytes, chunks: &[KeptChunk]) -> Result<(), AllocError>
    requires { all_near (places_kept chunks.now) ≡ true }
    ensures put { OnOk result (out.new ≡ out.old ++ flat_map be32 (places_kept chunks.now)) }
    ensures grows { take (length out.old) out.new ≡ out.old }
{
    for chunk in chunks {
        put_u32(out, chunk.place as u32)?;
    }
    Ok(())
}

// Puts the places of chunks, of eight bytes each.
fn put_wide_places(out: &mut Bytes, chunks: &[KeptChunk]) -> Result<(), AllocError>
    ensures put { OnOk result (out.new ≡ out.old ++ flat_map be64 (places_kept chunks.now)) }
    ensures grows { take (length out.old) out.new ≡ out.old }
{
    for chunk in chunks {
        put_u64(out, chunk.place)?;
    }
    Ok(())
}

// Puts the chunk offset box, with places of four bytes (8.7.5).
#[tactic(auto, using(crate::proofs::BoxLengths::length_facts), unfolding(sf_meaning::specs::Stbl::stco_body))]
fn put_stco(out: &mut Bytes, chunks: &[KeptChunk]) -> Result<(), AllocError>
    requires near { all_near (places_kept chunks.now) ≡ true }
    requires size { 16 + 4 * length chunks.now < 2 ^ 32 }
    ensures put { OnOk result (out.new ≡ out.old ++ box_of (codes "stco") (stco_body (places_kept chunks.now))) }
    ensures grows { take (length out.old) out.new ≡ out.old }
{
    let mark = begin_box(out, FourCc(*b"stco"))?;
    put_bytes(out, &VERSION_AND_FLAGS)?;
    put_u32(out, chunks.len() as u32)?;
    put_near_places(out, chunks)?;
    end_box(out, mark);
    Ok(())
}

// Puts the chunk offset box with places of eight bytes (8.7.5).
#[tactic(auto, using(crate::proofs::BoxLengths::length_facts), unfolding(sf_meaning::specs::Stbl::co64_body))]
fn put_co64(out: &mut Bytes, chunks: &[KeptChunk]) -> Result<(), AllocError>
    requires size { 16 + 8 * length chunks.now < 2 ^ 32 }
    ensures put { OnOk result (out.new ≡ out.old ++ box_of (codes "co64") (co64_body (places_kept chunks.now))) }
    ensures grows { take (length out.old) out.new ≡ out.old }
{
    let mark = begin_box(out, FourCc(*b"co64"))?;
    put_bytes(out, &VERSION_AND_FLAGS)?;
    put_u32(out, chunks.len() as u32)?;
    put_wide_places(out, chunks)?;
    end_box(out, mark);
    Ok(())
}

// Puts the sample-to-chunk box and the chunk offset box.
fn put_of_chunks(
    out: &mut Bytes,
    chunks: &[KeptChunk],
    totals: &ChunkTotals,
) -> Result<(), AllocError>
    requires few { length chunks.now < 2 ^ 32 }
    requires totals { CountsChunks totals.now (places_kept chunks.now) (counts_kept chunks.now) }
    requires size { length (tiled (of_chunks (places_kept chunks.now) (counts_kept chunks.now))) < 2 ^ 32 }
    ensures put { OnOk result (out.new ≡ out.old ++ tiled (of_chunks (places_kept chunks.now) (counts_kept chunks.now))) }
    ensures grows { take (length out.old) out.new ≡ out.old }
{
    put_stsc(out, chunks, totals.spreads)?;
    if totals.near {
        put_stco(out, chunks)
    } else {
        put_co64(out, chunks)
    }
}

// Puts the boxes that list the samples.
fn put_of_samples(
    out: &mut Bytes,
    samples: &[KeptSample],
    totals: &SampleTotals,
) -> Result<(), AllocError>
    requires few { length samples.now < 2 ^ 32 }
    requires room { AllHaveRoom None (map timed_kept samples.now) }
    requires totals { CountsSamples totals.now (map timed_kept samples.now) }
    requires size { length (tiled (of_samples (map timed_kept samples.now))) < 2 ^ 32 }
    ensures put { OnOk result (out.new ≡ out.old ++ tiled (of_samples (map timed_kept samples.now))) }
    ensures grows { take (length out.old) out.new ≡ out.old }
{
    put_stts(out, samples, totals.delta_runs)?;
    put_offsets(out, samples, totals)?;
    put_syncs(out, samples, totals)?;
    put_stsz(out, samples, totals.size)
}

/// Puts the sample table box (8.5.1). Without memory a part of it may be put there.
#[tactic(auto, using(crate::proofs::BoxLengths::length_facts))]
pub(crate) fn put_stbl(
    out: &mut Bytes,
    entry: &[u8],
    samples: &[KeptSample],
    chunks: &[KeptChunk],
    of_samples: &SampleTotals,
    of_chunks: &ChunkTotals,
) -> Result<(), AllocError>
    requires samples { length samples.now < 2 ^ 32 }
    requires chunks { length chunks.now < 2 ^ 32 }
    requires room { AllHaveRoom None (map timed_kept samples.now) }
    requires of_samples { CountsSamples of_samples.now (map timed_kept samples.now) }
    requires of_chunks { CountsChunks of_chunks.now (places_kept chunks.now) (counts_kept chunks.now) }
    requires size { 8 + length (tiled (stbl_from entry.now (map timed_kept samples.now) (places_kept chunks.now) (counts_kept chunks.now))) < 2 ^ 32 }
    ensures put { OnOk result (out.new ≡ out.old ++ box_of (codes "stbl") (tiled (stbl_from entry.now (map timed_kept samples.now) (places_kept chunks.now) (counts_kept chunks.now)))) }
    ensures grows { take (length out.old) out.new ≡ out.old }
{
    let mark = begin_box(out, FourCc(*b"stbl"))?;
    put_stsd(out, entry)?;
    put_of_samples(out, samples, of_samples)?;
    put_of_chunks(out, chunks, of_chunks)?;
    end_box(out, mark);
    Ok(())
}
