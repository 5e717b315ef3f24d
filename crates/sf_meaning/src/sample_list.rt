//! The samples of a track, listed one after the other.

ghost use Rattle.std.specs.Prelude.{◌≡◌, ◌+◌, ◌≤◌, ◌<◌, ◌∷◌, length, drop, OnOk, IfOk};
ghost use Rattle.sf_meaning.specs.Answers.{Gives};
ghost use Rattle.sf_meaning.specs.inner.Entries.{times_left, time_count, offsets_left, syncs_left, Rises, places_left, descriptions_left, place_count};
ghost use Rattle.sf_meaning.specs.TrackSamples.{rows};
ghost use Rattle.sf_meaning.specs.Tracks.{held_sample, held_samples};
ghost use Rattle.sf_meaning.specs.ReadTables.{sizes_view};

use crate::entries::{Offsets, Places, Syncs, Times};
use crate::faults::MovieFault;
use crate::listing::{in_chunk, next_offset, next_sync, next_time, sample_at};
use crate::movie::PlainSample;
use crate::sizes::Sizes;
use sf_list::Items;
use std::alloc::Global;

/// The size of a sample. Samples count from 0.
pub fn size_at(sizes: &Sizes, i: u32) -> u32
    requires { i < length (sizes_view sizes.now) }
    ensures { drop i (sizes_view sizes.now) ≡ result ∷ drop (i + 1) (sizes_view sizes.now) }
{
    match sizes {
        Sizes::Same { size, .. } => *size,
        Sizes::Each(sizes) => sizes.at(i as usize),
    }
}

/// How many samples have sizes.
pub fn count_of(sizes: &Sizes) -> u32
    requires { length (sizes_view sizes.now) ≤ 16777216 }
    ensures { result ≡ length (sizes_view sizes.now) }
{
    match sizes {
        Sizes::Same { count, .. } => *count,
        Sizes::Each(sizes) => sizes.len() as u32,
    }
}

// The sample, where it lies in the file and isn't too long.
fn held_sample(
    file_len: u64,
    track: u32,
    i: u32,
    sample: PlainSample,
) -> Result<PlainSample, MovieFault>
    ensures held { Gives MovieFault.NoMemory (λ sample. sample) result (held_sample file_len track i sample) }
    ensures same { IfOk result (λ held. held ≡ sample) }
    ensures within { OnOk result (sample.place + sample.size ≤ file_len) }
{
    if sample.place > file_len || u64::from(sample.size) > file_len - sample.place {
        return Err(MovieFault::SampleOutside {
            track,
            sample: u64::from(i),
        });
    }
    if sample.size > 67_108_864 {
        return Err(MovieFault::SampleTooLarge {
            track,
            sample: u64::from(i),
            size: sample.size,
        });
    }
    Ok(sample)
}

/// The samples with these sizes, times, offsets and places, which a file of so many bytes holds.
pub(crate) fn sample_list(
    alloc: Global,
    file_len: u64,
    track: u32,
    sizes: &Sizes,
    count: u32,
    times: Times<'_>,
    offsets: Offsets<'_>,
    syncs: Syncs<'_>,
    places: Places<'_>,
) -> Result<Items<PlainSample>, MovieFault>
    requires count { count ≡ length (sizes_view sizes.now) }
    requires few { count ≤ 16777216 }
    requires times { count ≤ time_count times }
    requires early { times.decode ≡ 0 }
    requires rising { Rises 0 (syncs_left syncs) }
    requires places { count ≤ place_count places }
    ensures { Gives MovieFault.NoMemory (λ samples. samples) result (held_samples file_len track
        (rows 1 (sizes_view sizes.now) (times_left times.entry) (offsets_left offsets.entry) (syncs_left syncs.entry)
        (places_left places.entry (sizes_view sizes.now)) (descriptions_left places.entry))) }
{
    let mut samples = Items::new(alloc);
    let mut times = times;
    let mut offsets = offsets;
    let mut syncs = syncs;
    let mut places = places;
    for i in 0..count {
        let size = size_at(sizes, i);
        let (decode, later) = next_time(times);
        let (offset, other) = next_offset(offsets);
        let (sync, behind) = next_sync(syncs, i + 1);
        let here = in_chunk(places);
        match held_sample(
            file_len,
            track,
            i,
            sample_at(here, decode, offset, sync, size),
        ) {
            Ok(sample) => samples.push(sample)?,
            Err(fault) => return Err(fault),
        }
        times = later;
        offsets = other;
        syncs = behind;
        places = Places {
            place: here.place + u64::from(size),
            left: here.left - 1,
            description: here.description,
            chunks: here.chunks,
        };
    }
    Ok(samples)
}
