//! What is told of the tracks of a movie.

ghost use Rattle.std.specs.Prelude.{◌≡◌, ℕ, ◌+◌, ◌^◌, ◌<◌, ◌≤◌, length, IfOk};
ghost use Rattle.sf_movie.specs.Loaded.{sample_count};
ghost use Rattle.sf_selftest.specs.inner.Listed.{listed, no_samples, samples_at, with_sample, with_samples};

use crate::summary::TrackSummary;
use sf_list::Items;
use sf_movie::{Movie, PlainSample};
use std::alloc::{AllocError, Global};

// What is told with one more sample.
fn with_sample(track: &TrackSummary, sample: &PlainSample) -> TrackSummary
    requires samples { track.now.samples + 1 < 2 ^ 64 }
    requires syncs { track.now.syncs + 1 < 2 ^ 64 }
    requires stored { track.now.stored + sample.now.size < 2 ^ 64 }
    ensures { result ≡ with_sample track.now sample.now }
{
    TrackSummary {
        samples: track.samples + 1,
        syncs: track.syncs + u64::from(sample.sync),
        stored: track.stored + u64::from(sample.size),
        last: sample.decode,
    }
}

// What is told of a track, in one pass over its samples.
fn track_summary(movie: &Movie, track: u32) -> TrackSummary
    requires there { track < length movie.now.movie.tracks }
    requires few { sample_count movie.now.movie track ≤ 16777216 }
    ensures { result ≡ with_samples no_samples (samples_at movie.now.movie track) }
{
    let mut summary = TrackSummary {
        samples: 0,
        syncs: 0,
        stored: 0,
        last: 0,
    };
    for number in 0..movie.count(track) {
        summary = with_sample(&summary, &movie.sample(track, number));
    }
    summary
}

/// What is told of the first so many tracks of a movie.
#[tactic(auto, using(crate::proofs::Counting::listed_more))]
pub(crate) fn track_summaries(
    alloc: Global,
    movie: &Movie,
    tracks: u32,
) -> Result<Items<TrackSummary>, AllocError>
    requires there { tracks ≤ length movie.now.movie.tracks }
    requires few { (track : ℕ) → sample_count movie.now.movie track ≤ 16777216 }
    ensures { IfOk result (λ summaries. summaries ≡ listed movie.now.movie tracks) }
{
    let mut summaries = Items::new(alloc);
    for track in 0..tracks {
        summaries.push(track_summary(movie, track))?;
    }
    Ok(summaries)
}
