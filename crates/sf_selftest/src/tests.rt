//! Self-tests of a few sizes.

use crate::{Summary, TrackSummary, self_test};
use sf_list::same;
use std::test::Fail;

// Sample i of video has 5 bytes and i mod 7 more, and each thirtieth is a sync sample; one of sound has 1 byte and
// i mod 5 more, and each is a sync sample. Samples of video are 33,333 us apart, at 90,000 ticks a second, and those of
// sound 21,333 us, at 48,000. A dump has 21 bytes in front of each sample, and one at its end.
fn video(samples: u64, syncs: u64, stored: u64, last: u64) -> TrackSummary {
    TrackSummary {
        samples,
        syncs,
        stored,
        last,
    }
}

fn sound(samples: u64, stored: u64, last: u64) -> TrackSummary {
    TrackSummary {
        samples,
        syncs: samples,
        stored,
        last,
    }
}

#[test]
fn without_samples_a_dump_is_its_end(rt: HostRuntime) -> Result<(), Fail> {
    let Summary { tracks, dump } = self_test(rt.alloc(), 0, 1)?;
    same(tracks.as_slice(), [video(0, 0, 0, 0)].as_slice())?;
    same(dump, 1)?;
    Ok(())
}

#[test]
fn one_sample_of_each_kind(rt: HostRuntime) -> Result<(), Fail> {
    let Summary { tracks, dump } = self_test(rt.alloc(), 1, 2)?;
    same(
        tracks.as_slice(),
        [video(1, 1, 5, 0), sound(1, 1, 0)].as_slice(),
    )?;
    same(dump, 49)?;
    Ok(())
}

// The thirty-first picture is the second sync sample, at 999,990 us, which is nearest to the tick 89,999; the sound with
// it is at 639,990 us, nearest to the tick 30,720.
#[test]
fn thirty_one_samples_of_three_tracks(rt: HostRuntime) -> Result<(), Fail> {
    let Summary { tracks, dump } = self_test(rt.alloc(), 31, 3)?;
    let told = [
        video(31, 2, 242, 89_999),
        sound(31, 91, 30_720),
        video(31, 2, 242, 89_999),
    ];
    same(tracks.as_slice(), told.as_slice())?;
    same(dump, 2_529)?;
    Ok(())
}

// Over a minute of pictures, and 42 seconds of sound.
#[test]
fn two_thousand_samples_of_each_kind(rt: HostRuntime) -> Result<(), Fail> {
    let Summary { tracks, dump } = self_test(rt.alloc(), 2_000, 2)?;
    let told = [
        video(2_000, 67, 15_995, 5_996_940),
        sound(2_000, 6_000, 2_046_944),
    ];
    same(tracks.as_slice(), told.as_slice())?;
    same(dump, 105_996)?;
    Ok(())
}
