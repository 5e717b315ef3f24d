//! How long the boxes are in bytes, their heads included, from totals alone.

ghost use Rattle.std.specs.Prelude.{◌≡◌, ℕ, ◌+◌, ◌*◌, ◌^◌, ◌<◌, ◌==◌, List, length, if◌then◌else◌};
ghost use Rattle.sf_box.specs.Parts.{tiled};
ghost use Rattle.sf_meaning.specs.Stbl.{Row, timed_of, places_in_rows, counts_in_rows, stbl_parts};
ghost use Rattle.sf_tables.specs.inner.Totals.{CountsChunks, CountsSamples, Steady};

use crate::totals::{ChunkTotals, SampleTotals};

/// A head of eight bytes, version and flags, and a count.
const TABLE: u64 = 16;

impl SampleTotals {
    /// How long the samples last, in ticks.
    pub fn duration(self) -> u64
        requires { Steady self }
        ensures { result ≡ self.closed + self.delta }
    {
        self.closed + u64::from(self.delta)
    }

    // Of the decoding time to sample box (8.6.1.2).
    fn stts_len(self) -> u64
        ensures exact { result ≡ 16 + 8 * self.delta_runs }
        ensures small { result < 2 ^ 36 }
    {
        TABLE + 8 * u64::from(self.delta_runs)
    }

    // Of the composition time to sample box (8.6.1.3), 0 where there is none.
    fn ctts_len(self) -> u64
        ensures exact { result ≡ (if self.in_time then 0 else 16 + 8 * self.offset_runs) }
        ensures small { result < 2 ^ 36 }
    {
        if self.in_time {
            0
        } else {
            TABLE + 8 * u64::from(self.offset_runs)
        }
    }

    // Of the sync sample box (8.6.2), 0 where there is none.
    fn stss_len(self) -> u64
        ensures exact { result ≡ (if self.all_sync then 0 else 16 + 4 * self.syncs) }
        ensures small { result < 2 ^ 36 }
    {
        if self.all_sync {
            0
        } else {
            TABLE + 4 * u64::from(self.syncs)
        }
    }

    // Of the sample size box (8.7.3.2).
    fn stsz_len(self) -> u64
        ensures exact { result ≡ (if self.size == 0 then 20 + 4 * self.count else 20) }
        ensures small { result < 2 ^ 36 }
    {
        if self.size == 0 {
            TABLE + 4 + 4 * u64::from(self.count)
        } else {
            TABLE + 4
        }
    }
}

impl ChunkTotals {
    // Of the sample-to-chunk box (8.7.4).
    fn stsc_len(self) -> u64
        ensures exact { result ≡ 16 + 12 * self.spreads }
        ensures small { result < 2 ^ 36 }
    {
        TABLE + 12 * u64::from(self.spreads)
    }

    // Of the chunk offset box (8.7.5).
    fn places_len(self) -> u64
        ensures exact { result ≡ (if self.near then 16 + 4 * self.chunks else 16 + 8 * self.chunks) }
        ensures small { result < 2 ^ 36 }
    {
        if self.near {
            TABLE + 4 * u64::from(self.chunks)
        } else {
            TABLE + 8 * u64::from(self.chunks)
        }
    }
}

/// Of the sample table box (8.5.1), with a sample entry of this length.
pub(crate) fn stbl_len(samples: &SampleTotals, chunks: &ChunkTotals, entry_len: u64) -> u64
    requires { entry_len < 2 ^ 62 }
    ensures bound { result < entry_len + 2 ^ 40 }
    ensures exact { (entry : List ℕ) (rows : List Row) → length entry ≡ entry_len
        → CountsSamples samples.now (timed_of rows) → CountsChunks chunks.now (places_in_rows rows) (counts_in_rows rows)
        → result ≡ 8 + length (tiled (stbl_parts entry rows)) }
{
    let stsd = TABLE + entry_len;
    let of_samples = samples.stts_len()
        + samples.ctts_len()
        + samples.stss_len()
        + samples.stsz_len();
    8 + stsd + of_samples + chunks.stsc_len() + chunks.places_len()
}
