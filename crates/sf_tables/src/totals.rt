//! What is counted of samples and chunks, so that the length of the tables is known without a walk.

ghost use Rattle.std.specs.Prelude.{◌≡◌, ℕ, ◌+◌, ◌-◌, ◌%◌, ◌^◌, ◌<◌, ◌≤◌, ◌==◌, List, [], length, map, if◌then◌else◌};
ghost use Rattle.sf_box.specs.Parts.{tiled};
ghost use Rattle.sf_meaning.specs.Stbl.{offset_word};
ghost use Rattle.sf_meaning.specs.Rows.{timed};
ghost use Rattle.sf_tables.specs.Rows.{AllHaveRoom, HasRoom};
ghost use Rattle.sf_tables.specs.inner.Totals.{CountsChunks, CountsSamples, Steady, after_chunk, after_sample, after_samples, last_counted};

use sf_tick::Stored;

/// What is counted of samples.
#[derive(Clone, Copy)]
pub(crate) struct SampleTotals {
    /// How many there are.
    pub count: u32,
    /// When the last one is decoded, in ticks; 0 without samples.
    pub decode: u64,
    /// The delta of the last one, in ticks; 0 without samples.
    pub delta: u32,
    /// How many runs their deltas make.
    pub delta_runs: u32,
    /// The sum of their deltas but the last, in ticks.
    pub closed: u64,
    /// The composition offset of the last one, in two's complement; 0 without samples.
    pub offset: u32,
    /// How many runs their composition offsets make.
    pub offset_runs: u32,
    /// Whether each one is shown when it is decoded.
    pub in_time: bool,
    /// Whether none is shown before it is decoded.
    pub none_early: bool,
    /// Whether each one is a sync sample.
    pub all_sync: bool,
    /// How many sync samples there are.
    pub syncs: u32,
    /// The size that all have, in bytes, or 0.
    pub size: u32,
}

/// What is counted of chunks.
#[derive(Clone, Copy)]
pub(crate) struct ChunkTotals {
    /// How many there are.
    pub chunks: u32,
    /// How many samples the last one has; 0 without chunks.
    pub last_count: u32,
    /// How many entries of the sample-to-chunk box they make.
    pub spreads: u32,
    /// Whether the place of each is a number of four bytes.
    pub near: bool,
}

/// A composition offset in ticks, in two's complement (8.6.1.3).
pub(crate) fn offset_word(decode: u64, compose: u64) -> u32
    requires late { compose < decode + 2 ^ 31 }
    requires early { decode ≤ compose + 2 ^ 31 }
    ensures { result ≡ (compose + 2 ^ 32 - decode) % 2 ^ 32 }
{
    if decode <= compose {
        (compose - decode) as u32
    } else {
        ((1 << 32) - (decode - compose)) as u32
    }
}

impl SampleTotals {
    /// The totals of no samples.
    pub fn new() -> SampleTotals
        ensures counts { CountsSamples result [] }
        ensures steady { Steady result }
    {
        SampleTotals {
            count: 0,
            decode: 0,
            delta: 0,
            delta_runs: 0,
            closed: 0,
            offset: 0,
            offset_runs: 0,
            in_time: true,
            none_early: true,
            all_sync: true,
            syncs: 0,
            size: 0,
        }
    }

    // The delta to a sample that is decoded at this tick; 0 where it is the first one.
    fn delta_to(self, decode: u64) -> u32
        requires rises { 0 < self.count → self.decode ≤ decode }
        requires near { 0 < self.count → decode < self.decode + 2 ^ 32 }
        ensures { result ≡ (if self.count == 0 then 0 else decode - self.decode) }
    {
        if self.count == 0 {
            0
        } else {
            (decode - self.decode) as u32
        }
    }

    // How many runs the deltas make with this one between the last two samples.
    fn delta_runs_with(self, delta: u32) -> u32
        requires runs { self.delta_runs ≤ self.count }
        requires few { self.count + 1 < 2 ^ 32 }
        ensures { result ≡ (if self.count == 0 then 1 else if self.count == 1 then 1 else if self.delta == delta then self.delta_runs else self.delta_runs + 1) }
    {
        if self.count <= 1 {
            1
        } else if self.delta == delta {
            self.delta_runs
        } else {
            self.delta_runs + 1
        }
    }

    // How many runs the composition offsets make with this one at the end.
    fn offset_runs_with(self, offset: u32) -> u32
        requires runs { self.offset_runs ≤ self.count }
        requires few { self.count + 1 < 2 ^ 32 }
        ensures { result ≡ (if self.count == 0 then 1 else if self.offset == offset then self.offset_runs else self.offset_runs + 1) }
    {
        if self.count == 0 {
            1
        } else if self.offset == offset {
            self.offset_runs
        } else {
            self.offset_runs + 1
        }
    }

    // The size that all samples have, with this one at the end, or 0.
    fn size_with(self, size: u32) -> u32
        ensures { result ≡ (if self.count == 0 then size else if size == self.size then size else 0) }
    {
        if self.count == 0 || size == self.size {
            size
        } else {
            0
        }
    }

    /// The totals after one more sample.
    fn with_sample(self, sample: &Stored) -> SampleTotals
        requires few { self.count + 1 < 2 ^ 32 }
        requires steady { Steady self }
        requires room { HasRoom (last_counted self) (timed sample.now) }
        ensures exact { result ≡ after_sample self (timed sample.now) }
        ensures steady { Steady result }
    {
        let delta = self.delta_to(sample.decode);
        let offset = offset_word(sample.decode, sample.compose);
        SampleTotals {
            count: self.count + 1,
            decode: sample.decode,
            delta,
            delta_runs: self.delta_runs_with(delta),
            closed: self.closed + u64::from(delta),
            offset,
            offset_runs: self.offset_runs_with(offset),
            in_time: self.in_time && sample.compose == sample.decode,
            none_early: self.none_early && sample.decode <= sample.compose,
            all_sync: self.all_sync && sample.sync,
            syncs: self.syncs + u32::from(sample.sync),
            size: self.size_with(sample.bytes.len() as u32),
        }
    }

    /// The totals after more samples.
    pub fn with_samples(self, samples: &[Stored]) -> SampleTotals
        requires few { self.count + length samples.now < 2 ^ 32 }
        requires steady { Steady self }
        requires room { AllHaveRoom (last_counted self) (map timed samples.now) }
        ensures exact { result ≡ after_samples self (map timed samples.now) }
        ensures steady { Steady result }
    {
        let mut totals = self;
        for sample in samples {
            totals = totals.with_sample(sample);
        }
        totals
    }
}

impl ChunkTotals {
    /// The totals of no chunks.
    pub fn new() -> ChunkTotals
        ensures counts { CountsChunks result [] [] }
        ensures spreads { result.spreads ≤ result.chunks }
    {
        ChunkTotals {
            chunks: 0,
            last_count: 0,
            spreads: 0,
            near: true,
        }
    }

    /// The totals after one more chunk.
    pub fn with_chunk(self, place: u64, count: u32) -> ChunkTotals
        requires few { self.chunks + 1 < 2 ^ 32 }
        requires spreads { self.spreads ≤ self.chunks }
        ensures exact { result ≡ after_chunk self place count }
        ensures few { result.spreads ≤ result.chunks }
    {
        ChunkTotals {
            chunks: self.chunks + 1,
            last_count: count,
            spreads: if count == self.last_count {
                self.spreads
            } else {
                self.spreads + 1
            },
            near: self.near && place < 1 << 32,
        }
    }
}
