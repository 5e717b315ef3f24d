ghost use Rattle.std.specs.Prelude.{◌≡◌, ℕ, ◌+◌, ◌^◌, ◌<◌, ◌≤◌, ◌++◌, length, map, vec_len, vec_capacity};
ghost use Rattle.std.specs.List.{AllByRecursion};
ghost use Rattle.sf_tables.specs.inner.Kept.{timed_kept};
ghost use Rattle.sf_meaning.specs.Rows.{timed};

use sf_tick::Stored;

/// What is kept of a sample.
#[derive(Clone, Copy)]
pub(crate) struct KeptSample {
    /// When it is decoded, in ticks.
    pub decode: u64,
    /// When it is shown, in ticks.
    pub compose: u64,
    /// How many bytes it has.
    pub size: u32,
    /// Whether decoding can begin here.
    pub sync: bool,
}

/// What is kept of a chunk.
#[derive(Clone, Copy)]
pub(crate) struct KeptChunk {
    /// Where it begins, in bytes from the start of the file.
    pub place: u64,
    /// How many samples it has.
    pub count: u32,
}

// What is kept of a stored sample.
fn kept(sample: &Stored) -> KeptSample
    requires { length sample.now.bytes < 2 ^ 32 }
    ensures { timed_kept result ≡ timed sample.now }
{
    KeptSample {
        decode: sample.decode,
        compose: sample.compose,
        size: sample.bytes.len() as u32,
        sync: sample.sync,
    }
}

/// Puts what is kept of samples after the others, where there is room for them.
pub(crate) fn keep_samples(list: &mut Vec<KeptSample>, samples: &[Stored])
    requires room { vec_len list.old + length samples.now ≤ vec_capacity list.old }
    requires sizes { AllByRecursion (λ s. length s.bytes < 2 ^ 32) samples.now }
    ensures kept { map timed_kept list.new.items ≡ map timed_kept list.old.items ++ map timed samples.now }
    ensures len { vec_len list.new ≡ vec_len list.old + length samples.now }
    ensures capacity { vec_capacity list.new ≡ vec_capacity list.old }
{
    for sample in samples {
        list.push_reserved(kept(sample));
    }
}
