//! Which samples are accepted, and the times of those.

ghost use Rattle.std.specs.Prelude.{◌≡◌, ◌≤◌, ◌+◌, ◌^◌, [], ◌∷◌, Some, None, IfOk, OnOk};
ghost use Rattle.std.specs.Option.{ForSome};
ghost use Rattle.std.specs.Result.{result_err};
ghost use Rattle.sf_gather.specs.declared.accepting.SampleFault.TheVariants.{NoMemory};
ghost use Rattle.sf_gather.specs.inner.Storing.{units_fault};
ghost use Rattle.sf_gather.specs.Accepting.{is_offset, time_refusal, tick_at, times_of, too_large, before_start, falls, gap_too_long, first_fault};

use super::given::{Given, LastSample};
use sf_avc::NalFault;
use sf_tick::{Sample, to_tick};
use std::alloc::AllocError;

/// The greatest time that is accepted, in microseconds.
pub(crate) const GREATEST_US: u64 = 1 << 48;

/// Why a sample isn't taken, in the order in which the causes are looked at.
#[derive(Clone, Copy, Debug, PartialEq, Eq)]
pub enum SampleFault {
    /// A time is above 2^48.
    TimeTooLarge,
    /// A time lies before the start.
    BeforeStart,
    /// It is decoded before the last accepted sample, which is at this time.
    Falls { last_us: u64 },
    /// It is decoded 2^32 ticks or more after the last accepted sample.
    GapTooLong,
    /// From its decode tick to its composition tick it isn't a signed number of 32 bits.
    OffsetTooLarge,
    /// The payload of video isn't a list of NAL units.
    Nal(NalFault),
    /// There is no memory.
    NoMemory,
}

impl From<AllocError> for SampleFault {
    ghost from_gives = { λ _ fault. fault ≡ NoMemory };

    fn from(_error: AllocError) -> SampleFault {
        SampleFault::NoMemory
    }
}

impl From<NalFault> for SampleFault {
    ghost from_gives = { λ fault refused. refused ≡ units_fault fault };

    fn from(fault: NalFault) -> SampleFault {
        match fault {
            NalFault::NoMemory => SampleFault::NoMemory,
            refused => SampleFault::Nal(refused),
        }
    }
}

/// The times of a sample that is accepted, counted from the start.
#[derive(Clone, Copy)]
pub(crate) struct Times {
    /// When it is decoded, in microseconds.
    pub dts_us: u64,
    /// When it is decoded, in ticks.
    pub decode: u64,
    /// When it is shown, in ticks.
    pub compose: u64,
}

/// Whether a composition offset is a signed number of 32 bits.
pub(crate) fn is_offset(decode: u64, compose: u64) -> bool
    ensures { result ≡ is_offset decode compose }
{
    compose.saturating_sub(decode) < 1 << 31 && decode.saturating_sub(compose) <= 1 << 31
}

// The times of a sample that isn't above the greatest time nor before the start.
fn counted_times(given: &Given, sample: &Sample) -> Times
    requires scale { 1 ≤ given.now.scale }
    requires large { too_large sample.now ≡ None }
    requires start { before_start given.now sample.now ≡ None }
    ensures { result ≡ times_of given.now sample.now }
{
    let dts_us = sample.dts_us - given.options.start_us;
    let pts_us = sample.pts_us - given.options.start_us;
    Times {
        dts_us,
        decode: to_tick(dts_us, given.scale),
        compose: to_tick(pts_us, given.scale),
    }
}

// What is wrong with a sample's times by themselves, if anything.
fn fault_alone(given: &Given, sample: &Sample) -> Option<SampleFault>
    ensures { result ≡ first_fault (too_large sample.now ∷ before_start given.now sample.now ∷ []) }
{
    if sample.dts_us > GREATEST_US || sample.pts_us > GREATEST_US {
        Some(SampleFault::TimeTooLarge)
    } else if sample.dts_us < given.options.start_us || sample.pts_us < given.options.start_us {
        Some(SampleFault::BeforeStart)
    } else {
        None
    }
}

// What is wrong with a sample after the last accepted one, if anything.
fn fault_behind(
    given: &Given,
    last: &LastSample,
    sample: &Sample,
    decode: u64,
) -> Option<SampleFault>
    requires last { last.now.dts_us + given.now.options.start_us ≤ 2 ^ 48 }
    requires decode { decode ≡ tick_at given.now sample.now.dts_us }
    ensures { result ≡ first_fault (falls given.now (Some last.now) sample.now ∷ gap_too_long given.now (Some last.now) sample.now ∷ []) }
{
    let last_us = last.dts_us + given.options.start_us;
    if sample.dts_us < last_us {
        Some(SampleFault::Falls { last_us })
    } else if decode.saturating_sub(last.decode) >= 1 << 32 {
        Some(SampleFault::GapTooLong)
    } else {
        None
    }
}

/// The times of a sample, or the first rule of times by which it is refused after the last accepted one.
pub(crate) fn judge(
    given: &Given,
    last: &Option<LastSample>,
    sample: &Sample,
) -> Result<Times, SampleFault>
    requires scale { 1 ≤ given.now.scale }
    requires last { ForSome last.now (λ l. l.dts_us + given.now.options.start_us ≤ 2 ^ 48) }
    ensures refused { result_err result ≡ time_refusal given.now last.now sample.now }
    ensures times { IfOk result (λ times. times ≡ times_of given.now sample.now) }
    ensures small { OnOk result (sample.now.dts_us ≤ 2 ^ 48) }
{
    if let Some(fault) = fault_alone(given, sample) {
        return Err(fault);
    }
    let times = counted_times(given, sample);
    if let Some(last) = last {
        if let Some(fault) = fault_behind(given, last, sample, times.decode) {
            return Err(fault);
        }
    }
    if is_offset(times.decode, times.compose) {
        Ok(times)
    } else {
        Err(SampleFault::OffsetTooLarge)
    }
}
