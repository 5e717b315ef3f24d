//! When samples are shown, in microseconds.

ghost use Rattle.std.specs.Prelude.{◌≡◌, pos, neg_ℤ, ◌+ℤ◌, ◌-ℤ◌, ◌≤ℤ◌, ◌*◌, ◌^◌, ◌≤◌, unsigned_abs};
ghost use Rattle.sf_tick.specs.Tick.{us};

use sf_tick::{greatest_us, to_us};

/// The microseconds of so many ticks, rounded down. There may be more ticks than an `i64` holds.
pub(crate) fn length_us(ticks: u64, scale: u32) -> i64
    requires scale { 1 ≤ scale }
    requires ticks { ticks ≤ 2 ^ 40 * scale }
    ensures exact { result ≡ us (pos ticks) scale }
    ensures least { pos 0 ≤ℤ result }
    ensures most { result ≤ℤ pos (2 ^ 40 * 1000000) }
{
    (u128::from(ticks) * 1_000_000 / u128::from(scale)) as i64
}

// The microseconds at a tick, rounded down, within 2^41 seconds.
fn time_us(tick: i64, scale: u32) -> i64
    requires scale { 1 ≤ scale }
    requires tick { unsigned_abs tick ≤ 2 ^ 41 * scale }
    ensures exact { result ≡ us tick scale }
    ensures least { neg_ℤ (pos (2 ^ 41 * 1000000)) ≤ℤ result }
    ensures most { result ≤ℤ pos (2 ^ 41 * 1000000) }
{
    greatest_us(tick, scale);
    to_us(tick, scale)
}

/// When a sample is shown that is composed at a tick of a track with this timescale, which begins to be
/// shown after a lead, with a time of its media. The lead and that time are in microseconds.
pub(crate) fn shown_us(compose: i64, scale: u32, lead_us: i64, media_us: i64) -> i64
    requires scale { 1 ≤ scale }
    requires compose { unsigned_abs compose ≤ 2 ^ 41 * scale }
    requires lead { pos 0 ≤ℤ lead_us }
    requires early { lead_us ≤ℤ pos (2 ^ 40 * 1000000) }
    requires media { pos 0 ≤ℤ media_us }
    requires within { media_us ≤ℤ pos (2 ^ 40 * 1000000) }
    ensures { result ≡ (us compose scale +ℤ lead_us) -ℤ media_us }
{
    time_us(compose, scale) + lead_us - media_us
}
