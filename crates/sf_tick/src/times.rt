//! Times between microseconds and ticks.

ghost use Rattle.std.specs.Prelude.{◌≡◌, ◌*◌, ◌^◌, ◌≤◌, unsigned_abs};
ghost use Rattle.sf_tick.specs.Tick.{tick, us};

/// The tick nearest to a time in microseconds. An exact half goes up.
// Whole seconds apart, 64 bits hold each product.
#[tactic(auto, using(crate::proofs::Ticks::by_seconds, crate::proofs::Ticks::ticks_fit))]
pub fn to_tick(us: u64, scale: u32) -> u64
    requires scale { 1 ≤ scale }
    requires time { us ≤ 2 ^ 48 }
    ensures { result ≡ tick us scale }
{
    let (seconds, rest) = (us / 1_000_000, us % 1_000_000);
    seconds * u64::from(scale) + (rest * u64::from(scale) + 500_000) / 1_000_000
}

/// The microseconds at a tick, rounded down.
pub fn to_us(tick: i64, scale: u32) -> i64
    requires scale { 1 ≤ scale }
    requires tick { unsigned_abs tick ≤ 2 ^ 41 * scale }
    ensures { result ≡ us tick scale }
{
    (i128::from(tick) * 1_000_000).div_euclid(i128::from(scale)) as i64
}
