//! What holds of times, over numbers alone. The crates above build on these laws.

ghost use Rattle.std.specs.Prelude.{◌≡◌, ℕ, ◌^◌, ◌≤◌, ◌<◌, ℤ, pos, ◌≤ℤ◌};
ghost use Rattle.sf_tick.specs.Tick.{tick, us, IsNearest, IsBefore};

/// A law: the nearest tick is the only whole number that is near enough.
pub fn nearest_tick(us: u64, scale: u32)
    ensures is { IsNearest us scale (pos (tick us scale)) }
    ensures only { (x : ℤ) → IsNearest us scale x → x ≡ pos (tick us scale) }
{}

/// A law: a later time has no earlier tick, the first tick is 0, and those of the first 2^48 microseconds
/// stay below 2^61.
#[tactic(auto, using(crate::proofs::TickLaws::tick_laws))]
pub fn rising_tick(scale: u32)
    ensures zero { tick 0 scale ≡ 0 }
    ensures rises { (a b : ℕ) → a ≤ b → tick a scale ≤ tick b scale }
    ensures below { (us : ℕ) → us ≤ 2 ^ 48 → tick us scale < 2 ^ 61 }
{}

/// A law: the microseconds at a tick are the greatest whole number that isn't after it.
pub fn greatest_us(tick: i64, scale: u32)
    requires { 1 ≤ scale }
    ensures is { IsBefore tick scale (us tick scale) }
    ensures greatest { (y : ℤ) → IsBefore tick scale y → y ≤ℤ us tick scale }
{}
