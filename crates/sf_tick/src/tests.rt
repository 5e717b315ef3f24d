use super::*;
use sf_list::same;
use std::test::Fail;

#[test]
fn times_go_to_the_nearest_tick(rt: HostRuntime) -> Result<(), Fail> {
    same(to_tick(50, 90_000), 5)?;
    same(to_tick(0, 48_000), 0)?;
    same(to_tick(21_333, 48_000), 1024)?;
    same(to_tick(42_667, 48_000), 2048)?;
    same(to_tick(100, 90_000), 9)?;
    same(to_tick(1 << 48, u32::MAX), 1_208_925_819_333_154_198)?;
    Ok(())
}

#[test]
fn an_exact_half_tick_goes_up(rt: HostRuntime) -> Result<(), Fail> {
    same(to_tick(499_999, 1), 0)?;
    same(to_tick(500_000, 1), 1)?;
    same(to_tick(1_499_999, 1), 1)?;
    same(to_tick(1_500_000, 1), 2)?;
    Ok(())
}

#[test]
fn ticks_go_down_to_microseconds(rt: HostRuntime) -> Result<(), Fail> {
    same(to_us(1024, 48_000), 21_333)?;
    same(to_us(-1, 3), -333_334)?;
    same(to_us(-3, 3), -1_000_000)?;
    same(to_us(0, 1), 0)?;
    same(to_us(1 << 41, 1), 2_199_023_255_552_000_000)?;
    same(to_us(-(1 << 41), 1), -2_199_023_255_552_000_000)?;
    Ok(())
}
