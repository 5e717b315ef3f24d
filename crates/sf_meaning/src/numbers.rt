//! Numbers that stand one after the other in a table.

ghost use Rattle.std.specs.Prelude.{◌≡◌, ◌+◌, ◌*◌, ◌≤◌, length, drop, IfOk};
ghost use Rattle.sf_meaning.specs.Tables.{words, wide_words};
ghost use Rattle.sf_meaning.specs.SampleSizes.{half_words};

use sf_box::{read_u16, read_u32, read_u64};
use std::alloc::{AllocError, Global};

/// So many numbers of four bytes, from a place in a table on.
pub(crate) fn words(
    alloc: Global,
    table: &[u8],
    from: u32,
    count: u32,
) -> Result<Vec<u32>, AllocError>
    requires { from + 4 * count ≤ length table.now }
    ensures { IfOk result (λ numbers. numbers.items ≡ words count (drop from table.now)) }
{
    let mut numbers = Vec::with_capacity(alloc, count as usize)?;
    for i in 0..count as usize {
        numbers.push(read_u32(table, from as usize + 4 * i))?;
    }
    Ok(numbers)
}

/// So many numbers of eight bytes, from a place in a table on.
pub(crate) fn wide_words(
    alloc: Global,
    table: &[u8],
    from: u32,
    count: u32,
) -> Result<Vec<u64>, AllocError>
    requires { from + 8 * count ≤ length table.now }
    ensures { IfOk result (λ numbers. numbers.items ≡ wide_words count (drop from table.now)) }
{
    let mut numbers = Vec::with_capacity(alloc, count as usize)?;
    for i in 0..count as usize {
        numbers.push(read_u64(table, from as usize + 8 * i))?;
    }
    Ok(numbers)
}

/// So many numbers of two bytes, from a place in a table on.
pub(crate) fn half_words(
    alloc: Global,
    table: &[u8],
    from: u32,
    count: u32,
) -> Result<Vec<u16>, AllocError>
    requires { from + 2 * count ≤ length table.now }
    ensures { IfOk result (λ numbers. numbers.items ≡ half_words count (drop from table.now)) }
{
    let mut numbers = Vec::with_capacity(alloc, count as usize)?;
    for i in 0..count as usize {
        numbers.push(read_u16(table, from as usize + 2 * i))?;
    }
    Ok(numbers)
}
