//! How many bytes the samples before every sixteenth one take, so that the place of a sample is found without a walk along
//! its chunk.

ghost use Rattle.std.specs.Prelude.{◌≡◌, ◌+◌, ◌*◌, ◌^◌, ◌≤◌, length, take, drop, sum, IfOk};
ghost use Rattle.sf_meaning.specs.ReadTables.{sizes_view};
ghost use Rattle.sf_cursor.specs.inner.Sound.{AreSums, HaveSums};

use sf_list::Items;
use sf_meaning::{SizeList, Sizes};
use std::alloc::{AllocError, Global};

/// After how many samples their sizes are summed up again.
const BLOCK: usize = 16;

// The sum of the sizes of a block, the last of which may be shorter.
fn block_sum(sizes: &SizeList, block: usize) -> u64
    requires within { 16 * block ≤ length sizes.now }
    requires few { length sizes.now ≤ 16777216 }
    ensures exact { result ≡ sum (take 16 (drop (16 * block) sizes.now)) }
    ensures bound { result ≤ 16 * 2 ^ 32 }
{
    let from = BLOCK * block;
    let to = sizes.len().min(from + BLOCK);
    sizes.sum(from, to)
}

// The sums before the blocks of sizes.
fn each_sums(alloc: Global, sizes: &SizeList) -> Result<Items<u64>, AllocError>
    requires { length sizes.now ≤ 16777216 }
    ensures { IfOk result (λ sums. AreSums sizes.now sums) }
{
    let blocks = sizes.len() / BLOCK + 1;
    let mut sums = Items::from_vec(Vec::with_capacity(alloc, blocks)?);
    let mut total = 0u64;
    for block in 0..blocks {
        sums.push(total)?;
        total += block_sum(sizes, block);
    }
    Ok(sums)
}

/// The sums before the blocks of sizes, which are needed where each sample has a size of its own.
pub(crate) fn block_sums(alloc: Global, sizes: &Sizes) -> Result<Items<u64>, AllocError>
    requires { length (sizes_view sizes.now) ≤ 16777216 }
    ensures { IfOk result (λ sums. HaveSums sizes.now sums) }
{
    match sizes {
        Sizes::Same { .. } => Ok(Items::new(alloc)),
        Sizes::Each(sizes) => each_sums(alloc, sizes),
    }
}

// The sum of the sizes before a sample.
fn sum_before(sizes: &SizeList, sums: &[u64], i: u32) -> u64
    requires sums { AreSums sizes.now sums.now }
    requires within { i ≤ length sizes.now }
    requires few { length sizes.now ≤ 16777216 }
    ensures { result ≡ sum (take i sizes.now) }
{
    let i = i as usize;
    let block = i / BLOCK;
    sums[block] + sizes.sum(BLOCK * block, i)
}

/// How many bytes so many samples have, from one on.
pub(crate) fn bytes_of(sizes: &Sizes, sums: &[u64], from: u32, count: u32) -> u64
    requires within { from + count ≤ length (sizes_view sizes.now) }
    requires few { length (sizes_view sizes.now) ≤ 16777216 }
    requires sums { HaveSums sizes.now sums.now }
    ensures { result ≡ sum (take count (drop from (sizes_view sizes.now))) }
{
    match sizes {
        Sizes::Same { size, .. } => u64::from(count) * u64::from(*size),
        Sizes::Each(sizes) => {
            let end = sum_before(sizes, sums, from + count);
            end - sum_before(sizes, sums, from)
        }
    }
}
