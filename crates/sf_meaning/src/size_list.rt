//! The sizes of samples, each in as many bits as in its box (ISO/IEC 14496-12, 8.7.3).

ghost use Rattle.std.specs.Prelude.{◌≡◌, ◌+◌, ◌-◌, ◌*◌, ◌^◌, ◌<◌, ◌≤◌, ◌∷◌, length, take, drop, get_or, sum};
ghost use Rattle.sf_meaning.specs.SampleSizes.{both_halves};
ghost use Rattle.sf_meaning.specs.inner.SizeList.{kept_sizes};

use sf_list::{Bytes, Items};
use std::marker::Model;

// Sizes by how many bits each takes.
#[derive(Drop)]
enum KeptSizes {
    /// Of `stsz`.
    Of32(Items<u32>),
    /// Of `stz2`, as all below.
    Of16(Items<u16>),
    Of8(Bytes),
    /// So many, the earlier sample's in the high half of its byte.
    Of4 { bytes: Bytes, count: u32 },
}

/// The size of each sample of a track, in bytes. Each takes as many bits as in its box.
#[derive(Drop)]
pub struct SizeList {
    sizes: KeptSizes,
}

impl Model for SizeList {
    ghost use Rattle.std.specs.Prelude.{ℕ, List};

    ghost Value = { List ℕ };

    ghost use Rattle.sf_meaning.specs.inner.SizeList.{kept_sizes};

    ghost view = { λ s. kept_sizes s.sizes };
}

// A half of a byte, by its number from 0. The high half comes first.
#[tactic(auto, using(crate::proofs::SizeLemmas::half_within, crate::proofs::SizeLemmas::high_half, crate::proofs::SizeLemmas::low_half))]
fn half_at(bytes: &[u8], i: usize) -> u8
    requires { i < length (both_halves bytes.now) }
    ensures { result ≡ get_or (both_halves bytes.now) i 0 }
{
    let byte = bytes[i / 2];
    if i % 2 == 0 { byte / 16 } else { byte % 16 }
}

// A half of a byte, of so many halves.
fn half_of(bytes: &[u8], count: u32, i: usize) -> u8
    requires { i < length (take count (both_halves bytes.now)) }
    ensures { drop i (take count (both_halves bytes.now)) ≡ result ∷ drop (i + 1) (take count (both_halves bytes.now)) }
{
    half_at(bytes, i)
}

// How many halves there are, of so many at most.
#[tactic(auto, using(crate::proofs::SizeLemmas::count_halves))]
fn count_of_halves(bytes: &[u8], count: u32) -> usize
    ensures { result ≡ length (take count (both_halves bytes.now)) }
{
    bytes.len().saturating_mul(2).min(count as usize)
}

// How many sizes there are.
fn count_kept(sizes: &KeptSizes) -> usize
    ensures { result ≡ length (kept_sizes sizes.now) }
{
    match sizes {
        KeptSizes::Of32(sizes) => sizes.len(),
        KeptSizes::Of16(sizes) => sizes.len(),
        KeptSizes::Of8(sizes) => sizes.len(),
        KeptSizes::Of4 { bytes, count } => count_of_halves(bytes.as_slice(), *count),
    }
}

// The size of a sample, by its number from 0.
fn size_kept(sizes: &KeptSizes, i: usize) -> u32
    requires { i < length (kept_sizes sizes.now) }
    ensures { drop i (kept_sizes sizes.now) ≡ result ∷ drop (i + 1) (kept_sizes sizes.now) }
{
    match sizes {
        KeptSizes::Of32(sizes) => sizes.as_slice()[i],
        KeptSizes::Of16(sizes) => u32::from(sizes.as_slice()[i]),
        KeptSizes::Of8(sizes) => u32::from(sizes.as_slice()[i]),
        KeptSizes::Of4 { bytes, count } => u32::from(half_of(bytes.as_slice(), *count, i)),
    }
}

impl SizeList {
    /// Sizes of 32 bits.
    pub(crate) fn of_32(sizes: Vec<u32>) -> SizeList
        ensures { result ≡ sizes.items }
    {
        SizeList {
            sizes: KeptSizes::Of32(Items::from_vec(sizes)),
        }
    }

    /// Sizes of 16 bits.
    pub(crate) fn of_16(sizes: Vec<u16>) -> SizeList
        ensures { result ≡ sizes.items }
    {
        SizeList {
            sizes: KeptSizes::Of16(Items::from_vec(sizes)),
        }
    }

    /// Sizes of 8 bits.
    pub(crate) fn of_8(sizes: Bytes) -> SizeList
        ensures { result ≡ sizes }
    {
        SizeList {
            sizes: KeptSizes::Of8(sizes),
        }
    }

    /// So many sizes of 4 bits, two in each byte, the high half first.
    pub(crate) fn of_4(bytes: Bytes, count: u32) -> SizeList
        ensures { result ≡ take count (both_halves bytes) }
    {
        SizeList {
            sizes: KeptSizes::Of4 { bytes, count },
        }
    }

    /// How many sizes there are.
    pub fn len(&self) -> usize
        ensures { result ≡ length self.now }
    {
        count_kept(&self.sizes)
    }

    /// The size of a sample, by its number from 0.
    pub fn at(&self, i: usize) -> u32
        requires { i < length self.now }
        ensures { drop i self.now ≡ result ∷ drop (i + 1) self.now }
    {
        size_kept(&self.sizes, i)
    }

    /// The sum of the sizes from one up to another.
    pub fn sum(&self, from: usize, to: usize) -> u64
        requires order { from ≤ to }
        requires within { to ≤ length self.now }
        requires few { length self.now ≤ 16777216 }
        ensures exact { result ≡ sum (take (to - from) (drop from self.now)) }
        ensures bound { result ≤ (to - from) * 2 ^ 32 }
    {
        let mut total = 0u64;
        for i in from..to {
            total += u64::from(self.at(i));
        }
        total
    }
}
