ghost use Rattle.std.specs.Prelude.{◌≡◌, ◌≤◌, ◌<◌, ◌+◌, ◌^◌, List, ℕ, take, drop, length, refl, Some, true};
ghost use Rattle.std.proofs.Common.{lit<};
ghost use Rattle.sf_world.specs.Holes.{holed, lie_within, laid, over};
ghost use Rattle.sf_world.specs.Views.{told_source};

use super::{Failed, Fits, Measure, Source};
use sf_list::Bytes;
use std::alloc::Global;

/// A source of zeros with pieces laid over them. The zeros take no memory, so it can be as long as a
/// file of many gigabytes. It never fails.
#[derive(Drop)]
pub struct HoleSource {
    size: u64,
    pieces: Vec<(u64, Bytes)>,
    ghost within: { lie_within size pieces.items ≡ true },
}

impl HoleSource {
    /// Zeros of a length in bytes, with each piece at its place; where two meet, the later one is
    /// seen. The bytes are told. It takes no memory of the allocator.
    pub fn new(_alloc: Global, size: u64, pieces: Vec<(u64, Bytes)>) -> HoleSource
        requires within { lie_within size pieces.items ≡ true }
        ensures { ⟦<HoleSource as Source>⟧.seen result ≡ told_source (holed size pieces.items) 0 }
    {
        HoleSource { size, pieces }
    }
}

// Copies what a piece has of the bytes from a place on over those of a buffer, which begins there.
fn lay(piece: &[u8], place: u64, at: u64, into: &mut [u8])
    requires piece { place + length piece.now < 2 ^ 64 }
    requires range { at + length into.old < 2 ^ 64 }
    ensures { (bytes : List ℕ) → at + length into.old ≤ length bytes → place + length piece.now ≤ length bytes
        → into.old ≡ take (length into.old) (drop at bytes)
        → into.new ≡ take (length into.old) (drop at (over bytes place piece.now)) }
{
    let from = place.max(at);
    let end = (place + piece.len() as u64).min(at + into.len() as u64);
    if from < end {
        let part = &piece[(from - place) as usize..(end - place) as usize];
        into[(from - at) as usize..(end - at) as usize].copy_from_slice(part);
    }
}

// Fills a buffer with the bytes from a place on.
fn fill(pieces: &[(u64, Bytes)], size: u64, at: u64, into: &mut [u8])
    requires within { lie_within size pieces.now ≡ true }
    requires range { at + length into.old ≤ size }
    ensures { into.new ≡ take (length into.old) (drop at (holed size pieces.now)) }
{
    into.fill(0);
    for piece in pieces {
        lay(piece.1.as_slice(), piece.0, at, into);
    }
}

impl Fits for HoleSource {
    ghost fits = { λ source name. (length (holed source.size source.pieces.items) ≡ name.length)
        × (Some (holed source.size source.pieces.items) ≡ name.content) };
}

impl Measure for HoleSource {
    ghost measure = { λ source. 0 };
}

impl Source for HoleSource {
    ghost seen = { λ source. told_source (holed source.size source.pieces.items) 0 };

    ghost whole = { λ source. refl };

    ghost bounded = { λ source. lit< tt };

    ghost counted = { λ source. refl };

    ghost fitting = { λ source name fits. fits };

    ghost fits_if = { λ source name fits. fits };

    fn length(&self) -> u64 {
        self.size
    }

    fn read_at(&mut self, at: u64, into: &mut [u8]) -> Result<usize, Failed> {
        let count = (into.len() as u64).min(self.size.saturating_sub(at)) as usize;
        if count > 0 {
            fill(&self.pieces, self.size, at, &mut into[..count]);
        }
        Ok(count)
    }
}
