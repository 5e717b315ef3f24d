//! The places of chunks, each in as many bytes as in its box (ISO/IEC 14496-12, 8.7.5).

ghost use Rattle.std.specs.Prelude.{◌≡◌, ◌<◌, length, get_or};
ghost use Rattle.sf_meaning.specs.inner.PlaceList.{kept_places};

use sf_list::Items;
use std::marker::Model;

// Places by how many bytes each takes.
#[derive(Drop)]
enum KeptPlaces {
    /// Of `stco`.
    Four(Items<u32>),
    /// Of `co64`.
    Eight(Items<u64>),
}

/// The places of the chunks of a track, in bytes from the start of the file. Each takes as many bytes as in
/// its box.
#[derive(Drop)]
pub struct PlaceList {
    places: KeptPlaces,
}

impl Model for PlaceList {
    ghost use Rattle.std.specs.Prelude.{ℕ, List};

    ghost Value = { List ℕ };

    ghost use Rattle.sf_meaning.specs.inner.PlaceList.{kept_places};

    ghost view = { λ p. kept_places p.places };
}

// How many places there are.
fn count_kept(places: &KeptPlaces) -> usize
    ensures { result ≡ length (kept_places places.now) }
{
    match places {
        KeptPlaces::Four(places) => places.len(),
        KeptPlaces::Eight(places) => places.len(),
    }
}

// A place by its number, from 0.
fn place_kept(places: &KeptPlaces, c: usize) -> u64
    requires { c < length (kept_places places.now) }
    ensures { result ≡ get_or (kept_places places.now) c 0 }
{
    match places {
        KeptPlaces::Four(places) => u64::from(places.as_slice()[c]),
        KeptPlaces::Eight(places) => places.as_slice()[c],
    }
}

impl PlaceList {
    /// Places of four bytes.
    pub(crate) fn of_four(places: Vec<u32>) -> PlaceList
        ensures { result ≡ places.items }
    {
        PlaceList {
            places: KeptPlaces::Four(Items::from_vec(places)),
        }
    }

    /// Places of eight bytes.
    pub(crate) fn of_eight(places: Vec<u64>) -> PlaceList
        ensures { result ≡ places.items }
    {
        PlaceList {
            places: KeptPlaces::Eight(Items::from_vec(places)),
        }
    }

    /// How many places there are.
    pub fn len(&self) -> usize
        ensures { result ≡ length self.now }
    {
        count_kept(&self.places)
    }

    /// The place of a chunk, by its number from 0.
    pub fn at(&self, c: usize) -> u64
        requires { c < length self.now }
        ensures { result ≡ get_or self.now c 0 }
    {
        place_kept(&self.places, c)
    }
}
