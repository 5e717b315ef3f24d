//! Where the selected tracks stand, each with the time at which its sample is shown.

ghost use Rattle.std.specs.Prelude.{◌≡◌, ◌≤◌, ◌<◌, length, ◌+◌, replicate, unwrap_or, None, Some, IfOk};
ghost use Rattle.sf_movie.specs.Loaded.{sample_count};
ghost use Rattle.sf_extract.specs.Current.{earlier};
ghost use Rattle.sf_extract.specs.inner.Seats.{AreTheSeats, IsSeat, first_seated, position_in, positions_in, seated};

use crate::types::Standing;
use sf_movie::Movie;
use std::alloc::{AllocError, Global};

/// Where a selected track stands.
#[derive(Clone, Copy)]
pub(crate) struct Seat {
    /// The number of a sample, or at the end the count of the samples.
    pub position: u64,
    /// When that sample is shown, in microseconds; none at the end.
    pub shown_us: Option<i64>,
}

/// The seat at a position of a track.
#[tactic(auto, using(crate::proofs::SeatLemmas::none_shown))]
pub(crate) fn seat_at(movie: &Movie, t: u32, position: u64) -> Seat
    requires { t < length movie.now.movie.tracks }
    ensures position { result.position ≡ position }
    ensures seat { IsSeat movie.now.movie t (Some result) }
{
    if position < movie.count(t) {
        let shown_us = movie.shown(t, position);
        return Seat {
            position,
            shown_us: Some(shown_us),
        };
    }
    Seat {
        position,
        shown_us: None,
    }
}

/// The seat after a sample of a track.
pub(crate) fn seat_after(movie: &Movie, t: u32, sample: u64) -> Seat
    requires track { t < length movie.now.movie.tracks }
    requires there { sample < sample_count movie.now.movie t }
    ensures position { result.position ≡ sample + 1 }
    ensures seat { IsSeat movie.now.movie t (Some result) }
{
    let _count = movie.count(t);
    seat_at(movie, t, sample + 1)
}

/// The seat of a track that is selected: where it stands, or at the first sample.
pub(crate) fn seat_selected(movie: &Movie, t: u32, seat: Option<Seat>) -> Option<Seat>
    requires track { t < length movie.now.movie.tracks }
    requires seat { IsSeat movie.now.movie t seat }
    ensures position { position_in result ≡ Some (unwrap_or (position_in seat) 0) }
    ensures seat { IsSeat movie.now.movie t result }
{
    match seat {
        Some(seat) => Some(seat),
        None => Some(seat_at(movie, t, 0)),
    }
}

// The sample at a seat of a track.
fn seated(t: u32, seat: Option<Seat>) -> Option<Standing>
    ensures { result ≡ seated t seat }
{
    match seat {
        None => None,
        Some(seat) => match seat.shown_us {
            None => None,
            Some(shown_us) => Some(Standing {
                track: t,
                sample: seat.position,
                shown_us,
            }),
        },
    }
}

// The sample that is shown earlier, the first one where both are shown at once.
fn earlier(one: Option<Standing>, other: Option<Standing>) -> Option<Standing>
    ensures { result ≡ earlier one other }
{
    match (one, other) {
        (None, other) => other,
        (Some(one), None) => Some(one),
        (Some(one), Some(other)) => {
            if one.shown_us <= other.shown_us {
                Some(one)
            } else {
                Some(other)
            }
        }
    }
}

/// Of the samples at the seats the one that is shown first, of the lowest track where several are shown at
/// once.
#[tactic(auto, using(crate::proofs::SeatLemmas::first_step, crate::proofs::SeatLemmas::first_none))]
pub(crate) fn first_seated(seats: &[Option<Seat>]) -> Option<Standing>
    requires { length seats.now ≤ 64 }
    ensures { result ≡ first_seated 0 seats.now }
{
    let mut found = None;
    let mut t = seats.len();
    while t > 0 {
        t -= 1;
        found = earlier(seated(t as u32, seats[t]), found);
    }
    found
}

/// No seat for any track of a movie.
#[tactic(auto, using(crate::proofs::SeatLemmas::none_seated, crate::proofs::SeatLemmas::none_in))]
pub(crate) fn no_seats(alloc: Global, movie: &Movie) -> Result<Vec<Option<Seat>>, AllocError>
    ensures positions { IfOk result (λ v. positions_in v.items ≡ replicate (length movie.now.movie.tracks) None) }
    ensures seats { IfOk result (λ v. AreTheSeats movie.now.movie v.items) }
{
    let count = movie.track_count() as usize;
    Ok(vec![in alloc; None; count]?)
}
