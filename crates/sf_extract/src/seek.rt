//! The sync sample to which a seek leads, found by halving.

ghost use Rattle.std.specs.Prelude.{◌≡◌, ◌≢◌, ◌<◌, int_le, true, length, slice_get, option_map, Some};
ghost use Rattle.sf_extract.specs.SyncAt.{all_sought, is_earlier, is_nearer, sought, sync_at, syncs_of};
ghost use Rattle.sf_extract.specs.inner.Orders.{AreTheOrders, Finds, IsOrder, IsSplit, nearer_of, nth, ordered};
ghost use Rattle.sf_extract.specs.inner.Seats.{AreTheSeats, IsSeat, position_in, positions_in};

use crate::order::{SyncOrder, order_at, order_len};
use crate::seats::{Seat, seat_at};
use crate::types::{Mode, Sync};
use sf_movie::Movie;

// Whether one is shown nearer to a time than the other, or as near and before it.
fn is_nearer(us: i64, one: Sync, other: Sync) -> bool
    ensures { result ≡ is_nearer us one other }
{
    let distance = one.shown_us.abs_diff(us);
    let limit = other.shown_us.abs_diff(us);
    distance < limit || (distance == limit && one.shown_us < other.shown_us)
}

// The nearer one of the latest one until a time and the earliest one from it on, the earlier one where both are
// as near.
fn nearer(us: i64, until: Option<Sync>, from: Option<Sync>) -> Option<Sync>
    ensures { result ≡ nearer_of us until from }
{
    match (until, from) {
        (None, from) => from,
        (Some(until), None) => Some(until),
        (Some(until), Some(from)) => {
            if is_nearer(us, from, until) {
                Some(from)
            } else {
                Some(until)
            }
        }
    }
}

// How many sync samples of a track are shown before a time.
fn shown_before(movie: &Movie, t: u32, order: &SyncOrder, us: i64) -> u64
    requires track { t < length movie.now.movie.tracks }
    requires order { IsOrder movie.now.movie t order.now }
    ensures { IsSplit (ordered movie.now.movie t order.now) us result }
{
    let mut low = 0;
    let mut high = order_len(movie, t, order);
    while low < high {
        let middle = low + (high - low) / 2;
        if order_at(movie, t, order, middle).shown_us < us {
            low = middle + 1;
        } else {
            high = middle;
        }
    }
    low
}

// The earliest one of all.
fn earliest(movie: &Movie, t: u32, order: &SyncOrder) -> Option<Sync>
    requires track { t < length movie.now.movie.tracks }
    requires order { IsOrder movie.now.movie t order.now }
    ensures { Finds is_earlier (λ _. true) (syncs_of movie.now.movie (slice_get movie.now.movie.tracks t)) result }
{
    if order_len(movie, t, order) == 0 {
        return None;
    }
    Some(order_at(movie, t, order, 0))
}

// The earliest one from a time on, of which so many are shown before it.
fn earliest_from(movie: &Movie, t: u32, order: &SyncOrder, us: i64, before: u64) -> Option<Sync>
    requires track { t < length movie.now.movie.tracks }
    requires order { IsOrder movie.now.movie t order.now }
    requires split { IsSplit (ordered movie.now.movie t order.now) us before }
    ensures { Finds is_earlier (λ s. int_le us s.shown_us) (syncs_of movie.now.movie (slice_get movie.now.movie.tracks t)) result }
{
    if before >= order_len(movie, t, order) {
        return None;
    }
    Some(order_at(movie, t, order, before))
}

// How many are shown before the time of the one at a place: mostly those before it in order, else found by halving.
fn shown_before_one(movie: &Movie, t: u32, order: &SyncOrder, k: u64, us: i64) -> u64
    requires track { t < length movie.now.movie.tracks }
    requires order { IsOrder movie.now.movie t order.now }
    requires there { k < length (ordered movie.now.movie t order.now) }
    requires time { (nth (ordered movie.now.movie t order.now) k).shown_us ≡ us }
    ensures { IsSplit (ordered movie.now.movie t order.now) us result }
{
    if k > 0 {
        let earlier = order_at(movie, t, order, k - 1);
        if earlier.shown_us < us {
            return k;
        }
    }
    shown_before(movie, t, order, us)
}

// The first one of those that are shown last before a time, of which so many are shown before it.
fn last_before(movie: &Movie, t: u32, order: &SyncOrder, us: i64, before: u64) -> Sync
    requires track { t < length movie.now.movie.tracks }
    requires order { IsOrder movie.now.movie t order.now }
    requires split { IsSplit (ordered movie.now.movie t order.now) us before }
    requires some { 0 < before }
    requires none { before < length (ordered movie.now.movie t order.now) → (nth (ordered movie.now.movie t order.now) before).shown_us ≢ us }
    ensures { Finds (λ s other. is_earlier other s) (λ s. int_le s.shown_us us) (syncs_of movie.now.movie (slice_get movie.now.movie.tracks t)) (Some result) }
{
    let last = order_at(movie, t, order, before - 1);
    let first = shown_before_one(movie, t, order, before - 1, last.shown_us);
    order_at(movie, t, order, first)
}

// The latest one until a time, of which so many are shown before it.
fn latest_until(movie: &Movie, t: u32, order: &SyncOrder, us: i64, before: u64) -> Option<Sync>
    requires track { t < length movie.now.movie.tracks }
    requires order { IsOrder movie.now.movie t order.now }
    requires split { IsSplit (ordered movie.now.movie t order.now) us before }
    ensures { Finds (λ s other. is_earlier other s) (λ s. int_le s.shown_us us) (syncs_of movie.now.movie (slice_get movie.now.movie.tracks t)) result }
{
    if before < order_len(movie, t, order) {
        let next = order_at(movie, t, order, before);
        if next.shown_us == us {
            return Some(next);
        }
    }
    if before == 0 {
        return None;
    }
    Some(last_before(movie, t, order, us, before))
}

// The sync sample of a track to which a seek leads.
fn sought(movie: &Movie, t: u32, order: &SyncOrder, us: i64, mode: Mode) -> Option<Sync>
    requires track { t < length movie.now.movie.tracks }
    requires order { IsOrder movie.now.movie t order.now }
    ensures { result ≡ sought us mode (syncs_of movie.now.movie (slice_get movie.now.movie.tracks t)) }
{
    let before = shown_before(movie, t, order, us);
    match mode {
        Mode::Previous => match latest_until(movie, t, order, us, before) {
            Some(sync) => Some(sync),
            None => earliest(movie, t, order),
        },
        Mode::Next => earliest_from(movie, t, order, us, before),
        Mode::Closest => nearer(
            us,
            latest_until(movie, t, order, us, before),
            earliest_from(movie, t, order, us, before),
        ),
    }
}

// The position of a track after a seek.
#[tactic(auto, unfolding(crate::specs::SyncAt::sync_at))]
fn sync_at(movie: &Movie, t: u32, order: &SyncOrder, us: i64, mode: Mode) -> u64
    requires track { t < length movie.now.movie.tracks }
    requires order { IsOrder movie.now.movie t order.now }
    ensures { result ≡ sync_at movie.now.movie t us mode }
{
    match sought(movie, t, order, us, mode) {
        Some(sync) => sync.sample,
        None => movie.count(t),
    }
}

// The seat of a track after a seek.
fn seat_sought(
    movie: &Movie,
    t: u32,
    order: &SyncOrder,
    seat: Option<Seat>,
    us: i64,
    mode: Mode,
) -> Option<Seat>
    requires track { t < length movie.now.movie.tracks }
    requires order { IsOrder movie.now.movie t order.now }
    ensures position { position_in result ≡ option_map (λ i. sync_at movie.now.movie t us mode) (position_in seat) }
    ensures seat { IsSeat movie.now.movie t result }
{
    match seat {
        Some(_) => Some(seat_at(movie, t, sync_at(movie, t, order, us, mode))),
        None => None,
    }
}

/// Moves each selected track to its sync sample.
#[tactic(auto, using(crate::proofs::SyncLemmas::sought_step, crate::proofs::SeatLemmas::set_seat))]
pub(crate) fn seek_all(
    movie: &Movie,
    orders: &[SyncOrder],
    seats: &mut [Option<Seat>],
    us: i64,
    mode: Mode,
)
    requires orders { AreTheOrders movie.now.movie orders.now }
    requires seats { AreTheSeats movie.now.movie seats.old }
    ensures positions { positions_in seats.new ≡ all_sought movie.now.movie us mode 0 (positions_in seats.old) }
    ensures seats { AreTheSeats movie.now.movie seats.new }
{
    for t in 0..seats.len() {
        seats[t] = seat_sought(movie, t as u32, &orders[t], seats[t], us, mode);
    }
}
