//! The sync samples of each track, in the order in which they're shown, so that a seek looks at few of them.

ghost use Rattle.std.specs.Prelude.{◌≡◌, ◌+◌, ◌≤◌, ◌<◌, length, map, get_or, true, IfOk};
ghost use Rattle.sf_movie.specs.Loaded.{sync_samples};
ghost use Rattle.sf_extract.specs.inner.Orders.{AreTheOrders, IsOrder, Sorts, SyncsRise, nth, ordered, sync_of, time_at};

use crate::types::Sync;
use sf_list::Items;
use sf_movie::Movie;
use std::alloc::{AllocError, Global};

/// The sync samples of a track in the order in which they're shown, and by their numbers where they're shown
/// at once.
#[derive(Drop)]
pub(crate) enum SyncOrder {
    /// They're shown in the order of their numbers, so many of them: those that the movie tells.
    ByNumber(u64),
    /// Those of these numbers.
    Listed(Items<u64>),
}

// When a sample is shown, and 0 where there is no such sample.
#[tactic(auto, using(crate::proofs::NumberLemmas::time_of_none, crate::proofs::NumberLemmas::time_past, crate::proofs::NumberLemmas::time_is))]
fn time_of(movie: &Movie, t: u32, i: u64) -> i64
    ensures { result ≡ time_at movie.now.movie t i }
{
    if t >= movie.track_count() {
        return 0;
    }
    if i >= movie.count(t) {
        return 0;
    }
    movie.shown(t, i)
}

// A sample of a track as a sync sample.
fn sync_of(movie: &Movie, t: u32, i: u64) -> Sync
    ensures { result ≡ sync_of movie.now.movie t i }
{
    Sync {
        sample: i,
        shown_us: time_of(movie, t, i),
    }
}

// The sync sample of a track at a place among them, by their numbers.
#[tactic(auto, using(crate::proofs::NumberLemmas::time_is))]
fn sync_there(movie: &Movie, t: u32, k: u64) -> Sync
    requires track { t < length movie.now.movie.tracks }
    requires there { k < length (sync_samples movie.now.movie t) }
    ensures { result ≡ sync_of movie.now.movie t (get_or (sync_samples movie.now.movie t) k 0) }
{
    let sample = movie.sync_number(t, k);
    Sync {
        sample,
        shown_us: movie.shown(t, sample),
    }
}

// Whether the sync samples of a track, so many, are shown in the order of their numbers.
fn syncs_rise(movie: &Movie, t: u32, count: u64) -> bool
    requires track { t < length movie.now.movie.tracks }
    requires count { count ≡ length (sync_samples movie.now.movie t) }
    ensures { result ≡ true → SyncsRise movie.now.movie t count }
{
    let mut last = i64::MIN;
    for k in 0..count {
        let sync = sync_there(movie, t, k);
        if sync.shown_us < last {
            return false;
        }
        last = sync.shown_us;
    }
    true
}

// The numbers of the sync samples of a track, so many.
fn sync_numbers(alloc: Global, movie: &Movie, t: u32, count: u64) -> Result<Vec<u64>, AllocError>
    requires track { t < length movie.now.movie.tracks }
    requires count { count ≡ length (sync_samples movie.now.movie t) }
    ensures { IfOk result (λ v. v.items ≡ sync_samples movie.now.movie t) }
{
    let mut numbers = Vec::with_capacity(alloc, count as usize)?;
    for k in 0..count {
        numbers.push(movie.sync_number(t, k))?;
    }
    Ok(numbers)
}

// Puts the samples of these numbers in the order in which they're shown.
fn put_in_order(movie: &Movie, t: u32, numbers: &mut [u64])
    ensures sorted { Sorts (map (sync_of movie.now.movie t) numbers.old) (map (sync_of movie.now.movie t) numbers.new) }
    ensures len { length numbers.new ≡ length numbers.old }
{
    numbers.sort_unstable_by_key(
        |i| -> (i64, u64)
            ensures { result ≡ (time_at movie.entry.now.movie t i.now, i.now) }
        { (time_of(movie, t, *i), *i) },
    );
}

// The sync samples of a track in order. Nothing is kept of those that are shown in the order of their numbers.
fn order_of(alloc: Global, movie: &Movie, t: u32) -> Result<SyncOrder, AllocError>
    requires { t < length movie.now.movie.tracks }
    ensures { IfOk result (λ o. IsOrder movie.now.movie t o) }
{
    let count = movie.sync_count(t);
    if syncs_rise(movie, t, count) {
        return Ok(SyncOrder::ByNumber(count));
    }
    let mut numbers = sync_numbers(alloc, movie, t, count)?;
    put_in_order(movie, t, &mut numbers);
    Ok(SyncOrder::Listed(Items::from_vec(numbers)))
}

/// The sync samples of each track of a movie in order.
pub(crate) fn orders_of(alloc: Global, movie: &Movie) -> Result<Vec<SyncOrder>, AllocError>
    ensures { IfOk result (λ v. AreTheOrders movie.now.movie v.items) }
{
    let mut orders = Vec::new(alloc);
    for t in 0..movie.track_count() {
        orders.push(order_of(alloc, movie, t)?)?;
    }
    Ok(orders)
}

/// How many sync samples a track has.
pub(crate) fn order_len(movie: &Movie, t: u32, order: &SyncOrder) -> u64
    requires track { t < length movie.now.movie.tracks }
    requires order { IsOrder movie.now.movie t order.now }
    ensures { result ≡ length (ordered movie.now.movie t order.now) }
{
    match order {
        SyncOrder::ByNumber(count) => *count,
        SyncOrder::Listed(numbers) => numbers.len() as u64,
    }
}

/// The sync sample at a place of their order.
pub(crate) fn order_at(movie: &Movie, t: u32, order: &SyncOrder, k: u64) -> Sync
    requires track { t < length movie.now.movie.tracks }
    requires order { IsOrder movie.now.movie t order.now }
    requires there { k < length (ordered movie.now.movie t order.now) }
    ensures { result ≡ nth (ordered movie.now.movie t order.now) k }
{
    match order {
        SyncOrder::ByNumber(_) => sync_there(movie, t, k),
        SyncOrder::Listed(numbers) => sync_of(movie, t, numbers.as_slice()[k as usize]),
    }
}
