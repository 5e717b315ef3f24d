//! An extractor: at which sample of each selected track it stands.

ghost use Rattle.std.specs.Prelude.{◌≡◌, ◌+◌, ◌≤◌, ◌<◌, ◌↔◌, length, is_some, option_map, Some, IfOk, IfSome, IsOk, OnOk, OnErr};
ghost use Rattle.sf_movie.specs.Loaded.{sample_count};
ghost use Rattle.sf_extract.specs.Current.{advanced, current, current_sample, flags_of, moved_to, place_of, selected, stored_len, unmoved, unselected};
ghost use Rattle.sf_extract.specs.HandedOut.{HandsOut, handed_now};
ghost use Rattle.sf_extract.specs.SyncAt.{seeked};
ghost use Rattle.sf_extract.specs.inner.Seats.{AreTheSeats, positions_in};

use crate::handed::{cut_width, hand_out};
use crate::order::{SyncOrder, orders_of};
use crate::seats::{Seat, first_seated, no_seats, seat_after, seat_selected};
use crate::seek::seek_all;
use crate::types::{Mode, NoTrack, Place, Standing};
use sf_avc::LengthFault;
use sf_list::Bytes;
use sf_movie::{Movie, PlainSample};
use std::alloc::{AllocError, Global};
use std::marker::Model;

/// A movie, and the position of each selected track. Times are in microseconds from the start of the file.
#[derive(Drop)]
pub struct Extractor<'a> {
    alloc: Global,
    movie: &'a Movie,
    seats: Vec<Option<Seat>>,
    orders: Vec<SyncOrder>,
}

impl<'a> Model for Extractor<'a> {
    ghost use Rattle.sf_extract.specs.Current.{Extracting};
    ghost use Rattle.sf_extract.specs.inner.Orders.{AreTheOrders};
    ghost use Rattle.sf_extract.specs.inner.Seats.{AreTheSeats, positions_in};

    ghost Value = { Extracting };

    ghost view = { λ e. record { loaded = e.movie.now; positions = positions_in e.seats.items } };

    ghost invariant = { λ e. AreTheSeats e.movie.now.movie e.seats.items × AreTheOrders e.movie.now.movie e.orders.items };
}

impl<'a> Extractor<'a> {
    /// An extractor of a movie, of which no track is selected. It goes along the samples of each track, so that
    /// a seek looks at few of them.
    pub fn new(alloc: Global, movie: &'a Movie) -> Result<Extractor<'a>, AllocError>
        ensures { IfOk result (λ e. e ≡ unmoved movie.now) }
    {
        let seats = no_seats(alloc, movie)?;
        let orders = orders_of(alloc, movie)?;
        Ok(Extractor {
            alloc,
            movie,
            seats,
            orders,
        })
    }

    /// A copy of where the tracks stand.
    pub(crate) fn seats(&self) -> Result<Vec<Option<Seat>>, AllocError>
        ensures positions { IfOk result (λ v. positions_in v.items ≡ self.now.positions) }
        ensures seats { IfOk result (λ v. AreTheSeats self.now.loaded.movie v.items) }
    {
        Vec::from_slice(self.alloc, &self.seats)
    }

    /// The tracks stand where they stood.
    pub(crate) fn put_back(&mut self, seats: Vec<Option<Seat>>)
        requires { AreTheSeats self.old.loaded.movie seats.items }
        ensures { self.new ≡ moved_to self.old (positions_in seats.items) }
    {
        self.seats = seats;
    }

    /// Selects a track, from its first sample on. A track that is selected stays where it is. It errs where
    /// the movie has no such track.
    #[tactic(auto, using(crate::proofs::SeatLemmas::is_seat))]
    pub fn select(&mut self, t: u32) -> Result<(), NoTrack>
        ensures there { IsOk result ↔ t < length self.old.loaded.movie.tracks }
        ensures ok { OnOk result (self.new ≡ selected self.old t) }
        ensures err { OnErr result (self.new ≡ self.old) }
    {
        let at = t as usize;
        if at >= self.seats.len() {
            return Err(NoTrack);
        }
        self.seats[at] = seat_selected(self.movie, t, self.seats[at]);
        Ok(())
    }

    /// Ends the selection of a track. It errs where the movie has no such track.
    pub fn unselect(&mut self, t: u32) -> Result<(), NoTrack>
        ensures there { IsOk result ↔ t < length self.old.loaded.movie.tracks }
        ensures ok { OnOk result (self.new ≡ unselected self.old t) }
        ensures err { OnErr result (self.new ≡ self.old) }
    {
        let at = t as usize;
        if at >= self.seats.len() {
            return Err(NoTrack);
        }
        self.seats[at] = None;
        Ok(())
    }

    /// Selects a track where the movie has it.
    pub(crate) fn select_any(&mut self, t: u64)
        ensures { self.new ≡ selected self.old t }
    {
        if t < self.seats.len() as u64 {
            let _selected = self.select(t as u32);
        }
    }

    /// Ends the selection of a track where the movie has it.
    pub(crate) fn unselect_any(&mut self, t: u64)
        ensures { self.new ≡ unselected self.old t }
    {
        if t < self.seats.len() as u64 {
            let _unselected = self.unselect(t as u32);
        }
    }

    /// The current sample.
    pub(crate) fn current(&self) -> Option<Standing>
        ensures exact { result ≡ current self.now }
        ensures track { IfSome result (λ s. s.track < length self.now.loaded.movie.tracks) }
        ensures sample { IfSome result (λ s. s.sample < sample_count self.now.loaded.movie s.track) }
    {
        first_seated(&self.seats)
    }

    // What the movie says of the current sample.
    fn current_sample(&self) -> Option<PlainSample>
        ensures exact { result ≡ current_sample self.now }
        ensures none { is_some result ≡ is_some (current self.now) }
        ensures short { IfSome result (λ s. s.size ≤ 67108864) }
    {
        match self.current() {
            Some(standing) => Some(self.movie.sample(standing.track, standing.sample)),
            None => None,
        }
    }

    /// The track of the current sample; none where there is no current sample.
    pub fn track(&self) -> Option<u32>
        ensures { result ≡ option_map (λ s. s.track) (current self.now) }
    {
        let standing = self.current()?;
        Some(standing.track)
    }

    /// When the current sample is shown, in microseconds; none where there is no current sample.
    pub fn time_us(&self) -> Option<i64>
        ensures { result ≡ option_map (λ s. s.shown_us) (current self.now) }
    {
        let standing = self.current()?;
        Some(standing.shown_us)
    }

    /// The flags of the current sample, 1 for sync, else 0; none where there is no current sample.
    pub fn flags(&self) -> Option<u32>
        ensures flags { result ≡ option_map flags_of (current_sample self.now) }
        ensures none { is_some result ≡ is_some (current self.now) }
    {
        match self.current_sample() {
            Some(sample) => Some(u32::from(sample.sync)),
            None => None,
        }
    }

    /// Where the bytes of the current sample lie; none where there is no current sample.
    pub fn place(&self) -> Option<Place>
        ensures place { result ≡ option_map place_of (current_sample self.now) }
        ensures len { option_map (λ p. p.len) result ≡ stored_len self.now }
        ensures none { is_some result ≡ is_some (current self.now) }
    {
        match self.current_sample() {
            Some(sample) => Some(Place {
                at: sample.place,
                len: sample.size,
            }),
            None => None,
        }
    }

    /// Moves the track of the current sample to its next sample, or to its end, and answers whether a current
    /// sample remains. Without a current sample nothing moves. It takes no memory.
    pub fn advance(&mut self) -> bool
        ensures moved { self.new ≡ advanced self.old }
        ensures remains { result ≡ is_some (current self.new) }
    {
        let Some(standing) = self.current() else {
            return false;
        };
        let at = standing.track as usize;
        self.seats[at] = Some(seat_after(self.movie, standing.track, standing.sample));
        self.current().is_some()
    }

    /// Moves each selected track to the sync sample that is sought, or to its end. It takes no memory.
    pub fn seek(&mut self, us: i64, mode: Mode)
        ensures { self.new ≡ seeked self.old us mode }
    {
        seek_all(self.movie, &self.orders, &mut self.seats, us, mode);
    }

    /// Puts what is handed out of the current sample, whose stored bytes these are, at the end, and answers how
    /// many bytes. It errs with the first place of a length of a unit that isn't whole or passes the end.
    pub fn sample_bytes(&self, stored: &[u8], into: &mut Bytes) -> Result<u32, LengthFault>
        requires { stored_len self.now ≡ Some (length stored.now) }
        ensures { HandsOut into.old into.new (handed_now self.now stored.now) result }
    {
        let Some(standing) = self.current() else {
            return Ok(0);
        };
        let sample = self.movie.sample(standing.track, standing.sample);
        let width = cut_width(self.movie, standing.track, sample.description);
        hand_out(self.alloc, width, stored, into)
    }
}
