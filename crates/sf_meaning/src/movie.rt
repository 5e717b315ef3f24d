use sf_list::Items;

/// What a track's samples are, by its first sample entry.
#[derive(Clone, Copy, Debug, PartialEq, Eq)]
pub enum TrackKind {
    Avc,
    Aac,
    Other,
}

/// A sample of a movie: its times, and where its bytes lie in the file.
#[derive(Clone, Copy, Debug, PartialEq, Eq)]
pub struct PlainSample {
    /// When it is decoded, in ticks of its track.
    pub decode: u64,
    /// When it is shown, in ticks of its track, before its edit list.
    pub compose: i64,
    /// Whether decoding can begin here.
    pub sync: bool,
    /// Where its bytes begin, counted from the start of the file.
    pub place: u64,
    /// How many bytes it has.
    pub size: u32,
    /// Which sample entry describes it, from 1.
    pub description: u32,
}

/// A track of a movie, with all of its samples in decoding order.
#[derive(Drop)]
pub struct PlainTrack {
    pub kind: TrackKind,
    /// Ticks a second.
    pub scale: u32,
    /// How long nothing is shown first, in ticks of the movie.
    pub lead: u64,
    /// What is shown first after that, in ticks of the track.
    pub media_time: u64,
    pub samples: Items<PlainSample>,
}

/// A movie: its timescale, when it starts, and its tracks.
#[derive(Drop)]
pub struct PlainMovie {
    /// Ticks a second of the movie's own times.
    pub scale: u32,
    /// When the file starts, in microseconds after the series' start.
    pub start_us: u64,
    pub tracks: Items<PlainTrack>,
}
