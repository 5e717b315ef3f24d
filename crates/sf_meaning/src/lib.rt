//! What the bytes of a movie file mean (ISO/IEC 14496-12).
//!
//! `specs/Movie.antt` says which movie a file's bytes are, or the first thing that is wrong with them, and
//! stands on `specs/Tracks.antt` for a track, `specs/TrackHeads.antt` for its headers and
//! `specs/TrackSamples.antt` for its samples. `specs/Joined.antt` and `specs/Groups.antt` say which samples
//! a file holds, all of them and chunk by chunk, and which a series of files; `specs/Shown.antt` when they
//! are shown. `specs/Stbl.antt` says which bytes the writer gives the tables of a track, and the law
//! `tracks_are_read_back` that they are read back.
//! `specs/Accepted.antt` says what holds of each movie that is accepted, by the law `accepted_movies`.
//!
//! Each `read_` function reads one box, exactly as its definition says. `plain_movie` and `plain_file` are
//! the plain programs that compute `movie`: clear before fast, and linear in samples and boxes.
#![tactic(auto)]

mod boxes;
mod chunk_list;
mod counts;
mod ctts;
mod dref;
mod elst;
mod entries;
mod faults;
mod found;
mod heads;
mod laws;
mod listing;
mod movie;
mod movie_box;
mod movie_file;
mod numbers;
mod place_list;
mod places;
mod run_sums;
mod sample_list;
mod sfts;
mod size_list;
mod sizes;
mod stsc;
mod stss;
mod stts;
mod timescale;
mod track_heads;
mod track_samples;
mod track_tables;
mod tracks;

pub use boxes::{boxes_in, of_kind};
pub use ctts::read_ctts;
pub use dref::read_dref;
pub use elst::{Edit, Shift, read_elst};
pub use entries::{ChunkAt, ChunkRun, TimeRun};
pub use faults::{HeadFault, MovieFault, TableFault};
pub use found::Found;
pub use heads::boxes_at;
pub use laws::{
    accepted_movies, chunks_in_a_file, few_bytes_fit, headers_are_read_back, rows_list_samples,
    samples_one_by_one, tracks_are_read_back,
};
pub use listing::offset_in;
pub use movie::{PlainMovie, PlainSample, PlainTrack, TrackKind};
pub use movie_box::{header_scale, in_moov, movie_scale, plain_movie, start_told, tracks_of};
pub use movie_file::plain_file;
pub use place_list::PlaceList;
pub use places::read_places;
pub use run_sums::sum_of_first;
pub use sample_list::{count_of, size_at};
pub use sf_entry::EntryFault;
pub use sf_tick::{Chunk, Kind, Sample, Samples, Setup, Stored, to_tick, to_us};
pub use sfts::read_sfts;
pub use size_list::SizeList;
pub use sizes::{Sizes, read_sizes};
pub use stsc::read_stsc;
pub use stss::read_stss;
pub use stts::read_stts;
pub use timescale::read_timescale;
pub use track_heads::{TrackHeads, body_at, heads_in};
pub use track_samples::say_samples;
pub use track_tables::{Tables, tables_told};
pub use tracks::{entries_told, heads_told, kind_in, table_boxes};
