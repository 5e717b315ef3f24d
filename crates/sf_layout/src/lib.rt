//! Which bytes the writer gives a file of several tracks (ISO/IEC 14496-12), and what they mean.
//!
//! `specs/MovieBox.antt` says the movie box of tracks of which a `TrackHead` says what the headers need.
//! `specs/Layout.antt` says the file of chunks that were written one after the other, each of its own
//! track. `specs/Written.antt` says which movie that file is, and which samples it holds, and
//! `specs/Writable.antt` of which chunks the file is read back. That it is read so is a law, which
//! `layout_is_movie` states; what one more chunk adds is another, `one_more_chunk`.
#![tactic(auto)]

mod heads;
mod laws;

pub use heads::TrackHead;
pub use laws::{
    bounds_of_files, files_by_parts, layout_has_entries, layout_is_movie, layouts_are_read_back,
    made_entries_are_read_back, one_more_chunk, rows_list_samples,
};
pub use sf_entry::TrackSetup;
pub use sf_tick::{Chunk, Kind, Stored};
