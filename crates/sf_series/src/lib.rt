//! A series of files that chunks of several tracks are written into.
//!
//! Chunks are handed to a `Series` in whatever order, and wait in lists, one for each track. Each write takes the
//! earliest of them into the open file or into the next one, by the rule of `specs/Switching.antt`,
//! until a limit is met. What the files then hold, and what still waits, is said by `specs/Core.antt`,
//! and how it follows from the files alone by `specs/Dealt.antt`. A series keeps no list of what it wrote:
//! for which state of the core it stands is a relation, of `specs/Series.antt`.
#![tactic(auto)]

mod faults;
mod keeping;
mod laws;
mod limits;
mod names;
mod report;
mod rule;
mod series;
mod series_files;
mod tails;

pub use faults::SeriesFault;
pub use laws::{
    chunks_are_kept, each_step_keeps, earliest_first, earliest_is_written, files_are_dealt,
    files_are_read_back, files_are_switched, files_pass_no_limit, handed_stays_proper,
    series_is_read_back, series_takes_chunks, setups_fit, several_writes_keep,
};
pub use limits::{LimitShown, Limits};
pub use names::file_name;
pub use report::Report;
pub use series::{Series, Wrote};
