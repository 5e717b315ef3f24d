//! Plans are read out of a movie, each by a reader of its own into a dump of its own.
//!
//! `extract_direct` loads the movie, makes a dump for each plan on a shelf, and runs the readers one after
//! the other. `specs/Extracted.antt` says what each answer means, and `specs/Dumps.antt` which dumps there are. What
//! is read out of a movie is the `readout` of its file's bytes, by the law `files_are_read_out`.
#![tactic(auto)]

mod direct;
mod dump;
mod laws;
mod outcome;

pub use direct::extract_direct;
pub use laws::files_are_read_out;
pub use outcome::{ExtractEnd, ExtractOutcome};
pub use sf_extract::{Plan, read_plan};
