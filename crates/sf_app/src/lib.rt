//! What the program does with its words: `run`.
//!
//! A command is a file with four steps: fetch the inputs that its words name, call the crate that does the work, give the
//! inputs back, and tell how it went. `record` makes files of coded sample files, `extract` reads plans out of a movie into
//! dumps, `list` puts the samples of a movie into the text, and `make` has `sf_selftest` make one in memory. Each answer other than
//! `Done` has its cause in the clauses of `run`. The tests of `run` stand in `sf_trials`.
#![tactic(auto)]

mod answer_text;
mod extract;
mod list;
mod list_text;
mod make;
mod movie;
mod program;
mod record;
mod status;

pub use answer_text::put_answer;
pub use movie::{ListFault, list_movie};
pub use program::run;
pub use sf_coded::CodedFault;
pub use sf_entry::SetupFault;
pub use sf_gather::SampleFault;
pub use sf_meaning::MovieFault;
pub use sf_record::{InputFault, TrackFault};
pub use sf_series::LimitShown;
pub use status::{Status, UsageFault};
