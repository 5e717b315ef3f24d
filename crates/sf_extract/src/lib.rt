//! The samples of a movie, handed out one after the other, from any place on (ISO/IEC 14496-12).
//!
//! An `Extractor` stands at a sample of each selected track; its current sample is the one of these that is
//! shown first (`specs/Current.antt`). A seek leads to sync samples (`specs/SyncAt.antt`). What is handed
//! out of a sample of AVC are its units after start codes (`specs/HandedOut.antt`). A `Plan` is a list of
//! commands, read from a word (`specs/Plan.antt`); `specs/Readout.antt` says which dump it reads out, and a
//! `PlanRun` makes it sample by sample (`specs/Runs.antt`).
#![tactic(auto)]

mod extractor;
mod handed;
mod order;
mod plan;
mod plan_run;
mod plan_word;
mod record;
mod seats;
mod seek;
mod types;

pub use extractor::Extractor;
pub use plan::{Command, Plan, PlanFault, missing_track};
pub use plan_run::PlanRun;
pub use plan_word::read_plan;
pub use sf_avc::LengthFault;
pub use sf_movie::Movie;
pub use types::{BadSample, GiveFault, Mode, NoTrack, Place, Standing, Sync, Turn};
