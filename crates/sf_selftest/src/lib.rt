//! The program's test of itself.
//!
//! `self_test` generates inputs, records them into a file in memory, and reads that file back: its movie, and all of its
//! samples by one plan. `specs/SelfTest.antt` says what stands where it answers: a file that holds just the generated
//! samples, each as its track, whose readout is whole, and a summary of both. Only memory can run out.
#![tactic(auto)]

mod made;
mod read_back;
mod run;
mod summary;
mod track;

pub use run::self_test;
pub use summary::{Summary, TrackSummary};

#[cfg(test)]
mod tests;
