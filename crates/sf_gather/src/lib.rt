//! Samples of one track, put together into chunks as they come.
//!
//! A `Gather` takes samples one after the other, refuses those that break a rule, and hands out a
//! chunk as soon as a sample doesn't belong to it. Video is stored with its units after their
//! lengths. The chunks that it hands out and the one that
//! it ends with are the chunks of the list of the accepted samples.
#![tactic(auto)]

mod accepting;
mod following;
mod gather;
mod given;
mod laws;
mod storing;

pub use accepting::SampleFault;
pub use following::{all_follow, follows};
pub use gather::Gather;
pub use given::{Given, LastSample, Options};
pub use laws::{
    accepted_samples, closed_chunks_stay, following_samples, longest_front, one_more_sample,
    proper_by_tail, proper_chunks, refusals_tell_of_samples,
};

#[cfg(test)]
mod tests;
