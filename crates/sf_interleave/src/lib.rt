//! The chunks of several tracks that wait to be written.
//!
//! A `Pending` keeps a list of chunks for each track. A chunk that is handed to it joins its track's
//! list at the end. The chunk that is picked is the first one of its track, and of those the one
//! that begins earliest, of the lowest track where several begin at once (`specs/Waiting.antt`).
#![tactic(auto)]

mod laws;
mod pending;
mod queue;

pub use laws::{earliest_chunk, lists_keep_to_tracks};
pub use pending::Pending;

#[cfg(test)]
mod tests;
