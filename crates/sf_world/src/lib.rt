//! What stands outside of the program: sources, inputs, sinks and shelves.
//!
//! Each is a trait whose ghost members say what an object holds and how often it failed.
//! A count of faults never falls, and a call answers `Failed` only where its count rose, so a
//! caller that is proved over these traits can't blame the outside for its own doing.
//! Objects in memory stand in for files in tests: some fail at the named calls, some never.
#![tactic(auto)]

mod calls;
mod copying;
mod failures;
mod hole_source;
mod inputs;
mod kept;
mod laws;
mod mem_inputs;
mod mem_shelf;
mod mem_sink;
mod mem_source;
mod shelf;
mod sink;
mod source;
mod sure;

pub use failures::{Denied, Failed, NoMemory};
pub use hole_source::HoleSource;
pub use inputs::Inputs;
pub use laws::{contents_grow, kept_is_a_file, parts_grow};
pub use mem_inputs::MemInputs;
pub use mem_shelf::MemShelf;
pub use mem_sink::MemSink;
pub use mem_source::MemSource;
pub use shelf::Shelf;
pub use sink::Sink;
pub use source::{Fits, Measure, Source};
pub use sure::{MemText, SureShelf, SureSink, SureSource};

#[cfg(test)]
mod tests;
