//! What the words of a command line ask for: `read_words`.
//!
//! `specs/Commands.antt` says which command each list of words is, with every option's value, or what is wrong with the
//! words. Words are read by `clap`; counts, numbers and defaults are judged after it.
#![tactic(auto)]

mod asked;
mod command;
mod faults;
mod grammar;
mod values;
mod words;

pub use command::{
    Command, ExtractAsked, ExtractNumbers, MakeAsked, RecordAsked, RecordNumbers, Threads,
};
pub use faults::{UsageFault, WordsFault};
pub use words::read_words;

#[cfg(test)]
mod tests;
