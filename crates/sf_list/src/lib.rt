//! Lists, byte strings and texts that a contract sees as plain lists.
//!
//! `Items` holds any values, `Bytes` is `Items` of bytes, and `Text` is valid UTF-8.
//! A public type whose fields a contract compares holds these in place of `Vec` and `String`,
//! since two of them are equal where their contents are, whatever their capacities.
#![tactic(auto)]

mod checks;
mod items;
mod text;

pub use checks::{holds, same};
pub use items::{Bytes, Items};
pub use text::Text;

#[cfg(test)]
mod tests;
