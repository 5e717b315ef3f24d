//! Movies, extractors and readers, over files in memory.

mod extract;
mod movie;
mod reader;
