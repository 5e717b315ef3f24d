//! The names of the files of a series.

ghost use Rattle.std.specs.Prelude.{◌≡◌, IfOk, string_bytes};
ghost use Rattle.sf_series.specs.Names.{file_name};

use std::alloc::{AllocError, Global};

/// The name of the file of a number, from 1 on, for names that begin with the stem.
pub fn file_name(alloc: Global, stem: &str, number: u64) -> Result<String, AllocError>
    ensures { IfOk result (λ name. string_bytes name ≡ file_name stem.now number) }
{
    format!(in alloc; "{stem}-{number}.mp4")
}
