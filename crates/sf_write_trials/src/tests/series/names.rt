//! The names of files.

use super::*;
use sf_series::file_name;

/// Whether the file of a number has this name.
fn is_named(alloc: Global, stem: &str, number: u64, name: &str) -> bool {
    match file_name(alloc, stem, number) {
        Ok(made) => made.as_str() == name,
        Err(_) => false,
    }
}

#[test]
fn files_are_numbered_from_one_on(rt: HostRuntime) {
    let alloc = rt.alloc();
    assert!(rt; is_named(alloc, "out", 1, "out-1.mp4"));
    assert!(rt; is_named(alloc, "out", 10, "out-10.mp4"));
    assert!(rt; is_named(alloc, "a b", 99_999, "a b-99999.mp4"));
    assert!(rt; is_named(alloc, "", 2, "-2.mp4"));
}
