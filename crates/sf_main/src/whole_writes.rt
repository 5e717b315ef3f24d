//! Writing all of some bytes, whatever parts of them the system takes at a time.
//!
//! A write that a signal interrupts is tried again.

ghost use Rattle.std.specs.Prelude.{◌≡◌, ◌+◌, ◌^◌, ◌<◌, ◌≤◌, length};

use std::io::{ErrorKind, Write};
use std::os::unix::fs::FileExt;

/// Writes bytes into a file from a place on, and says how many of them: all, or those before a
/// write that failed or took none.
pub fn write_at<F: FileExt>(file: &F, at: u64, bytes: &[u8]) -> usize
    requires { at + length bytes.now < 2 ^ 64 }
    ensures { result ≤ length bytes.now }
{
    let mut done = 0;
    for _ in 0..u64::MAX {
        if done == bytes.len() {
            break;
        }
        match file.write_at(&bytes[done..], at + done as u64) {
            Ok(0) => break,
            Ok(count) => done += count,
            Err(error) if error.kind() == ErrorKind::Interrupted => {}
            Err(_) => break,
        }
    }
    done
}

/// Writes bytes, and says how many of them: all, or those before a write that failed or took none.
pub fn write<W: Write>(writer: &mut W, bytes: &[u8]) -> usize
    ensures { result ≤ length bytes.now }
{
    let mut done = 0;
    for _ in 0..u64::MAX {
        if done == bytes.len() {
            break;
        }
        match writer.write(&bytes[done..]) {
            Ok(0) => break,
            Ok(count) => done += count,
            Err(error) if error.kind() == ErrorKind::Interrupted => {}
            Err(_) => break,
        }
    }
    done
}
