//! The self-test as a whole.

ghost use Rattle.std.specs.Prelude.{◌≤◌, IfOk};
ghost use Rattle.sf_selftest.specs.SelfTest.{IsTested};

use crate::made::made_file;
use crate::read_back::read_back;
use crate::summary::Summary;
use std::alloc::{AllocError, Global};

/// Records so many generated samples of each of so many tracks, 0 to 200,000 of each of 1 to 8, into a file in memory, and
/// reads them all back. It errs only where there is no memory.
pub fn self_test(alloc: Global, count: u32, tracks: u32) -> Result<Summary, AllocError>
    requires samples { count ≤ 200000 }
    requires least { 1 ≤ tracks }
    requires most { tracks ≤ 8 }
    ensures { IfOk result (IsTested count tracks) }
{
    let file = made_file(alloc, count, tracks)?;
    read_back(alloc, file, count, tracks)
}
