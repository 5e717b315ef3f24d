//! With which setups a file can begin.

ghost use Rattle.std.specs.Prelude.{IsTrue};
ghost use Rattle.sf_file.specs.Open.{AreSetups};

use sf_entry::TrackSetup;

/// The most tracks of a file.
const MOST_TRACKS: usize = 64;

/// The most bytes that the sample entries of all tracks have together.
const MOST_ENTRY_BYTES: usize = 1 << 27;

/// Whether a file can begin with these setups: 1 to 64, each with ticks, and whose sample entries have at most 2^27 bytes
/// together.
pub fn are_setups(setups: &[TrackSetup]) -> bool
    ensures holds { IsTrue result → AreSetups setups.now }
    ensures only { AreSetups setups.now → IsTrue result }
{
    if setups.is_empty() || setups.len() > MOST_TRACKS {
        return false;
    }
    let mut room = MOST_ENTRY_BYTES;
    for setup in setups {
        if setup.scale == 0 || setup.entry.len() > room {
            return false;
        }
        room -= setup.entry.len();
    }
    true
}
