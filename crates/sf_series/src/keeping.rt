//! Single files are made on a shelf, and kept there.

ghost use Rattle.std.specs.Prelude.{◌≡◌, ◌≢◌, ℕ, ◌≤◌, List, [], Option, Err, IfErr, IfOk, OnErr, OnOk};
ghost use Rattle.sf_tick.specs.declared.types.Chunk.{Chunk};
ghost use Rattle.sf_world.specs.Counts.{Rose};
ghost use Rattle.sf_world.specs.Views.{KeptAtMost};
ghost use Rattle.sf_layout.specs.Layout.{layout};
ghost use Rattle.sf_file.specs.Open.{AreSetups, Stands, setups_of};
ghost use Rattle.sf_series.specs.declared.limits.LimitShown.{LimitShown};
ghost use Rattle.sf_series.specs.Series.{BeginsOn, HoldsOn};
ghost use Rattle.sf_series.specs.Shelved.{IsMade, KeptMore, KeptSomeMore};

use crate::faults::SeriesFault;
use sf_entry::TrackSetup;
use sf_file::OutFile;
use sf_world::Shelf;
use std::alloc::Global;

/// Makes a file without chunks of a name. A sink that was made is kept, where its file isn't begun.
pub(crate) fn make_file<O: Shelf>(
    alloc: Global,
    setups: &[TrackSetup],
    name: &str,
    shelf: &mut O,
) -> Result<OutFile<O::Out>, SeriesFault>
    requires { AreSetups setups.now }
    ensures stands { IfOk result (λ f. HoldsOn (O.seen shelf.old).files setups.now [] f) }
    ensures made { OnOk result (IsMade name.now (O.seen shelf.old) (O.seen shelf.new)) }
    ensures kept { OnErr result (KeptAtMost name.now (O.seen shelf.old) (O.seen shelf.new)) }
    ensures failed { IfErr result (λ e. e ≡ SeriesFault.WriteFault → Rose (O.seen shelf.old).faults (O.seen shelf.new).faults) }
    ensures no_limit { (shown : LimitShown) → IfErr result (λ e. e ≢ SeriesFault.Limit shown) }
    ensures later { (O.seen shelf.old).faults ≤ (O.seen shelf.new).faults }
{
    let sink = shelf.create(name)?;
    match OutFile::begin(alloc, sink, setups) {
        Ok(file) => Ok(file),
        Err((sink, fault)) => {
            shelf.keep(sink);
            Err(fault.into())
        }
    }
}

/// Closes a file and keeps it. Where it isn't closed it is kept as far as it was written.
pub(crate) fn close_file<O: Shelf>(file: OutFile<O::Out>, shelf: &mut O) -> Result<(), SeriesFault>
    ensures closed { OnOk result ((begun : Option (List ℕ)) (chunks : List Chunk) → BeginsOn (O.seen shelf.old).files begun → Stands begun chunks file
        → KeptMore (layout (setups_of file) chunks) (O.seen shelf.old) (O.seen shelf.new)) }
    ensures kept { OnErr result (KeptSomeMore (O.seen shelf.old) (O.seen shelf.new)) }
    ensures failed { result ≡ Err SeriesFault.WriteFault → Rose (O.seen shelf.old).faults (O.seen shelf.new).faults }
    ensures no_limit { (shown : LimitShown) → result ≢ Err (SeriesFault.Limit shown) }
    ensures later { (O.seen shelf.old).faults ≤ (O.seen shelf.new).faults }
{
    match file.close() {
        Ok(sink) => {
            shelf.keep(sink);
            Ok(())
        }
        Err((sink, fault)) => {
            shelf.keep(sink);
            Err(fault.into())
        }
    }
}
