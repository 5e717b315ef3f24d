ghost use Rattle.std.specs.Prelude.{◌≡◌, ℕ, ◌-◌, ◌^◌, ◌<◌, min, length, IfOk};
ghost use Rattle.sf_world.specs.Contents.{HasLength, ReadsAt};
ghost use Rattle.sf_world.specs.GateName.{GateName};
ghost use Rattle.sf_world.specs.Views.{ReadOver, SourceView};

use super::Failed;

/// What can stand in a gate, the place in which threads share one value.
pub trait Fits {
    /// Whether the value is what a gate's name says.
    ghost fits: { Self → GateName → Type 0 };
}

/// What has a number that never falls while threads share it.
pub trait Measure {
    ghost measure: { Self → ℕ };
}

/// Bytes that are read at places. They never change, and nor does their length.
pub trait Source: Fits + Measure + Send + Drop {
    ghost seen: { Self → SourceView };

    /// The length in bytes.
    fn length(&self) -> u64
        ensures length { result ≡ (seen self.now).size }
        ensures told { HasLength (seen self.now).content result };

    /// Reads the bytes from a place on into the front of a buffer, as many as there are and fit,
    /// and says how many; none at or past the end. After a failure the buffer holds any bytes.
    fn read_at(&mut self, at: u64, into: &mut [u8]) -> Result<usize, Failed>
        ensures count { IfOk result (λ n. n ≡ min (length into.old) ((seen self.old).size - at)) }
        ensures bytes { IfOk result (λ n. ReadsAt (seen self.old).content at n into.new) }
        ensures source { ReadOver (seen self.old) (seen self.new) result };

    /// Told contents have the length of the source.
    ghost whole: { (source : Self) → HasLength (seen source).content (seen source).size };

    ghost bounded: { (source : Self) → (seen source).faults < 2 ^ 64 };

    /// The number that threads share is the count of faults.
    ghost counted: { (source : Self) → Self.measure source ≡ (seen source).faults };

    /// A source fits the names of gates that have its length and its told contents.
    ghost fitting: { (source : Self) (name : GateName) → Self.fits source name
        → ((seen source).size ≡ name.length) × ((seen source).content ≡ name.content) };

    ghost fits_if: { (source : Self) (name : GateName)
        → ((seen source).size ≡ name.length) × ((seen source).content ≡ name.content) → Self.fits source name };
}
