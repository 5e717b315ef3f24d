ghost use Rattle.std.specs.Prelude.{◌≡◌, ℕ, ◌+◌, ◌^◌, ◌<◌, ◌≤◌, List, IfOk, OnOk, OnErr};
ghost use Rattle.sf_world.specs.Counts.{HasDenial};
ghost use Rattle.sf_world.specs.Views.{Gave, InputsView, IsGiven, NotAsked, NotGiven, TakesBack};

use super::{Denied, Source};

/// Sources by name. What was asked for and what was given back is kept.
pub trait Inputs {
    type Src: Source;

    ghost seen: { Self → InputsView };

    /// Gives the source of a name. `Failed` comes only where the count of misses rose.
    fn fetch(&mut self, name: &str) -> Result<Self::Src, Denied>
        ensures source { IfOk result (λ source. IsGiven ((seen self.old).holds name.now) (Self.Src.seen source)) }
        ensures ok { OnOk result (Gave name.now (seen self.old) (seen self.new)) }
        ensures failed { result ≡ Err Denied.Failed → NotGiven name.now (seen self.old) (seen self.new) }
        ensures no_memory { result ≡ Err Denied.NoMemory → NotAsked (seen self.old) (seen self.new) }
        ensures spare_ok { OnOk result ((seen self.old).spare + 1 ≤ (seen self.new).spare) }
        ensures spare_err { OnErr result ((seen self.new).spare ≡ (seen self.old).spare) }
        ensures holds { (other : List ℕ) → (seen self.new).holds other ≡ (seen self.old).holds other }
        ensures faults { (seen self.new).faults ≡ (seen self.old).faults }
        ensures cause { HasDenial (seen self.old).misses (seen self.new).misses result };

    /// Takes a source back, and adds its faults. It takes no memory.
    fn give_back(&mut self, source: Self::Src)
        requires { 1 ≤ (seen self.old).spare }
        ensures { TakesBack (Self.Src.seen source).faults (seen self.old) (seen self.new) };

    ghost bounded: { (inputs : Self) → ((seen inputs).misses < 2 ^ 64) × ((seen inputs).faults < 2 ^ 64) };
}
