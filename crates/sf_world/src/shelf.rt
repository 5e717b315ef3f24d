ghost use Rattle.std.specs.Prelude.{◌≡◌, ◌^◌, ◌<◌, [], ◌∷◌, ◌++◌, is_some, IfOk, OnOk, OnErr};
ghost use Rattle.sf_world.specs.Counts.{HasDenial};
ghost use Rattle.sf_world.specs.Views.{IsNew, ShelfView, with_kept};

use super::{Denied, Sink};

/// Where files are made and kept.
pub trait Shelf {
    type Out: Sink;

    ghost seen: { Self → ShelfView };

    /// Makes an empty sink of a name.
    fn create(&mut self, name: &str) -> Result<Self::Out, Denied>
        ensures sink { IfOk result (λ sink. IsNew (seen self.old) (Self.Out.seen sink)) }
        ensures names_ok { OnOk result ((seen self.new).names ≡ (seen self.old).names ++ name.now ∷ []) }
        ensures names_err { OnErr result ((seen self.new).names ≡ (seen self.old).names) }
        ensures files { (seen self.new).files ≡ (seen self.old).files }
        ensures cause { HasDenial (seen self.old).faults (seen self.new).faults result };

    /// Keeps what a sink holds as the last file, and adds its faults. It takes no memory.
    fn keep(&mut self, sink: Self::Out)
        ensures kept { seen self.new ≡ with_kept (Self.Out.seen sink) (seen self.old) }
        ensures tells { is_some (seen self.new).files ≡ is_some (seen self.old).files };

    ghost bounded: { (shelf : Self) → (seen shelf).faults < 2 ^ 64 };
}
