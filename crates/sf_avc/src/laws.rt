//! Laws: what is written is read back.

ghost use Rattle.std.specs.Prelude.{◌≡◌, ℕ, List, ◌∷◌, Ok};
ghost use Rattle.std.specs.List.{AllByRecursion};
ghost use Rattle.sf_avc.specs.Units.{Nal, nals};
ghost use Rattle.sf_avc.specs.Tiling.{tiling};
ghost use Rattle.sf_avc.specs.Units.{with_codes};
ghost use Rattle.sf_avc.specs.Stored.{prefixed};
ghost use Rattle.sf_avc.specs.Config.{config_of};
ghost use Rattle.sf_avc.specs.ConfigBody.{made_config, of_type};
ghost use Rattle.sf_avc.specs.UnitsBack.{Proper, IsShort, placed};

/// A law: units that can stand after start codes are those of the payload in which they do.
#[tactic(auto, using(crate::proofs::UnitsBack::codes_back))]
pub fn codes_are_read_back()
    ensures { (u : Nal) (us : List Nal) → AllByRecursion Proper (u ∷ us) → nals (with_codes (u ∷ us)) ≡ Ok (placed 0 (u ∷ us)) }
{}

/// A law: units after their lengths in four bytes are those that tile what is stored of them.
#[tactic(auto, using(crate::proofs::UnitsBack::lengths_back))]
pub fn lengths_are_read_back()
    ensures { (us : List Nal) → AllByRecursion IsShort us → tiling 4 0 (prefixed us) ≡ Ok (placed 0 us) }
{}

/// A law: the units of a payload can stand after start codes, and are read back from there.
#[tactic(auto, using(crate::proofs::Propriety::nals_proper, crate::proofs::Propriety::nals_again))]
pub fn units_are_proper()
    ensures proper { (payload : List ℕ) (us : List Nal) → nals payload ≡ Ok us → AllByRecursion Proper us }
    ensures again { (payload : List ℕ) (us : List Nal) → nals payload ≡ Ok us → nals (with_codes us) ≡ Ok (placed 0 us) }
{}

/// A law: a record that is made of a configuration has the length size 4, and the sequence sets and the picture sets
/// of the configuration.
#[tactic(auto, using(crate::proofs::ConfigBack::config_back))]
pub fn configs_are_read_back()
    ensures { (config body : List ℕ) (units : List Nal) → nals config ≡ Ok units → made_config config ≡ Ok body → config_of body ≡ Ok (record { width = 4; sps = of_type 7 units; pps = of_type 8 units }) }
{}
