//! What holds of the bytes of coded sample files, and of the inputs that are generated.

ghost use Rattle.std.specs.Prelude.{◌≡◌, ℕ, ◌+◌, ◌*◌, ◌≤◌, ◌^◌, List, length, Some, None};
ghost use Rattle.std.specs.List.{AllByRecursion};
ghost use Rattle.sf_tick.specs.declared.types.Kind.{Kind};
ghost use Rattle.sf_tick.specs.declared.types.Setup.{Setup};
ghost use Rattle.sf_tick.specs.declared.types.Sample.{Sample};
ghost use Rattle.sf_coded.specs.CodedFile.{coded};
ghost use Rattle.sf_make.specs.Writing.{coded_bytes, coded_samples, StatableSetup, StatableSample};
ghost use Rattle.sf_make.specs.Generator.{generated_config, generated_setup, generated_samples, generated_input, payload_total};

/// A law: a coded sample file is read as the setup and the samples of which it was made, each at its place,
/// and is whole.
#[tactic(auto, using(crate::proofs::MakeLaws::coded_back))]
pub fn coded_read_back()
    ensures { (setup : Setup) (samples : List Sample) → StatableSetup setup → AllByRecursion StatableSample samples
        → coded (coded_bytes setup samples) ≡ record { setup = Some setup; samples = coded_samples (22 + length setup.config) samples; end = None } }
{}

/// A law: a generated input is read as the setup of its kind and the samples that are generated, and is whole.
#[tactic(auto, using(crate::proofs::MakeLaws::input_back))]
pub fn inputs_read_back()
    ensures { (kind : Kind) (count : ℕ) → count ≤ 2 ^ 32
        → coded (generated_input kind count) ≡ record { setup = Some (generated_setup kind); samples = coded_samples (22 + length (generated_config kind)) (generated_samples kind count); end = None } }
{}

/// A law: how many samples are generated, and how many bytes an input has: the header with the configuration,
/// 22 bytes in front of each payload, the payloads, and the end.
#[tactic(auto, using(crate::proofs::MakeLaws::length_laws))]
pub fn input_lengths()
    ensures samples { (kind : Kind) (count : ℕ) → length (generated_samples kind count) ≡ count }
    ensures bytes { (kind : Kind) (count : ℕ) → length (generated_input kind count) ≡ 22 + length (generated_config kind) + (22 * count + payload_total kind count) + 1 }
{}
