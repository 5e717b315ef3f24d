//! Why an input is refused, and at which place.

ghost use Rattle.std.specs.Prelude.{◌≡◌};
ghost use Rattle.sf_record.specs.Input.{coded_fault, sample_fault, setup_fault};

use sf_coded::CodedFault;
use sf_entry::SetupFault;
use sf_gather::SampleFault;

/// Why an input is refused.
#[derive(Clone, Copy, Debug, PartialEq, Eq)]
pub enum InputFault {
    /// It is no coded sample file, or its source failed.
    Coded(CodedFault),
    /// No track is made of the setup in its header.
    Setup(SetupFault),
    /// A sample breaks a rule of its track.
    Sample(SampleFault),
}

/// Why the input of a track is refused, and at which place in its bytes.
#[derive(Clone, Copy, Debug, PartialEq, Eq)]
pub struct TrackFault {
    pub why: InputFault,
    pub place: u64,
}

/// The bytes are no coded sample file, for this fault.
pub(crate) fn coded_fault(fault: CodedFault) -> TrackFault
    ensures { result ≡ coded_fault fault }
{
    TrackFault {
        why: InputFault::Coded(fault),
        place: fault.place(),
    }
}

/// The sample of the record at a place breaks a rule.
pub(crate) fn sample_fault(at: u64, fault: SampleFault) -> TrackFault
    ensures { result ≡ sample_fault at fault }
{
    TrackFault {
        why: InputFault::Sample(fault),
        place: at,
    }
}

/// No track is made of the setup in the header. The header is whole then: the place is that of the configuration.
pub(crate) fn setup_fault(fault: SetupFault) -> TrackFault
    ensures { result ≡ setup_fault fault }
{
    TrackFault {
        why: InputFault::Setup(fault),
        place: 22,
    }
}
