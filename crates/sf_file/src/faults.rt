/// Why a file wasn't written further.
#[derive(Clone, Copy, Debug, PartialEq, Eq)]
pub enum FileFault {
    /// The sink failed.
    WriteFault,
    NoMemory,
}
