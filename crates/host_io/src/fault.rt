//! Why a file was not replaced.

/// Why a file was not replaced. An ordinary file that was there is as it was, unless it was
/// written straight.
#[derive(Clone, Copy, Debug, PartialEq, Eq)]
pub enum ReplaceFault {
    /// It cannot be opened for writing.
    Open,
    /// It cannot be written.
    Write,
}
