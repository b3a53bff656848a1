//! Why a file is no capture.

ghost use Rattle.std.specs.Prelude.{◌≡◌};
ghost use Rattle.capture_files.specs.declared.fault.CaptureFault.TheVariants.{OutOfMemory};

use std::alloc::{AllocError, AllocFailed};
use thiserror::Error;

/// Why a file is rejected, and the offset of what is malformed, in bytes, where there is one.
#[derive(Clone, Copy, Debug, PartialEq, Eq, Error)]
pub enum CaptureFault {
    /// The file does not begin as a capture file does.
    #[error("NotACapture")]
    NotACapture,
    /// The file ends within its header.
    #[error("ShortHeader")]
    ShortHeader,
    /// The major version is another than that of the format.
    #[error("Version at 4")]
    Version,
    /// The record at this offset has a captured length above its original length, or above the
    /// most that a capture has (262,144 bytes), or above what the block has.
    #[error("CapturedLength at {0}")]
    CapturedLength(usize),
    /// The section at this offset has a byte-order magic that is known in no byte order.
    #[error("ByteOrder at {0}")]
    ByteOrder(usize),
    /// The block at this offset has a length that a block does not have (below 12, above
    /// 16,777,216, or no multiple of 4), another length at its end, or too few bytes for its
    /// type.
    #[error("BlockLength at {0}")]
    BlockLength(usize),
    /// The section at this offset is of another major version than 1.
    #[error("SectionVersion at {0}")]
    SectionVersion(usize),
    /// The block at this offset names an interface that its section does not have.
    #[error("NoInterface at {0}")]
    NoInterface(usize),
    /// Memory ran out.
    #[error("OutOfMemory")]
    OutOfMemory,
}

impl From<AllocError> for CaptureFault {
    ghost from_gives = { λ _ e. e ≡ OutOfMemory };

    fn from(_error: AllocError) -> CaptureFault {
        CaptureFault::OutOfMemory
    }
}

impl<T: Drop> From<AllocFailed<T>> for CaptureFault {
    ghost from_gives = { λ _ e. e ≡ OutOfMemory };

    fn from(_error: AllocFailed<T>) -> CaptureFault {
        CaptureFault::OutOfMemory
    }
}
