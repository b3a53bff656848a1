//! Why a file is refused.

ghost use Rattle.std.specs.Prelude.{◌≡◌};
ghost use Rattle.network_files.specs.declared.fault.FileFault.TheVariants as faults;

use capture_files::CaptureFault;
use std::alloc::AllocError;
use thiserror::Error;

/// Why a file is refused: what is malformed in it, and where.
#[derive(Clone, Copy, Debug, PartialEq, Eq, Error)]
pub enum FileFault {
    /// The file begins as a capture does, and is malformed, for this fault, which is never
    /// `OutOfMemory`.
    #[error("{0}")]
    Capture(CaptureFault),
    /// The file begins with a brace, and is not JSON (RFC 8259) in UTF-8, or it nests deeper than
    /// 128 levels.
    #[error("NotJson")]
    NotJson,
    /// The file is an object in JSON, and has none of the databases that are read.
    #[error("NoDatabase")]
    NoDatabase,
    /// The file does not begin as a capture does, is not what a router prints, and no line of it
    /// has an object of the OSPF-MIB.
    #[error("UnknownKind")]
    UnknownKind,
    /// The same, and it begins as a file that gzip has compressed (RFC 1952, 2.3.1).
    #[error("Compressed")]
    Compressed,
    /// Memory ran out.
    #[error("OutOfMemory")]
    OutOfMemory,
}

impl From<AllocError> for FileFault {
    ghost from_gives = { λ _ e. e ≡ faults.OutOfMemory };

    fn from(_e: AllocError) -> FileFault {
        FileFault::OutOfMemory
    }
}
