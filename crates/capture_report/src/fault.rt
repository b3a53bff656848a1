//! What ends a run early.

ghost use Rattle.std.specs.Prelude.{◌≡◌};
ghost use Rattle.capture_report.specs.declared.fault.RunFault.TheVariants.{OutOfMemory, Write};

use host_io::WriteFault;
use lsdb_merge::JoinFault;
use network_files::FileFault;
use std::alloc::{AllocError, AllocFailed};

/// Why a run ended early. Files are counted from 0. Those before the file of the fault were read
/// without one.
#[derive(Clone, Copy, Debug, PartialEq, Eq)]
pub enum RunFault {
    /// A read of this file has failed. Nothing was written.
    Read(usize),
    /// This file has more than [`LONGEST_FILE`](crate::LONGEST_FILE) bytes. Nothing was written.
    TooLarge(usize),
    /// This file is refused, for this fault, which is never `OutOfMemory`. Nothing was written.
    Refused(usize, FileFault),
    /// The contents of the files make no database, for this fault, which is never `OutOfMemory`.
    /// Nothing was written.
    Join(JoinFault),
    /// The writer has failed. It holds a prefix of the dump.
    Write,
    /// Memory ran out. Nothing was written.
    OutOfMemory,
}

impl From<AllocError> for RunFault {
    ghost from_gives = { λ _ fault. fault ≡ OutOfMemory };

    fn from(_error: AllocError) -> RunFault {
        RunFault::OutOfMemory
    }
}

impl<T: Drop> From<AllocFailed<T>> for RunFault {
    ghost from_gives = { λ _ fault. fault ≡ OutOfMemory };

    fn from(_error: AllocFailed<T>) -> RunFault {
        RunFault::OutOfMemory
    }
}

impl From<WriteFault> for RunFault {
    ghost from_gives = { λ _ fault. fault ≡ Write };

    fn from(_error: WriteFault) -> RunFault {
        RunFault::Write
    }
}
