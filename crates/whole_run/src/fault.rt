//! What ends a run early.

ghost use Rattle.std.specs.Prelude.{◌≡◌};
ghost use Rattle.whole_run.specs.declared.fault.RunFault.TheVariants.{OutOfMemory, Write};

use host_io::WriteFault;
use lsdb::DumpFault;
use std::alloc::AllocError;

/// Why a run ended early.
#[derive(Clone, Copy, Debug, PartialEq, Eq)]
pub enum RunFault {
    /// The dump is refused, for its first fault. It is never want of memory. Nothing was written.
    Dump(DumpFault),
    /// A reader has failed. Nothing was written.
    Read,
    /// A writer has failed. It holds a prefix of what it would have got.
    Write,
    /// The script is longer than 1,048,576 bytes. Nothing was written.
    TooLarge,
    /// A growth was refused. The replies that were written are a prefix of all of them.
    OutOfMemory,
}

impl From<AllocError> for RunFault {
    ghost from_gives = { λ _ fault. fault ≡ OutOfMemory };

    fn from(_error: AllocError) -> RunFault {
        RunFault::OutOfMemory
    }
}

impl From<WriteFault> for RunFault {
    ghost from_gives = { λ _ fault. fault ≡ Write };

    fn from(_error: WriteFault) -> RunFault {
        RunFault::Write
    }
}
