//! What ends a run early.

ghost use Rattle.std.specs.Prelude.{◌≡◌};
ghost use Rattle.whole_study.specs.declared.fault.RunFault.TheVariants.{OutOfMemory, Write};

use host_io::WriteFault;
use lsdb::DumpFault;
use network_names::NamesFaultKind;
use std::alloc::{AllocError, AllocFailed, Allocator, Global};

/// The first fault of a names file.
#[derive(Drop)]
pub struct NamesRefusal<A: Allocator = Global> {
    /// The line, counted from 1.
    pub line: usize,
    /// What is wrong.
    pub kind: NamesFaultKind,
    /// The word at fault.
    pub word: Vec<u8, A>,
}

/// Why a run ended early. Nothing was written but where a writer has failed or memory ran out, and
/// at a terminal, where it cannot be read any more or too much is typed.
#[derive(Drop)]
pub enum RunFault<A: Allocator = Global> {
    /// The dump is refused, for its first fault, which is never `OutOfMemory`.
    Dump(DumpFault),
    /// The baseline is refused, for its first fault, which is never `OutOfMemory`.
    Baseline(DumpFault),
    /// The names file is refused.
    Names(NamesRefusal<A>),
    /// A reader has failed.
    Read,
    /// A writer has failed. Both hold a prefix of what they would have got.
    Write,
    /// The names file or a study is longer than 1,048,576 bytes, or there are more studies.
    TooLarge,
    /// Memory ran out. Both writers hold a prefix of what they would have got.
    OutOfMemory,
}

impl<A: Allocator> From<AllocError> for RunFault<A> {
    ghost from_gives = { λ _ fault. fault ≡ OutOfMemory };

    fn from(_error: AllocError) -> RunFault<A> {
        RunFault::OutOfMemory
    }
}

impl<A: Allocator, T: Drop> From<AllocFailed<T>> for RunFault<A> {
    ghost from_gives = { λ _ fault. fault ≡ OutOfMemory };

    fn from(_error: AllocFailed<T>) -> RunFault<A> {
        RunFault::OutOfMemory
    }
}

impl<A: Allocator> From<WriteFault> for RunFault<A> {
    ghost from_gives = { λ _ fault. fault ≡ Write };

    fn from(_error: WriteFault) -> RunFault<A> {
        RunFault::Write
    }
}
