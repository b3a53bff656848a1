//! Why the program ends with another status than 0, 1 or 2.

ghost use Rattle.ospf_study.specs.Exit.{IsBeforeRun};

use std::alloc::{AllocError, AllocFailed};
use whole_study::RunFault;

/// A file that the command line names, of which there is one.
#[derive(Clone, Copy, Debug, PartialEq, Eq)]
pub(crate) enum FileArg {
    /// The dump.
    Dump,
    /// The baseline.
    Baseline,
    /// The names file.
    Names,
    /// The file for the dump after the studies.
    Out,
}

/// Why the program ends with status 3, 4 or 5.
#[derive(Drop)]
pub(crate) enum ExitFault<'a> {
    /// The run ended early. The name is that of the names file.
    Run(&'a str, RunFault),
    /// A file cannot be opened.
    Open(FileArg),
    /// A study cannot be opened. The name is that of the study, as it was given.
    OpenStudy(&'a str),
}

impl<'a> From<AllocError> for ExitFault<'a> {
    ghost from_gives = { λ _ fault. IsBeforeRun fault };

    fn from(_error: AllocError) -> ExitFault<'a> {
        ExitFault::Run("", RunFault::OutOfMemory)
    }
}

impl<'a, T: Drop> From<AllocFailed<T>> for ExitFault<'a> {
    ghost from_gives = { λ _ fault. IsBeforeRun fault };

    fn from(_error: AllocFailed<T>) -> ExitFault<'a> {
        ExitFault::Run("", RunFault::OutOfMemory)
    }
}
