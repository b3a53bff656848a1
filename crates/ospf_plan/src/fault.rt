//! Why the program ends with another status than 0 or 2.

use whole_run::RunFault;

/// A file that the command line names.
#[derive(Clone, Copy, Debug, PartialEq, Eq)]
pub(crate) enum FileArg {
    /// The dump.
    Dump,
    /// The script.
    Script,
    /// The file for the dump that the script leaves.
    Out,
    /// The file for the session that the script leaves.
    Save,
}

/// Why the program ends with status 3, 4 or 5.
#[derive(Clone, Copy, Debug, PartialEq, Eq)]
pub(crate) enum ExitFault {
    /// The run ended early.
    Run(RunFault),
    /// A file cannot be opened.
    Open(FileArg),
}
