//! Why words give no options.

ghost use Rattle.std.specs.Prelude.{◌≡◌};
ghost use Rattle.host_arguments.specs.declared.fault.OptionsFault.TheVariants.{OutOfMemory};
ghost use Rattle.host_arguments.specs.OptionsFaults.{IsFaultOf, IsWordFault};

use clap::Error;
use clap::error::ErrorKind;
use std::alloc::AllocError;
use std::io;

/// Why words give no options.
#[derive(Debug, Drop)]
pub enum OptionsFault {
    /// The words are refused, or ask for help or for the version. Its text goes where
    /// `Error::print` puts it, and its status is `Error::exit_code`. It never means that memory ran
    /// out.
    Refused(Error),
    /// A word is not UTF-8 text.
    NotText,
    /// Memory ran out.
    OutOfMemory,
}

impl From<AllocError> for OptionsFault {
    ghost from_gives = { λ _ fault. fault ≡ OutOfMemory };

    fn from(_error: AllocError) -> OptionsFault {
        OptionsFault::OutOfMemory
    }
}

impl From<Error> for OptionsFault {
    ghost from_gives = { λ error fault. IsFaultOf error fault };

    fn from(error: Error) -> OptionsFault {
        match error.kind() {
            ErrorKind::OutOfMemory => OptionsFault::OutOfMemory,
            _ => OptionsFault::Refused(error),
        }
    }
}

impl From<io::Error> for OptionsFault {
    ghost from_gives = { λ _ fault. IsWordFault fault };

    /// Why the words are not available.
    fn from(error: io::Error) -> OptionsFault {
        match error.kind() {
            io::ErrorKind::OutOfMemory => OptionsFault::OutOfMemory,
            _ => OptionsFault::NotText,
        }
    }
}
