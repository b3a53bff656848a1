//! Why a line is not a command.

ghost use Rattle.std.specs.Prelude.{◌≡◌};
ghost use Rattle.edit_script.specs.Fault.{code_of, name_of};

use thiserror::Error;

/// The first fault of a line that is not a command.
///
/// The faults are tested in this order: [`Empty`](ScriptFault::Empty),
/// [`BadBranch`](ScriptFault::BadBranch), [`MissingWord`](ScriptFault::MissingWord) where nothing
/// follows the branch, [`UnknownWord`](ScriptFault::UnknownWord), then
/// [`MissingWord`](ScriptFault::MissingWord) and [`ExtraWord`](ScriptFault::ExtraWord) by the
/// number of the arguments, and then the arguments' own faults from left to right. The text of each
/// is its name.
#[derive(Clone, Copy, Debug, PartialEq, Eq, Error)]
pub enum ScriptFault {
    /// S1: the line has no words, or is a comment: its first word begins with `#`.
    #[error("Empty")]
    Empty,
    /// S2: the command word is unknown.
    #[error("UnknownWord")]
    UnknownWord,
    /// S3: there is no command word after the branch, or the command has too few arguments.
    #[error("MissingWord")]
    MissingWord,
    /// S4: the command has too many arguments.
    #[error("ExtraWord")]
    ExtraWord,
    /// S5: an argument is not a decimal number, has a leading zero, or is out of its range.
    #[error("BadNumber")]
    BadNumber,
    /// S6: an argument is not an address in dotted decimal.
    #[error("BadAddress")]
    BadAddress,
    /// S7: an argument is not a prefix such as `10.0.0.0/8`, whatever part of it is wrong.
    #[error("BadPrefix")]
    BadPrefix,
    /// S8: the first word begins with `@` and names no branch.
    #[error("BadBranch")]
    BadBranch,
}

impl ScriptFault {
    /// The code and the name of each fault.
    fn texts(self) -> (&'static str, &'static str)
        ensures code { result.0.now ≡ code_of self }
        ensures name { result.1.now ≡ name_of self }
    {
        match self {
            ScriptFault::Empty => ("S1", "Empty"),
            ScriptFault::UnknownWord => ("S2", "UnknownWord"),
            ScriptFault::MissingWord => ("S3", "MissingWord"),
            ScriptFault::ExtraWord => ("S4", "ExtraWord"),
            ScriptFault::BadNumber => ("S5", "BadNumber"),
            ScriptFault::BadAddress => ("S6", "BadAddress"),
            ScriptFault::BadPrefix => ("S7", "BadPrefix"),
            ScriptFault::BadBranch => ("S8", "BadBranch"),
        }
    }

    /// The fault's code, as replies print it: `S1` to `S8`.
    pub fn code(self) -> &'static str
        ensures { result.now ≡ code_of self }
    {
        self.texts().0
    }

    /// The fault's name, as replies print it after the code.
    pub fn name(self) -> &'static str
        ensures { result.now ≡ name_of self }
    {
        self.texts().1
    }
}
