//! Why a line is not carried out.

ghost use Rattle.std.specs.Prelude.{◌≡◌};
ghost use Rattle.study_arguments.specs.Fault.{bad_word, code_of, fault_at, name_of, unknown_word};
ghost use Rattle.study_arguments.specs.declared.fault.FaultKind.TheVariants as kinds;
ghost use Rattle.study_arguments.specs.declared.fault.ParseError.TheVariants as errors;

use edit_script::ScriptFault;
use std::alloc::{AllocError, AllocFailed};

/// What is wrong in a line.
///
/// The faults are tested in this order: S8 for the first word, S3 where nothing follows the branch,
/// S2, then S3 and S4 by the number of the arguments, and then the arguments' own faults from left
/// to right. Expectations have no fixed number of words: they are read from left to right.
#[derive(Clone, Copy, Debug, PartialEq, Eq)]
pub enum FaultKind {
    /// S2 to S8: a fault that lines of `ospf-plan` have, too.
    Script(ScriptFault),
    /// S9: a word that is none of those that may stand there.
    BadWord,
}

impl FaultKind {
    /// The fault's code, as replies print it: `S2` to `S9`.
    pub fn code(self) -> &'static str
        ensures { result.now ≡ code_of self }
    {
        match self {
            FaultKind::Script(fault) => fault.code(),
            FaultKind::BadWord => "S9",
        }
    }

    /// The fault's name, as replies print it after the code.
    pub fn name(self) -> &'static str
        ensures { result.now ≡ name_of self }
    {
        match self {
            FaultKind::Script(fault) => fault.name(),
            FaultKind::BadWord => "BadWord",
        }
    }
}

impl From<ScriptFault> for FaultKind {
    ghost from_gives = { λ fault kind. kind ≡ kinds.Script fault };

    fn from(fault: ScriptFault) -> FaultKind {
        FaultKind::Script(fault)
    }
}

/// The first fault of a line, and the word at fault.
#[derive(Clone, Copy, Debug)]
pub struct Fault<'a> {
    /// What is wrong.
    pub kind: FaultKind,
    /// The word at fault. Where a word is missing, it is the branch where nothing follows it, the
    /// command word where there are too few arguments, and the last word of an expectation.
    pub word: &'a [u8],
}

impl<'a> Fault<'a> {
    /// S2, for a word that is unknown.
    pub fn unknown_word(word: &'a [u8]) -> Fault<'a>
        ensures { fault_at result ≡ unknown_word word.now }
    {
        let kind = FaultKind::Script(ScriptFault::UnknownWord);
        Fault { kind, word }
    }

    /// S9, for a word that is none of those that may stand there.
    pub fn bad_word(word: &'a [u8]) -> Fault<'a>
        ensures { fault_at result ≡ bad_word word.now }
    {
        let kind = FaultKind::BadWord;
        Fault { kind, word }
    }
}

/// Why a line is not read.
#[derive(Clone, Copy, Debug)]
pub enum ParseError<'a> {
    /// The line has a fault.
    Fault(Fault<'a>),
    /// Memory ran out.
    OutOfMemory,
}

impl<'a> From<Fault<'a>> for ParseError<'a> {
    ghost from_gives = { λ fault e. e ≡ errors.Fault fault };

    fn from(fault: Fault<'a>) -> ParseError<'a> {
        ParseError::Fault(fault)
    }
}

impl<'a> From<AllocError> for ParseError<'a> {
    ghost from_gives = { λ _ e. e ≡ errors.OutOfMemory };

    fn from(_error: AllocError) -> ParseError<'a> {
        ParseError::OutOfMemory
    }
}

impl<'a, T: Drop> From<AllocFailed<T>> for ParseError<'a> {
    ghost from_gives = { λ _ e. e ≡ errors.OutOfMemory };

    fn from(_error: AllocFailed<T>) -> ParseError<'a> {
        ParseError::OutOfMemory
    }
}
