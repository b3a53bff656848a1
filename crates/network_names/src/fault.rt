//! Why a names file is refused.

ghost use Rattle.std.specs.Prelude.{◌≡◌};
ghost use Rattle.network_names.specs.Fault.{code_of, name_of};
ghost use Rattle.network_names.specs.declared.fault.NamesError.TheVariants as errors;

use std::alloc::AllocError;
use thiserror::Error;

/// What is wrong in a line of a names file.
///
/// Lines are tested in order, a line from left to right, and a name in the order of the last three.
/// The text of each is its name.
#[derive(Clone, Copy, Debug, PartialEq, Eq, Error)]
pub enum NamesFaultKind {
    /// H1: the first word is not an address in dotted decimal.
    #[error("BadAddress")]
    BadAddress,
    /// H2: no name follows. The word at fault is the address.
    #[error("MissingName")]
    MissingName,
    /// H3: a name is not 1 to 255 letters, digits, `.`, `-` and `_`.
    #[error("BadName")]
    BadName,
    /// H4: a name reads as an address or as digits alone, or is a word of the language of studies.
    #[error("ReservedName")]
    ReservedName,
    /// H5: a name stands for another address already.
    #[error("NameTaken")]
    NameTaken,
}

impl NamesFaultKind {
    /// The fault's code, as it is printed: `H1` to `H5`.
    pub fn code(self) -> &'static str
        ensures { result.now ≡ code_of self }
    {
        match self {
            NamesFaultKind::BadAddress => "H1",
            NamesFaultKind::MissingName => "H2",
            NamesFaultKind::BadName => "H3",
            NamesFaultKind::ReservedName => "H4",
            NamesFaultKind::NameTaken => "H5",
        }
    }

    /// The fault's name, as it is printed after the code.
    pub fn name(self) -> &'static str
        ensures { result.now ≡ name_of self }
    {
        match self {
            NamesFaultKind::BadAddress => "BadAddress",
            NamesFaultKind::MissingName => "MissingName",
            NamesFaultKind::BadName => "BadName",
            NamesFaultKind::ReservedName => "ReservedName",
            NamesFaultKind::NameTaken => "NameTaken",
        }
    }
}

/// The first fault of a names file.
#[derive(Clone, Copy, Debug)]
pub struct NamesFault<'a> {
    /// The line, counted from 1.
    pub line: usize,
    /// What is wrong.
    pub kind: NamesFaultKind,
    /// The word at fault.
    pub word: &'a [u8],
}

/// Why names are not read.
#[derive(Clone, Copy, Debug)]
pub enum NamesError<'a> {
    /// The file has a fault.
    Fault(NamesFault<'a>),
    /// Memory ran out.
    OutOfMemory,
}

impl<'a> From<AllocError> for NamesError<'a> {
    ghost from_gives = { λ _ e. e ≡ errors.OutOfMemory };

    fn from(_error: AllocError) -> NamesError<'a> {
        NamesError::OutOfMemory
    }
}
