//! How calls end: 0 to 5 are the statuses of the programs.

/// The texts are in their rooms.
pub(crate) const DONE: u32 = 0;

/// So are they, but a line of the study was refused or failed, or the run had a warning.
pub(crate) const NOT_ACCEPTED: u32 = 1;

/// The name of a file is not text in UTF-8.
pub(crate) const NOT_TEXT: u32 = 2;

/// The dump, the baseline, the names or a file are refused.
pub(crate) const REFUSED: u32 = 3;

/// An input is too long.
pub(crate) const TOO_LARGE: u32 = 4;

/// Memory ran out.
pub(crate) const NO_MEMORY: u32 = 5;

/// A room is too small.
pub(crate) const NO_ROOM: u32 = 6;
