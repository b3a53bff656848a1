//! Why a run over files in memory ends early.

ghost use Rattle.std.specs.Prelude.{◌≡◌};
ghost use Rattle.capture_lines.specs.declared.fault.ExitFault.TheVariants.{Memory};
ghost use Rattle.capture_slices.specs.declared.fault.CaptureEnd.TheVariants.{Fault};

use capture_lines::ExitFault;
use std::alloc::{AllocError, AllocFailed};

/// Why a run over files in memory ends early.
#[derive(Clone, Copy, Debug, PartialEq, Eq)]
pub enum CaptureEnd<'a> {
    /// The name of a file or of a list is not text in UTF-8.
    NotText,
    /// What `ospf-capture` ends with. Nothing is opened or written, so it is no fault of that.
    Fault(ExitFault<'a>),
}

impl<'a> From<ExitFault<'a>> for CaptureEnd<'a> {
    ghost from_gives = { λ fault end. end ≡ Fault fault };

    fn from(fault: ExitFault<'a>) -> CaptureEnd<'a> {
        CaptureEnd::Fault(fault)
    }
}

impl<'a> From<AllocError> for CaptureEnd<'a> {
    ghost from_gives = { λ _ end. end ≡ Fault Memory };

    fn from(_error: AllocError) -> CaptureEnd<'a> {
        CaptureEnd::Fault(ExitFault::Memory)
    }
}

impl<'a, T: Drop> From<AllocFailed<T>> for CaptureEnd<'a> {
    ghost from_gives = { λ _ end. end ≡ Fault Memory };

    fn from(_error: AllocFailed<T>) -> CaptureEnd<'a> {
        CaptureEnd::Fault(ExitFault::Memory)
    }
}
