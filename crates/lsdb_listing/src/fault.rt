//! Why a text is not a list.

ghost use Rattle.std.specs.Prelude.{◌≡◌};
ghost use Rattle.lsdb_listing.specs.declared.fault.ListFault.TheVariants as faults;

use std::alloc::AllocError;
use thiserror::Error;

/// Why a text is not read as a list.
#[derive(Clone, Copy, Debug, PartialEq, Eq, Error)]
pub enum ListFault {
    /// No line of it is a heading of a list, or an LSA is printed whole (a line `LS age:`).
    #[error("NotAList")]
    NotAList,
    /// Memory ran out.
    #[error("OutOfMemory")]
    OutOfMemory,
}

impl From<AllocError> for ListFault {
    ghost from_gives = { λ _ e. e ≡ faults.OutOfMemory };

    fn from(_e: AllocError) -> ListFault {
        ListFault::OutOfMemory
    }
}
