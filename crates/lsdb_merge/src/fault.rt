//! Why observations make no database.

ghost use Rattle.std.specs.Prelude.{◌≡◌};
ghost use Rattle.lsdb_merge.specs.declared.fault.JoinFault.TheVariants.{OutOfMemory};

use std::alloc::{AllocError, AllocFailed};
use thiserror::Error;

/// Why observations make no database. The first fault in this order is returned. `OutOfMemory` may
/// stand in place of any.
#[derive(Clone, Copy, Debug, PartialEq, Eq, Error)]
pub enum JoinFault {
    /// An LSA of AS scope (type 5 or 11) is reported in an area, or one of another type outside of
    /// all areas.
    #[error("MisplacedLsa")]
    MisplacedLsa,
    /// More than 64 areas.
    #[error("TooManyAreas")]
    TooManyAreas,
    /// An area has more than 8,192 LSAs, or there are more than 65,535 of AS scope.
    #[error("TooManyLsas")]
    TooManyLsas,
    /// The dump would have more than 16,777,216 bytes.
    #[error("TooLong")]
    TooLong,
    /// Memory ran out.
    #[error("OutOfMemory")]
    OutOfMemory,
}

impl From<AllocError> for JoinFault {
    ghost from_gives = { λ _ fault. fault ≡ OutOfMemory };

    fn from(_e: AllocError) -> JoinFault {
        JoinFault::OutOfMemory
    }
}

impl<T: Drop> From<AllocFailed<T>> for JoinFault {
    ghost from_gives = { λ _ fault. fault ≡ OutOfMemory };

    fn from(_e: AllocFailed<T>) -> JoinFault {
        JoinFault::OutOfMemory
    }
}
