//! Why a text is not read as a walk.

ghost use Rattle.std.specs.Prelude.{◌≡◌};
ghost use Rattle.snmp_walk.specs.declared.fault.WalkFault.TheVariants as faults;

use std::alloc::AllocError;
use thiserror::Error;

/// Why a text is not read as a walk.
#[derive(Clone, Copy, Debug, PartialEq, Eq, Error)]
pub enum WalkFault {
    /// No line of it has an object of the OSPF-MIB.
    #[error("NotAWalk")]
    NotAWalk,
    /// Memory ran out.
    #[error("OutOfMemory")]
    OutOfMemory,
}

impl From<AllocError> for WalkFault {
    ghost from_gives = { λ _ e. e ≡ faults.OutOfMemory };

    fn from(_e: AllocError) -> WalkFault {
        WalkFault::OutOfMemory
    }
}
