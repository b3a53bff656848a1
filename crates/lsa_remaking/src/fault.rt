//! Why an LSA could not be rebuilt.

ghost use Rattle.std.specs.Prelude.{◌≡◌};
ghost use Rattle.lsa_remaking.specs.declared.fault.RemakeFault.TheVariants.{OutOfMemory};

use lsa_codec::LsaFault;
use std::alloc::AllocError;
use thiserror::Error;

/// Why an LSA could not be rebuilt. The original LSA is unchanged.
#[derive(Clone, Copy, Debug, PartialEq, Eq, Error)]
pub enum RemakeFault {
    /// It would be longer than 65,535 bytes, the maximum of its length field.
    #[error("TooLong")]
    TooLong,
    /// Its bytes would be rejected as those of an LSA, as by `ZeroCost` where a link to a router
    /// or to a transit network would have cost 0.
    #[error("{0}")]
    Rejected(LsaFault),
    /// Memory ran out before another fault was found.
    #[error("OutOfMemory")]
    OutOfMemory,
}

impl From<AllocError> for RemakeFault {
    ghost from_gives = { λ _ e. e ≡ OutOfMemory };

    fn from(_e: AllocError) -> RemakeFault {
        RemakeFault::OutOfMemory
    }
}
