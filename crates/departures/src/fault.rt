//! Why departures are refused.

ghost use Rattle.std.specs.Prelude.{◌≡◌, true};
ghost use Rattle.departures.specs.declared.fault.DepartureFault.TheVariants as faults;
ghost use Rattle.departures.specs.Departures.{is_late};

use lsa_codec::{Prefix, RouterId};
use lsa_remaking::RemakeFault;
use std::alloc::AllocError;
use thiserror::Error;

/// Why there are no changes. The database is unchanged.
#[derive(Clone, Copy, Debug, PartialEq, Eq, Error)]
pub enum DepartureFault {
    /// No area has a router-LSA of this router below MaxAge.
    #[error("NoRouter")]
    NoRouter(RouterId),
    /// No area has a transit network with this prefix that this router is on.
    #[error("NotOnNetwork")]
    NotOnNetwork(RouterId, Prefix),
    /// An LSA that the departure changes could not be rebuilt.
    #[error("{0}")]
    NotMade(RemakeFault),
    /// Memory ran out before another fault was found.
    #[error("OutOfMemory")]
    OutOfMemory,
}

impl From<AllocError> for DepartureFault {
    ghost from_gives = { λ _ e. e ≡ faults.OutOfMemory };

    fn from(_e: AllocError) -> DepartureFault {
        DepartureFault::OutOfMemory
    }
}

/// The fault where an LSA could not be rebuilt.
pub(crate) fn unmade(fault: RemakeFault) -> DepartureFault
    ensures { is_late result ≡ true }
{
    match fault {
        RemakeFault::OutOfMemory => DepartureFault::OutOfMemory,
        other => DepartureFault::NotMade(other),
    }
}
