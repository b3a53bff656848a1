//! Why events are refused.

ghost use Rattle.std.specs.Prelude.{◌≡◌};
ghost use Rattle.event_links.specs.declared.fault.EventFault.TheVariants as faults;

use lsa_codec::{Addr, RouterId};
use std::alloc::AllocError;
use thiserror::Error;

/// Why an event is refused. The database is unchanged.
#[derive(Clone, Copy, Debug, PartialEq, Eq, Error)]
pub enum EventFault {
    /// Both routers are the same.
    #[error("SameRouter")]
    SameRouter,
    /// No area has a router-LSA of this router below MaxAge.
    #[error("NoRouter")]
    NoRouter(RouterId),
    /// The first router has no point-to-point link to the second.
    #[error("NotNeighbors")]
    NotNeighbors(RouterId, RouterId),
    /// The router has no such interface with this address.
    #[error("NoInterface")]
    NoInterface(RouterId, Addr),
    /// Which link the router's interface with this address has is not known: several have the
    /// address, or parallel links without addresses look the same.
    #[error("UnclearEnd")]
    UnclearEnd(RouterId, Addr),
    /// A link to a router or to a transit network would have cost 0 (RFC 2328, C.3).
    #[error("ZeroCost")]
    ZeroCost,
    /// Memory ran out before another fault was found.
    #[error("OutOfMemory")]
    OutOfMemory,
}

impl From<AllocError> for EventFault {
    ghost from_gives = { λ _ e. e ≡ faults.OutOfMemory };

    fn from(_e: AllocError) -> EventFault {
        EventFault::OutOfMemory
    }
}
