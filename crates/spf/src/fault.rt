//! Why there is no tree.

ghost use Rattle.std.specs.Prelude.{◌≡◌};
ghost use Rattle.spf.specs.declared.fault.SpfFault.TheVariants.{OutOfMemory};

use std::alloc::AllocError;
use thiserror::Error;

/// Why there are no distances from a router.
#[derive(Clone, Copy, Debug, PartialEq, Eq, Error)]
pub enum SpfFault {
    /// The root is no vertex of the graph.
    #[error("NoRouter")]
    NoRouter,
    /// Memory ran out. The root is a vertex of the graph.
    #[error("OutOfMemory")]
    OutOfMemory,
}

impl From<AllocError> for SpfFault {
    ghost from_gives = { λ _ fault. fault ≡ OutOfMemory };

    fn from(_error: AllocError) -> SpfFault {
        SpfFault::OutOfMemory
    }
}
