//! Why no graph was built.

ghost use Rattle.std.specs.Prelude.{◌≡◌};
ghost use Rattle.area_graph.specs.declared.fault.GraphFault.TheVariants.{OutOfMemory};

use std::alloc::{AllocError, AllocFailed};
use thiserror::Error;

/// Why the graph of an area was not built.
#[derive(Clone, Copy, Debug, PartialEq, Eq, Error)]
pub enum GraphFault {
    /// The database lacks the area.
    #[error("NoArea")]
    NoArea,
    /// The area is there, and memory ran out.
    #[error("OutOfMemory")]
    OutOfMemory,
}

impl From<AllocError> for GraphFault {
    ghost from_gives = { λ _ fault. fault ≡ OutOfMemory };

    fn from(_fault: AllocError) -> GraphFault {
        GraphFault::OutOfMemory
    }
}
