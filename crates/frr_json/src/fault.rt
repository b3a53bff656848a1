//! Why a text is not a database in JSON.

use std::alloc::AllocError;

/// Why a text is not read.
#[derive(Clone, Copy, Debug, PartialEq, Eq)]
pub enum JsonFault {
    /// Memory ran out.
    OutOfMemory,
    /// The text is not JSON (RFC 8259) in UTF-8, or it nests deeper than 128 levels.
    NotJson,
    /// It is JSON, but not an object with one of the databases that are read.
    NoDatabase,
}

impl From<AllocError> for JsonFault {
    ghost use Rattle.frr_json.specs.declared.fault.JsonFault.TheVariants.{OutOfMemory};
    ghost use Rattle.std.specs.Prelude.{◌≡◌};

    ghost from_gives = { λ _ fault. fault ≡ OutOfMemory };

    fn from(_refused: AllocError) -> JsonFault {
        JsonFault::OutOfMemory
    }
}
