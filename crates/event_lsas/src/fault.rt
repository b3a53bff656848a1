//! Why the changes of an event are not known.

ghost use Rattle.std.specs.Prelude.{◌≡◌};
ghost use Rattle.event_lsas.specs.LinkEvents.{fault_of_event};

use event_links::EventFault;
use thiserror::Error;

/// Why the changes of an event are not known. The database is unchanged.
#[derive(Clone, Copy, Debug, PartialEq, Eq, Error)]
pub enum ChangeFault {
    /// The event is refused.
    #[error("{0}")]
    Refused(EventFault),
    /// Memory ran out before another fault was found.
    #[error("OutOfMemory")]
    OutOfMemory,
}

/// The fault where an event is refused.
pub(crate) fn of_event(fault: EventFault) -> ChangeFault
    ensures { result ≡ fault_of_event fault }
{
    match fault {
        EventFault::OutOfMemory => ChangeFault::OutOfMemory,
        other => ChangeFault::Refused(other),
    }
}
