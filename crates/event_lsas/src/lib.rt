//! The LSAs that routers originate after events of links (RFC 2328, 12.4.1): links are cut,
//! interfaces get another cost, or a router is drained (RFC 6987).
//!
//! [`link_changes`] answers which slots of a database an event changes, and which LSA each gets;
//! or why there are no changes, by a [`ChangeFault`]. `specs/LinkEvents.antt` says what each event
//! makes of a database.
#![tactic(auto)]

// What events change.
mod fault;
mod slot_change;

// How they do.
mod carrying;
mod rebuilding;

// What holds of the definitions.
mod laws;

pub use carrying::link_changes;
pub use fault::ChangeFault;
pub use laws::{areas_stay, others_stay, removed_links_are_gone};
pub use slot_change::SlotChange;
