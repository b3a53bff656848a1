//! The LSAs that others originate where a router leaves a transit network, or fails (RFC 2328, 9.4,
//! 12.4.1 and 12.4.2).
//!
//! [`departure_changes`] answers which slots of a database a departure changes, and which LSA each
//! gets; or by which [`DepartureFault`] it is refused. `specs/Departures.antt` says what a
//! departure makes of a database.
#![tactic(auto)]

// Why departures are refused.
mod fault;
mod refusing;

// How they change it.
mod lsas_after;
mod walking;

pub use fault::DepartureFault;
pub use walking::departure_changes;
