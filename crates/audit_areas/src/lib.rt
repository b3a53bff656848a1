//! The areas of a database as audits look at them (RFC 2328, 12.4.1 and 16.1): the edges and
//! routers of each, which routers are linked, and which of them are border routers.
//!
//! [`audited_areas`] makes the graph of each area. [`places_by_router`] goes over the routers of
//! all areas, and asks a [`Finding`] what it finds at each; [`several`] finds the keys that
//! several values have.
#![tactic(auto)]

// Areas, and the ends of the edges out of a vertex.
mod area;
mod ends;
mod routers;

// Linked routers, border routers.
mod borders;

// What is found at each router, and lists in groups.
mod finding;
mod groups;
mod lists;

pub use area::{AuditedArea, audited_areas};
pub use borders::{attached_count, is_border, is_linked};
pub use ends::{has_other_end, is_end};
pub use finding::{Finding, places_by_router, push_places_in};
pub use groups::several;
pub use lists::push_some;
