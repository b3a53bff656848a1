//! The routers of a database that audits ask about: linked routers, which have an edge in one of
//! their areas, and border routers, which are linked and have several areas (RFC 2328, 3.3 and
//! 16.1). A router without any edge is down or cut off, and what its LSAs say concerns nobody.
#![tactic(auto)]

mod linked;
mod router_list;

pub use linked::{border_routers, linked_routers};
pub use router_list::RouterList;
