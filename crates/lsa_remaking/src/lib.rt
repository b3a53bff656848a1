//! LSAs made from others where the network changes: router-LSAs with other links, and network-LSAs
//! with other routers (RFC 2328, 12.4.1, 12.4.2, A.4.2, A.4.3).
//!
//! [`relink`] rebuilds a router-LSA by what becomes of each of its links. [`with_routers`] rebuilds
//! a network-LSA, and [`succeed`] makes that of another Designated Router. Each answers an accepted
//! LSA with length and checksum set again, or says why there is none.
#![tactic(auto)]

mod fault;
mod link_change;
mod making;
mod networks;
mod relinking;

pub use fault::RemakeFault;
pub use link_change::{ChangedLink, LinkChange};
pub use networks::{succeed, with_routers};
pub use relinking::{count_left, relink};
