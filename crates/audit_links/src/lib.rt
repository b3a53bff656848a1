//! What audits find on links (RFC 2328, 12.4.1, 16.1): links and members of networks without a link
//! back, point-to-point links with other costs back, interfaces with several neighbors, and
//! addresses of several routers.
#![tactic(auto)]

// The links of routers.
mod links;

// What has no link back.
mod one_way;
mod one_way_links;
mod one_way_members;

// Point-to-point links.
mod neighbors;
mod unequal;

// What is found on the links of each router.
mod finding;

// Addresses.
mod addresses;

pub use addresses::duplicate_address_places;
pub use finding::{point_to_multipoint_places, unequal_cost_places};
pub use one_way::one_way_link_places;
