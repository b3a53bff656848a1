//! What audits find in the graphs of areas (RFC 2328, 3.3, 3.7, 12.4.1 and 16.1): border routers
//! that lack an area, the backbone or bit B, areas in parts, networks of one prefix, and routers
//! without an edge.
#![tactic(auto)]

// Routers, by their LSAs and by the areas that they are attached to.
mod backbone;
mod router_tests;

// Areas in parts.
mod part;
mod parts;
mod split_areas;

// Networks of one prefix.
mod in_use;
mod networks;

// What holds of the definitions.
mod laws;

pub use backbone::abr_without_backbone_places;
pub use laws::parts_are_joined_by_paths;
pub use networks::several_networks_places;
pub use router_tests::{abr_without_bit_b_places, area_missing_places, unreached_router_places};
pub use split_areas::split_area_places;
