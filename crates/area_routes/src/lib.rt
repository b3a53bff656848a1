//! Intra-area routes, inter-area routes and router entries of a router (RFC 2328, 16.1 and 16.2).
//!
//! An [`AreaResult`] has what one area offers: ways to prefixes, and the routers that are area
//! border routers or AS boundary routers. The best ways of all areas become routes, as the crate
//! `best_ways` picks them.
#![tactic(auto)]

// What areas give, and the routes inside the AS.
mod area_result;
mod entry;
mod entry_list;
mod inside_routes;
mod inter_result;

// The result of an area.
mod area_ways;
mod attached;
mod building;
mod choice;
mod few_reached;
mod networks;
mod reached;
mod router_entries;
mod stub_links;
mod stubs;

// Routes within areas.
mod intra_area;

// Routes between areas.
mod all_entries;
mod entry_index;
mod examined;
mod indexed_area;
mod inter_area;
mod summary;

// What holds of the definitions.
mod laws;

pub use area_result::AreaResult;
pub use attached::is_attached;
pub use best_ways::{
    AreaList, BestWays, PathType, Rank, Route, Routes, Way, rank_order, ways_are_best,
};
pub use choice::network_choice;
pub use entry::{EntryKind, RouterEntry};
pub use entry_list::RouterEntries;
pub use examined::backbone;
pub use inside_routes::InsideRoutes;
pub use inter_area::inter;
pub use inter_result::InterResult;
pub use intra_area::{intra, take_intra};
pub use laws::{attached_routers_are_vertices, entries_stand_once, reached_over_all_paths};
pub use stub_links::{StubLink, StubLinks};
