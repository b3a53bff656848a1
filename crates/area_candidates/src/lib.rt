//! What could give a router a route to a prefix within its areas and between them, and by which
//! rule of RFC 2328 a candidate is taken out (16.1 and 16.2).
//!
//! [`intra_drafts`] lists the networks and stub links of the router's areas, and [`inter_drafts`]
//! their summary-LSAs, whatever their age. The first [`Rule`] that looks at a candidate alone and
//! takes it out decides. What no rule takes out has a rank, by which it is compared with others.
#![tactic(auto)]

// What is said of a candidate.
mod draft;
mod rule;

// LSAs in order.
mod found_lsa;
mod ordered_lsas;

// The areas of a router.
mod area_view;
mod router_areas;

// Candidates.
mod networks;
mod stubs;
mod summaries;

pub use area_view::AreaView;
pub use draft::{Draft, Judged, Standing, left_rank};
pub use found_lsa::FoundLsa;
pub use networks::vertex_of;
pub use ordered_lsas::{found_at, lsas_in_order};
pub use router_areas::area_views;
pub use rule::Rule;
pub use stubs::intra_drafts;
pub use summaries::{inter_drafts, judged_border};
