//! Findings about single LSAs: their places, in order of area, LS type, Link State ID and
//! Advertising Router.
//!
//! Most kinds are a test of LSAs, an [`LsaTest`], and [`lsa_places`] finds the LSAs that pass it.
#![tactic(auto)]

// LSAs that pass a test.
mod found;
mod lsa_test;
mod scope;

// Tests of an LSA by itself.
mod left_out;
mod router_lsas;

// Tests of LSAs beside the routers of the database.
mod boundary;
mod orphans;

// Routers that LSAs name.
mod naming;
mod undescribed;

pub use boundary::external_without_bit_e_places;
pub use found::lsa_places;
pub use left_out::{max_age_places, nssa_places, opaque_places};
pub use lsa_test::LsaTest;
pub use orphans::orphan_lsa_places;
pub use router_lsas::{area_kind_places, drained_places, virtual_link_places};
pub use scope::AreaScope;
pub use undescribed::undescribed_router_places;
