//! The JSON of why a route is what it is (RFC 8259).
//!
//! [`push_explanation`] adds the reply to `explain`: the route and its rule, all candidates, the
//! steps on paths of least cost, and the LSAs on which the route rests. Routers stand by their
//! Router IDs.
#![tactic(auto)]

// What stands in the lists.
mod candidate;
mod rest;
mod step;

// The whole.
mod reply;

// What holds of the definitions.
mod laws;

pub use laws::explanations_nest_little;
pub use reply::push_explanation;
