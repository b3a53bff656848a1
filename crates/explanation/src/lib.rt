//! Why a router's route to a prefix is what it is, as the word `explain` of studies shows it: the
//! route and its rule, all candidates, the paths of least cost, and the LSAs on which the route
//! rests (RFC 2328, 16).
//!
//! [`Explanation::of`] puts it together, and [`push_explanation`] adds its lines. [`kind_rule`] is
//! the rule of a route by its kind.
#![tactic(auto)]

// What stands in the lines.
mod candidate_line;
mod rest;
mod rule_text;
mod way_step;

// Paths of least cost, and the LSAs of their vertices.
mod rests;
mod steps;

// The whole.
mod explanation;

pub use candidate_line::CandidateLine;
pub use explanation::{Explanation, push_explanation};
pub use rest::Rest;
pub use rule_text::kind_rule;
pub use way_step::WayStep;
