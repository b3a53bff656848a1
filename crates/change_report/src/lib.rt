//! What differs from a baseline: the answers of `changes`, `lost` and `gone`, and what is expected
//! of them.
//!
//! A [`Comparison`](comparison::Comparison) has what differs by name; [`lines_of_changes`],
//! [`lost_lines`] and [`gone_lines`] add the routes of now and of before. [`router_changes`]
//! answers for one router, by its own tables alone.
#![tactic(auto)]

// Lines with routes.
mod lines;
mod router_lines;

// Expectations.
mod expected;

pub use expected::{are_allowed, are_few, push_found};
pub use lines::{gone_lines, lines_of_changes, lost_lines};
pub use router_lines::router_changes;
