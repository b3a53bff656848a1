//! Audits: what the answers of a study may not be trusted for, kind by kind.
//!
//! [`audit_of`] has the kinds that have a place, [`places_of`] the places of one kind. Both have
//! lines, which `push_lines` of `study_text` adds. [`Audit::wrong`] has what `audit clean` and
//! `audit only` ask about.
#![tactic(auto)]

// What the kinds mean.
mod meanings;

// What is found.
mod audit;
mod finding;
mod places;

// What is expected.
mod counts;
mod expected;

pub use audit::{Audit, audit_of};
pub use counts::KindCount;
pub use expected::{push_unlisted_found, push_wrong_found, unlisted};
pub use finding::Finding;
pub use meanings::{Class, action, class_of, meaning};
pub use places::places_of;
