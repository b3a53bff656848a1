//! What of a database is out of the planner's profile: summary-LSAs whose metrics do not follow
//! from the database by RFC 2328, so that the edit `refresh` would change them.
//!
//! [`summary_findings`] has a finding for each.
#![tactic(auto)]

mod summaries;

pub use summaries::summary_findings;
