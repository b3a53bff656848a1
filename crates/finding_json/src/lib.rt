//! The JSON of how databases differ, and of what audits find (RFC 8259).
//!
//! [`push_differences`] adds the reply to `differences`, [`push_findings`] that to `audit`, and
//! [`push_places`] that to `audit` with a kind. [`NamedLsa`] is what names an LSA. Routers stand by
//! their Router IDs, in texts too.
#![tactic(auto)]

// Differences.
mod difference;
mod lsa;

// Findings.
mod finding;
mod place;

// What holds of the definitions.
mod laws;

pub use difference::push_differences;
pub use finding::push_findings;
pub use laws::findings_nest_little;
pub use lsa::NamedLsa;
pub use place::push_places;
