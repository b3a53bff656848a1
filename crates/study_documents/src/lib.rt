//! The documents that answer the lines of a study, as JSON (RFC 8259).
//!
//! A document is an object: where the line stands, its branch and word, what became of it, and the
//! reply. [`push_place`] adds its beginning, [`push_front`] or [`push_faulty`] what became of the
//! line, and one of the others the members of the reply and the end of the object; what has no
//! members ends with a brace. [`push_summary`] adds the last document of a run.
//! [`documents_are_read_back`]: together they are the text of one JSON value.
#![tactic(auto)]

// Where a document begins.
mod front;

// Questions.
mod changes;
mod compared;
mod listing;
mod loops;
mod plan;
mod routes;
mod sweep;

// Edits, expectations, and lines that are not carried out.
mod edits;
mod expectation;
mod refusal;

// The last document.
mod summary;

// What holds of the definitions.
mod laws;

pub use changes::push_changes;
pub use compared::{RouteChange, push_compare, route_changes};
pub use edits::push_cost;
pub use expectation::push_expectation;
pub use front::{push_faulty, push_front, push_place};
pub use laws::{documents_are_read_back, replies_nest_little};
pub use listing::{push_listing, push_single};
pub use loops::{push_loops, push_microloops};
pub use plan::{push_info, push_table};
pub use refusal::{push_fault, push_hint};
pub use routes::{push_path, push_routes};
pub use summary::{Counted, push_summary};
pub use sweep::push_sweep;
