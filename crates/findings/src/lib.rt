//! What files of a network contain, whatever their format, and what is missing or cannot be used.
//!
//! The reader of each format finds [`Part`]s, and [`sorted`] makes the [`Content`] of the file of
//! them. A [`Finding`] is what is missing in a file or in the database that files make, or cannot
//! be used; [`finding_lines`] has a line for each. Some are no more than
//! notices ([`is_notice`]): they do not matter to the planner.
#![tactic(auto)]

// What is missing, or cannot be used, and its words.
mod feature;
mod finding;
mod frame_warning;
mod lines;
mod notice;
mod reported_lsa;
mod unused_reason;

// What a file contains.
mod content;
mod part;
mod reporting;

pub use content::{Content, sorted};
pub use feature::Feature;
pub use finding::Finding;
pub use frame_warning::FrameWarning;
pub use lines::finding_lines;
pub use notice::{choose, is_notice, is_opaque_type};
pub use part::Part;
pub use reported_lsa::ReportedLsa;
pub use unused_reason::UnusedReason;
