//! How a database differs from a baseline by meaning: its areas and its live LSAs (RFC 2328, 12.2
//! and 13.1), as the word `differences` of studies shows it.
//!
//! [`difference_lines`] returns what differs, a [`DifferenceLine`] each, which
//! [`push_lines`](study_text::push_lines) adds to a text.
#![tactic(auto)]

// What differs.
mod line;

// Where it is found.
mod areas;
mod differences;
mod live;

// The texts.
mod line_text;

// What holds of the definitions.
mod laws;

pub use differences::difference_lines;
pub use laws::same_live_parts_do_not_differ;
pub use line::{AreaChange, DifferenceLine};
