//! The places of findings: where in a database something is found that answers may not be trusted
//! for, and the text of each.
//!
//! A [`Form`] has what is found, and [`Place::of`] makes a place of it, which contracts see as a
//! value with lists. `push_lines` of `study_text` adds the lines of places.
#![tactic(auto)]

// What is found.
mod cost;
mod form;
mod part;
mod place;

// Its text.
mod routers_text;
mod summaries_text;
mod text;

pub use cost::Cost;
pub use form::Form;
pub use part::Part;
pub use place::Place;
