//! What would have been right in a line of a study that is refused: the word at fault, and a hint.
//!
//! [`command_hint`], [`many_links_hint`], [`question_hint`] and [`expectation_hint`] find both, by
//! what the line asks for and by what is known where it is refused, a [`Situation`]. [`push_hint`]
//! adds them to a text: ` 33.3.3.3 (area 0.0.0.1 has 3.3.3.3)`.
#![tactic(auto)]

// What is known, and what is said of it.
mod advice;
mod situation;

// What a database has, and what of it is most like a word.
mod described;
mod nearest;
mod router_links;

// What would have been right in place of a word.
mod networks;
mod routers;

// Which word names a router.
mod router_word;

// What would have been right in an edit.
mod edits;
mod events;
mod limit;

// What would have been right in any line.
mod commands;
mod expectations;
mod questions;

pub use advice::{Hint, push_hint};
pub use commands::{command_hint, many_links_hint};
pub use expectations::expectation_hint;
pub use questions::question_hint;
pub use situation::Situation;
