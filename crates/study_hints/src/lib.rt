//! What would have been right in a line of a study that is not carried out, and the lines of
//! `help`.
//!
//! [`push_fault`] adds what stands on standard error for the first fault of a line:
//! `script S2 UnknownWord drian (did you mean drop-link)`. [`push_help`] adds the lines that
//! `help` answers. [`nearest`] finds the word that is most like another. No call takes memory but
//! for the text.
#![tactic(auto)]

// Words, and what they are to be.
mod escape;
mod grammar;
mod near;
mod role;

// The lines of `help`.
mod help;

// Hints for one word, for an expectation, and for any line.
mod argument_hint;
mod condition_hint;
mod hint;

pub use escape::push_escaped;
pub use grammar::{command_text, expectation_text};
pub use help::{command_meaning, commands, count_help, push_help};
pub use hint::{command_at, push_fault, push_fault_hint};
pub use near::{Candidate, nearest};
