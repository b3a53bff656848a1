//! The session of a study: its branches, its baseline and its names, and the answer to each line.
//!
//! [`StudySession::answer`] carries out one line: a command of `ospf-plan`, the same with names, a
//! question or an expectation. Its answer is a text or, by the [`Format`], what a JSON document has
//! after the place of the line. A line that `ospf-plan` takes has the same reply as a text, unless
//! edits are to say what they changed, and leaves the same sessions.
#![tactic(auto)]

// In which form lines are answered.
mod document;
mod format;

// Where a line is carried out, and what is said where it is refused.
mod context;
mod explained;

// Commands.
mod link_edit;
mod named;
mod plan;
mod way;

// Questions and expectations.
mod expected;
mod seen;

// Lines, one after another.
mod session;

// What holds of the definitions.
mod laws;

pub use format::Format;
pub use laws::plan_lines_are_answered_alike;
pub use session::StudySession;
