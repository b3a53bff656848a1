//! Sessions that outlive the program: a planner's base, its done edits and its undone ones, saved
//! as bytes and opened again.
//!
//! [`save`] writes the dump of a session, version 2, and [`open`] makes the same session of it, or
//! a session without edits of a dump of version 1. What is opened is what was saved: the base, the
//! edits that are done, and those that are undone, in their order. [`SavedSession`] has both calls
//! as methods of a planner.
//!
//! In the dump the base is followed by the number of edits done and the number of edits undone, and
//! these by the lines of the edits: those done in the order in which they were carried out, then
//! those undone in the order in which `redo` carries them out. A line is an edit as
//! [`print`](edit_script::print) spells it, and ends with a line feed. [`edit_line`] reads one line
//! and [`put_line`] writes one.
#![tactic(auto)]

mod history;
mod laws;
mod line;
mod opening;
mod read;
mod saving;
mod session;

pub use laws::{
    line_laws, opened_sessions_have_no_events, opened_sessions_refuse_no_edit, session_laws,
    sessions_open_again,
};
pub use line::{edit_line, put_line};
pub use opening::{begins_session, open};
pub use saving::save;
pub use session::SavedSession;
