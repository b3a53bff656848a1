//! Studies over bytes in memory, with any allocator.
//!
//! [`study`] carries out a study on a dump, and gives what `ospf-study` writes. [`fault_text`] is the
//! line of a run that ended early.
#![tactic(auto)]

mod fault;
mod studying;

pub use fault::fault_text;
pub use studying::{StudyTexts, study};
