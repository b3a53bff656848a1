//! Dumps of a network's files that are in memory, with any allocator.
//!
//! [`capture`] makes the dump of files and compares it with lists, and gives what `ospf-capture`
//! writes.
#![tactic(auto)]

mod capturing;
mod fault;
mod files;
mod lists;

pub use capturing::{CaptureTexts, capture};
pub use fault::CaptureEnd;
pub use files::GivenFile;
