//! What a program asks of its host: texts read and written whole, files replaced, and how it ends
//! early.
//!
//! [`Watched`] readers and writers remember whether they have failed. One may show its bytes, as
//! std's in-memory ones do; the clauses then say which bytes a call moved. Of one that shows none,
//! a file, they say only how it failed.
//!
//! [`replace_file`] replaces a file whole: whatever happens meanwhile, a path leads to the old file
//! or to the new one.
#![tactic(auto)]

mod ending;
mod fault;
mod filling;
mod reading;
mod replacing;
mod watch;
mod writing;

pub use ending::{end_with, end_without_memory};
pub use fault::ReplaceFault;
pub use reading::{ReadFault, read_more, read_whole};
pub use replacing::replace_file;
pub use watch::Watched;
pub use writing::{WriteFault, write_and_flush, write_whole};
