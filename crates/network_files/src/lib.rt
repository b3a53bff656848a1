//! What files from a network contain, and the database and the dump that all of them make.
//!
//! A file is a packet capture, what a router prints of its databases, as a text or in JSON, or an
//! SNMP walk; its content decides which ([`FileKind`]). [`read_file`] reads a file of each kind:
//! its LSAs, the kinds of areas, and what cannot be used or is missing. [`join_files`] joins the
//! contents of all files, and answers the database and its dump. They depend on which files there
//! are, and not on their order.
#![tactic(auto)]

mod content;
mod dump;
mod fault;
mod kind;
mod laws;
mod parsed_file;

pub use dump::{JoinedFiles, areas_of, join_files};
pub use fault::FileFault;
pub use kind::{FileKind, is_compressed};
pub use laws::{files_in_any_order, one_reading_of_a_file};
pub use parsed_file::{ParsedFile, read_file};
