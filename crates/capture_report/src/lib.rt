//! The report of `ospf-capture`: what the files of a network contain, the dump that they make, and
//! what is missing in them or cannot be used.
//!
//! [`run`] reads all files, joins what they contain, and writes the dump of the database; the
//! theorem of the program rests on it. [`file_line`] is the line of what a file contains. The
//! findings are those of a file ([`file_findings`]), of the kinds of areas ([`area_findings`]), of
//! LSAs that only headers name ([`header_findings`]), and of the joined database
//! ([`database_findings`]).
#![tactic(auto)]

// A run.
mod fault;
mod input;
mod running;

// What each file contains.
mod areas;
mod file;
mod line;

// The kinds of areas.
mod both_kinds;
mod kinds;
mod no_kind;

// LSAs that headers name.
mod headers;
mod newer;
mod shown;

// What a database lacks (RFC 2328, 12.4).
mod borders;
mod database;
mod left_out;
mod naming;

// Sets of items, and a finding for each item.
mod each;
mod sets;

pub use database::database_findings;
pub use fault::RunFault;
pub use file::file_findings;
pub use headers::header_findings;
pub use input::LONGEST_FILE;
pub use kinds::area_findings;
pub use line::file_line;
pub use running::{NetworkDump, run};
