//! What routers print of their link state databases, in FRR's JSON.
//!
//! The documents are those of `show ip ospf database router json`, and of the same with `network`,
//! `summary`, `asbr-summary` and `external`. As in `frr_text`, an LSA is rebuilt from the
//! printed fields and must then be an accepted LSA with the very checksum and length that were
//! printed. So is an opaque LSA, whose data are printed whole. Members stay in the order of the
//! text, which is the order of links and attached routers.
#![tactic(auto)]

// Members of objects, and their values.
mod member;
mod options;

// The fields of LSAs, and their bytes.
mod body;
mod external;
mod header;
mod network;
mod opaque;
mod router;
mod summary;
// What a document contains.
mod fault;
mod parsed_document;
mod printed;
mod table;

pub use fault::JsonFault;
pub use printed::{is_printed_json, read_printed_json};
