//! The values of studies as JSON (RFC 8259).
//!
//! A [`Document`] is what has a JSON value: routers, links, networks, routes, steps of paths,
//! changes, pairs, loops, blackholes and failures, and lists of these. `push_json` adds the text of
//! the value, which has no spaces between its parts. [`push_first`] and [`push_next`] add the
//! members of an object. Routers stand by their Router IDs, and `null` for what is missing.
//! [`json_is_read_back`]: such a text is read as the value that it was made of.
#![tactic(auto)]

// Values, and the text of each.
mod array;
mod document;
mod member;
mod string;

// Numbers, addresses, prefixes, words, and what may be missing.
mod leaf;
mod optional;
mod unnamed;

// What studies answer.
mod change_json;
mod failure_json;
mod link_json;
mod loop_json;
mod network_json;
mod route_json;
mod router_json;
mod step_json;
mod table_json;
mod taken_json;
mod way_json;

// What holds of the definitions.
mod laws;

pub use array::push_array;
pub use change_json::Counts;
pub use document::Document;
pub use laws::json_is_read_back;
pub use leaf::Text;
pub use member::{push_first, push_next};
pub use router_json::NamedRouter;
pub use string::push_string;
pub use unnamed::no_names;
