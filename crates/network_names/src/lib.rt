//! Names of routers and addresses: files in the format of /etc/hosts.
//!
//! A line is `ADDRESS NAME [NAME..]`. What follows `#` is left out, and so are lines whose first
//! word has a `:`, which are those of IPv6. [`read_names`] reads a file, or returns its first
//! fault with the line and the word. [`Names::address_of`] is the address that a name stands for,
//! and [`Names::name_of`] the first name of a router. Both take the time of a search in a tree,
//! and a file is read in the time of a search for each of its names.
#![tactic(auto)]

mod fault;
mod file;
mod laws;
mod lines;
mod name;
mod names;

pub use fault::{NamesError, NamesFault, NamesFaultKind};
pub use file::read_names;
pub use laws::names_have_one_address;
pub use names::Names;
