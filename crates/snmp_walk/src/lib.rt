//! What an SNMP walk of a router contains of its link state databases (RFC 4750, the OSPF-MIB).
//!
//! A walk is what net-snmp's `snmpwalk` and `snmpbulkwalk` print, with `-On -Ox` or in the default
//! form, with the MIB or without.
#![tactic(auto)]

mod count;
mod fault;
mod laws;
mod missing;
mod name;
mod object;
mod parsed_object;
mod subject;
mod text;
mod value;
mod walk;

pub use fault::WalkFault;
pub use laws::printed_bytes_are_read;
pub use walk::read_walk;
