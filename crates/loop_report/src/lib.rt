//! Forwarding loops, blackholes, and what may loop while routers change over, as answers.
//!
//! Two databases are compared: a baseline and the present one, or those before and after edits. An
//! *atom* of a prefix are its addresses that no longer prefix of an entry covers, of any router in
//! either database. All its addresses have the same forwarding graphs, so that one address stands
//! for all ([`an_atom_has_one_graph`]), and each address that an entry covers is in one atom
//! ([`each_address_has_one_atom`]). [`LoopReport`] has the loops of all atoms now and the new
//! blackholes, [`joint_loops`] what may loop while routers change over.
#![tactic(auto)]

// The prefixes of all entries, and their atoms.
mod atoms;
mod nets;

// What one forwarding graph shows, or two of one address.
mod blackhole;
mod falling;
mod loops;

// What the databases show.
mod changeover;
mod compared;
mod report;
mod targets;

// The texts.
mod blackhole_text;
mod loop_text;
mod text;

// What holds of the definitions.
mod laws;

pub use atoms::Atoms;
pub use blackhole::Blackhole;
pub use changeover::joint_loops;
pub use laws::{an_atom_has_one_graph, each_address_has_one_atom, entries_have_prefixes};
pub use loops::PrefixLoop;
pub use report::LoopReport;
pub use text::push_found;
