//! What a router uses for each prefix.
//!
//! The [`Entries`] of a router come from the routes of its table and from the external prefixes
//! that it announces itself. An [`Entry`] has the kind, the costs, the area and the next hops;
//! an [`OwnExternal`] what is announced for an external prefix of the router itself.
#![tactic(auto)]

// What a router uses for a prefix.
mod entry;
mod own_external;

// All entries of a router.
mod entries;
mod walk;

// What holds of the definitions.
mod laws;

pub use entries::Entries;
pub use entry::Entry;
pub use laws::{
    entries_are_matched, entries_match, nets_have_entries, own_externals_are_announced,
};
pub use own_external::{OwnExternal, own_external_for};
pub use walk::EntryWalk;
