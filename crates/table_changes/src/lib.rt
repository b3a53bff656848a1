//! How what a router uses at one time differs from what it uses at another, prefix by prefix.
//!
//! [`TableChanges`] compares the entries of a router before with those of now: which are missing or
//! gained, which are of another kind, cost more or less, or lead another way, and how many are as
//! they were.
#![tactic(auto)]

// How two entries for a prefix differ.
mod change;
mod comparing;
mod equality;

// How all entries do.
mod table_changes;

// What holds of the definitions.
mod laws;

pub use change::{Change, PrefixChange};
pub use comparing::change_of;
pub use laws::{
    changes_are_all, changes_in_words, changes_swap, counts_are_all, same_entries_do_not_differ,
};
pub use table_changes::TableChanges;
