//! What differs from a baseline as studies show it: values, and their texts.
//!
//! [`Changes`] has what differs by name: its group, its router and its prefix. A [`ChangeLine`]
//! adds the routes of now and of before, a [`PairLine`] the route that is lost or gone and who
//! announces its prefix. All are values, whatever databases they are of.
#![tactic(auto)]

// Changes.
mod change_line;
mod change_name;
mod changes;
mod group;

// Pairs of a router and a prefix.
mod pair;
mod pair_line;

// What was found where a condition does not hold.
mod found;

pub use change_line::ChangeLine;
pub use change_name::ChangeName;
pub use changes::{Changes, count_of, push_counts};
pub use found::{is_listed, push_changes_found, push_pairs_found, push_unlisted, unlisted};
pub use group::ChangeGroup;
pub use pair::Pair;
pub use pair_line::PairLine;
