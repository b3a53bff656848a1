//! Routes that routers have lost: of each router the prefixes for which it had an entry in a
//! baseline, and has none now.
//!
//! A prefix is *lost* where somebody still announces it, as [`Announced`] has it, and *gone* where
//! nobody does. [`LostRoutes`] has both of one router, [`LostPairs`] those of all routers;
//! [`Announcers`] has who announces a prefix.
#![tactic(auto)]

// Sets of prefixes.
mod gather;

// The prefixes that LSAs announce.
mod announced;

// What a router has lost, and what all routers have.
mod lost;
mod pairs;

// Who announces prefixes.
mod announcers;

// What holds of the definitions.
mod laws;

pub use announced::Announced;
pub use announcers::Announcers;
pub use laws::{missing_is_lost_or_gone, nothing_is_missing};
pub use lost::LostRoutes;
pub use pairs::{LostPairs, RouterPrefix};
