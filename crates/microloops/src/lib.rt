//! What may loop while routers change over from one state of the network to the next.
//!
//! Until all have changed over, a router sends packets for an address by its match before or by its
//! match after. [`microloops`] returns the loops of both forwarding graphs together, in time almost
//! linear in the ways of both: no step is followed twice.
#![tactic(auto)]

// The search for loops.
mod group;
mod microloop;
mod search;

// Two forwarding graphs together.
mod changeover;

// What holds of the definitions.
mod laws;

pub use changeover::microloops;
pub use laws::equal_graphs_have_their_loops;
pub use microloop::Microloop;
