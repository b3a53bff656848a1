//! Tests of forwarding graphs, over small networks that are worked out by hand.
#![tactic(auto)]

#[cfg(test)]
mod tests;
