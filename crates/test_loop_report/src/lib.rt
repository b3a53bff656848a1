//! Tests of loops and blackholes, over small networks that are worked out by hand.
#![tactic(auto)]

#[cfg(test)]
mod tests;
