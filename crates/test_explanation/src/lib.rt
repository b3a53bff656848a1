//! Tests of why routes are what they are, over a small network that is worked out by hand.
#![tactic(auto)]

#[cfg(test)]
mod tests;
