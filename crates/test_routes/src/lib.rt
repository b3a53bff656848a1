//! Tests of graphs, trees, hops and routes, over small networks that are worked out by hand, and of
//! graphs, trees and hops where memory is refused.
#![tactic(auto)]

#[cfg(test)]
mod tests;
