//! Tests of what is said of routers, links and networks, and of how databases differ, over small
//! networks that are worked out by hand.
#![tactic(auto)]

#[cfg(test)]
mod tests;
