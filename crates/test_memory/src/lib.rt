//! Tests of routes, tables, planners and branches over an allocator that refuses: each growth of
//! each call in turn.
#![tactic(auto)]

#[cfg(test)]
mod tests;
