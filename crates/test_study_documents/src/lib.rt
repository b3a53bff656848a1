//! Tests of the documents that answer the lines of studies, over values worked out by hand.
#![tactic(auto)]

#[cfg(test)]
mod tests;
