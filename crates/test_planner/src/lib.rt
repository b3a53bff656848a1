//! Tests of planners: their tables and counts, and their memory; and of lines of saved sessions.
#![tactic(auto)]

#[cfg(test)]
mod tests;
