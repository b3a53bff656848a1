//! Tests of names files and of the lines of studies: each word and each fault once.
#![tactic(auto)]

#[cfg(test)]
mod tests;
