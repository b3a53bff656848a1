//! Tests of single failures and of what each does, over small networks that are worked out by hand.
#![tactic(auto)]

#[cfg(test)]
mod tests;
