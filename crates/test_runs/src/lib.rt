//! Tests of runs, of branches, and of the readers and writers of whole texts: what no run of the
//! program shows.
#![tactic(auto)]

#[cfg(test)]
mod tests;
