//! Tests of LSAs, databases, scripts and edits, and of what tests are made of: what no run of the
//! program shows. Beside them databases after the edits that lines mean, compared with each other,
//! and full ones.
#![tactic(auto)]

pub mod edited;
pub mod filled;
pub mod lines;
pub mod sections;
#[cfg(test)]
mod tests;
