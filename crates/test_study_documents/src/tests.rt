//! The documents of small values.

// What the tests share.
mod built;
mod outcomes;
mod questions;
mod values;
