//! The lines of small networks.

// What the tests share.
mod built;
mod differences;
mod lines;
mod links;
