//! Explanations, and the neighbors over an interface with several of them.

// What the tests share.
mod built;
mod hub;
