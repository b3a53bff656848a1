//! Real frames, what they contain, and the warnings about others.

mod fragments;
pub(super) mod frames;
mod hellos;
mod updates;
mod warning;
