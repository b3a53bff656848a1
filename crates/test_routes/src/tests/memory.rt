//! Graphs, trees and hops where memory is refused: each growth of a call in turn, and all growths
//! of readers, which take none.

// What the calls are made on, and texts of what they answer.
mod network;
mod texts;

// The calls.
mod calls;
mod hops;
mod readers;
