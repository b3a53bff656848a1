//! What small networks give.

// What the tests build, texts of it, and the plain program for distances and hops.
mod built;
mod plain;
mod texts;

// Graphs, trees and hops.
mod cost_changes;
mod graphs;
mod hop_lists;
mod networks;
mod ring;
mod trees;

// What an area gives, and routes.
mod attached;
mod best_of_many;
mod summarized;

// Which entry of an AS boundary router counts.
mod preferred;

// Graphs, trees and hops where memory is refused.
mod memory;
