//! What questions of a study are answered.
#![tactic(auto)]

// Replies that list lines.
mod listing;
mod text;

// Routers, links, networks and routes, and why these are what they are.
mod explain;
mod links;
mod routes;

// What differs from the baseline, what loops, and what each single failure takes away.
mod changes;
mod loops;
mod sweep;

// What the answers may not be trusted for.
mod audit;

// Edits and the language.
mod help;
mod log;

// Each question.
mod questions;

pub use explain::explained;
pub use log::done_records;
pub use questions::question;
