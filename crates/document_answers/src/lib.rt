//! What questions and expectations of a study are answered in documents.
//!
//! [`question_document`] returns the members of the reply to a question, as JSON, or why the
//! question is refused; [`judge`] what is found of an expectation, with the members of its reply.
//! Both find what the text of a study is made of, and say it by keys. Routers stand by their
//! Router IDs.
#![tactic(auto)]

// What a question is answered.
mod documented;

// Routers, links, networks and routes, and why these are what they are.
mod explain;
mod links;
mod routes;

// What differs from the baseline, what loops, and what each single failure takes away.
mod changes;
mod loops;
mod sweep;

// What the answers may not be trusted for.
mod audit;

// Edits and the language.
mod help;
mod log;

// Each question, and each expectation.
mod expectations;
mod questions;

pub use documented::Documented;
pub use expectations::{Judged, judge};
pub use questions::question_document;
