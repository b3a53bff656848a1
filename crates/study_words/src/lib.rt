//! The words of studies: command words, the words of conditions, kinds of routes, of audit findings
//! and of failures, comparisons, and the other words that stand in lines.
//!
//! Each kind of word is an enum that is a [`Word`]: `text` is the word as it is written, `of` finds
//! the one that a text is, and `all` lists all of the kind in their order. No name of a router may
//! be one of these words ([`is_reserved`]).
#![tactic(auto)]

mod word;

// Command words.
mod event_word;
mod plan_word;
mod see_word;
mod study_word;

// Words that stand after them.
mod audit_kind;
mod comparison;
mod condition_word;
mod failure_kind;
mod route_kind;

// What holds of words of any kind.
mod laws;
mod reserved;

pub use audit_kind::AuditKind;
pub use comparison::Comparison;
pub use condition_word::ConditionWord;
pub use event_word::EventWord;
pub use failure_kind::FailureKind;
pub use laws::texts_are_found;
pub use plan_word::PlanWord;
pub use reserved::is_reserved;
pub use route_kind::RouteKind;
pub use see_word::SeeWord;
pub use study_word::StudyWord;
pub use word::Word;
