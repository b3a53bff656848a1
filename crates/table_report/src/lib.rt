//! The texts of routing tables, and of their differences.
#![tactic(auto)]

mod compare;
mod line;
mod piece;
mod text;

pub use compare::{compare_text, push_compare, push_no_change};
pub use text::{push_table, table_text};
