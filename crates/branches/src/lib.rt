//! Branches: eight sessions side by side, and the reply to each command.
//!
//! [`Branches::step`] carries out one command in one branch, and returns its [`Reply`]; the other
//! branches stay as they were. [`reply_text`] is the reply as it is printed, and
//! [`Branches::answer`] does both. The reply to `tables`, which may be long, is also made part by
//! part: [`tables_head`], and the table of each of [`Branches::routers`] by
//! [`Branches::push_table`].
#![tactic(auto)]

mod branches;
mod commands;
mod laws;
mod reply;

pub use branches::Branches;
pub use laws::{branches_have_no_events, branches_refuse_no_edit, refused_commands_change_nothing};
pub use reply::{Answer, Refusal, Reply, reply_text, script_text, tables_head};
