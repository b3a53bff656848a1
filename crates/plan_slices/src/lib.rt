//! The planner over bytes in memory, with any allocator.
//!
//! [`plan`] carries out a script on a dump, and gives the texts that are wanted of what `ospf-plan`
//! writes; [`copy_texts`] copies three texts to the room that a host has for each. [`fault_text`] is
//! the line of a run that ended early.
#![tactic(auto)]

mod fault;
mod planning;
mod room;

pub use fault::fault_text;
pub use planning::{PlanTexts, Wanted, plan};
pub use room::{copy_text, copy_texts};
