//! The lines of a script: commands, reading one from a line, and printing an edit.
//!
//! A line is words between blanks: an optional branch, `@0` to `@7`, a command word and the
//! command's arguments. `cost AREA ROUTER LINK METRIC` and ten others are edits of the link state
//! database, `undo COUNT` and `redo COUNT` take edits back and carry them out again, and
//! `table ROUTER`, `tables`, `compare ROUTER` and `info` show the result of the edits. [`parse`]
//! reads a line without memory, and [`print`] writes an edit as the line that reads back to it.
//! [`number`], [`address`], [`prefix`] and others read one argument.
#![tactic(auto)]

mod arguments;
mod command;
mod commands;
mod edit;
mod edits;
mod event;
mod fault;
mod laws;
mod line;
mod printing;
mod reading;
mod words;

pub use command::Command;
pub use edit::{Edit, MetricType};
pub use event::Event;
pub use fault::ScriptFault;
pub use laws::{edits_are_in_range, reads_back, reads_what_is_said, spelled_on_one_line};
pub use line::parse;
pub use printing::print;
pub use reading::{address, metric_type, metric24, number, number16, prefix};
