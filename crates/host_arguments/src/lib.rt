//! The arguments of a command line, which clap reads, and how a program ends without them.
//!
//! A program takes the [`words`] of its command line, makes its command of [`named_command`], of
//! [`value_option`] and of [`flag_option`], and lets clap read the words; [`values_found`] are
//! those of one argument. By [`ended`] it ends as its run did, or, where the words give no options,
//! with clap's own text, or as a word is no text or memory ran out.
#![tactic(auto)]

mod commands;
mod ending;
mod fault;
mod given;

pub use commands::{CommandTexts, flag_option, named_command, value_option};
pub use ending::{ended, success_if};
pub use fault::OptionsFault;
pub use given::{values_found, words};
