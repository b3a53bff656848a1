//! The whole run of studies, over readers and writers.
//!
//! [`run`] reads the dump, the baseline, the names and the studies, carries out the lines of the
//! studies in one session, and writes the reply to each line, a line for each that is not accepted,
//! and the summary. The theorem of the whole stands on it.
#![tactic(auto)]

// What a run is given.
mod fault;
mod inputs;
mod loading;

// What it writes.
mod output;
mod refusal;
mod summary;

// A run.
mod carrying;
mod running;

// A run at a terminal.
mod dialog;
mod typing;

pub use dialog::converse;
pub use fault::{NamesRefusal, RunFault};
pub use inputs::{RunFiles, StudyFile};
pub use output::Output;
pub use refusal::names_line;
pub use running::{Ended, Manner, run};
pub use summary::Summary;
pub use typing::Terminal;
