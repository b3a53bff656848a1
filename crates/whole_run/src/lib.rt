//! The whole run of a script on a dump, over readers and writers.
//!
//! [`run`] reads the dump and the script, writes the reply to each line, and then the dump and the
//! session that the script leaves. The theorem of the whole stands on it.
#![tactic(auto)]

mod fault;
mod inputs;
mod laws;
mod leaving;
mod lines;
mod output;
mod replies;
mod running;
mod sample;
mod script;

pub use fault::RunFault;
pub use inputs::read_dump;
pub use laws::{branches_are_apart, runs_have_no_events, runs_refuse_no_edit};
pub use running::run;
pub use sample::SAMPLE;
pub use script::Summary;
