//! What a line of a study is answered, and the parts that questions and expectations share.
//!
//! An [`Answer`] is the text of the reply, what became of the line, and what is said of it where it
//! is not accepted.
#![tactic(auto)]

// Answers.
mod answer;
mod mark;

// What questions and expectations are about.
mod areas;
mod known;
mod loaded;
mod may_loop;
mod missing;

pub use answer::{Answer, Outcome};
pub use areas::{has_limit, no_area};
pub use known::{is_among, is_attached, is_known, no_router};
pub use loaded::loaded_of;
pub use mark::push_mark;
pub use may_loop::microloops_of;
pub use missing::Missing;
