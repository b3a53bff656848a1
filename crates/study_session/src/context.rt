//! Where a line is carried out, and what is known there.

ghost use Rattle.std.specs.Prelude.{◌≡◌};
ghost use Rattle.study_session.specs.Contexts.{context_of, situation};
ghost use Rattle.study_session.specs.Formats.{command_word};

use crate::format::Format;
use lsdb::Database;
use network_names::Names;
use recalculate::Planner;
use refusal_hints::Situation;
use std::alloc::Allocator;
use study_hints::command_at;

/// Where a line is carried out.
#[derive(Drop)]
pub(crate) struct Context<'a, 'n, A: Allocator> {
    /// What texts are allocated by.
    pub(crate) alloc: A,
    /// The names of routers and addresses.
    pub(crate) names: &'a Names<'n, A>,
    /// The database that branches are compared with.
    pub(crate) baseline: &'a Database<A>,
    /// The line.
    pub(crate) line: &'a [u8],
    /// The branch, 0 to 7.
    pub(crate) branch: u8,
    /// Whether each edit says what it changed.
    pub(crate) is_verbose: bool,
    /// In which form the line is answered.
    pub(crate) format: Format,
}

impl<'a, 'n, A: Allocator + Copy> Context<'a, 'n, A> {
    /// The command word of the line, as it was written; empty, where the line has none.
    pub(crate) fn word(&self) -> &'a [u8]
        ensures { result.now ≡ command_word (context_of self.now) }
    {
        match command_at(self.line) {
            Some(at) => at.word,
            None => &[],
        }
    }

    /// What is known where the branch has this planner.
    pub(crate) fn situation<'s>(&'s self, planner: &'s Planner<A>) -> Situation<'s, A>
        ensures { result ≡ situation (context_of self.now) planner.now.session }
    {
        Situation {
            database: planner.database(),
            baseline: self.baseline,
            done: planner.done(),
            undone: planner.undone(),
        }
    }
}
