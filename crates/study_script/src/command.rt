//! What a line of a study asks for.

use crate::condition::Expectation;
use crate::named_command::NamedCommand;
use crate::question::Question;
use edit_script::Command;
use std::alloc::{Allocator, Global};

/// What a line of a study asks for, in the branch that it names.
#[derive(Debug, Drop)]
pub enum StudyCommand<A: Allocator = Global> {
    /// A command whose line `ospf-plan` takes, too, with the same meaning.
    Plan(Command),
    /// A command of `ospf-plan` whose line it does not take: names stand for addresses, or a link
    /// is named. Or an event.
    Named(NamedCommand),
    /// A question that only studies have.
    See(Question),
    /// An expectation.
    Expect(Expectation<A>),
}
