//! The session of a study.

ghost use Rattle.std.specs.Prelude.{◌≡◌, ◌<◌, IfOk, OnOk};
ghost use Rattle.lsdb.specs.Text.{text};
ghost use Rattle.branches.specs.Branches.{sessions_of};
ghost use Rattle.network_names.specs.Names.{names_of, stands_for};
ghost use Rattle.study_arguments.specs.Fault.{fault_at};
ghost use Rattle.study_script.specs.Line.{asked as asked_by};
ghost use Rattle.study_session.specs.Contexts.{context_of};
ghost use Rattle.study_session.specs.Studies.{database_in, study_by, study_of};
ghost use Rattle.study_session.specs.Lines.{IsAnswerIn, IsAnswerTo, after_line, faulty, sessions_in};

use crate::context::Context;
use crate::document::fault_document;
use crate::expected::expected;
use crate::format::Format;
use crate::named::named;
use crate::seen::seen;
use branches::Branches;
use lsdb::Database;
use network_names::Names;
use std::alloc::{AllocError, Allocator, Global};
use study_answers::Answer;
use study_arguments::{Fault, ParseError};
use study_script::{NamedCommand, StudyCommand, parse};

/// The branches of a study, the database that they are compared with, and the names of routers and
/// addresses.
#[derive(Drop)]
pub struct StudySession<'n, A: Allocator = Global> {
    branches: Branches<A>,
    baseline: Database<A>,
    names: Names<'n, A>,
    is_verbose: bool,
    format: Format,
}

/// The answer to a line that has a fault.
#[tactic(auto, unfolding(crate::specs::Lines::faulty))]
fn faulty<A: Allocator + Copy>(
    alloc: A,
    names: &Names<'_, A>,
    format: Format,
    line: &[u8],
    fault: Fault<'_>,
) -> Result<Answer<A>, AllocError>
    ensures { IfOk result (λ answer. answer ≡ faulty format (stands_for names.now)
        (names_of names.now) line.now (fault_at fault.entry)) }
{
    let mut answer = Answer::faulty(alloc, names, line, fault)?;
    match format {
        Format::Text => {}
        Format::Json => answer.text = fault_document(alloc, names, line, &fault)?,
    }
    Ok(answer)
}

/// Carries out what a line asks for in a branch.
fn carry_out<A: Allocator + Copy>(
    branches: &mut Branches<A>,
    context: &Context<'_, '_, A>,
    asked: &StudyCommand<A>,
) -> Result<Answer<A>, AllocError>
    requires { context.now.branch < 8 }
    ensures answer { IfOk result (IsAnswerIn (context_of context.now)
        (sessions_of branches.old context.now.branch) (asked_by asked.now)) }
    ensures sessions { OnOk result (sessions_of branches.new
        ≡ sessions_in context.now.branch (asked_by asked.now) (sessions_of branches.old)) }
{
    match asked {
        StudyCommand::Plan(what) => named(branches, context, &NamedCommand::Command(*what)),
        StudyCommand::Named(what) => named(branches, context, what),
        StudyCommand::See(what) => seen(branches, context, what),
        StudyCommand::Expect(what) => expected(branches, context, what),
    }
}

impl<'n, A: Allocator + Copy> StudySession<'n, A> {
    /// A study of these branches, which are compared with a baseline. Each edit says what it
    /// changed, or only where `ospf-plan` does not take its line; lines are answered in a form. It
    /// takes no memory.
    #[tactic(auto, unfolding(crate::specs::Studies::study_of))]
    pub fn new(
        branches: Branches<A>,
        baseline: Database<A>,
        names: Names<'n, A>,
        is_verbose: bool,
        format: Format,
    ) -> StudySession<'n, A>
        ensures { study_of result
            ≡ study_by (sessions_of branches) baseline names.entry is_verbose format }
    {
        StudySession {
            branches,
            baseline,
            names,
            is_verbose,
            format,
        }
    }

    /// In which form lines are answered.
    #[tactic(auto, unfolding(crate::specs::Studies::study_of))]
    pub fn format(&self) -> Format
        ensures { result ≡ (study_of self.now).format }
    {
        self.format
    }

    /// Carries out a line, which is given without its end, and returns what it is answered; `None`
    /// where the line has no words, or is a comment.
    ///
    /// # Errors
    ///
    /// Memory ran out.
    pub fn answer(&mut self, line: &[u8]) -> Result<Option<Answer<A>>, AllocError>
        ensures answer { IfOk result (IsAnswerTo (study_of self.old) line.now) }
        ensures study { OnOk result (study_of self.new ≡ after_line (study_of self.old) line.now) }
    {
        let alloc = self.baseline.alloc();
        match parse(alloc, &self.names, line) {
            Ok(None) => Ok(None),
            Ok(Some((branch, command))) => {
                let (names, baseline) = (&self.names, &self.baseline);
                let context = Context {
                    alloc,
                    names,
                    baseline,
                    line,
                    branch,
                    is_verbose: self.is_verbose,
                    format: self.format,
                };
                let answer = carry_out(&mut self.branches, &context, &command)?;
                Ok(Some(answer))
            }
            Err(ParseError::Fault(fault)) => {
                let (names, format) = (&self.names, self.format);
                Ok(Some(faulty(alloc, names, format, line, fault)?))
            },
            Err(ParseError::OutOfMemory) => Err(AllocError),
        }
    }

    /// The dump of the database of a branch, 0 to 7.
    ///
    /// # Errors
    ///
    /// Memory ran out.
    #[tactic(auto, unfolding(crate::specs::Studies::study_of))]
    pub fn dump(&mut self, branch: u8) -> Result<Vec<u8, A>, AllocError>
        requires { branch < 8 }
        ensures dump { IfOk result
            (λ dump. dump.items ≡ text (database_in (study_of self.old) branch)) }
        ensures kept { study_of self.new ≡ study_of self.old }
    {
        self.branches.dump(branch)
    }
}
