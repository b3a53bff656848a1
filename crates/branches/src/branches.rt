//! The what-if studies of a run.

ghost use Rattle.std.specs.Prelude.{◌≡◌, ◌⊎◌, ◌<◌, ◌==◌, ◌++◌, Ok, IfOk, OnOk, OnErr, IsOk, true, false, length, option_map};
ghost use Rattle.std.specs.String.{string_bytes};
ghost use Rattle.lsdb.specs.Slots.{lists_of};
ghost use Rattle.lsdb.specs.Text.{text};
ghost use Rattle.edit_history.specs.Session.{start, state};
ghost use Rattle.routing_table.specs.Routers.{attached_routers};
ghost use Rattle.saved_sessions.specs.Opening.{opened};
ghost use Rattle.saved_sessions.specs.Saved.{HasNoEvents, saved_text};
ghost use Rattle.branches.specs.Branches.{Steps, all_begin, before_last, has_planner, resumed, sessions_of, stepped, with_session};
ghost use Rattle.branches.specs.Replies.{reply_text, reply_to, is_refusal, takes_memory, tables_head, router_text, router_texts};

use crate::commands::{before_last, execute, push_table_now, routers_with_table};
use crate::reply::{Answer, Refusal, Reply, reply_text};
use edit_history::{RedoFault, UndoFault};
use edit_script::Command;
use lsa_codec::RouterId;
use lsdb::Database;
use recalculate::{Info, Planner};
use saved_sessions::save;
use std::alloc::{AllocError, Allocator, Global};
use std::collections::BTreeMap;
use std::marker::Model;

/// The branches of a run, with the numbers 0 to 7: each is a study of its own that begins at the
/// loaded database. A branch gets a planner at its first command that may take memory; until then
/// it is at its beginning. Branch 0 has one from the start.
///
/// Contracts see them as the sessions of the branches that have a planner.
#[derive(Drop)]
pub struct Branches<A: Allocator = Global> {
    first: Planner<A>,
    others: BTreeMap<u8, Planner<A>, A>,
    beginning: Info,
    alloc: A,
}

impl<A: Allocator> Model for Branches<A> {
    ghost use Rattle.std.specs.Prelude.{◌≡◌};
    ghost use Rattle.edit_history.specs.Session.{start};
    ghost use Rattle.recalculate.specs.Counts.{info_of};
    ghost use Rattle.branches.specs.Branches.{Named, HaveOneBase, named_by};

    ghost Value = { Named };

    ghost view = { λ b. named_by b.first b.others.entries };

    ghost invariant = { λ b. HaveOneBase (named_by b.first b.others.entries)
        × (b.beginning ≡ info_of (start b.first.session.base)) };
}

impl<A: Allocator + Copy> Branches<A> {
    /// Branches that begin at a database. It takes no memory.
    pub fn new(alloc: A, database: Database<A>) -> Branches<A>
        ensures { sessions_of result ≡ all_begin (lists_of database) }
    {
        Branches::resume(alloc, Planner::new(alloc, database))
    }

    /// Branches of which branch 0 goes on with the session of a planner. The others begin at the
    /// base of that session. It takes no memory.
    pub fn resume(alloc: A, planner: Planner<A>) -> Branches<A>
        ensures { sessions_of result ≡ resumed planner.session }
    {
        let mut first = planner;
        let beginning = first.beginning();
        Branches {
            first,
            others: BTreeMap::new(alloc),
            beginning,
            alloc,
        }
    }

    /// Carries one command out in a branch, 0 to 7. `undo`, `redo` and `info` take no memory in any
    /// branch.
    ///
    /// # Errors
    ///
    /// Memory ran out. Then no branch has changed.
    pub fn step(&mut self, branch: u8, command: &Command) -> Result<Reply<A>, AllocError>
        requires { branch < 8 }
        ensures step { Steps branch command.now result self.old self.new }
        ensures memory { takes_memory command.now ≡ false → IsOk result }
    {
        if branch == 0 {
            return execute(self.alloc, &mut self.first, command);
        }
        match self.others.get_mut(&branch) {
            Some(planner) => execute(self.alloc, planner, command),
            None => self.step_first(branch, command),
        }
    }

    /// Carries a command out in a branch that is at its beginning, and gives it a planner if it may
    /// take memory.
    fn step_first(&mut self, branch: u8, command: &Command) -> Result<Reply<A>, AllocError>
        requires not_first { (branch == 0) ≡ false }
        requires new { has_planner self.old branch ≡ false }
        ensures step { Steps branch command.now result self.old self.new }
        ensures memory { takes_memory command.now ≡ false → IsOk result }
    {
        match *command {
            Command::Undo(0) | Command::Redo(0) => Ok(Reply::Done),
            Command::Undo(_) => Ok(Reply::Refused(Refusal::Undo(UndoFault::NothingToUndo))),
            Command::Redo(_) => Ok(Reply::Refused(Refusal::Redo(RedoFault::NothingToRedo))),
            Command::Info => Ok(Reply::Info(self.beginning)),
            _ => self.begin(branch, command),
        }
    }

    /// Begins a branch, with its first command.
    fn begin(&mut self, branch: u8, command: &Command) -> Result<Reply<A>, AllocError>
        requires not_first { (branch == 0) ≡ false }
        requires new { has_planner self.old branch ≡ false }
        ensures { Steps branch command.now result self.old self.new }
    {
        let mut planner = self.begun()?;
        let reply = execute(self.alloc, &mut planner, command)?;
        self.name(branch, planner)?;
        Ok(reply)
    }

    /// Carries one command out in a branch, 0 to 7, as [`step`](Branches::step) does, and returns
    /// the text of its reply, as [`reply_text`] makes it. For `tables` it holds all tables:
    /// [`routers`](Branches::routers) and [`push_table`](Branches::push_table) give them one by
    /// one.
    ///
    /// # Errors
    ///
    /// Memory ran out. The branch is as before, or the command was carried out in it; the other
    /// branches stay.
    pub fn answer(&mut self, branch: u8, command: &Command) -> Result<Answer<A>, AllocError>
        requires { branch < 8 }
        ensures text { IfOk result (λ answer. answer.text
            ≡ reply_text branch (reply_to (sessions_of self.old branch) command.now)) }
        ensures refused { IfOk result (λ answer. answer.refused
            ≡ is_refusal (reply_to (sessions_of self.old branch) command.now)) }
        ensures sessions { OnOk result
            (sessions_of self.new ≡ stepped branch command.now (sessions_of self.old)) }
        ensures kept { OnErr result ((sessions_of self.new ≡ sessions_of self.old)
            ⊎ (sessions_of self.new ≡ stepped branch command.now (sessions_of self.old))) }
    {
        let reply = self.step(branch, command)?;
        Ok(Answer {
            text: reply_text(self.alloc, branch, &reply)?,
            refused: reply.is_refusal(),
        })
    }

    /// The routers that are attached to areas of the database of a branch, 0 to 7, in rising order
    /// of their IDs. The reply to `tables` is [`tables_head`](crate::tables_head) of their number,
    /// and after it the text of each one's table, as [`push_table`](Branches::push_table) adds it.
    ///
    /// # Errors
    ///
    /// Memory ran out.
    pub fn routers(&mut self, branch: u8) -> Result<Vec<RouterId, A>, AllocError>
        requires { branch < 8 }
        ensures routers { IfOk result (λ routers. routers.items
            ≡ attached_routers (state (sessions_of self.old branch))) }
        ensures reply { IfOk result (λ routers.
            reply_text branch (reply_to (sessions_of self.old branch) Command.Tables)
            ≡ tables_head branch (length routers.items)
            ++ router_texts (state (sessions_of self.old branch)) routers.items) }
        ensures kept { self.new ≡ self.old }
    {
        if branch == 0 {
            return routers_with_table(self.first.database());
        }
        match self.others.get(&branch) {
            Some(planner) => routers_with_table(planner.database()),
            None => routers_with_table(self.begun()?.database()),
        }
    }

    /// Adds the text of the routing table of a router in the database of a branch, 0 to 7, if the
    /// router is attached to an area there. All sessions stay, even where memory ran out.
    ///
    /// # Errors
    ///
    /// Memory ran out. A part of the text may have been added.
    pub fn push_table(
        &mut self,
        branch: u8,
        router: RouterId,
        text: &mut String<A>,
    ) -> Result<(), AllocError>
        requires { branch < 8 }
        ensures text { OnOk result (string_bytes text.new ≡ string_bytes text.old
            ++ router_text (state (sessions_of self.old branch)) router) }
        ensures kept { sessions_of self.new ≡ sessions_of self.old }
    {
        if branch == 0 {
            return push_table_now(&mut self.first, router, text);
        }
        match self.others.get_mut(&branch) {
            Some(planner) => push_table_now(planner, router, text),
            None => self.begin_with_table(branch, router, text),
        }
    }

    /// Begins a branch, and adds the text of the routing table of a router in it. All sessions
    /// stay, even where memory ran out.
    fn begin_with_table(
        &mut self,
        branch: u8,
        router: RouterId,
        text: &mut String<A>,
    ) -> Result<(), AllocError>
        requires not_first { (branch == 0) ≡ false }
        requires new { has_planner self.old branch ≡ false }
        ensures text { OnOk result (string_bytes text.new ≡ string_bytes text.old
            ++ router_text (state (sessions_of self.old branch)) router) }
        ensures kept { sessions_of self.new ≡ sessions_of self.old }
    {
        let mut planner = self.begun()?;
        push_table_now(&mut planner, router, text)?;
        self.name(branch, planner)?;
        Ok(())
    }

    /// Gives a branch, 0 to 7, a planner if it has none: [`planner`](Branches::planner) lends it.
    /// All sessions stay, even where memory ran out.
    ///
    /// # Errors
    ///
    /// Memory ran out.
    pub fn prepare(&mut self, branch: u8) -> Result<(), AllocError>
        requires { branch < 8 }
        ensures ready { OnOk result (has_planner self.new branch ≡ true) }
        ensures kept { sessions_of self.new ≡ sessions_of self.old }
    {
        if self.has_planner(branch) {
            return Ok(());
        }
        let planner = self.begun()?;
        self.name(branch, planner)?;
        Ok(())
    }

    /// Whether a branch has a planner.
    fn has_planner(&self, branch: u8) -> bool
        ensures { result ≡ has_planner self.now branch }
    {
        branch == 0 || self.others.contains_key(&branch)
    }

    /// The planner of a branch that has one: of branch 0, and of another after
    /// [`prepare`](Branches::prepare).
    pub fn planner(&self, branch: u8) -> &Planner<A>
        requires { has_planner self.now branch ≡ true }
        ensures { result.now.session ≡ sessions_of self.now branch }
    {
        if branch == 0 {
            return &self.first;
        }
        match self.others.get(&branch) {
            Some(planner) => planner,
            None => &self.first,
        }
    }

    /// A copy of the database of a branch, 0 to 7, as it was before the last `count` done edits;
    /// `None` where fewer are done. All sessions stay, even where memory ran out.
    ///
    /// # Errors
    ///
    /// Memory ran out.
    pub fn before_last(&mut self, branch: u8, count: u32) -> Result<Option<Database<A>>, AllocError>
        requires { branch < 8 }
        ensures database { IfOk result (λ database. option_map lists_of database
            ≡ before_last count (sessions_of self.old branch)) }
        ensures kept { sessions_of self.new ≡ sessions_of self.old }
    {
        if branch == 0 {
            return before_last(&mut self.first, count);
        }
        match self.others.get_mut(&branch) {
            Some(planner) => before_last(planner, count),
            None => before_last(&mut self.begun()?, count),
        }
    }

    /// A planner at the beginning of all branches.
    fn begun(&mut self) -> Result<Planner<A>, AllocError>
        ensures begun { IfOk result (λ planner. planner.session ≡ start self.old.first.base) }
        ensures kept { self.new ≡ self.old }
    {
        let base = self.first.base()?;
        Ok(Planner::new(self.alloc, base))
    }

    /// Gives a branch other than 0 a planner, with which it goes on.
    fn name(&mut self, branch: u8, planner: Planner<A>) -> Result<(), AllocError>
        requires not_first { (branch == 0) ≡ false }
        requires base { planner.session.base ≡ self.old.first.base }
        ensures sessions { OnOk result (sessions_of self.new
            ≡ with_session branch planner.session (sessions_of self.old)) }
        ensures named { OnOk result (has_planner self.new branch ≡ true) }
        ensures kept { OnErr result (self.new ≡ self.old) }
    {
        self.others.insert(branch, planner)?;
        Ok(())
    }

    /// The dump of the database of a branch, 0 to 7. A branch that was not named has the loaded
    /// database.
    ///
    /// # Errors
    ///
    /// Memory ran out.
    pub fn dump(&mut self, branch: u8) -> Result<Vec<u8, A>, AllocError>
        requires { branch < 8 }
        ensures dump { IfOk result
            (λ dump. dump.items ≡ text (state (sessions_of self.old branch))) }
        ensures kept { self.new ≡ self.old }
    {
        if branch == 0 {
            return self.first.dump();
        }
        match self.others.get(&branch) {
            Some(planner) => planner.dump(),
            None => self.begun()?.dump(),
        }
    }

    /// The session of branch 0, saved as a dump of version 2. It opens as this session, unless one
    /// of its edits is an event.
    ///
    /// # Errors
    ///
    /// Memory ran out.
    pub fn save(&mut self) -> Result<Vec<u8, A>, AllocError>
        ensures saved { IfOk result
            (λ bytes. bytes.items ≡ saved_text (sessions_of self.old 0)) }
        ensures opens { HasNoEvents (sessions_of self.old 0) → IfOk result
            (λ bytes. opened bytes.items ≡ Ok (sessions_of self.old 0)) }
        ensures kept { self.new ≡ self.old }
    {
        save(&mut self.first)
    }
}
