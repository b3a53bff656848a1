//! The records of a session's edits.

use crate::fault::{RedoFault, UndoFault};
use crate::record::{Record, replay, revert};
use lsdb::Database;
use std::alloc::{AllocError, Allocator, Global};
use std::marker::Model;

/// The records of the edits that are done, and of those that were undone since.
#[derive(Drop)]
pub struct History<A: Allocator = Global> {
    records: Vec<Record<A>, A>,
    cursor: usize,
}

impl<A: Allocator> Model for History<A> {
    ghost use Rattle.std.specs.Prelude.{take, drop, reverse, ◌≤◌, ◌-◌, vec_len, vec_capacity};
    ghost use Rattle.edit_history.specs.Journal.{HistoryRoom};

    ghost Value = { HistoryRoom };

    ghost view = { λ h. record {
      lists = record {
        past = reverse (take h.cursor h.records.items);
        future = drop h.cursor h.records.items;
      };
      room = vec_capacity h.records - h.cursor;
    } };

    ghost invariant = { λ h. h.cursor ≤ vec_len h.records };
}

impl<A: Allocator + Copy> History<A> {
    ghost use Rattle.std.specs.Prelude.{◌≡◌, ◌+◌, ◌<◌, ◌≤◌, [], ◌∷◌, ◌++◌, length, reverse, OnOk, OnErr, IsOk, ◌↔◌};
    ghost use Rattle.edit_history.specs.Journal.{Links};
    ghost use Rattle.edit_history.specs.Session.{edits_of, session_of, moved_back, moved_on, StepsBack, StepsOn, Turned};
    ghost use Rattle.lsdb.specs.Slots.{Slots};

    /// No edits. It takes no memory.
    pub fn new(alloc: A) -> History<A>
        ensures { result.lists ≡ record { past = []; future = [] } }
    {
        History {
            records: Vec::new(alloc),
            cursor: 0,
        }
    }

    /// The number of edits that are done.
    pub fn done(&self) -> usize
        ensures { result ≡ length self.now.lists.past }
    {
        self.cursor
    }

    /// The number of edits that are undone.
    pub fn undone(&self) -> usize
        ensures { result ≡ length self.now.lists.future }
    {
        self.records.len() - self.cursor
    }

    /// The records of all edits: of those that are done, in the order in which they were carried
    /// out, and after them of those that are undone, in the order in which [`redo`](History::redo)
    /// takes them. It takes no memory.
    pub fn records(&self) -> &[Record<A>]
        ensures records { result.now ≡ reverse self.now.lists.past ++ self.now.lists.future }
        ensures edits { (d : Slots) → edits_of result.now
            ≡ (session_of d self.now.lists).done ++ (session_of d self.now.lists).undone }
    {
        &self.records
    }

    /// The records of the done edits, in order.
    pub(crate) fn done_records(&self) -> &[Record<A>]
        ensures { reverse result.now ≡ self.now.lists.past }
    {
        &self.records[..self.cursor]
    }

    /// The records of the undone edits, the next first.
    pub(crate) fn undone_records(&self) -> &[Record<A>]
        ensures { result.now ≡ self.now.lists.future }
    {
        &self.records[self.cursor..]
    }

    /// Takes one edit back.
    fn step_back(&mut self, database: &mut Database<A>)
        requires linked { Links database.old self.old.lists }
        requires some { 0 < length self.old.lists.past }
        ensures { Turned StepsBack database.old database.new self.old.lists self.new.lists }
    {
        self.cursor -= 1;
        let record = &mut self.records[self.cursor];
        revert(database, record);
    }

    /// Carries one edit out again.
    fn step_on(&mut self, database: &mut Database<A>)
        requires linked { Links database.old self.old.lists }
        requires some { 0 < length self.old.lists.future }
        ensures { Turned StepsOn database.old database.new self.old.lists self.new.lists }
    {
        let record = &mut self.records[self.cursor];
        replay(database, record);
        self.cursor += 1;
    }

    /// Takes the last `count` done edits back. It takes no memory.
    ///
    /// A `count` of 0 is accepted. The database is the one that the history left, except for empty
    /// slots that were opened since.
    ///
    /// # Errors
    ///
    /// Exactly where fewer edits are done. Then nothing changes.
    #[tactic(auto, using(crate::proofs::Linked::back_more, crate::proofs::Linked::back_none))]
    pub fn undo(&mut self, database: &mut Database<A>, count: usize) -> Result<(), UndoFault>
        requires { Links database.old self.old.lists }
        ensures linked { Links database.new self.new.lists }
        ensures ok { IsOk result ↔ (count ≤ length self.old.lists.past) }
        ensures session { OnOk result
            (session_of database.new self.new.lists
            ≡ moved_back count (session_of database.old self.old.lists)) }
        ensures err { OnErr result
            ((self.new.lists ≡ self.old.lists) × (database.new ≡ database.old)) }
    {
        if count > self.done() {
            return Err(UndoFault::NothingToUndo);
        }
        for _step in 0..count {
            self.step_back(database);
        }
        Ok(())
    }

    /// Carries the first `count` undone edits out again. It takes no memory.
    ///
    /// A `count` of 0 is accepted. The database is the one that the history left, except for empty
    /// slots that were opened since.
    ///
    /// # Errors
    ///
    /// Exactly where fewer edits are undone. Then nothing changes.
    #[tactic(auto, using(crate::proofs::Linked::on_more, crate::proofs::Linked::on_none))]
    pub fn redo(&mut self, database: &mut Database<A>, count: usize) -> Result<(), RedoFault>
        requires { Links database.old self.old.lists }
        ensures linked { Links database.new self.new.lists }
        ensures ok { IsOk result ↔ (count ≤ length self.old.lists.future) }
        ensures session { OnOk result
            (session_of database.new self.new.lists
            ≡ moved_on count (session_of database.old self.old.lists)) }
        ensures err { OnErr result
            ((self.new.lists ≡ self.old.lists) × (database.new ≡ database.old)) }
    {
        if count > self.undone() {
            return Err(RedoFault::NothingToRedo);
        }
        for _step in 0..count {
            self.step_on(database);
        }
        Ok(())
    }

    /// Makes room for one record after the done ones.
    ///
    /// # Errors
    ///
    /// Memory ran out. The records are as before in either case.
    pub fn reserve(&mut self) -> Result<(), AllocError>
        ensures lists { self.new.lists ≡ self.old.lists }
        ensures room { OnOk result (0 < self.new.room) }
    {
        self.records.reserve(1)?;
        Ok(())
    }

    /// Adds the record of an edit that was carried out, where room was reserved. The undone records
    /// are dropped. It takes no memory.
    pub fn push(&mut self, latest: Record<A>)
        requires { 0 < self.old.room }
        ensures { self.new.lists ≡ record { past = latest ∷ self.old.lists.past; future = [] } }
    {
        self.records.truncate(self.cursor);
        // Room was reserved for it, so it takes no memory, and this does not fail.
        let _ = self.records.push(latest);
        self.cursor += 1;
    }
}
