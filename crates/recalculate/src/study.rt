//! A database under its edits.

use crate::copying::takes_longer_than_a_copy;
use crate::counts::{Info, beginning_of};
use crate::table_cache::TableCache;
use edit_history::{EditFault, History, Moved, Record, RedoFault, UndoFault, apply};
use edit_script::Edit;
use lsa_codec::{AreaId, RouterId};
use lsdb::Database;
use routing_table::{KeptTrees, Table, TableFault, table_of};
use spf::Meter;
use std::alloc::{AllocError, Allocator};
use std::marker::Model;
use std::rc::Rc;
use unchanged_tables::{AreaChange, cost_change, is_unchanged};

/// The edits that may be done at a time.
const MOST_EDITS: usize = 10_000;

/// A link state database, the edits that led to it from the one that was loaded, and those that
/// were undone since. Contracts see it as its session.
///
/// It may hold a copy of the loaded database, which no edit changes. Then no edit is taken back for
/// a table of that database.
#[derive(Drop)]
pub(crate) struct Study<A: Allocator> {
    database: Database<A>,
    history: History<A>,
    loaded: Option<Database<A>>,
    /// Whether many edits were taken back for a table of the loaded database. For the next one a
    /// copy is made.
    took_many_back: bool,
}

impl<A: Allocator> Model for Study<A> {
    ghost use Rattle.edit_history.specs.Session.{Session, session_of};
    ghost use Rattle.recalculate.specs.Reached.{IsStudied};

    ghost Value = { Session };

    ghost view = { λ s. session_of s.database s.history.lists };

    ghost invariant = { λ s. IsStudied s.database s.history.lists s.loaded };
}

impl<A: Allocator + Copy> Study<A> {
    ghost use Rattle.std.specs.Prelude.{◌≡◌, ◌≢◌, ◌≤◌, ◌↔◌, ◌+◌, ◌++◌, Ok, Err, Some, length, true, false, IsOk, OnOk, OnErr, IfOk, IfErr, IfSome, IsErrOf};
    ghost use Rattle.lsdb.specs.BaseText.{base_text};
    ghost use Rattle.lsdb.specs.declared.section.Section.TheVariants.{AsWide};
    ghost use Rattle.lsdb.specs.Lists.{IsDatabase, lsas_of};
    ghost use Rattle.lsdb.specs.Slots.{lists_of};
    ghost use Rattle.area_routes.specs.Attached.{attached_areas};
    ghost use Rattle.edit_history.specs.declared.fault.EditFault.TheVariants.{HistoryFull, OutOfMemory};
    ghost use Rattle.edit_history.specs.Session.{edits_of, start, state, effects, most_edits, edited, moved_back, moved_on};
    ghost use Rattle.routing_table.specs.AreasTrees.{AreOfDatabase, routers_of};
    ghost use Rattle.routing_table.specs.Tables.{table_in};
    ghost use Rattle.recalculate.specs.CallsForTables.{CalculatesTrees, CountsTrees, KeepsTable, ShowsTable};
    ghost use Rattle.recalculate.specs.Counts.{info_of};
    ghost use Rattle.recalculate.specs.Planning.{IsCacheOf};
    ghost use Rattle.recalculate.specs.Reached.{IsReached};
    ghost use Rattle.edit_history.specs.Moving.{before, moved_touches};
    ghost use Rattle.unchanged_tables.specs.CostChanges.{IsCostChange};

    /// The study of a database, without edits. It takes no memory.
    #[tactic(auto, using(crate::proofs::Steps::start_studied))]
    pub(crate) fn new(alloc: A, database: Database<A>) -> Study<A>
        ensures { result ≡ start (lists_of database) }
    {
        // That it is a database is what the history's invariant asks for.
        database.assert_valid();
        Study {
            database,
            history: History::new(alloc),
            loaded: None,
            took_many_back: false,
        }
    }

    /// The database: the effects of the done edits, in order, on the one that was loaded.
    #[tactic(auto, using(edit_history::proofs::HistoryLemmas::state_is, edit_history::proofs::HistoryLemmas::done_accepted))]
    pub(crate) fn database(&self) -> &Database<A>
        ensures state { lists_of result.now ≡ state self.now }
        ensures accepted { effects self.now.base self.now.done ≡ Ok (lists_of result.now) }
        ensures reached { IsReached self.now }
    {
        &self.database
    }

    /// Carries an edit out. The undone edits go.
    pub(crate) fn edit(&mut self, edit: &Edit) -> Result<(), EditFault>
        ensures ok { OnOk result (edited self.old edit.now ≡ Ok self.new) }
        ensures full { most_edits ≤ length self.old.done → IsErrOf result HistoryFull }
        ensures refused { IfErr result (λ f. f ≢ OutOfMemory → edited self.old edit.now ≡ Err f) }
        ensures err { OnErr result (self.new ≡ self.old) }
        ensures reached { OnOk result (IsReached self.new) }
    {
        if self.history.done() >= MOST_EDITS {
            return Err(EditFault::HistoryFull);
        }
        self.history.reserve()?;
        let record = apply(&mut self.database, edit)?;
        self.history.push(record);
        // That the edit left a database is what the history's invariant asks for.
        self.database.assert_valid();
        Ok(())
    }

    /// Takes the last `count` done edits back, if that many are done. It takes no memory.
    pub(crate) fn undo(&mut self, count: usize) -> Result<(), UndoFault>
        ensures ok { IsOk result ↔ (count ≤ length self.old.done) }
        ensures session { OnOk result (self.new ≡ moved_back count self.old) }
        ensures err { OnErr result (self.new ≡ self.old) }
        ensures leads { IsReached self.new }
    {
        self.history.undo(&mut self.database, count)
    }

    /// Carries the first `count` undone edits out again, if that many are undone. It takes no
    /// memory.
    pub(crate) fn redo(&mut self, count: usize) -> Result<(), RedoFault>
        ensures ok { IsOk result ↔ (count ≤ length self.old.undone) }
        ensures session { OnOk result (self.new ≡ moved_on count self.old) }
        ensures err { OnErr result (self.new ≡ self.old) }
        ensures leads { IsReached self.new }
    {
        self.history.redo(&mut self.database, count)
    }

    /// Whether the last step touched an area: one of its edits rewrote, removed or added a
    /// router-LSA or network-LSA of it. It takes no memory.
    pub(crate) fn touches(&self, moved: Moved, area: AreaId) -> bool
        ensures { result ≡ moved_touches moved area self.now }
    {
        self.history.touches(moved, area)
    }

    /// Whether the last step changed an LSA of AS scope. It takes no memory.
    pub(crate) fn changes_as_scope(&self, moved: Moved) -> bool
        ensures { result ≡ false → lsas_of AsWide (state self.now)
            ≡ lsas_of AsWide (state (before moved self.now)) }
    {
        let areas = self.database.area_count();
        self.history.changes_as_scope(moved, areas)
    }

    /// The change of the cost of one interface that the last step made, where it moved over one
    /// edit, and made no other change. It takes no memory.
    pub(crate) fn cost_change(&self, moved: Moved) -> Option<AreaChange>
        ensures change { IfSome result (λ made. IsCostChange made.area made.change
            (state (before moved self.now)) (state self.now)) }
        ensures touched { IfSome result (λ made. moved_touches moved made.area self.now ≡ true) }
    {
        let one = self.history.one_change(moved)?;
        let made = cost_change(&self.database, one.slot, one.before)?;
        if !self.touches(moved, made.area) {
            return None;
        }
        Some(made)
    }

    /// How many edits are done.
    #[tactic(auto, using(edit_history::proofs::HistoryLemmas::done_len))]
    pub(crate) fn done(&self) -> usize
        ensures { result ≡ length self.now.done }
    {
        self.history.done()
    }

    /// How many edits are undone.
    #[tactic(auto, using(edit_history::proofs::HistoryLemmas::undone_len))]
    pub(crate) fn undone(&self) -> usize
        ensures { result ≡ length self.now.undone }
    {
        self.history.undone()
    }

    /// The records of the edits: of those that are done, in order, and after them of those that
    /// are undone, the next to be redone first. It takes no memory.
    #[tactic(auto, using(edit_history::proofs::HistoryLemmas::done_len, edit_history::proofs::HistoryLemmas::undone_len))]
    pub(crate) fn records(&self) -> &[Record<A>]
        ensures edits { edits_of result.now ≡ self.now.done ++ self.now.undone }
        ensures few { length self.now.done + length self.now.undone ≤ most_edits }
    {
        self.history.records()
    }

    /// Whether no edit is done, so that the database is the one that was loaded.
    fn is_at_beginning(&self) -> bool
        ensures { result ≡ true → state self.now ≡ self.now.base }
    {
        self.done() == 0
    }

    /// Whether a router's table is sure to be the one in the loaded database, of which these trees
    /// are: no edit is done, or one whose change of one LSA leaves the table as it is. It takes no
    /// memory.
    pub(crate) fn is_unchanged(&self, router: RouterId, trees: &KeptTrees<A>) -> bool
        requires { AreOfDatabase self.now.base trees.now }
        ensures { result ≡ true → table_in (state self.now) router ≡ table_in self.now.base router }
    {
        if self.is_at_beginning() {
            return true;
        }
        if self.done() != 1 {
            return false;
        }
        match self.history.one_change(Moved::On(1)) {
            Some(change) => {
                is_unchanged(trees, &self.database, router, change.slot, change.before)
            }
            None => false,
        }
    }

    /// The routing table of a router in the loaded database, made over what is kept of that, and
    /// kept there. Where there is no copy of that database, all edits are taken back for it, and
    /// carried out again.
    pub(crate) fn new_base_table(
        &mut self,
        router: RouterId,
        kept: &mut TableCache<A>,
        meter: &mut Meter,
    ) -> Result<Rc<Table<A>, A>, TableFault>
        requires { IsCacheOf self.old.base kept.old }
        ensures table { ShowsTable result (λ table. table.value) self.old.base router }
        ensures session { self.new ≡ self.old }
        ensures trees { CalculatesTrees self.old.base router result
            (routers_of kept.old.trees, meter.old) (routers_of kept.new.trees, meter.new) }
        ensures cache { IsCacheOf self.old.base kept.new }
        ensures last { KeepsTable router result kept.new.table }
    {
        self.keep_loaded();
        if let Some(loaded) = self.loaded() {
            return kept.new_table(loaded, router, meter);
        }
        let done = self.undo_all();
        let table = kept.new_table(self.database(), router, meter);
        self.redo_all(done);
        table
    }

    /// The routing table of a router in the loaded database, whose trees the meter counts. Where
    /// there is no copy of that database, all edits are taken back for it, and carried out again.
    pub(crate) fn base_table(
        &mut self,
        router: RouterId,
        meter: &mut Meter,
    ) -> Result<Table<A>, TableFault>
        ensures table { ShowsTable result (λ table. table) self.old.base router }
        ensures session { self.new ≡ self.old }
        ensures trees { CountsTrees (length (attached_areas self.old.base router)) result
            meter.old meter.new }
    {
        if let Some(loaded) = self.loaded() {
            return table_of(loaded.alloc(), loaded, router, meter);
        }
        let done = self.undo_all();
        let database = self.database();
        let table = table_of(database.alloc(), database, router, meter);
        self.redo_all(done);
        table
    }

    /// The copy of the loaded database, if there is one.
    fn loaded(&self) -> Option<&Database<A>>
        ensures { IfSome result (λ loaded. lists_of loaded.now ≡ self.now.base) }
    {
        self.loaded.as_ref()
    }

    /// Makes a copy of the loaded database, where it takes longer to take all done edits back, and
    /// that was done for a table before. Where memory runs out there is none.
    fn keep_loaded(&mut self)
        ensures { self.new ≡ self.old }
    {
        if self.loaded.is_some() || !self.takes_long_back() {
            return;
        }
        if !self.took_many_back {
            self.took_many_back = true;
            return;
        }
        if let Ok(copy) = self.base() {
            self.loaded = Some(copy);
        }
    }

    /// Whether it takes longer to take all done edits back, and to carry them out again, than to
    /// copy the database.
    fn takes_long_back(&self) -> bool {
        let edits = &self.history.records()[..self.history.done()];
        takes_longer_than_a_copy(edits, &self.database)
    }

    /// What the loaded database counts. All edits are taken back for it, and carried out again.
    pub(crate) fn beginning(&mut self) -> Info
        ensures info { result ≡ info_of (start self.old.base) }
        ensures kept { self.new ≡ self.old }
    {
        let done = self.undo_all();
        let info = beginning_of(self.database());
        self.redo_all(done);
        info
    }

    /// A copy of the loaded database. Where there is none yet, all edits are taken back for it, and
    /// carried out again.
    pub(crate) fn base(&mut self) -> Result<Database<A>, AllocError>
        ensures base { IfOk result (λ database. lists_of database ≡ self.old.base) }
        ensures kept { self.new ≡ self.old }
    {
        if let Some(loaded) = self.loaded() {
            return loaded.clone_of();
        }
        let done = self.undo_all();
        let copy = self.database().clone_of();
        self.redo_all(done);
        copy
    }

    /// The bytes that the dump of a session with the loaded database begins with. All edits are
    /// taken back for it, and carried out again.
    pub(crate) fn dump_base(&mut self) -> Result<Vec<u8, A>, AllocError>
        ensures dump { IfOk result (λ dump. dump.items ≡ base_text self.old.base) }
        ensures database { IsDatabase self.old.base }
        ensures kept { self.new ≡ self.old }
    {
        let done = self.undo_all();
        let database = self.database();
        // It does nothing: it says that the database is a valid one.
        database.assert_valid();
        let dump = database.dump_base();
        self.redo_all(done);
        dump
    }

    /// Takes all done edits back, and returns their number.
    fn undo_all(&mut self) -> usize
        ensures count { result ≡ length self.old.done }
        ensures session { self.new ≡ moved_back (length self.old.done) self.old }
    {
        let done = self.done();
        // It is not refused: that many are done.
        let _ = self.undo(done);
        done
    }

    /// Carries the first `count` undone edits out again.
    fn redo_all(&mut self, count: usize)
        requires { count ≤ length self.old.undone }
        ensures { self.new ≡ moved_on count self.old }
    {
        // It is not refused: that many are undone.
        let _ = self.redo(count);
    }
}
