//! A session of edits.

ghost use Rattle.std.specs.Prelude.{◌≡◌, IfOk};

use crate::counts::Info;
use crate::study::Study;
use crate::table_cache::TableCache;
use edit_history::{EditFault, Moved, Record, RedoFault, UndoFault};
use edit_script::Edit;
use lsa_codec::RouterId;
use lsdb::Database;
use routing_table::{Table, TableFault, routers};
use spf::Meter;
use std::alloc::{AllocError, Allocator, Global};
use std::marker::Model;
use std::rc::Rc;

/// A link state database, the edits that led to it from the one that was loaded, and those that
/// were undone since.
///
/// It is seen as its session, which is the loaded database, the edits done and the edits undone, as
/// how many trees it has calculated, and as which of them it keeps for further tables, of its
/// database and of the loaded one. After any calls its database is the effect of the done edits, in
/// order, on the loaded one. It is seen too of which routers it keeps a table, of the loaded
/// database and of its own, and whose table it was asked for last. Whether it holds a copy of the
/// loaded database or a list of the AS-external-LSAs is not seen.
#[derive(Drop)]
pub struct Planner<A: Allocator = Global> {
    study: Study<A>,
    present: TableCache<A>,
    baseline: TableCache<A>,
    asked: Option<RouterId>,
    meter: Meter,
}

impl<A: Allocator> Model for Planner<A> {
    ghost use Rattle.routing_table.specs.AreasTrees.{routers_of};
    ghost use Rattle.recalculate.specs.Planning.{AreCachesOf, PlannerValue, router_of};

    ghost Value = { PlannerValue };

    ghost view = { λ p. record {
      session = p.study;
      runs = p.meter;
      kept = routers_of p.present.trees;
      first_kept = routers_of p.baseline.trees;
      tables = record {
        last = router_of p.present.table;
        first = router_of p.baseline.table;
        asked = p.asked;
      };
    } };

    ghost invariant = { λ p. AreCachesOf p.study p.present p.baseline };
}

impl<A: Allocator + Copy> Planner<A> {
    ghost use Rattle.std.specs.Prelude.{◌≡◌, ◌≢◌, ◌≤◌, ◌↔◌, ◌+◌, ◌++◌, [], Ok, Err, Some, None, length, true, IsOk, OnOk, IfOk, IfErr, IfSome, IsErrOf};
    ghost use Rattle.lsdb.specs.BaseText.{base_text};
    ghost use Rattle.lsdb.specs.Lists.{IsDatabase};
    ghost use Rattle.lsdb.specs.Slots.{lists_of};
    ghost use Rattle.lsdb.specs.Text.{text};
    ghost use Rattle.area_routes.specs.Attached.{attached_areas};
    ghost use Rattle.edit_history.specs.declared.fault.EditFault.TheVariants.{HistoryFull, OutOfMemory};
    ghost use Rattle.edit_history.specs.Session.{edit as edit_request, undo as undo_request, redo as redo_request};
    ghost use Rattle.edit_history.specs.Session.{edits_of, start, state, effects, most_edits, edited, moved_back, moved_on};
    ghost use Rattle.recalculate.specs.Asking.{HasTreesOfTable, IsAskedAgain};
    ghost use Rattle.recalculate.specs.Calls.{CarriesOut, Stayed};
    ghost use Rattle.recalculate.specs.CallsForTables.{CalculatesEither, CalculatesTrees, CountsTrees, KeepsBaseline, NotesAsked, ShowsTable};
    ghost use Rattle.recalculate.specs.Counts.{info_of};
    ghost use Rattle.recalculate.specs.Planning.{IsTableOver};
    ghost use Rattle.recalculate.specs.Reached.{IsReached};
    ghost use Rattle.routing_table.specs.Routers.{attached_routers};
    ghost use Rattle.routing_table.specs.Tables.{table_in};

    /// The session that begins at a database: no edit is done, none is undone, and no tree is
    /// calculated. It takes no memory.
    pub fn new(alloc: A, database: Database<A>) -> Planner<A>
        ensures session { result.session ≡ start (lists_of database) }
        ensures runs { result.runs ≡ 0 }
        ensures kept { result.kept ≡ [] }
        ensures first_kept { result.first_kept ≡ [] }
        ensures tables { result.tables ≡ record { last = None; first = None; asked = None } }
    {
        Planner {
            study: Study::new(alloc, database),
            present: TableCache::new(alloc),
            baseline: TableCache::new(alloc),
            asked: None,
            meter: Meter::new(),
        }
    }

    /// The database: the effects of the done edits, in order, on the one that the session began at.
    /// None of them is refused on the way.
    pub fn database(&self) -> &Database<A>
        ensures state { lists_of result.now ≡ state self.now.session }
        ensures accepted { effects self.now.session.base self.now.session.done
            ≡ Ok (lists_of result.now) }
        ensures reached { IsReached self.now.session }
    {
        self.study.database()
    }

    /// The dump of the database. An error is want of memory.
    pub fn dump(&self) -> Result<Vec<u8, A>, AllocError>
        ensures { IfOk result (λ dump. dump.items ≡ text (state self.now.session)) }
    {
        self.database().dump()
    }

    /// Carries an edit out. The undone edits go, and the trees of the areas that it touches: those
    /// of which it rewrites, removes or adds a router-LSA or network-LSA.
    ///
    /// # Errors
    ///
    /// [`HistoryFull`](EditFault::HistoryFull) exactly where 10,000 edits are done, else the first
    /// refusal of the edit, as [`apply`] answers it; [`OutOfMemory`](EditFault::OutOfMemory) may
    /// stand in place of the latter where memory ran out. The session is then as it was.
    pub fn edit(&mut self, edit: &Edit) -> Result<(), EditFault>
        ensures ok { OnOk result (edited self.old.session edit.now ≡ Ok self.new.session) }
        ensures full { most_edits ≤ length self.old.session.done → IsErrOf result HistoryFull }
        ensures refused { IfErr result
            (λ f. f ≢ OutOfMemory → edited self.old.session edit.now ≡ Err f) }
        ensures step { CarriesOut (edit_request edit.now) result self.old self.new }
    {
        self.study.edit(edit)?;
        self.present.follow(&self.study, Moved::On(1));
        Ok(())
    }

    /// Takes the last `count` done edits back. The trees of the areas that they touch go. It takes
    /// no memory.
    ///
    /// # Errors
    ///
    /// [`NothingToUndo`](UndoFault::NothingToUndo) exactly where fewer edits are done; the session
    /// is then as it was. A `count` of 0 is accepted.
    pub fn undo(&mut self, count: u32) -> Result<(), UndoFault>
        ensures ok { IsOk result ↔ (count ≤ length self.old.session.done) }
        ensures session { OnOk result (self.new.session ≡ moved_back count self.old.session) }
        ensures step { CarriesOut (undo_request count) result self.old self.new }
    {
        self.study.undo(count as usize)?;
        self.present
            .follow(&self.study, Moved::Back(count as usize));
        Ok(())
    }

    /// Carries the first `count` undone edits out again. The trees of the areas that they touch go.
    /// It takes no memory.
    ///
    /// # Errors
    ///
    /// [`NothingToRedo`](RedoFault::NothingToRedo) exactly where fewer edits are undone; the
    /// session is then as it was. A `count` of 0 is accepted.
    pub fn redo(&mut self, count: u32) -> Result<(), RedoFault>
        ensures ok { IsOk result ↔ (count ≤ length self.old.session.undone) }
        ensures session { OnOk result (self.new.session ≡ moved_on count self.old.session) }
        ensures step { CarriesOut (redo_request count) result self.old self.new }
    {
        self.study.redo(count as usize)?;
        self.present.follow(&self.study, Moved::On(count as usize));
        Ok(())
    }

    /// The routers that are attached to areas of the session's database, as [`routers`] gives
    /// them. An error is want of memory.
    pub fn routers(&self) -> Result<Vec<RouterId, A>, AllocError>
        ensures { IfOk result
            (λ routers. routers.items ≡ attached_routers (state self.now.session)) }
    {
        let database = self.database();
        routers(database.alloc(), database)
    }

    /// How many edits are done.
    pub fn done(&self) -> usize
        ensures { result ≡ length self.now.session.done }
    {
        self.study.done()
    }

    /// How many edits are undone.
    pub fn undone(&self) -> usize
        ensures { result ≡ length self.now.session.undone }
    {
        self.study.undone()
    }

    /// The records of the edits: of those that are done, in the order in which they were carried
    /// out, and after them of those that are undone, in the order in which
    /// [`redo`](Planner::redo) takes them. There are at most 10,000. It takes no memory.
    pub fn records(&self) -> &[Record<A>]
        ensures edits { edits_of result.now ≡ self.now.session.done ++ self.now.session.undone }
        ensures few { length self.now.session.done + length self.now.session.undone ≤ most_edits }
    {
        self.study.records()
    }

    /// How many shortest-path trees the planner has calculated for tables. Only
    /// [`table`](Planner::table), [`cached_table`](Planner::cached_table),
    /// [`base_table`](Planner::base_table) and [`baseline_table`](Planner::baseline_table) raise
    /// it. It stays at its greatest value, 2^64 - 1, and takes no memory.
    pub fn runs(&self) -> u64
        ensures { result ≡ self.now.runs }
    {
        self.meter.count()
    }

    /// The routing table of a router in the session's database (RFC 2328, 16). In each area that
    /// the router is attached to its tree is calculated, unless it is kept, and then it is kept.
    /// No tree of another router or area comes. The session stays as it is, also after an error,
    /// and so do the trees that are kept.
    ///
    /// # Errors
    ///
    /// [`NoRouter`](TableFault::NoRouter) exactly where the router is attached to no area, and
    /// [`OutOfMemory`](TableFault::OutOfMemory); the trees begun before it count, and those that
    /// were finished are kept.
    pub fn table(&mut self, router: RouterId) -> Result<Table<A>, TableFault>
        ensures table { ShowsTable result (λ table. table) (state self.old.session) router }
        ensures trees { CalculatesTrees (state self.old.session) router result
            (self.old.kept, self.old.runs) (self.new.kept, self.new.runs) }
        ensures others { self.new ≡ record self.old { runs = self.new.runs; kept = self.new.kept } }
        ensures step { Stayed self.old self.new }
    {
        self.present
            .table_of(self.study.database(), router, &mut self.meter)
    }

    /// The routing table of a router in the database that the session began at, by trees that are
    /// not kept. The session stays as it is, also after an error.
    ///
    /// # Errors
    ///
    /// As those of [`table`](Planner::table), for that database.
    pub fn base_table(&mut self, router: RouterId) -> Result<Table<A>, TableFault>
        ensures table { ShowsTable result (λ table. table) self.old.session.base router }
        ensures trees { CountsTrees (length (attached_areas self.old.session.base router)) result
            self.old.runs self.new.runs }
        ensures others { self.new ≡ record self.old { runs = self.new.runs } }
        ensures step { Stayed self.old self.new }
    {
        self.study.base_table(router, &mut self.meter)
    }

    /// The routing table of a router in the database that the session began at. The one that was
    /// asked for last is kept, and answered again without a calculation. Any other is made: in
    /// each area that the router is attached to there its tree is calculated, unless it is kept,
    /// and then it is kept until the planner is dropped, since no edit changes that database. The
    /// session and the trees of its own database stay as they are, also after an error.
    ///
    /// # Errors
    ///
    /// As those of [`table`](Planner::table), for that database. The table that was kept may be
    /// gone then.
    pub fn baseline_table(&mut self, router: RouterId) -> Result<Rc<Table<A>, A>, TableFault>
        ensures table { ShowsTable result (λ table. table.value) self.old.session.base router }
        ensures trees { CalculatesTrees self.old.session.base router result
            (self.old.first_kept, self.old.runs) (self.new.first_kept, self.new.runs) }
        ensures first { KeepsBaseline router result self.old self.new }
        ensures others { self.new ≡ record self.old {
          runs = self.new.runs;
          first_kept = self.new.first_kept;
          tables = record self.old.tables { first = self.new.tables.first };
        } }
        ensures step { Stayed self.old self.new }
    {
        if let Some(table) = self.first_table_of(router) {
            return Ok(table.clone()?);
        }
        self.study
            .new_base_table(router, &mut self.baseline, &mut self.meter)
    }

    /// Whether a router's table in the session's database is sure to be that in the database that
    /// the session began at, as far as that is known without a tree: no edit is done, or one alone,
    /// which changed the metrics of links of one router, and by the router's trees that are kept no
    /// path of least cost leads over these links, before or after it; or which changed LSAs of
    /// another area. It takes no memory.
    pub fn is_unchanged(&self, router: RouterId) -> bool
        ensures { result ≡ true → table_in (state self.now.session) router
            ≡ table_in self.now.session.base router }
    {
        self.study.is_unchanged(router, self.baseline.trees())
    }

    /// The routing table of a router in the session's database, as [`table`](Planner::table) gives
    /// it. The last one that was made here is kept until an edit, undo or redo is accepted, and
    /// answered again. Where the table is sure to be the one in the database that the session began
    /// at, and that is kept, it is answered without a calculation too. A table that is asked for
    /// twice in a row, while one edit is done, is calculated in that database, so that it may be
    /// answered so from then on. The session stays as it is, also after an error, and so do the
    /// trees that are kept.
    ///
    /// Only the router's own trees come: of the session's database where its table is calculated
    /// there, and of the other one where it was asked for twice in a row and one edit is done. Each
    /// that comes counts, and no other, unless memory ran out over the table of the other
    /// database: then a tree that was begun there counts too.
    ///
    /// # Errors
    ///
    /// As those of [`table`](Planner::table).
    pub fn cached_table(&mut self, router: RouterId) -> Result<Rc<Table<A>, A>, TableFault>
        ensures table { ShowsTable result (λ table. table.value) (state self.old.session) router }
        ensures same { self.old.tables.last ≡ Some router → self.new ≡ self.old }
        ensures trees { CalculatesEither router result self.old self.new }
        ensures step { Stayed self.old self.new }
    {
        if let Some(table) = self.last_table_of(router) {
            return Ok(table.clone()?);
        }
        self.ask(router);
        if let Some(table) = self.unchanged_table(router) {
            return Ok(table.clone()?);
        }
        self.present
            .new_table(self.study.database(), router, &mut self.meter)
    }

    /// The table that is kept of the session's database, if it is that of a router.
    fn last_table_of(&self, router: RouterId) -> Option<&Rc<Table<A>, A>>
        ensures table { IfSome result (λ table. IsTableOver (state self.now.session) self.now.kept
            router table.now.value) }
        ensures none { result ≡ None → self.now.tables.last ≢ Some router }
    {
        self.present.kept_table(router)
    }

    /// Notes that a router's table is asked for, and keeps its table of the beginning where it is
    /// asked for twice in a row while one edit is done.
    fn ask(&mut self, router: RouterId)
        ensures { NotesAsked router self.old self.new }
    {
        let again = self.is_asked_again(router);
        self.asked = Some(router);
        if !again {
            return;
        }
        // Where it cannot be made, the table is calculated in the session's database alone.
        let _ = self.baseline_table(router);
    }

    /// Whether a router's table was the last that was asked for, and one edit is done.
    fn is_asked_again(&self, router: RouterId) -> bool
        ensures { result ≡ true → IsAskedAgain router self.now }
    {
        match self.asked {
            Some(last) => last == router && self.study.done() == 1,
            None => false,
        }
    }

    /// The table that is kept of the database that the session began at, if it is that of a router,
    /// and is sure to be its table now.
    fn unchanged_table(&self, router: RouterId) -> Option<&Rc<Table<A>, A>>
        ensures table { IfSome result (λ table. table_in (state self.now.session) router
            ≡ Some table.now.value) }
        ensures trees { IfSome result (λ table. HasTreesOfTable router self.now) }
    {
        match self.first_table_of(router) {
            Some(table) if self.is_unchanged(router) => Some(table),
            _ => None,
        }
    }

    /// The table that is kept of the database that the session began at, if it is that of a router.
    fn first_table_of(&self, router: RouterId) -> Option<&Rc<Table<A>, A>>
        ensures table { IfSome result (λ table. IsTableOver self.now.session.base
            self.now.first_kept router table.now.value) }
        ensures first { IfSome result (λ table. self.now.tables.first ≡ Some router) }
    {
        self.baseline.kept_table(router)
    }

    /// What the session counted at its beginning, before all edits. The session stays as it is, and
    /// it takes no memory.
    pub fn beginning(&mut self) -> Info
        ensures info { result ≡ info_of (start self.old.session.base) }
        ensures kept { self.new ≡ self.old }
    {
        self.study.beginning()
    }

    /// A copy of the database that the session began at. The session stays as it is, also where
    /// memory runs out, which is the error.
    pub fn base(&mut self) -> Result<Database<A>, AllocError>
        ensures base { IfOk result (λ database. lists_of database ≡ self.old.session.base) }
        ensures kept { self.new ≡ self.old }
    {
        self.study.base()
    }

    /// The bytes that the dump of a session, version 2, begins with, for the database that the
    /// session began at. The session stays as it is, also where memory runs out, which is the
    /// error.
    pub fn dump_base(&mut self) -> Result<Vec<u8, A>, AllocError>
        ensures dump { IfOk result (λ dump. dump.items ≡ base_text self.old.session.base) }
        ensures database { IsDatabase self.old.session.base }
        ensures kept { self.new ≡ self.old }
    {
        self.study.dump_base()
    }
}
