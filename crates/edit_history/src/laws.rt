//! Laws of records and sessions.

ghost use Rattle.std.specs.Prelude.{◌≡◌, ◌<◌, ◌≤◌, ℕ, false, List, [], ◌∷◌, Ok, Err, IsOk, length};
ghost use Rattle.lsa_codec.specs.declared.address.AreaId.{AreaId};
ghost use Rattle.lsdb.specs.Lists.{IsDatabase, Lists};
ghost use Rattle.lsdb.specs.Slots.{Slots, lists_of};
ghost use Rattle.edit_script.specs.declared.edit.Edit.{Edit};
ghost use Rattle.edit_script.specs.declared.edit.Edit.TheVariants.{Refresh};
ghost use Rattle.summary_metrics.specs.Refreshed.{IsSettled, refreshed};
ghost use Rattle.edit_history.specs.declared.fault.EditFault.{EditFault};
ghost use Rattle.edit_history.specs.declared.fault.EditFault.TheVariants.{HistoryFull};
ghost use Rattle.edit_history.specs.Rules.{Change};
ghost use Rattle.edit_history.specs.Effect.{effect, changes, edit_touches, graph_lsas};
ghost use Rattle.edit_history.specs.Exchange.{SwapData, RecordData, CanDo, CanUndo, UndoesAgain, DoesAgain, undone_slots, touches};
ghost use Rattle.edit_history.specs.Grown.{Grown};
ghost use Rattle.edit_history.specs.Applied.{Applied, TakesBack, CarriesOut, Reports};
ghost use Rattle.edit_history.specs.Journal.{HistoryData, Links};
ghost use Rattle.edit_history.specs.Session.{Session, Request, NoneRefused, session_of, start, state, effects, most_edits, edited, edited_by, after_requests, moved_back, moved_on, undo_touches, redo_touches};

use summary_metrics::summaries_settle;

/// What is done is undone again, to the same slots and swaps, and the other way round.
pub fn inverses()
    ensures undo { (d : Slots) (ss : List SwapData)
        → IsDatabase (lists_of d) → CanDo d ss → UndoesAgain d ss }
    ensures redo { (d : Slots) (ss : List SwapData)
        → IsDatabase (lists_of d) → CanUndo d ss → DoesAgain d ss }
{}

/// The database that a history led to is its session's: the effects of the done edits, in order,
/// from the base on. None of them is refused on the way, and neither are the undone ones after it.
pub fn folded()
    ensures state { (d : Slots) (h : HistoryData) → Links d h
        → state (session_of d h) ≡ lists_of d }
    ensures done { (d : Slots) (h : HistoryData) → Links d h
        → effects (session_of d h).base (session_of d h).done ≡ Ok (lists_of d) }
    ensures undone { (d : Slots) (h : HistoryData) → Links d h
        → IsOk (effects (lists_of d) (session_of d h).undone) }
{}

/// No edit of a session is refused on the way: each done edit is accepted after those before it,
/// from the base on, and each undone one after these. So it is at the start, and so it stays with
/// every edit, undo and redo.
pub fn no_edit_is_refused()
    ensures start { (db : Lists) → NoneRefused (start db) }
    ensures edited { (s t : Session) (edit : Edit) → NoneRefused s → edited s edit ≡ Ok t
        → NoneRefused t }
    ensures undone { (s : Session) (k : ℕ) → NoneRefused s → NoneRefused (moved_back k s) }
    ensures redone { (s : Session) (k : ℕ) → NoneRefused s → NoneRefused (moved_on k s) }
    ensures reached { (db : Lists) (requests : List Request)
        → NoneRefused (after_requests (start db) requests) }
{}

/// A history is linked to its database, as [`undo`](crate::History::undo) and
/// [`redo`](crate::History::redo) require: one without edits to every database, and one to which a
/// record was pushed to the database that [`apply`](crate::apply) left. It stays linked where
/// slots were opened since.
pub fn histories_are_linked()
    ensures start { (d : Slots) → IsDatabase (lists_of d)
        → Links d (record { past = []; future = [] }) }
    ensures pushed { (d e : Slots) (h : HistoryData) (edit : Edit) (r : RecordData) → Links d h
        → IsDatabase (lists_of e) → Applied d e edit r
        → Links e (record { past = r ∷ h.past; future = [] }) }
    ensures opened { (d e : Slots) (h : HistoryData) → Links d h → Grown d e → Links e h }
{}

/// The session that a history shows: the edits of its records, in order. A session takes an edit
/// where [`apply`](crate::apply) carried it out and its record was pushed, and refuses it as
/// `apply` does. It refuses every edit once it is full.
pub fn histories_show_sessions()
    ensures done { (d : Slots) (h : HistoryData)
        → length (session_of d h).done ≡ length h.past }
    ensures undone { (d : Slots) (h : HistoryData)
        → length (session_of d h).undone ≡ length h.future }
    ensures opened { (d e : Slots) (h : HistoryData) → Links d h → Grown d e
        → session_of e h ≡ session_of d h }
    ensures edited { (d e : Slots) (h : HistoryData) (edit : Edit) (r : RecordData)
        → length h.past < most_edits → Links d h → Applied d e edit r
        → edited (session_of d h) edit
        ≡ Ok (session_of e (record { past = r ∷ h.past; future = [] })) }
    ensures refused { (d : Slots) (h : HistoryData) (edit : Edit) (fault : EditFault)
        → length h.past < most_edits → Links d h → effect (lists_of d) edit ≡ Err fault
        → edited (session_of d h) edit ≡ Err fault }
    ensures full { (d : Slots) (h : HistoryData) (edit : Edit) → most_edits ≤ length h.past
        → edited (session_of d h) edit ≡ Err HistoryFull }
{}

/// A record counts the changes of its edit, and touches the areas that these touch: when the edit
/// was carried out, while it is done, and while it is undone.
pub fn changes_reported()
    ensures applied { (d e : Slots) (edit : Edit) (r : RecordData) (cs : List Change)
        → Applied d e edit r → changes (lists_of d) edit ≡ Ok cs → Reports r cs }
    ensures done { (e : Slots) (r : RecordData) (cs : List Change)
        → TakesBack e r.edit r.swaps
        → changes (lists_of (undone_slots e r.swaps)) r.edit ≡ Ok cs → Reports r cs }
    ensures undone { (d : Slots) (r : RecordData) (cs : List Change)
        → CarriesOut d r.edit r.swaps → changes (lists_of d) r.edit ≡ Ok cs → Reports r cs }
{}

/// Edits that are undone and redone, or redone and undone, are as they were. Where edits were
/// accepted, undoing the same number leads back to the database before them, and redoing them to
/// the one after them.
pub fn moves()
    ensures redone { (s : Session) (k : ℕ) → k ≤ length s.done → moved_on k (moved_back k s) ≡ s }
    ensures undone { (s : Session) (k : ℕ) → k ≤ length s.undone → moved_back k (moved_on k s) ≡ s }
    ensures back { (s t : Session) (es : List Edit) → edited_by s es ≡ Ok t
        → state (moved_back (length es) t) ≡ state s }
{}

/// An edit that touches no router-LSA or network-LSA of an area leaves those of the area as they
/// are, in their order. So do edits that are undone or redone, where none of them touches one. The
/// record of an edit that was carried out touches the areas that the edit touches.
pub fn untouched_areas_stay()
    ensures applied { (d e : Slots) (edit : Edit) (r : RecordData) (area : AreaId)
        → Applied d e edit r → touches area r ≡ edit_touches area (lists_of d) edit }
    ensures edit { (db after : Lists) (edit : Edit) (area : AreaId) → IsDatabase db
        → effect db edit ≡ Ok after → edit_touches area db edit ≡ false
        → graph_lsas area after ≡ graph_lsas area db }
    ensures undone { (d : Slots) (h : HistoryData) (k : ℕ) (area : AreaId) → Links d h
        → undo_touches k area (session_of d h) ≡ false
        → graph_lsas area (state (moved_back k (session_of d h)))
        ≡ graph_lsas area (state (session_of d h)) }
    ensures redone { (d : Slots) (h : HistoryData) (k : ℕ) (area : AreaId) → Links d h
        → redo_touches k area (session_of d h) ≡ false
        → graph_lsas area (state (moved_on k (session_of d h)))
        ≡ graph_lsas area (state (session_of d h)) }
{}

/// A refresh leaves the refreshed database: each covered summary-LSA has the metric that it should
/// have in that very database. So a second refresh changes no byte, and has no changes. It touches
/// no area.
pub fn refresh_settles()
    ensures effect { (db : Lists) → effect db Refresh ≡ Ok (refreshed db) }
    ensures settled { (db : Lists) → IsDatabase db → IsSettled (refreshed db) }
    ensures again { (db : Lists) → IsDatabase db
        → effect (refreshed db) Refresh ≡ Ok (refreshed db) }
    ensures silent { (db : Lists) → IsDatabase db → changes (refreshed db) Refresh ≡ Ok [] }
    ensures graphs { (db : Lists) (area : AreaId) → edit_touches area db Refresh ≡ false }
{
    summaries_settle();
}
