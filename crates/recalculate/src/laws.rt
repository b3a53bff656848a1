//! What holds of the definitions.

ghost use Rattle.std.specs.Prelude.{◌≡◌, ◌≢◌, ◌≤◌, ℕ, true, false, List, [], All, length};
ghost use Rattle.lsa_codec.specs.declared.address.AreaId.{AreaId};
ghost use Rattle.lsa_codec.specs.declared.address.RouterId.{RouterId};
ghost use Rattle.lsdb.specs.Lists.{Lists};
ghost use Rattle.edit_script.specs.declared.edit.Edit.{Edit};
ghost use Rattle.edit_history.specs.Effect.{edit_touches};
ghost use Rattle.edit_history.specs.Session.{Request};
ghost use Rattle.routing_table.specs.Counting.{CountsAtMost};
ghost use Rattle.recalculate.specs.Asking.{GainsTrees, HasNoTree, NoTreeCame};
ghost use Rattle.recalculate.specs.Calls.{AreMade, Call, CarriedOut, after_calls, areas_lacking, areas_of_router, areas_touched, head_touched, is_of_route};
ghost use Rattle.recalculate.specs.Planning.{PlannerValue};
ghost use Rattle.recalculate.specs.Reached.{IsReached};

/// A table that follows other calls calculates trees of touched areas alone.
///
/// Once a table of a router was answered, the router lacks no tree. Over any calls that follow,
/// whether edits, undos and redos that are carried out or refused, or tables of any routers, the
/// areas whose tree it then lacks are among its attached areas that one of the calls touches. So
/// the next table of the router raises [`runs`](crate::Planner::runs) by at most the number of
/// these. An edit of summary-LSAs or AS-external-LSAs touches no area, and a call that carried out
/// no request touches none.
pub fn untouched_trees_stay()
    ensures lacking { (p : PlannerValue) (router : RouterId) (calls : List Call)
        → IsReached p.session → areas_lacking router p ≡ [] → AreMade p calls
        → All (λ area. head_touched p calls area ≡ true)
        (areas_lacking router (after_calls p calls)) }
    ensures few { (p : PlannerValue) (router : RouterId) (calls : List Call)
        → IsReached p.session → areas_lacking router p ≡ [] → AreMade p calls
        → length (areas_lacking router (after_calls p calls))
        ≤ length (areas_touched router p calls) }
    ensures runs { (p : PlannerValue) (router : RouterId) (calls : List Call) (runs : ℕ)
        → IsReached p.session → areas_lacking router p ≡ [] → AreMade p calls
        → CountsAtMost (length (areas_lacking router (after_calls p calls)))
        (after_calls p calls).runs runs
        → CountsAtMost (length (areas_touched router p calls)) (after_calls p calls).runs runs }
    ensures routes { (db : Lists) (edit : Edit) (area : AreaId) → is_of_route edit ≡ true
        → edit_touches area db edit ≡ false }
{}

/// A table of one router keeps no tree of another one, and an edit, undo or redo keeps none that
/// was not kept. So the first table of a router, whatever tables of other routers came before it,
/// finds none of its trees, and calculates one in each area that the router is attached to.
pub fn tables_keep_their_own_trees()
    ensures table { (db : Lists) (p q : PlannerValue) (asked router : RouterId) → asked ≢ router
        → GainsTrees db asked p.kept q.kept → NoTreeCame router p q }
    ensures carried_out { (request : Request) (p q : PlannerValue) (router : RouterId)
        → CarriedOut request p q → NoTreeCame router p q }
    ensures first { (p : PlannerValue) (router : RouterId) → HasNoTree router p
        → areas_lacking router p ≡ areas_of_router router p }
{}
