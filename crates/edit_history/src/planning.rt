//! The swaps of an edit, planned before any is done. A plan takes all the memory that the edit
//! needs and opens the slots that it fills, so that a refusal leaves everything as it was.

ghost use Rattle.std.specs.Prelude.{◌≡◌, OnErr};
ghost use Rattle.edit_history.specs.steps.Plans.{IsPlan};

use crate::events::plan_event;
use crate::failures::{plan_fail_link, plan_fail_net, plan_fail_router};
use crate::fault::EditFault;
use crate::links::{plan_add_stub, plan_cost, plan_drop_link};
use crate::prefixes::{plan_add_external, plan_add_summary, plan_drop_external, plan_summary};
use crate::refreshing::plan_refresh;
use crate::swap::Swap;
use edit_script::Edit;
use lsdb::Database;
use std::alloc::Allocator;

/// The swaps of an edit, or its first refusal.
pub(crate) fn plan<A: Allocator + Copy>(
    database: &mut Database<A>,
    edit: &Edit,
) -> Result<Vec<Swap<A>, A>, EditFault>
    ensures plan { IsPlan database.old database.new edit.now (λ v. v.items) result }
    ensures kept { OnErr result (database.new ≡ database.old) }
{
    match *edit {
        Edit::Cost {
            area,
            router,
            link,
            metric,
        } => plan_cost(database, area, router, link, metric),
        Edit::DropLink { area, router, link } => plan_drop_link(database, area, router, link),
        Edit::FailLink {
            area,
            router,
            neighbor,
        } => plan_fail_link(database, area, router, neighbor),
        Edit::FailNet { area, network } => plan_fail_net(database, area, network),
        Edit::FailRouter { router } => plan_fail_router(database, router),
        Edit::AddStub {
            area,
            router,
            prefix,
            metric,
        } => plan_add_stub(database, area, router, prefix, metric),
        Edit::Summary {
            area,
            router,
            prefix,
            metric,
        } => plan_summary(database, area, router, prefix, metric),
        Edit::DropExternal { router, prefix } => plan_drop_external(database, router, prefix),
        Edit::AddSummary {
            area,
            router,
            prefix,
            metric,
        } => plan_add_summary(database, area, router, prefix, metric),
        Edit::AddExternal {
            router,
            prefix,
            metric_type,
            metric,
            forward,
            tag,
        } => plan_add_external(database, router, prefix, metric_type, metric, forward, tag),
        Edit::Refresh => plan_refresh(database),
        Edit::Event(event) => plan_event(database, event),
    }
}
