//! Edits of summary-LSAs and AS-external-LSAs (RFC 2328, 12.4.3, 12.4.4).

ghost use Rattle.std.specs.Prelude.{◌≡◌, ◌<◌, ◌^◌, IsSome, IfOk, IfErr, OnErr};
ghost use Rattle.lsa_codec.specs.Prefix.{IsNet};
ghost use Rattle.lsdb.specs.Slots.{item_at, head_or_none};
ghost use Rattle.edit_script.specs.declared.edit.Edit.TheVariants.{Summary, AddSummary, AddExternal, DropExternal};
ghost use Rattle.edit_history.specs.declared.fault.EditFault.TheVariants.{OutOfMemory};
ghost use Rattle.edit_history.specs.Effect.{options_in, is_type2};
ghost use Rattle.edit_history.specs.steps.Plans.{IsPlan, Opens};

use crate::fault::EditFault;
use crate::limits::check_room;
use crate::lookup::{Wanted, area_section, first, has_router, router_lsa_in};
use crate::swap::{Swap, one_swap};
use edit_script::MetricType;
use lsa_codec::{Addr, AreaId, EXTERNAL_LSA, Key, Lsa, Metric, Prefix, RouterId, SUMMARY_LSA};
use lsdb::{Database, Section};
use std::alloc::Allocator;

/// The length of a new summary-LSA, in bytes (RFC 2328, A.4.4).
const SUMMARY_BYTES: u16 = 28;

/// The length of a new AS-external-LSA, in bytes (RFC 2328, A.4.5).
const EXTERNAL_BYTES: u16 = 36;

/// A router's first summary-LSA for a prefix gets another metric.
pub(crate) fn plan_summary<A: Allocator + Copy>(
    database: &Database<A>,
    area: AreaId,
    router: RouterId,
    prefix: Prefix,
    metric: Metric,
) -> Result<Vec<Swap<A>, A>, EditFault>
    ensures { IsPlan database.now database.now
        (Summary area router prefix metric) (λ v. v.items) result }
{
    // Its invariant is needed after each swap too.
    database.assert_valid();
    area_section(database, area)?;
    let section = Section::Area(area);
    let Some((slot, lsa)) = first(database, section, &Wanted::Summary(router, prefix)) else {
        return Err(EditFault::NoSummary);
    };
    let new = lsa.with_metric(database.alloc(), metric.value())?;
    let swap = Swap::new(slot, section, SUMMARY_LSA, Some(new));
    Ok(one_swap(database.alloc(), swap)?)
}

/// A router's first AS-external-LSA for a prefix is removed.
pub(crate) fn plan_drop_external<A: Allocator + Copy>(
    database: &Database<A>,
    router: RouterId,
    prefix: Prefix,
) -> Result<Vec<Swap<A>, A>, EditFault>
    ensures { IsPlan database.now database.now (DropExternal router prefix) (λ v. v.items) result }
{
    // Its invariant is needed after each swap too.
    database.assert_valid();
    let wanted = Wanted::External(router, prefix);
    let Some((slot, _)) = first(database, Section::AsWide, &wanted) else {
        return Err(EditFault::NoExternal);
    };
    let swap = Swap::new(slot, Section::AsWide, EXTERNAL_LSA, None);
    Ok(one_swap(database.alloc(), swap)?)
}

/// The key of a new LSA of a router for a prefix.
fn new_key(kind: u8, router: RouterId, prefix: Prefix) -> Key
    ensures key { result ≡ record { kind = kind; id = prefix.addr; adv = router } }
    ensures prefix { IsNet prefix }
    ensures addr { prefix.addr.0 < 2 ^ 32 }
    ensures router { router.0 < 2 ^ 32 }
{
    Key {
        kind,
        id: prefix.addr(),
        adv: router,
    }
}

/// The swap that puts a new LSA at the end of a section, where a slot is opened for it. The only
/// error is that memory ran out.
fn plan_new<A: Allocator + Copy>(
    database: &mut Database<A>,
    section: Section,
    lsa: Lsa<A>,
) -> Result<Vec<Swap<A>, A>, EditFault>
    ensures opened { IfOk result (λ v. Opens database.old database.new section lsa v.items) }
    ensures memory { IfErr result (λ fault. fault ≡ OutOfMemory) }
    ensures kept { OnErr result (database.new ≡ database.old) }
{
    let kind = lsa.key().kind;
    let mut swaps = Vec::with_capacity(database.alloc(), 1)?;
    let Ok(slot) = database.open_slot(section) else {
        return Err(EditFault::OutOfMemory);
    };
    // Room was made for one, so it takes no memory, and this does not fail.
    let _ = swaps.push(Swap::new(slot, section, kind, Some(lsa)));
    Ok(swaps)
}

/// The options of a summary-LSA of an area, by its number: bit E, except in a stub area (RFC 2328,
/// A.2).
fn options_in<A: Allocator + Copy>(database: &Database<A>, number: usize) -> u8
    requires { IsSome (item_at database.now number) }
    ensures { result ≡ options_in (head_or_none (item_at database.now number)) }
{
    match database.area_in(number) {
        Some((_, true)) => 0,
        _ => 2,
    }
}

/// A new summary-LSA of a router for a prefix, at the end of an area.
pub(crate) fn plan_add_summary<A: Allocator + Copy>(
    database: &mut Database<A>,
    area: AreaId,
    router: RouterId,
    prefix: Prefix,
    metric: Metric,
) -> Result<Vec<Swap<A>, A>, EditFault>
    ensures plan { IsPlan database.old database.new
        (AddSummary area router prefix metric) (λ v. v.items) result }
    ensures kept { OnErr result (database.new ≡ database.old) }
{
    // Its invariant is needed after each swap too.
    database.assert_valid();
    let number = area_section(database, area)?;
    router_lsa_in(database, area, router)?;
    let section = Section::Area(area);
    let key = new_key(SUMMARY_LSA, router, prefix);
    check_room(database, section, key, SUMMARY_BYTES)?;
    let options = options_in(database, number);
    let lsa = Lsa::new_summary(database.alloc(), options, router, prefix, metric.value())?;
    plan_new(database, section, lsa)
}

/// Whether metrics of this type are larger than the cost of any path inside the AS.
fn is_type2(metric_type: MetricType) -> bool
    ensures { result ≡ is_type2 metric_type }
{
    matches!(metric_type, MetricType::Type2)
}

/// A new AS-external-LSA of a router for a prefix, at the end of those of AS scope.
pub(crate) fn plan_add_external<A: Allocator + Copy>(
    database: &mut Database<A>,
    router: RouterId,
    prefix: Prefix,
    metric_type: MetricType,
    metric: Metric,
    forward: Addr,
    tag: u32,
) -> Result<Vec<Swap<A>, A>, EditFault>
    ensures plan { IsPlan database.old database.new
        (AddExternal router prefix metric_type metric forward tag) (λ v. v.items) result }
    ensures kept { OnErr result (database.new ≡ database.old) }
{
    // Its invariant is needed after each swap too.
    database.assert_valid();
    if !has_router(database, router) {
        return Err(EditFault::NoRouter);
    }
    let key = new_key(EXTERNAL_LSA, router, prefix);
    check_room(database, Section::AsWide, key, EXTERNAL_BYTES)?;
    let lsa = Lsa::new_external(
        database.alloc(),
        router,
        prefix,
        is_type2(metric_type),
        metric.value(),
        forward,
        tag,
    )?;
    plan_new(database, Section::AsWide, lsa)
}
