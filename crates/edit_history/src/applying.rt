//! Carrying out an edit.

ghost use Rattle.std.specs.Prelude.{◌≡◌, IfOk, IfErr, OnErr};
ghost use Rattle.edit_history.specs.Applied.{Applied, IsRefused};

use crate::fault::EditFault;
use crate::planning::plan;
use crate::record::Record;
use edit_script::Edit;
use lsdb::Database;
use std::alloc::Allocator;

/// Carries an edit out, and returns its record.
///
/// # Errors
///
/// The first refusal. These are tested, in this order:
///
/// - a cost: `NoArea`, `NoRouter`, `NoLink`, `ZeroCost`; a link that is dropped: `NoArea`,
///   `NoRouter`, `NoLink`;
/// - links between two routers that fail: `NoArea`, `SameRouter`, `NoRouter` for either, `NoLink`;
///   a network that fails: `NoArea`, `NoNetwork`; a router whose LSAs go: `NoRouter`;
/// - a new stub link: `NoArea`, `NoRouter`, `TooLong`, `Full`;
/// - another metric of a summary: `NoArea`, `NoSummary`; a new summary: `NoArea`, `NoRouter`,
///   `KeyTaken`, `Full`;
/// - a new AS-external-LSA: `NoRouter`, `KeyTaken`, `Full`; one that is dropped: `NoExternal`;
/// - the links of two routers that are cut: `SameRouter`, `NoRouter` for either, `NotNeighbors`;
///   one of them: `SameRouter`, `NoRouter` for either, `NoInterface`, `UnclearEnd`;
/// - the cost of interfaces to a neighbor: `SameRouter`, `NoRouter` for either, `NotNeighbors`,
///   `ZeroCost`; of the interface with an address: `NoRouter`, `NoInterface`, `ZeroCost`; a router
///   that is drained: `NoRouter`;
/// - a router that fails: `NoRouter`; one that leaves a network: `NoRouter`, `NotOnNetwork`.
///
/// A refresh fails only where memory ran out.
///
/// [`OutOfMemory`](EditFault::OutOfMemory) comes only where memory ran out: for an edit that would
/// be carried out, or for any event. All memory is taken, and a slot for a new LSA is opened,
/// before the first LSA is exchanged; after a refusal the database is as it was, slot by slot.
pub fn apply<A: Allocator + Copy>(
    database: &mut Database<A>,
    edit: &Edit,
) -> Result<Record<A>, EditFault>
    ensures applied { IfOk result (λ r. Applied database.old database.new edit.now r) }
    ensures refused { IfErr result (λ f. IsRefused database.old edit.now f) }
    ensures kept { OnErr result (database.new ≡ database.old) }
{
    let swaps = plan(database, edit)?;
    // Its invariant holds after each swap, and so once they are done.
    database.assert_valid();
    Ok(Record::commit(database, *edit, swaps))
}
