//! The database that a refresh gives.

ghost use Rattle.std.specs.Prelude.{◌≡◌, IfOk};
ghost use Rattle.lsdb.specs.Slots.{lists_of};
ghost use Rattle.summary_metrics.specs.Refreshed.{refreshed};

use edit_history::{apply, refresh_settles};
use edit_script::Edit;
use lsdb::Database;
use std::alloc::{AllocError, Allocator};

/// The database that a refresh gives, in which the summary-LSAs have the metrics that their
/// originators announce (RFC 2328, 12.4.3).
pub(crate) fn refreshed<A: Allocator + Copy>(
    database: &Database<A>,
) -> Result<Database<A>, AllocError>
    ensures { IfOk result (λ after. lists_of after ≡ refreshed (lists_of database.now)) }
{
    // The law says what a refresh leaves.
    refresh_settles();
    let mut after = database.clone_of()?;
    match apply(&mut after, &Edit::Refresh) {
        Ok(_record) => Ok(after),
        // A refresh fails only where memory ran out.
        Err(_fault) => Err(AllocError),
    }
}
