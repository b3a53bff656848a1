//! Dumps by name, so that rows of tables name them.

use super::nets::nets;
use super::refreshes::STALE;
use crate::filled::{area_of, as_list_of};
use std::alloc::Global;
use std::test::Fail;
use test_support::dump_of_text;

/// A dump.
#[derive(Clone, Copy)]
pub(super) enum Dump {
    /// `NETS`.
    Nets,
    /// `STALE`.
    Stale,
    /// An area with this number of LSAs.
    Area(u16),
    /// An area with two LSAs, and this number of LSAs of AS scope.
    AsList(u16),
}

/// The bytes of a dump.
pub(super) fn bytes_of(alloc: Global, dump: Dump) -> Result<Vec<u8>, Fail> {
    Ok(match dump {
        Dump::Nets => Vec::from_slice(alloc, nets())?,
        Dump::Stale => dump_of_text(alloc, STALE)?,
        Dump::Area(lsas) => area_of(alloc, lsas)?,
        Dump::AsList(lsas) => as_list_of(alloc, lsas)?,
    })
}
