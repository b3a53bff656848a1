//! What calls answer, as bytes that say all of it.

use super::network::ROUTER;
use lsa_codec::RouterId;
use lsdb::Database;
use routing_table::{Table, TableFault, table_of};
use spf::Meter;
use std::alloc::{AllocError, Global};
use std::test::*;
use table_report::table_text;
use test_support::{Answer, FailingAlloc};

/// The answer that is bytes.
pub(super) fn of_bytes(
    alloc: Global,
    bytes: Result<Vec<u8, &FailingAlloc>, AllocError>,
) -> Result<Answer, Fail> {
    match bytes {
        Ok(bytes) => Ok(Some(Vec::from_slice(alloc, &bytes)?)),
        Err(AllocError) => Ok(None),
    }
}

/// The answer that is routers.
pub(super) fn of_routers(
    alloc: Global,
    routers: Result<Vec<RouterId, &FailingAlloc>, AllocError>,
) -> Result<Answer, Fail> {
    match routers {
        Ok(routers) => Ok(Some(format!(in alloc; "{routers:?}")?.into_bytes())),
        Err(AllocError) => Ok(None),
    }
}

/// The answer that is a table that was made. There is ample memory for its text, and from then on.
pub(super) fn of_made_table<'a>(
    alloc: Global,
    failing: &'a FailingAlloc,
    table: &Table<&'a FailingAlloc>,
) -> Result<Answer, Fail> {
    failing.set_remaining(u64::MAX);
    of_bytes(alloc, table_text(failing, table))
}

/// The answer that no table was made. It is a failure, unless memory is wanted.
pub(super) fn of_fault(fault: TableFault) -> Result<Answer, Fail> {
    match fault {
        TableFault::OutOfMemory => Ok(None),
        TableFault::NoRouter => Err(fault)?,
    }
}

/// The answer that is a table.
pub(super) fn of_table<'a>(
    alloc: Global,
    failing: &'a FailingAlloc,
    table: Result<Table<&'a FailingAlloc>, TableFault>,
) -> Result<Answer, Fail> {
    match table {
        Ok(table) => of_made_table(alloc, failing, &table),
        Err(fault) => of_fault(fault),
    }
}

/// The answer that is the table of a database alone.
pub(super) fn of_table_of<'a>(
    alloc: Global,
    failing: &'a FailingAlloc,
    database: &Database<&'a FailingAlloc>,
) -> Result<Answer, Fail> {
    let table = table_of(failing, database, ROUTER, &mut Meter::new());
    of_table(alloc, failing, table)
}
