//! Of which edits a planner knows without a calculation that they leave a table as it was.

use super::calls::{Question, ask};
use super::tables::is_refused;
use lsa_codec::RouterId;
use recalculate::Planner;
use std::alloc::Global;
use std::test::*;
use test_support::{FailingAlloc, LsaList, to_router, to_stub};

/// Three routers, each with a link to both others: 0.0.0.1 and 0.0.0.3 reach each other over
/// 0.0.0.2 for 2, and straight for 10. 0.0.0.4 stands alone.
fn triangle(alloc: Global) -> Result<Vec<u8>, Fail> {
    let mut list = LsaList::new(alloc);
    let stub = to_stub(0x0a01_0000, 0xffff_0000, 5);
    list.router(1, &[to_router(2, 12, 1), to_router(3, 13, 10), stub])?;
    list.router(2, &[to_router(1, 21, 1), to_router(3, 23, 1)])?;
    list.router(3, &[to_router(1, 31, 10), to_router(2, 32, 1)])?;
    list.router(4, &[])?;
    Ok(list.dump()?)
}

/// A router, an edit, and whether it is known to leave the router's table: the straight way between
/// 0.0.0.1 and 0.0.0.3 counts from a cost of 2 on, and a way out of a router that is reached last
/// for no other.
const EDITS: &[(u32, &str, bool)] = &[
    (1, "cost 0.0.0.0 0.0.0.1 2 9", true),
    (1, "cost 0.0.0.0 0.0.0.1 2 3", true),
    (1, "cost 0.0.0.0 0.0.0.1 2 2", false),
    (1, "cost 0.0.0.0 0.0.0.1 1 2", false),
    (1, "cost 0.0.0.0 0.0.0.1 3 6", false),
    (3, "cost 0.0.0.0 0.0.0.1 1 9", true),
    (3, "cost 0.0.0.0 0.0.0.2 1 9", false),
    (2, "cost 0.0.0.0 0.0.0.3 1 1", true),
    (4, "cost 0.0.0.0 0.0.0.3 1 1", true),
    (1, "fail-router 0.0.0.3", false),
];

/// Whether an edit is known to leave a router's table.
#[derive(Drop)]
struct KnownToLeave {
    router: RouterId,
    line: &'static str,
}

impl Question for KnownToLeave {
    type Found = bool;

    fn find(
        &self,
        planner: &mut Planner<&FailingAlloc>,
        failing: &FailingAlloc,
    ) -> Result<bool, Fail> {
        let _table = planner.baseline_table(self.router)?;
        let _refused = is_refused(planner, failing, self.line)?;
        Ok(planner.is_unchanged(self.router))
    }
}

#[test]
fn knows_tables_that_an_edit_leaves(rt: HostRuntime) -> Result<(), Fail> {
    let dump = triangle(rt.alloc())?;
    for (router, line, known) in EDITS {
        let (router, line) = (RouterId(*router), *line);
        let question = KnownToLeave { router, line };
        assert_eq!(rt; ask(rt.alloc(), &dump, &question)?, *known, "{line}");
    }
    Ok(())
}
