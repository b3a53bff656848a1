//! Planners: how many trees their tables calculate, and that tables over kept trees are right.

use super::calls::{Question, ask, edit, on_session, redo, undo};
use area_routes::Route;
use edit_script::{Command, Edit, Event, parse};
use lsa_codec::RouterId;
use recalculate::{Planner, Table};
use std::test::*;
use test_support::{FailingAlloc, R1, R2, SAMPLE};

/// The router-LSA of 1.1.1.1 in the areas 0.0.0.0 and 0.0.0.1, and an AS-external-LSA.
const TWO_AREAS: &[u8] = &[
    0x4f, 0x53, 0x57, 0x50, 1, 2, 0, 0, 0, 0, 0, 0, 1, 0x00, 0x01, 0x02, 0x01, 1, 1, 1, 1, 1, 1, 1,
    1, 0x80, 0, 0, 1, 0xd5, 0x5a, 0, 0x24, 0, 0, 0, 1, 2, 2, 2, 2, 0x0a, 0, 0, 1, 1, 0, 0, 0x0a, 0,
    0, 0, 1, 0, 0, 1, 0x00, 0x01, 0x02, 0x01, 1, 1, 1, 1, 1, 1, 1, 1, 0x80, 0, 0, 1, 0xd5, 0x5a, 0,
    0x24, 0, 0, 0, 1, 2, 2, 2, 2, 0x0a, 0, 0, 1, 1, 0, 0, 0x0a, 0, 1, 0x00, 0x01, 0x02, 0x05, 0x0a,
    9, 0, 0, 2, 2, 2, 2, 0x80, 0, 0, 1, 0x80, 0x23, 0, 0x24, 0xff, 0xff, 0, 0, 0x80, 0, 0, 0x14, 0,
    0, 0, 0, 0, 0, 0, 0,
];

/// Whether two routes are the same.
fn is_same(one: &Route<&FailingAlloc>, other: &Route<&FailingAlloc>) -> bool {
    one.net == other.net
        && one.kind == other.kind
        && one.cost == other.cost
        && one.cost2 == other.cost2
        && one.areas.as_slice() == other.areas.as_slice()
        && one.hops.as_slice() == other.hops.as_slice()
}

/// Whether two lists have the same routes, in the same order.
fn are_same(some: &[Route<&FailingAlloc>], others: &[Route<&FailingAlloc>]) -> bool {
    some.len() == others.len()
        && some
            .iter()
            .zip(others.iter())
            .all(|(one, other)| is_same(one, other))
}

/// Whether a planner's table of the same router has the same routes.
#[derive(Drop)]
struct SameTable<'t, 'r> {
    table: &'t Table<&'r FailingAlloc>,
}

impl<'t, 'r> Question for SameTable<'t, 'r> {
    type Found = bool;

    fn find(
        &self,
        planner: &mut Planner<&FailingAlloc>,
        _failing: &FailingAlloc,
    ) -> Result<bool, Fail> {
        let other = planner.table(self.table.router())?;
        Ok(are_same(self.table.routes().as_slice(), other.routes().as_slice()))
    }
}

/// Asks for a table, and returns whether it is refused. A table that is not that of a fresh planner
/// of the dumped database is a failure.
fn is_table_refused(
    planner: &mut Planner<&FailingAlloc>,
    failing: &FailingAlloc,
    router: RouterId,
) -> Result<bool, Fail> {
    let Ok(table) = planner.table(router) else {
        return Ok(true);
    };
    let dump = planner.dump()?;
    if on_session(failing, &dump, &SameTable { table: &table })? {
        Ok(false)
    } else {
        Err("another table")?
    }
}

/// The event that an edit is, if it is one.
fn event_of(edit: &Edit) -> Option<&Event> {
    match edit {
        Edit::Event(event) => Some(event),
        _ => None,
    }
}

/// Carries a line of a script out, and returns whether it is refused. `tables` asks for the routers
/// alone, and `compare` for a table of the database of the beginning.
pub(super) fn is_refused(
    planner: &mut Planner<&FailingAlloc>,
    failing: &FailingAlloc,
    line: &str,
) -> Result<bool, Fail> {
    let (_, command) = parse(line.as_bytes())?;
    Ok(match command {
        Command::Edit(command) => {
            if event_of(&command).is_some() {
                return Err("no line of a script is an event".into());
            }
            edit(planner, &command).is_err()
        }
        Command::Undo(count) => undo(planner, count).is_err(),
        Command::Redo(count) => redo(planner, count).is_err(),
        Command::Table(router) => is_table_refused(planner, failing, router)?,
        Command::Tables => planner.routers().is_err(),
        Command::Compare(router) => planner.base_table(router).is_err(),
        Command::Info => {
            let _info = planner.info();
            false
        },
    })
}

/// A line of a script, whether it is refused, and how many trees are calculated after it.
type Step = (&'static str, bool, u64);

/// The place of the first step that goes otherwise.
#[derive(Drop)]
struct FirstOtherwise {
    steps: &'static [Step],
}

impl Question for FirstOtherwise {
    type Found = Option<usize>;

    fn find(
        &self,
        planner: &mut Planner<&FailingAlloc>,
        failing: &FailingAlloc,
    ) -> Result<Option<usize>, Fail> {
        for (place, (line, refused, runs)) in self.steps.iter().enumerate() {
            if is_refused(planner, failing, line)? != *refused || planner.runs() != *runs {
                return Ok(Some(place));
            }
        }
        Ok(None)
    }
}

/// From the first table of a planner up to one of the beginning: an edit of a summary-LSA touches
/// no area, and one of a router-LSA its own, also where several are undone.
const TOUCHED: &[Step] = &[
    ("table 1.1.1.1", false, 1),
    ("table 1.1.1.1", false, 1),
    ("add-summary 0.0.0.0 2.2.2.2 10.8.0.0/16 20", false, 1),
    ("table 1.1.1.1", false, 1),
    ("cost 0.0.0.0 1.1.1.1 1 11", false, 1),
    ("table 1.1.1.1", false, 2),
    ("undo 1", false, 2),
    ("table 1.1.1.1", false, 3),
    ("table 1.1.1.1", false, 3),
    ("redo 1", false, 3),
    ("table 1.1.1.1", false, 4),
    ("undo 2", false, 4),
    ("table 1.1.1.1", false, 5),
    ("redo 1", false, 5),
    ("table 1.1.1.1", false, 5),
    ("compare 1.1.1.1", false, 6),
];

/// A refused edit leaves the trees.
const REFUSED: &[Step] = &[
    ("table 1.1.1.1", false, 1),
    ("drop-link 0.0.0.0 1.1.1.1 9", true, 1),
    ("undo 1", true, 1),
    ("redo 1", true, 1),
    ("table 1.1.1.1", false, 1),
];

/// Other areas keep their trees.
const OF_TWO_AREAS: &[Step] = &[
    ("table 1.1.1.1", false, 2),
    ("cost 0.0.0.0 1.1.1.1 1 7", false, 2),
    ("table 1.1.1.1", false, 3),
    ("undo 1", false, 3),
    ("table 1.1.1.1", false, 4),
];

/// A refresh rewrites a summary-LSA, which is of no graph, and its own trees count nowhere.
const REFRESHED: &[Step] = &[
    ("table 1.1.1.1", false, 2),
    ("add-summary 0.0.0.1 1.1.1.1 10.8.0.0/16 20", false, 2),
    ("refresh", false, 2),
    ("table 1.1.1.1", false, 2),
    ("undo 1", false, 2),
    ("table 1.1.1.1", false, 2),
];

/// 9.9.9.9 is attached to no area.
const TABLES: &[Step] = &[
    ("info", false, 0),
    ("table 1.1.1.1", false, 1),
    ("table 9.9.9.9", true, 1),
    ("compare 9.9.9.9", true, 1),
    ("compare 1.1.1.1", false, 2),
];

/// Other calls calculate no trees.
const OTHER_CALLS: &[Step] = &[
    ("table 1.1.1.1", false, 1),
    ("fail-router 1.1.1.1", false, 1),
    ("undo 1", false, 1),
    ("redo 1", false, 1),
    ("info", false, 1),
    ("tables", false, 1),
];

/// A table of the beginning counts.
const BEGINNING: &[Step] = &[
    ("fail-router 1.1.1.1", false, 0),
    ("table 1.1.1.1", true, 0),
    ("compare 1.1.1.1", false, 1),
];

/// A table keeps trees of its own router alone, and one of the beginning keeps none.
const OF_BOTH_ROUTERS: &[Step] = &[
    ("table 1.1.1.1", false, 1),
    ("table 2.2.2.2", false, 2),
    ("table 1.1.1.1", false, 2),
    ("cost 0.0.0.0 1.1.1.1 1 7", false, 2),
    ("table 2.2.2.2", false, 3),
    ("undo 1", false, 3),
    ("table 1.1.1.1", false, 4),
    ("compare 2.2.2.2", false, 5),
    ("compare 2.2.2.2", false, 6),
    ("table 2.2.2.2", false, 7),
];

/// Dumps and the steps of a planner of each.
const RUNS: &[(&[u8], &[Step])] = &[
    (SAMPLE, TOUCHED),
    (SAMPLE, REFUSED),
    (TWO_AREAS, OF_TWO_AREAS),
    (TWO_AREAS, REFRESHED),
    (SAMPLE, TABLES),
    (SAMPLE, OTHER_CALLS),
    (SAMPLE, BEGINNING),
    (SAMPLE, OF_BOTH_ROUTERS),
];

#[test]
fn calculates_trees_where_they_are_wanted_alone(rt: HostRuntime) -> Result<(), Fail> {
    for (number, (dump, steps)) in RUNS.iter().enumerate() {
        let question = FirstOtherwise { steps: *steps };
        assert_eq!(rt; ask(rt.alloc(), dump, &question)?, None, "run {number}");
    }
    Ok(())
}

/// Whether a table of a router in the database of the beginning, by trees that are kept, is that of
/// a fresh planner of the sample.
fn is_kept_of_sample(
    planner: &mut Planner<&FailingAlloc>,
    failing: &FailingAlloc,
    router: u32,
) -> Result<bool, Fail> {
    let kept = planner.baseline_table(RouterId(router))?;
    let table = kept.as_ref();
    on_session(failing, SAMPLE, &SameTable { table })
}

/// The same of a table by other trees.
fn is_fresh_of_sample(
    planner: &mut Planner<&FailingAlloc>,
    failing: &FailingAlloc,
    router: u32,
) -> Result<bool, Fail> {
    let table = planner.base_table(RouterId(router))?;
    on_session(failing, SAMPLE, &SameTable { table: &table })
}

/// Whether a copy of the database of the beginning is the sample.
fn is_base_the_sample(planner: &mut Planner<&FailingAlloc>) -> Result<bool, Fail> {
    Ok(planner.base()?.dump()?.as_slice() == SAMPLE)
}

/// Whether the database of the beginning is still the sample: by tables of both routers, and by a
/// copy of it.
fn begins_at_the_sample(
    planner: &mut Planner<&FailingAlloc>,
    failing: &FailingAlloc,
) -> Result<bool, Fail> {
    for router in [R1, R2] {
        if !is_kept_of_sample(planner, failing, router)?
            || !is_fresh_of_sample(planner, failing, router)?
        {
            return Ok(false);
        }
    }
    is_base_the_sample(planner)
}

/// After the first line many edits are done, of so few LSAs: the second table of the beginning
/// makes a copy of that database.
const OVER_A_COPY: &[&str] = &[
    "cost 0.0.0.0 1.1.1.1 1 7",
    "table 1.1.1.1",
    "cost 0.0.0.0 1.1.1.1 1 8",
    "table 1.1.1.1",
    "undo 2",
    "table 2.2.2.2",
    "redo 1",
    "table 1.1.1.1",
    "fail-router 2.2.2.2",
    "add-stub 0.0.0.0 1.1.1.1 10.7.0.0/16 1",
    "table 1.1.1.1",
    "fail-router 1.1.1.1",
];

/// The first line that is refused, or after which the beginning is another.
#[derive(Drop)]
struct OtherBeginning;

impl Question for OtherBeginning {
    type Found = Option<&'static str>;

    fn find(
        &self,
        planner: &mut Planner<&FailingAlloc>,
        failing: &FailingAlloc,
    ) -> Result<Option<&'static str>, Fail> {
        for line in OVER_A_COPY {
            let refused = is_refused(planner, failing, line)?;
            if refused || !begins_at_the_sample(planner, failing)? {
                return Ok(Some(*line));
            }
        }
        Ok(None)
    }
}

#[test]
fn tables_over_a_copy_of_the_beginning_are_right(rt: HostRuntime) -> Result<(), Fail> {
    assert_eq!(rt; ask(rt.alloc(), SAMPLE, &OtherBeginning)?, None);
    Ok(())
}
