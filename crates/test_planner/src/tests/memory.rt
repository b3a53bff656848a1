//! Planners and their memory: growths that are counted, and what comes while growths are refused.

use super::acts::{Act, Asks, InTurn, Step, cost, growths_of};
use super::calls::{Question, ask, edit, redo, undo};
use edit_history::{EditFault, RedoFault, UndoFault};
use lsa_codec::{Addr, AreaId, Lsa, Prefix, RouterId};
use lsdb::Section;
use recalculate::Planner;
use std::alloc::{AllocError, Allocator, Global};
use std::ops::Range;
use std::test::*;
use test_support::{FailingAlloc, LsaList, R1, R2, RouterLink, SAMPLE, to_router};

/// Carries costs out.
fn put_costs(planner: &mut Planner<&FailingAlloc>, metrics: Range<u16>) -> Result<(), Fail> {
    for metric in metrics {
        edit(planner, &cost(metric))?;
    }
    Ok(())
}

/// The routers of the star.
const STAR_ROUTERS: u32 = 200;

/// The links of the centre of the star.
fn spokes(alloc: Global) -> Result<Vec<RouterLink>, AllocError> {
    let mut links = Vec::new(alloc);
    for place in 1..STAR_ROUTERS {
        links.push(to_router(R1 + place, 0x0a00_0000 + place, 10))?;
    }
    Ok(links)
}

/// Adds the router at a place of the star.
fn add_spoke(area: &mut LsaList, place: u32) -> Result<(), AllocError> {
    let back = to_router(R1, 0x0b00_0000 | place, 10);
    area.router(R1.wrapping_add(place), &[back])
}

/// A star of 200 routers: 1.1.1.1 has a link to each other one, and each has one back.
fn star(alloc: Global) -> Result<Vec<u8>, AllocError> {
    let mut area = LsaList::new(alloc);
    area.router(R1, &spokes(alloc)?)?;
    for place in 1..STAR_ROUTERS {
        add_spoke(&mut area, place)?;
    }
    area.dump()
}

/// The growths of the second and the third table in the database of the beginning, after costs from
/// 11 on, and of a copy of that database. The third one is of the router of the first.
#[derive(Drop)]
struct TablesAfterCosts {
    /// The cost after the last one.
    end: u16,
}

impl Question for TablesAfterCosts {
    type Found = (u64, u64, u64);

    fn find(
        &self,
        planner: &mut Planner<&FailingAlloc>,
        failing: &FailingAlloc,
    ) -> Result<(u64, u64, u64), Fail> {
        put_costs(planner, 11..self.end)?;
        let _first = growths_of(planner, failing, Act::Baseline(R1))?;
        let second = growths_of(planner, failing, Act::Baseline(R2))?;
        let third = growths_of(planner, failing, Act::Baseline(R1))?;
        Ok((second, third, growths_of(planner, failing, Act::Copy)?))
    }
}

#[test]
fn the_second_table_of_the_beginning_makes_a_copy(rt: HostRuntime) -> Result<(), Fail> {
    let alone = TablesAfterCosts { end: 11 };
    let (second, third, base) = ask(rt.alloc(), SAMPLE, &alone)?;
    let after_edits = ask(rt.alloc(), SAMPLE, &TablesAfterCosts { end: 14 })?;
    assert_eq!(rt; after_edits, (second.saturating_add(base), third, base));
    Ok(())
}

/// The router-LSA of 1.1.1.1 in the sample.
const LOADED: &[u8] = &[
    0x00, 0x01, 0x02, 0x01, 1, 1, 1, 1, 1, 1, 1, 1, 0x80, 0, 0, 1, 0xd5, 0x5a, 0, 0x24, 0, 0, 0, 1,
    2, 2, 2, 2, 0x0a, 0, 0, 1, 1, 0, 0, 10,
];

/// The same with a link of cost 20.
const EDITED: &[u8] = &[
    0x00, 0x01, 0x02, 0x01, 1, 1, 1, 1, 1, 1, 1, 1, 0x80, 0, 0, 1, 0x8a, 0x9b, 0, 0x24, 0, 0, 0, 1,
    2, 2, 2, 2, 0x0a, 0, 0, 1, 1, 0, 0, 20,
];

/// Whether the first LSA of the backbone has these bytes.
fn has_first(planner: &Planner<&FailingAlloc>, bytes: &[u8]) -> bool {
    let mut lsas = planner.database().lsas(Section::Area(AreaId(0)));
    lsas.next().is_some_and(|lsa| lsa.bytes() == bytes)
}

/// Whether ten edits, and no more, are taken back one by one.
fn goes_back(planner: &mut Planner<&FailingAlloc>) -> bool {
    for _ in 0..10 {
        if undo(planner, 1).is_err() {
            return false;
        }
    }
    undo(planner, 1) == Err(UndoFault::NothingToUndo) && has_first(planner, LOADED)
}

/// Whether ten edits, and no more, are carried out again one by one.
fn goes_on(planner: &mut Planner<&FailingAlloc>) -> bool {
    for _ in 0..10 {
        if redo(planner, 1).is_err() {
            return false;
        }
    }
    redo(planner, 1) == Err(RedoFault::NothingToRedo) && has_first(planner, EDITED)
}

/// Whether neither an edit nor a dump is had for want of memory, and the database stays.
fn stays(planner: &mut Planner<&FailingAlloc>) -> bool {
    edit(planner, &cost(21)) == Err(EditFault::OutOfMemory)
        && planner.dump().is_err()
        && has_first(planner, EDITED)
}

/// Whether ten edits are taken back at once.
fn goes_back_at_once(planner: &mut Planner<&FailingAlloc>) -> bool {
    undo(planner, 10) == Ok(()) && has_first(planner, LOADED)
}

/// Whether ten costs stay, go and come where no growth is left after them.
#[derive(Drop)]
struct CostsThatStay;

impl Question for CostsThatStay {
    type Found = bool;

    fn find(
        &self,
        planner: &mut Planner<&FailingAlloc>,
        failing: &FailingAlloc,
    ) -> Result<bool, Fail> {
        put_costs(planner, 11..21)?;
        failing.set_remaining(0);
        Ok(stays(planner) && goes_back(planner) && goes_on(planner) && goes_back_at_once(planner))
    }
}

#[test]
fn undo_and_redo_while_each_growth_is_refused(rt: HostRuntime) -> Result<(), Fail> {
    assert!(rt; ask(rt.alloc(), SAMPLE, &CostsThatStay)?);
    Ok(())
}

/// The bytes of the summary-LSA of a number by 2.2.2.2.
fn summary(alloc: Global, number: u32) -> Result<Vec<u8>, Fail> {
    let net = Prefix::masked(Addr(0x0a14_0000 | number << 8), 24);
    let summary = Lsa::new_summary(alloc, 2, RouterId(R2), net, 7)?;
    Ok(Vec::from_slice(alloc, summary.bytes())?)
}

/// The sample with 98 summary-LSAs of 2.2.2.2 after its router-LSAs: an area of 100 LSAs.
fn hundred_lsas(alloc: Global) -> Result<Vec<u8>, Fail> {
    let mut dump = Vec::from_slice(alloc, SAMPLE.get(..97).ok_or("the area")?)?;
    for number in 0..98 {
        dump.extend_from_slice(&summary(alloc, number)?)?;
    }
    dump.extend_from_slice(&[0, 0])?;
    *dump.get_mut(12).ok_or("the count")? = 100;
    Ok(dump)
}

/// A database that planners are asked about.
#[derive(Clone, Copy)]
enum Network {
    /// The sample.
    Sample,
    /// The star.
    Star,
    /// An area of 100 LSAs.
    HundredLsas,
}

/// The dump of a database.
fn dump_of(alloc: Global, network: Network) -> Result<Vec<u8>, Fail> {
    Ok(match network {
        Network::Sample => Vec::from_slice(alloc, SAMPLE)?,
        Network::Star => star(alloc)?,
        Network::HundredLsas => hundred_lsas(alloc)?,
    })
}

/// A cached table is kept until an edit.
const CACHED: &[Step] = &[
    (Act::Cached(R1), Asks::Any, None),
    (Act::Cached(R1), Asks::Nothing, None),
    (Act::Cost(7), Asks::Any, None),
    (Act::Cached(R1), Asks::Something, None),
];

/// A second table asks for fewer growths than a table with a new tree.
const TWO_TABLES: &[Step] = &[
    (Act::Table(R1), Asks::Any, None),
    (Act::Table(R1), Asks::Fewer, Some(1)),
    (Act::Parts(R1), Asks::More, Some(1)),
];

/// A table after a cost, and after the undo of it, asks for no graph, as one does after an edit
/// that drops a link.
const AFTER_EDITS: &[Step] = &[
    (Act::Table(R1), Asks::Any, None),
    (Act::Cost(7), Asks::Any, None),
    (Act::Table(R1), Asks::Fewer, None),
    (Act::Undo, Asks::Any, None),
    (Act::Table(R1), Asks::Fewer, None),
    (Act::Drop, Asks::Any, None),
    (Act::Table(R1), Asks::More, Some(4)),
];

/// A second table of a router at the beginning asks for no growth, also after edits.
const OF_BEGINNING: &[Step] = &[
    (Act::Baseline(R1), Asks::Something, None),
    (Act::Cost(7), Asks::Any, None),
    (Act::Baseline(R1), Asks::Nothing, None),
    (Act::Undo, Asks::Any, None),
    (Act::Baseline(R1), Asks::Nothing, None),
    (Act::Baseline(R2), Asks::Something, None),
    (Act::Baseline(R1), Asks::Something, None),
];

/// A cost grows little.
const ONE_COST: &[Step] = &[(Act::Cost(7), Asks::Little, None)];

/// The trees of the beginning are kept, also after an edit of the router's own area, but not by a
/// table by other trees.
const KEPT_TREES: &[Step] = &[
    (Act::Baseline(R1), Asks::Any, Some(1)),
    (Act::Fail, Asks::Any, None),
    (Act::Baseline(R1), Asks::Any, Some(1)),
    (Act::Base(R1), Asks::Any, Some(2)),
];

/// A cached table that is not asked for twice in a row while one edit is done is made in one
/// database alone.
const CACHED_TREES: &[Step] = &[
    (Act::Cost(7), Asks::Any, None),
    (Act::Cached(R1), Asks::Any, Some(1)),
    (Act::Cached(R1), Asks::Any, Some(1)),
    (Act::Cached(R2), Asks::Any, Some(2)),
    (Act::Cost(8), Asks::Any, None),
    (Act::Cached(R2), Asks::Any, Some(3)),
];

/// Databases, and what a planner of each is asked for in turn.
const RUNS: &[(Network, &[Step])] = &[
    (Network::Sample, CACHED),
    (Network::Star, TWO_TABLES),
    (Network::Star, AFTER_EDITS),
    (Network::Sample, OF_BEGINNING),
    (Network::HundredLsas, ONE_COST),
    (Network::Sample, KEPT_TREES),
    (Network::Sample, CACHED_TREES),
];

#[test]
fn kept_tables_and_trees_ask_for_fewer_growths(rt: HostRuntime) -> Result<(), Fail> {
    for (number, (network, steps)) in RUNS.iter().enumerate() {
        let dump = dump_of(rt.alloc(), *network)?;
        let question = InTurn { steps: *steps };
        assert_eq!(rt; ask(rt.alloc(), &dump, &question)?, None, "run {number}");
    }
    Ok(())
}
