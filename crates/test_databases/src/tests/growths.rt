//! Growths: each refused in turn, and how many a change of a database or a history asks for.

use super::dumps::{Dump, bytes_of};
use super::nets::{BACKBONE, edit_of};
use super::records::EDITS;
use edit_history::{EditFault, History, apply};
use lsdb::{Database, SlotFault};
use std::alloc::{AllocError, Global};
use std::test::*;
use test_support::{Answer, FailingAlloc, FallibleCall, Outcome, growths_or_wrong};

/// A change.
#[derive(Clone, Copy)]
enum Change {
    /// The edit of a line is carried out.
    Edit(&'static str),
    /// A slot is opened at the end of the backbone.
    Slot,
    /// The database is copied, and the copy is left.
    Copy,
    /// A history without edits gets room for a record.
    Room,
}

/// A change of the database of a dump, or of a history of it.
#[derive(Clone, Copy)]
struct Case {
    dump: Dump,
    change: Change,
}

/// The answer that is the dump of a database.
fn of_dump(
    alloc: Global,
    failing: &FailingAlloc,
    database: &Database<&FailingAlloc>,
) -> Result<Answer, Fail> {
    failing.set_remaining(u64::MAX);
    Ok(Some(Vec::from_slice(alloc, &database.dump()?)?))
}

/// The answer that is the database after the edit of a line.
fn of_edit(
    alloc: Global,
    failing: &FailingAlloc,
    database: &mut Database<&FailingAlloc>,
    line: &str,
) -> Result<Answer, Fail> {
    match apply(database, &edit_of(line)?) {
        Ok(_record) => of_dump(alloc, failing, database),
        Err(EditFault::OutOfMemory) => Ok(None),
        Err(fault) => Err(fault)?,
    }
}

/// The answer that is the index of a slot that is opened.
fn of_slot(alloc: Global, database: &mut Database<&FailingAlloc>) -> Result<Answer, Fail> {
    match database.open_slot(BACKBONE) {
        Ok(slot) => Ok(Some(Vec::from_slice(alloc, &slot.index.to_be_bytes())?)),
        Err(SlotFault::OutOfMemory) => Ok(None),
        Err(fault) => Err(fault)?,
    }
}

/// The answer that is nothing, where a history without edits has room.
fn of_room(alloc: Global, history: &mut History<&FailingAlloc>) -> Result<Answer, Fail> {
    let answer = history.reserve();
    if history.done() != 0 || history.undone() != 0 {
        return Err("the history has changed")?;
    }
    match answer {
        Ok(()) => Ok(Some(Vec::new(alloc))),
        Err(AllocError) => Ok(None),
    }
}

/// What a change answers.
fn answer(
    alloc: Global,
    failing: &FailingAlloc,
    database: &mut Database<&FailingAlloc>,
    history: &mut History<&FailingAlloc>,
    change: Change,
) -> Result<Answer, Fail> {
    match change {
        Change::Edit(line) => of_edit(alloc, failing, database, line),
        Change::Slot => of_slot(alloc, database),
        Change::Copy => match database.clone_of() {
            Ok(copy) => of_dump(alloc, failing, &copy),
            Err(AllocError) => Ok(None),
        },
        Change::Room => of_room(alloc, history),
    }
}

/// What is seen of a change with this number of growths, and, where it is refused, of the same
/// change with ample memory.
fn outcome_on(
    alloc: Global,
    failing: &FailingAlloc,
    database: &mut Database<&FailingAlloc>,
    history: &mut History<&FailingAlloc>,
    change: Change,
    growths: u64,
) -> Result<Outcome, Fail> {
    let before = Vec::from_slice(alloc, &database.dump()?)?;
    failing.set_remaining(growths);
    let first = answer(alloc, failing, database, history, change)?;
    failing.set_remaining(u64::MAX);
    let between = Vec::from_slice(alloc, &database.dump()?)?;
    let then = if first.is_some() {
        None
    } else {
        answer(alloc, failing, database, history, change)?
    };
    Ok(Outcome {
        first,
        then,
        before,
        between,
    })
}

impl FallibleCall for Case {
    fn outcome(&self, alloc: Global, failing: &FailingAlloc, left: u64) -> Result<Outcome, Fail> {
        let dump = bytes_of(alloc, self.dump)?;
        let mut database = Database::load(failing, &dump)?;
        let mut history = History::new(failing);
        outcome_on(
            alloc,
            failing,
            &mut database,
            &mut history,
            self.change,
            left,
        )
    }
}

/// What is wrong with a change that asks for at least and at most these numbers of growths, where
/// the refusal of each in turn is to change nothing; empty, where nothing is.
fn wrong_growths(alloc: Global, case: Case, least: u64, most: u64) -> Result<&'static str, Fail> {
    Ok(match growths_or_wrong(alloc, &case)? {
        Ok(growths) if least <= growths && growths <= most => "",
        Ok(_) => "another number of growths",
        Err(wrong) => wrong,
    })
}

#[test]
fn refused_growths_of_edits_change_nothing(rt: HostRuntime) -> Result<(), Fail> {
    for (line, _, _, _) in EDITS {
        let (dump, change) = (Dump::Nets, Change::Edit(*line));
        let wrong = wrong_growths(rt.alloc(), Case { dump, change }, 1, 16)?;
        assert_eq!(rt; wrong, "", "{line}");
    }
    Ok(())
}

/// A cost in an area of a hundred LSAs.
const COST: Change = Change::Edit("cost 0.0.0.0 1.1.1.1 1 7");

/// Dumps and changes, and at least and at most how many growths each asks for. A list of LSAs that
/// was loaded has room for a power of two, and each of its three indexes and the list of its
/// filters for all of them. A cost and the room for its record together ask for 16 growths at most,
/// and a copy for more.
const CHANGES: &[(Dump, Change, u64, u64)] = &[
    (Dump::Stale, Change::Edit("refresh"), 1, 10_000),
    (Dump::Area(7), Change::Slot, 4, 4),
    (Dump::Area(8), Change::Slot, 5, 5),
    (Dump::Area(16), Change::Slot, 5, 5),
    (Dump::Nets, Change::Room, 1, 1),
    (Dump::Area(100), COST, 1, 15),
    (Dump::Area(100), Change::Copy, 100, 10_000),
];

#[test]
fn refused_growths_change_nothing(rt: HostRuntime) -> Result<(), Fail> {
    for (number, (dump, change, least, most)) in CHANGES.iter().enumerate() {
        let (dump, change) = (*dump, *change);
        let wrong = wrong_growths(rt.alloc(), Case { dump, change }, *least, *most)?;
        assert_eq!(rt; wrong, "", "row {number}");
    }
    Ok(())
}
