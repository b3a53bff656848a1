//! Undo and redo: they take no memory, and removed LSAs come back to their slots.

ghost use Rattle.edit_history.specs.Journal.{Links};

use super::edited::{apply_and_push, edited, move_by};
use super::nets::{TEN_EDITS, edit_of, is_after, nets};
use crate::edited::Way;
use edit_history::{EditFault, History};
use lsa_codec::{Addr, Key, RouterId};
use lsdb::{Database, Section, SlotId};
use std::alloc::{Allocator, Global};
use std::test::*;
use test_support::FailingAlloc;

/// Whether the ten edits go back and come again, one at a time.
fn go_one_by_one<A: Allocator + Copy>(
    alloc: Global,
    database: &mut Database<A>,
    history: &mut History<A>,
) -> Result<bool, Fail>
    requires { Links database.old history.old.lists }
    ensures { Links database.new history.new.lists }
{
    move_by(database, history, Way::Back, 10)?;
    let are_back = is_after(alloc, database, &[])?;
    move_by(database, history, Way::On, 10)?;
    Ok(are_back && is_after(alloc, database, TEN_EDITS)?)
}

/// Whether the ten edits go back and come again at once.
fn go_at_once<A: Allocator + Copy>(
    alloc: Global,
    database: &mut Database<A>,
    history: &mut History<A>,
) -> Result<bool, Fail>
    requires { Links database.old history.old.lists }
    ensures { Links database.new history.new.lists }
{
    history.undo(database, 10)?;
    let are_back = is_after(alloc, database, &[])?;
    history.redo(database, 10)?;
    Ok(are_back && is_after(alloc, database, TEN_EDITS)?)
}

/// Whether one more edit is refused for want of memory, and changes nothing.
fn one_more_is_refused<A: Allocator + Copy>(
    alloc: Global,
    database: &mut Database<A>,
    history: &mut History<A>,
) -> Result<bool, Fail>
    requires { Links database.old history.old.lists }
{
    let edit = edit_of("cost 0.0.0.0 1.1.1.1 1 1")?;
    let refusal = apply_and_push(database, history, &edit).err();
    Ok(refusal == Some(EditFault::OutOfMemory) && is_after(alloc, database, TEN_EDITS)?)
}

/// Whether the ten edits, once they are done, are undone and redone where no growth is left.
fn take_no_memory(alloc: Global) -> Result<bool, Fail> {
    let failing = FailingAlloc::new(alloc, u64::MAX);
    let (mut database, mut history) = edited(&failing, nets(), TEN_EDITS)?;
    failing.set_remaining(0);
    Ok(
        is_after(alloc, &database, TEN_EDITS)?
            && go_one_by_one(alloc, &mut database, &mut history)?
            && go_at_once(alloc, &mut database, &mut history)?
            && one_more_is_refused(alloc, &mut database, &mut history)?,
    )
}

#[test]
fn undo_and_redo_take_no_memory(rt: HostRuntime) -> Result<(), Fail> {
    assert!(rt; take_no_memory(rt.alloc())?);
    Ok(())
}

/// Where the AS-external-LSA of 2.2.2.2 for 10.92.0.0/16 stands in AS scope.
fn index<A: Allocator + Copy>(database: &Database<A>) -> Option<usize> {
    let key = Key {
        kind: 5,
        id: Addr(0x0a5c0000),
        adv: RouterId(0x02020202),
    };
    let SlotId { section, index } = database.find(Section::AsWide, key)?;
    if section == 2 { Some(index) } else { None }
}

/// Where that LSA stands when it is removed, when it is added again, and when both are undone.
fn indexes<A: Allocator + Copy>(
    database: &mut Database<A>,
    history: &mut History<A>,
) -> Result<[Option<usize>; 3], Fail>
    requires { Links database.old history.old.lists }
{
    let dropped = edit_of("drop-external 2.2.2.2 10.92.0.0/16")?;
    apply_and_push(database, history, &dropped)?;
    let without = index(database);
    let added = edit_of("add-external 2.2.2.2 10.92.0.0/16 2 20 0.0.0.0 0")?;
    apply_and_push(database, history, &added)?;
    let again = index(database);
    history.undo(database, 2)?;
    Ok([without, again, index(database)])
}

#[test]
fn a_removed_lsa_comes_back_to_its_slot(rt: HostRuntime) -> Result<(), Fail> {
    let (mut database, mut history) = edited(rt.alloc(), nets(), &[])?;
    assert_eq!(rt; index(&database), Some(1));
    let indexes = indexes(&mut database, &mut history)?;
    assert_eq!(rt; indexes, [None, Some(3), Some(1)]);
    assert!(rt; is_after(rt.alloc(), &database, &[])?);
    Ok(())
}
