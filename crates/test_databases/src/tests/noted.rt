//! The slots that are noted of a router and a prefix: once a dump is loaded, after edits, after
//! they are taken back while each growth is refused, and in a copy.

ghost use Rattle.edit_history.specs.Journal.{Links};

use super::edited::{apply_and_push, edited, move_by};
use super::nets::{edit_of, nets};
use crate::edited::Way;
use edit_history::History;
use lsa_codec::{Addr, Prefix, RouterId};
use lsdb::Database;
use std::alloc::{Allocator, Global};
use std::test::*;
use test_support::FailingAlloc;

/// A section of `NETS` by its number, the first two bytes of a prefix of 16 bits, and the indices
/// of the slots there that are noted of 2.2.2.2 and the prefix, each with a space after it.
type Row = (usize, u32, &'static str);

/// The indices of the slots in a section that are noted of 2.2.2.2 and a prefix of 16 bits.
fn noted_text<A: Allocator + Copy>(
    alloc: Global,
    database: &Database<A>,
    section: usize,
    bytes: u32,
) -> Result<String, Fail> {
    let mut text = String::new(alloc);
    let Some(prefix) = Prefix::new(Addr(bytes << 16), 16) else {
        return Err("a prefix")?;
    };
    if section < database.section_count() {
        for slot in database.slots_of_prefix(section, RouterId(0x02020202), prefix) {
            let index = slot.index;
            text.push_str(&format!(in alloc; "{index} ")?)?;
        }
    }
    Ok(text)
}

/// Whether these slots are noted of 2.2.2.2 and their prefixes.
fn are_noted<A: Allocator + Copy>(
    alloc: Global,
    database: &Database<A>,
    rows: &[Row],
) -> Result<bool, Fail> {
    for (section, bytes, indices) in rows {
        if noted_text(alloc, database, *section, *bytes)?.as_str() != *indices {
            return Ok(false);
        }
    }
    Ok(true)
}

/// Once `NETS` is loaded: two summary-LSAs, and two AS-external-LSAs.
const LOADED: &[Row] = &[
    (0, 0x0a14, "4 5 "),
    (0, 0x0a5c, ""),
    (1, 0x0a14, ""),
    (2, 0x0a5b, "0 "),
    (2, 0x0a5c, "1 "),
    (2, 0x0a5d, ""),
    (2, 0x0a09, ""),
];

/// After the two edits: a new slot is noted, and that of the LSA that is gone stays.
const EDITED: &[Row] = &[
    (0, 0x0a14, "4 5 "),
    (2, 0x0a5b, "0 "),
    (2, 0x0a5c, "1 "),
    (2, 0x0a09, "3 "),
];

/// Whether they are so in a copy of the database.
fn are_noted_in_copy<A: Allocator + Copy>(
    alloc: Global,
    database: &Database<A>,
) -> Result<bool, Fail> {
    are_noted(alloc, &database.clone_of()?, EDITED)
}

/// Carries the edit of a line out.
fn apply_line<A: Allocator + Copy>(
    database: &mut Database<A>,
    history: &mut History<A>,
    line: &str,
) -> Result<(), Fail>
    requires { Links database.old history.old.lists }
    ensures { Links database.new history.new.lists }
{
    let edit = edit_of(line)?;
    Ok(apply_and_push(database, history, &edit)?)
}

/// Whether the slots are noted when the database is loaded, after the two edits, in a copy, and
/// when both are taken back where no growth is left.
fn are_noted_after_edits<A: Allocator + Copy>(
    alloc: Global,
    failing: &FailingAlloc,
    database: &mut Database<A>,
    history: &mut History<A>,
) -> Result<[bool; 4], Fail>
    requires { Links database.old history.old.lists }
{
    let loaded = are_noted(alloc, database, LOADED)?;
    apply_line(
        database,
        history,
        "add-external 2.2.2.2 10.9.0.0/16 2 20 0.0.0.0 0",
    )?;
    apply_line(database, history, "drop-external 2.2.2.2 10.92.0.0/16")?;
    let edited = are_noted(alloc, database, EDITED)?;
    let copied = are_noted_in_copy(alloc, database)?;
    failing.set_remaining(0);
    move_by(database, history, Way::Back, 2)?;
    Ok([loaded, edited, copied, are_noted(alloc, database, EDITED)?])
}

#[test]
fn notes_the_slots_of_a_prefix(rt: HostRuntime) -> Result<(), Fail> {
    let failing = FailingAlloc::new(rt.alloc(), u64::MAX);
    let (mut database, mut history) = edited(&failing, nets(), &[])?;
    let noted = are_noted_after_edits(rt.alloc(), &failing, &mut database, &mut history)?;
    assert_eq!(rt; noted, [true; 4]);
    Ok(())
}
