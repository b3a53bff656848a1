//! Databases compared section by section.

ghost use Rattle.std.specs.Prelude.{◌≡◌, ◌↔◌, true, All};
ghost use Rattle.lsdb.specs.Slots.{lists_of};
ghost use Rattle.test_databases.specs.Edited.{HasSame};

use lsdb::{Database, Section};
use std::alloc::Allocator;

/// Whether two databases have the same LSAs in a section, in the same order. A section that a
/// database lacks has no LSAs.
pub fn has_same<A: Allocator + Copy, B: Allocator + Copy>(
    database: &Database<A>,
    other: &Database<B>,
    section: Section,
) -> bool
    ensures { (result ≡ true) ↔ HasSame (lists_of database.now) (lists_of other.now) section }
{
    let count = database.count(section);
    if other.count(section) != count {
        return false;
    }
    for number in 0..count {
        if database.lsa(section, number).bytes() != other.lsa(section, number).bytes() {
            return false;
        }
    }
    true
}

/// Whether two databases have the same LSAs in each of these sections.
pub fn have_same<A: Allocator + Copy, B: Allocator + Copy>(
    database: &Database<A>,
    other: &Database<B>,
    sections: &[Section],
) -> bool
    ensures { (result ≡ true)
        ↔ All (HasSame (lists_of database.now) (lists_of other.now)) sections.now }
{
    for section in sections {
        if !has_same(database, other, *section) {
            return false;
        }
    }
    true
}
