//! A database in memory, and what is always true of it.

ghost use Rattle.std.specs.Prelude.{◌≡◌, ◌≤◌};
ghost use Rattle.lsdb.specs.Limits.{longest_dump};
ghost use Rattle.lsdb.specs.Lists.{IsDatabase, size};
ghost use Rattle.lsdb.specs.Slots.{lists_of};
ghost use Rattle.lsdb.specs.steps.View.{slots_of};

use crate::keyed_slots::KeyedSlots;
use lsa_codec::AreaId;
use std::alloc::{Allocator, Global};
use std::marker::Model;

/// An area: its ID, and whether it is a stub area (RFC 2328, 3.6).
#[derive(Clone, Copy, Debug)]
pub(crate) struct Head {
    pub(crate) id: AreaId,
    pub(crate) is_stub: bool,
}

/// The slots of one area, or, without an area, of the LSAs of AS scope.
#[derive(Drop)]
pub(crate) struct SectionOf<A: Allocator> {
    pub(crate) area: Option<Head>,
    pub(crate) slots: KeyedSlots<A>,
}

/// A link state database: areas in rising order of their IDs, and the LSAs of AS scope after
/// them, each a list of slots. Contracts see it as these lists of slots.
///
/// The keys of a section's LSAs are distinct, each LSA stands in a section of its own flooding
/// scope, and the limits hold: 64 areas, 8,192 LSAs in an area, 65,535 of AS scope, and
/// 16,777,216 bytes of dump.
#[derive(Drop)]
pub struct Database<A: Allocator = Global> {
    pub(crate) sections: Vec<SectionOf<A>, A>,
    /// The length of the dump in bytes.
    pub(crate) byte_count: usize,
    pub(crate) alloc: A,
}

impl<A: Allocator> Model for Database<A> {
    ghost use Rattle.lsdb.specs.Slots.{Slots};

    ghost Value = { Slots };

    ghost use Rattle.lsdb.specs.steps.View.{slots_of, IsKept};

    ghost view = { λ a. slots_of a.sections.items };

    ghost invariant = { λ a. IsKept a.sections.items a.byte_count };
}

impl<A: Allocator + Copy> Database<A> {
    /// The database of these sections, whose dump has this number of bytes.
    pub(crate) fn of_sections(
        alloc: A,
        sections: Vec<SectionOf<A>, A>,
        byte_count: usize,
    ) -> Database<A>
        requires sound { IsDatabase (lists_of (slots_of sections.items)) }
        requires byte_count { byte_count ≡ size (lists_of (slots_of sections.items)) }
        ensures { result ≡ slots_of sections.items }
    {
        Database {
            sections,
            byte_count,
            alloc,
        }
    }

    /// The allocator that its LSAs are made with.
    pub fn alloc(&self) -> A {
        self.alloc
    }

    /// The length of its dump, in bytes.
    pub fn size(&self) -> usize
        ensures size { result ≡ size (lists_of self.now) }
        ensures limit { result ≤ longest_dump }
    {
        self.byte_count
    }

    /// What is true of every database: order of the areas, scopes, distinct keys and limits.
    ///
    /// It does nothing when it runs. Contracts see a database as its slots alone, so a function
    /// whose proof rests on these facts calls it to have them.
    pub fn assert_valid(&self)
        ensures { IsDatabase (lists_of self.now) }
    {
        // Opens the value, so that its invariant is known.
        let _ = &self.sections;
    }
}
