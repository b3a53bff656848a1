//! The lists that the full slots make: areas, and the LSAs of each section.

ghost use Rattle.std.specs.Prelude.{◌≡◌, ◌<◌, ◌≤◌, Some, IsSome, length, slice_get, option_map};
ghost use Rattle.lsdb.specs.Counts.{AreFew, counts_of};
ghost use Rattle.lsdb.specs.Limits.{most_lsas_of_as};
ghost use Rattle.lsdb.specs.Lists.{id_and_kind, lsas_of, areas_of};
ghost use Rattle.lsdb.specs.Slots.{item_at, head_or_none, lists_of, lsas_in};

use crate::counts::LsaCounts;
use crate::database::Database;
use crate::lsas::Lsas;
use crate::section::Section;
use lsa_codec::{AreaId, Lsa};
use std::alloc::Allocator;

impl<A: Allocator + Copy> Database<A> {
    /// How many areas it has.
    pub fn area_count(&self) -> usize
        ensures { result ≡ length (areas_of (lists_of self.now)) }
    {
        self.sections.len() - 1
    }

    /// The ID of an area, and whether it is a stub area (RFC 2328, 3.6). Areas are numbered from
    /// 0 in rising order of their IDs.
    pub fn area(&self, i: usize) -> (AreaId, bool)
        requires { i < length (areas_of (lists_of self.now)) }
        ensures { slice_get (areas_of (lists_of self.now)) i
            ≡ Some (record { id = result.0.0; is_stub = result.1 }) }
    {
        match self.sections[i].area {
            Some(head) => (head.id, head.is_stub),
            None => unreachable!(),
        }
    }

    /// The area of a section, by the section's number: its ID, and whether it is a stub area (RFC
    /// 2328, 3.6). `None` for the LSAs of AS scope.
    pub fn area_in(&self, section: usize) -> Option<(AreaId, bool)>
        requires { IsSome (item_at (lists_of self.now) section) }
        ensures { result ≡ option_map id_and_kind (head_or_none (item_at self.now section)) }
    {
        let Some(head) = self.sections[section].area else {
            return None;
        };
        Some((head.id, head.is_stub))
    }

    /// The LSAs of a section, in order, by the section's number.
    pub fn lsas_in(&self, section: usize) -> Lsas<'_, A>
        requires { IsSome (item_at (lists_of self.now) section) }
        ensures lsas { result ≡ lsas_in self.now section }
        ensures few { length result ≤ most_lsas_of_as }
    {
        Lsas::of(self.sections[section].slots.as_slice())
    }

    /// The LSAs of a section, in order; none where there is no such section.
    pub fn lsas(&self, section: Section) -> Lsas<'_, A>
        ensures lsas { result ≡ lsas_of section (lists_of self.now) }
        ensures few { length result ≤ most_lsas_of_as }
    {
        match self.index_of(section) {
            Some(index) => self.lsas_in(index),
            None => Lsas::of(&[]),
        }
    }

    /// What the LSAs of a section count, by the section's number: how many they are, and what
    /// virtual links leave in them. They are counted as they come and go, so it does not go
    /// through them.
    pub fn counts_in(&self, section: usize) -> LsaCounts
        requires { IsSome (item_at (lists_of self.now) section) }
        ensures counts { result ≡ counts_of (lsas_in self.now section) }
        ensures few { AreFew most_lsas_of_as result }
    {
        self.sections[section].slots.counts()
    }

    /// How many LSAs a section has, by the section's number. It does not go through the LSAs.
    pub fn count_in(&self, section: usize) -> usize
        requires { IsSome (item_at (lists_of self.now) section) }
        ensures { result ≡ length (lsas_in self.now section) }
    {
        self.counts_in(section).lsas
    }

    /// How many LSAs a section has; 0 where there is no such section. It does not go through the
    /// LSAs.
    pub fn count(&self, section: Section) -> usize
        ensures { result ≡ length (lsas_of section (lists_of self.now)) }
    {
        match self.index_of(section) {
            Some(index) => self.count_in(index),
            None => 0,
        }
    }

    /// LSA `i` of a section, counted from 0. It is found from the front: to read all of a
    /// section's LSAs, take [`Database::lsas`].
    pub fn lsa(&self, section: Section, i: usize) -> &Lsa<A>
        requires { i < length (lsas_of section (lists_of self.now)) }
        ensures { slice_get (lsas_of section (lists_of self.now)) i ≡ Some result.now }
    {
        match self.lsas(section).nth(i) {
            Some(lsa) => lsa,
            None => unreachable!(),
        }
    }
}
