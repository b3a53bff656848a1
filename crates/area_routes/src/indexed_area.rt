//! The result of an area with its entries by router.

ghost use Rattle.std.specs.Prelude.{◌≡◌, ◌<◌, ◌^◌, true, IfOk, IfSome};
ghost use Rattle.std.specs.Option.{option_copied};
ghost use Rattle.area_routes.specs.Inter.{border_of, has_asbr};
ghost use Rattle.area_routes.specs.Values.{ResultBelow};
ghost use Rattle.area_routes.specs.steps.EntryIndex.{IsBorderless};

use crate::area_result::AreaResult;
use crate::entry::{EntryKind, RouterEntry};
use crate::entry_index::EntryIndex;
use lsa_codec::{AreaId, RouterId};
use std::alloc::{AllocError, Allocator};
use std::marker::Model;

/// The result of an area, its entries found by router. Contracts see it as the result.
#[derive(Drop)]
pub(crate) struct IndexedArea<'a, A: Allocator> {
    result: &'a AreaResult<A>,
    borders: EntryIndex<'a, A>,
    asbrs: EntryIndex<'a, A>,
}

impl<'a, A: Allocator> Model for IndexedArea<'a, A> {
    ghost use Rattle.area_routes.specs.Values.{AreaResultValue};
    ghost use Rattle.area_routes.specs.steps.EntryIndex.{IsIndexed};

    ghost Value = { AreaResultValue };

    ghost view = { λ a. a.result.now };

    ghost invariant = { λ a. IsIndexed a.result.now a.borders a.asbrs };
}

impl<'a, A: Allocator + Copy> IndexedArea<'a, A> {
    /// The result of an area, its entries found by router.
    pub(crate) fn new(alloc: A, area: &'a AreaResult<A>) -> Result<IndexedArea<'a, A>, AllocError>
        ensures value { IfOk result (λ indexed. indexed ≡ area.now) }
        ensures below { ResultBelow (2 ^ 33) area.now }
    {
        let entries = area.entries();
        Ok(IndexedArea {
            result: area,
            borders: EntryIndex::of(alloc, entries, EntryKind::Border)?,
            asbrs: EntryIndex::of(alloc, entries, EntryKind::AsbrIntra)?,
        })
    }

    /// The area.
    pub(crate) fn area(&self) -> AreaId
        ensures { result ≡ self.now.area }
    {
        self.result.area()
    }

    /// The entry of a router as an area border router.
    pub(crate) fn border(&self, router: RouterId) -> Option<&'a RouterEntry<A>>
        ensures entry { option_copied result ≡ border_of self.now.entries router }
        ensures below { IfSome result (λ e. e.now.cost < 2 ^ 33) }
    {
        self.borders.get(router)
    }

    /// Whether no router of the area is an area border router, so that no summary-LSA gives a way.
    pub(crate) fn is_borderless(&self) -> bool
        ensures { result ≡ true → IsBorderless self.now }
    {
        self.borders.is_empty()
    }

    /// Whether a router is an AS boundary router of the area.
    pub(crate) fn has_asbr(&self, router: RouterId) -> bool
        ensures { result ≡ has_asbr self.now.entries router }
    {
        self.asbrs.get(router).is_some()
    }
}
