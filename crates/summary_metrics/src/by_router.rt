//! Values by router. The value that was looked up last is found at once.

ghost use Rattle.std.specs.Prelude.{◌≡◌, ◌==◌, ◌++◌, ◌∷◌, [], Contains, IfSome, OnErr, OnOk, length};

use lsa_codec::RouterId;
use std::alloc::{AllocError, Allocator};
use std::cell::Cell;
use std::collections::BTreeMap;
use std::marker::Model;

/// Values by routers. Contracts see them as the list of these pairs.
///
/// LSAs of one originator mostly follow one another, so a router is looked up first where the last
/// one was found, and only then by the map of places. The value does not depend on where it was
/// looked up, so contracts do not mention it.
#[derive(Drop)]
pub(crate) struct ByRouter<V, A: Allocator> {
    values: Vec<(RouterId, V), A>,
    places: BTreeMap<RouterId, usize, A>,
    last: Cell<usize>,
}

impl<V, A: Allocator> Model for ByRouter<V, A> {
    ghost use Rattle.std.specs.Prelude.{List};
    ghost use Rattle.lsa_codec.specs.declared.address.RouterId.{RouterId as AnyRouter};

    ghost Value = { List (AnyRouter × V) };

    ghost view = { λ b. b.values.items };
}

impl<V: Drop, A: Allocator + Copy> ByRouter<V, A> {
    /// No values. It takes no memory.
    pub(crate) fn new(alloc: A) -> ByRouter<V, A>
        ensures { result ≡ [] }
    {
        ByRouter {
            values: Vec::new(alloc),
            places: BTreeMap::new(alloc),
            last: Cell::new(0),
        }
    }

    /// Whether there are no values.
    pub(crate) fn is_empty(&self) -> bool
        ensures { result ≡ (length self.now == 0) }
    {
        self.values.is_empty()
    }

    /// The value at a place, if it is that of a router.
    fn value_at(&self, place: usize, router: RouterId) -> Option<&V>
        ensures { IfSome result (λ value. Contains self.now (router, value.now)) }
    {
        if place >= self.values.len() {
            return None;
        }
        let (other, value) = &self.values[place];
        if *other != router {
            return None;
        }
        Some(value)
    }

    /// The value of a router, if one is found.
    pub(crate) fn get(&self, router: RouterId) -> Option<&V>
        ensures { IfSome result (λ value. Contains self.now (router, value.now)) }
    {
        if let Some(value) = self.value_at(self.last.get(), router) {
            return Some(value);
        }
        let place = *self.places.get(&router)?;
        self.last.set(place);
        self.value_at(place, router)
    }

    /// Adds the value of a router.
    pub(crate) fn push(&mut self, router: RouterId, value: V) -> Result<(), AllocError>
        ensures pushed { OnOk result (self.new ≡ self.old ++ (router, value) ∷ []) }
        ensures same { OnErr result (self.new ≡ self.old) }
    {
        self.places.insert(router, self.values.len())?;
        self.values.push((router, value))?;
        Ok(())
    }
}
