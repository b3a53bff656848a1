//! The hops of all vertices, while they are handed on.

ghost use Rattle.std.specs.Prelude.{◌≡◌, ◌<◌, [], length, replicate, map, All, Contains, IfOk, IfSome, OnOk};
ghost use Rattle.area_graph.specs.Rising.{rising};
ghost use Rattle.next_hops.specs.Hop.{IsSortedHops, extended, hop_cmp};
ghost use Rattle.next_hops.specs.FirstHops.{hops_at};
ghost use Rattle.next_hops.specs.declared.handed.Handed.TheVariants.{Nothing};
ghost use Rattle.next_hops.specs.steps.Handed.{numbers_in};
ghost use Rattle.next_hops.specs.steps.Shared.{AreJoins, AreSorted, AreWithin, IsJoin, Keeps, lists_in};
ghost use Rattle.next_hops.specs.steps.Table.{Hands, IsKept, IsWhole, Stays, hops_so_far, kept_list};

use crate::handed::Handed;
use crate::hop::Hop;
use crate::joins::{Joins, join};
use crate::list::HopList;
use crate::shared::{DistinctLists, list_at, number_of};
use indexmap::{IndexMap, IndexSet};
use lsa_codec::Addr;
use std::alloc::{AllocError, Allocator};

/// The hops of each vertex, as far as they were handed on. They are handed on by the numbers of
/// lists, each of which is kept once.
#[derive(Drop)]
pub(crate) struct HopTable<A: Allocator> {
    pub(crate) lists: DistinctLists<A>,
    joins: Joins<A>,
    vertices: Vec<Handed<A>, A>,
}

/// `count` vertices that received no list.
fn none_handed<A: Allocator + Copy>(alloc: A, count: usize) -> Result<Vec<Handed<A>, A>, AllocError>
    ensures { IfOk result (λ vertices. vertices.items ≡ replicate count Nothing) }
{
    let mut vertices = Vec::with_capacity(alloc, count)?;
    for _ in 0..count {
        vertices.push(Handed::Nothing)?;
    }
    Ok(vertices)
}

/// The number of the list of all hops that a vertex received.
fn number_for<A: Allocator + Copy>(
    alloc: A,
    handed: &Handed<A>,
    lists: &mut DistinctLists<A>,
    joins: &mut Joins<A>,
) -> Result<usize, AllocError>
    requires sorted { AreSorted lists.old.keys }
    requires within { AreWithin lists.old.keys (numbers_in handed.now) }
    requires joined { AreJoins lists.old.keys joins.old.entries }
    ensures join { IfOk result (λ n. IsJoin lists.new.keys (numbers_in handed.now) n) }
    ensures joined { OnOk result (AreJoins lists.new.keys joins.new.entries) }
    ensures keeps { OnOk result (Keeps lists.old.keys lists.new.keys) }
{
    match handed {
        Handed::Nothing => number_of(alloc, &[], lists),
        Handed::One(number) => Ok(*number),
        Handed::Several(numbers) => join(alloc, numbers, lists, joins),
    }
}

impl<A: Allocator + Copy> HopTable<A> {
    /// `count` vertices without hops.
    pub(crate) fn new(alloc: A, count: usize) -> Result<HopTable<A>, AllocError>
        ensures none { IfOk result (λ table. hops_so_far table ≡ replicate count []) }
        ensures whole { IfOk result (λ table. IsWhole table) }
    {
        Ok(HopTable {
            lists: IndexSet::new(alloc),
            joins: IndexMap::new(alloc),
            vertices: none_handed(alloc, count)?,
        })
    }

    /// The list with a number.
    pub(crate) fn list(&self, number: usize) -> &[Hop]
        ensures { result.now ≡ kept_list self.now number }
    {
        list_at(&self.lists, number)
    }

    /// The number of the list of these hops, which is added unless it is there.
    pub(crate) fn number_of(&mut self, alloc: A, hops: &[Hop]) -> Result<usize, AllocError>
        requires sorted { IsSortedHops hops.now }
        requires whole { IsWhole self.old }
        ensures within { IfOk result (λ n. IsKept self.new n) }
        ensures list { IfOk result (λ n. kept_list self.new n ≡ hops.now) }
        ensures stays { OnOk result (Stays self.old self.new) }
    {
        number_of(alloc, hops, &mut self.lists)
    }

    /// The number of the list of a list's hops, each extended to an address ([`Hop::extended`]).
    pub(crate) fn extended(
        &mut self,
        alloc: A,
        number: usize,
        address: Addr,
    ) -> Result<usize, AllocError>
        requires { IsWhole self.old }
        ensures within { IfOk result (λ n. IsKept self.new n) }
        ensures list { IfOk result (λ n. kept_list self.new n
            ≡ rising hop_cmp (map (λ h. extended h address) (kept_list self.old number))) }
        ensures stays { OnOk result (Stays self.old self.new) }
    {
        let mut hops = HopList::new(alloc)?;
        hops.join_extended(self.list(number), address)?;
        self.number_of(alloc, hops.as_slice())
    }

    /// Hands a list to a vertex.
    pub(crate) fn hand(&mut self, alloc: A, number: usize, to: usize) -> Result<(), AllocError>
        requires number { IsKept self.old number }
        requires to { to < length (hops_so_far self.old) }
        requires whole { IsWhole self.old }
        ensures { OnOk result
            (Hands (λ i h. (i ≡ to) × Contains (kept_list self.old number) h) self.old self.new) }
    {
        self.vertices[to].add(alloc, number)
    }

    /// The number of the list that a vertex received, if it received exactly one.
    fn only_list(&self, index: usize) -> Option<usize>
        requires index { index < length (hops_so_far self.now) }
        requires whole { IsWhole self.now }
        ensures within { IfSome result (λ n. IsKept self.now n) }
        ensures list { IfSome result
            (λ n. kept_list self.now n ≡ hops_at (hops_so_far self.now) index) }
    {
        match self.vertices[index] {
            Handed::One(number) => Some(number),
            _ => None,
        }
    }

    /// The number of the list of a vertex's hops, which then is the vertex's only list.
    pub(crate) fn settle(&mut self, alloc: A, index: usize) -> Result<usize, AllocError>
        requires index { index < length (hops_so_far self.old) }
        requires whole { IsWhole self.old }
        ensures within { IfOk result (λ n. IsKept self.new n) }
        ensures list { IfOk result (λ n. kept_list self.new n
            ≡ hops_at (hops_so_far self.old) index) }
        ensures stays { OnOk result (Stays self.old self.new) }
    {
        if let Some(number) = self.only_list(index) {
            return Ok(number);
        }
        let handed = &self.vertices[index];
        let number = number_for(alloc, handed, &mut self.lists, &mut self.joins)?;
        self.vertices[index] = Handed::One(number);
        Ok(number)
    }

    /// The number of the list of a vertex's hops, where the number of the empty list is given.
    fn settle_or(&mut self, alloc: A, index: usize, none: usize) -> Result<usize, AllocError>
        requires index { index < length (hops_so_far self.old) }
        requires whole { IsWhole self.old }
        requires within { IsKept self.old none }
        requires none { kept_list self.old none ≡ [] }
        ensures within { IfOk result (λ n. IsKept self.new n) }
        ensures list { IfOk result (λ n. kept_list self.new n
            ≡ hops_at (hops_so_far self.old) index) }
        ensures stays { OnOk result (Stays self.old self.new) }
    {
        match self.vertices[index] {
            Handed::Nothing => Ok(none),
            _ => self.settle(alloc, index),
        }
    }

    /// The numbers of the lists of all vertices' hops.
    pub(crate) fn numbers(&mut self, alloc: A) -> Result<Vec<usize, A>, AllocError>
        requires { IsWhole self.old }
        ensures within { IfOk result (λ numbers. AreWithin self.new.lists.keys numbers.items) }
        ensures lists { IfOk result
            (λ numbers. lists_in self.new.lists.keys numbers.items ≡ hops_so_far self.old) }
        ensures stays { OnOk result (Stays self.old self.new) }
    {
        // The empty list is found once: many vertices of a tree may not be reached.
        let none = self.number_of(alloc, &[])?;
        let mut numbers = Vec::with_capacity(alloc, self.vertices.len())?;
        for index in 0..self.vertices.len() {
            numbers.push(self.settle_or(alloc, index, none)?)?;
        }
        Ok(numbers)
    }
}
