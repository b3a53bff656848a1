//! The atoms of prefixes: their addresses that no longer prefix covers.

ghost use Rattle.std.specs.Prelude.{◌≡◌, ◌<◌, ◌^◌, ◌++◌, IfOk, MatchOption};
ghost use Rattle.lsa_codec.specs.Order.{prefix_cmp};
ghost use Rattle.lsa_codec.specs.declared.address.Addr.{Addr as AnyAddr};
ghost use Rattle.area_graph.specs.Rising.{rising};
ghost use Rattle.loop_report.specs.Atoms.{IsEmptyAtom, IsInAtom, IsLonger, NoneLonger, nets_of_all};
ghost use Rattle.loop_report.specs.steps.Ends.{end_of};

use crate::nets::{insert_nets, members};
use forwarding::Forwarding;
use lsa_codec::{Addr, Prefix};
use std::alloc::{AllocError, Allocator, Global};
use std::collections::BTreeSet;
use std::marker::Model;

/// The prefixes of all entries of all attached routers in two databases, in order. Contracts see
/// them as this list.
#[derive(Drop)]
pub struct Atoms<A: Allocator = Global> {
    nets: BTreeSet<Prefix, A>,
}

impl<A: Allocator> Model for Atoms<A> {
    ghost use Rattle.std.specs.Prelude.{List};
    ghost use Rattle.lsa_codec.specs.Prefix.{Net};

    ghost Value = { List Net };

    ghost view = { λ a. a.nets.keys };
}

/// The number after the last address of a prefix.
fn end_of(net: Prefix) -> u64
    ensures { result ≡ end_of net }
{
    u64::from(net.addr().0) + (1u64 << (32 - net.len()))
}

/// The first address after a prefix, if it is before the end of another one.
fn next_before_end(longer: Prefix, net: Prefix) -> Option<Addr>
    ensures { MatchOption result
        ((other : AnyAddr) → other.0 < 2 ^ 32 → other.0 < end_of net → other.0 < end_of longer)
        (λ next. (next.0 ≡ end_of longer) × (next.0 < end_of net)) }
{
    let after = end_of(longer);
    if after >= end_of(net) {
        return None;
    }
    match u32::try_from(after) {
        Ok(number) => Some(Addr(number)),
        Err(_) => None,
    }
}

impl<A: Allocator + Copy> Atoms<A> {
    /// The prefixes of all entries in two databases.
    ///
    /// # Errors
    ///
    /// Memory ran out.
    pub fn of(
        alloc: A,
        was: &Forwarding<'_, A>,
        is: &Forwarding<'_, A>,
    ) -> Result<Atoms<A>, AllocError>
        ensures { IfOk result (λ atoms. atoms
            ≡ rising prefix_cmp (nets_of_all was.now.routers ++ nets_of_all is.now.routers)) }
    {
        let mut nets = BTreeSet::new(alloc);
        insert_nets(alloc, &mut nets, was)?;
        insert_nets(alloc, &mut nets, is)?;
        Ok(Atoms { nets })
    }

    /// The prefixes in order.
    ///
    /// # Errors
    ///
    /// Memory ran out.
    pub fn nets(&self, alloc: A) -> Result<Vec<Prefix, A>, AllocError>
        ensures { IfOk result (λ nets. nets.items ≡ self.now) }
    {
        members(alloc, &self.nets)
    }

    /// The shortest prefix that is longer than this one and covers an address, if there is one.
    fn longer(&self, net: Prefix, address: Addr) -> Option<Prefix>
        ensures { MatchOption result (NoneLonger self.now net.len address)
            (IsLonger self.now net.len address) }
    {
        for len in net.len() + 1..33 {
            let longer = Prefix::masked(address, len);
            if self.nets.contains(&longer) {
                return Some(longer);
            }
        }
        None
    }

    /// An address of the atom of a prefix, the least one, if it has any. It takes no memory, and
    /// the time of a few searches in a tree for each longer prefix before the address.
    pub fn address_of(&self, net: Prefix) -> Option<Addr>
        ensures { MatchOption result (IsEmptyAtom self.now net) (IsInAtom self.now net) }
    {
        let mut address = net.addr();
        'covered: while let Some(longer) = self.longer(net, address) {
            let Some(next) = next_before_end(longer, net) else {
                return None;
            };
            address = next;
        }
        Some(address)
    }
}
