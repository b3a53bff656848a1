//! Which transit networks the LSAs of one section may be of, slot by slot.

ghost use Rattle.std.specs.Prelude.{◌≡◌, ◌<◌, IfOk, None, length, slice_index_or, slice_set};
ghost use Rattle.lsdb.specs.TransitFilters.{block_bit, may_have, network_bit};
ghost use Rattle.lsdb.specs.steps.Filtering.{filter_of_lsa, filter_of_slot, filters_of, no_networks, with_link, with_links, with_network};

use lsa_codec::{Addr, Link, LinkKind, Links, Lsa};
use std::alloc::{AllocError, Allocator};

/// A Bloom filter of transit networks, each by the address of its Designated Router. It may have a
/// network that was not put in, but it has each that was.
#[derive(Clone, Copy, Debug, PartialEq, Eq)]
pub struct TransitFilter {
    /// A bit for each address, by its remainder.
    networks: u32,
    /// A bit for each block of 65,536 addresses, by its remainder. So a router with many links in
    /// few blocks is distinguished too.
    blocks: u32,
}

/// How many bits of a field are used: a prime, so that addresses with equal last bytes differ.
const BITS: u32 = 31;

/// The bit of the address of a Designated Router.
fn network_bit(network: Addr) -> u32
    ensures { result ≡ network_bit network }
{
    1 << (network.0 % BITS)
}

/// The bit of the block of 65,536 addresses in which that of a Designated Router is.
fn block_bit(network: Addr) -> u32
    ensures { result ≡ block_bit network }
{
    1 << ((network.0 >> 16) % BITS)
}

impl TransitFilter {
    /// The filter without networks.
    pub(crate) fn empty() -> TransitFilter
        ensures { result ≡ no_networks }
    {
        TransitFilter {
            networks: 0,
            blocks: 0,
        }
    }

    /// The filter with one network more.
    fn with(self, network: Addr) -> TransitFilter
        ensures { result ≡ with_network self network }
    {
        TransitFilter {
            networks: self.networks | network_bit(network),
            blocks: self.blocks | block_bit(network),
        }
    }

    /// Whether the network whose Designated Router has this address may be among those that were
    /// put in. Where it is not so, it is not.
    pub fn may_have(self, network: Addr) -> bool
        ensures { result ≡ may_have network self }
    {
        self.networks & network_bit(network) != 0 && self.blocks & block_bit(network) != 0
    }

    /// The filter with the network of a link, if the link is a transit link.
    fn with_link(self, link: Link) -> TransitFilter
        ensures { result ≡ with_link self link }
    {
        match link.kind {
            LinkKind::Transit => self.with(link.id),
            _ => self,
        }
    }

    /// The filter of the networks of transit links.
    fn of_links(links: Links<'_>) -> TransitFilter
        ensures { result ≡ with_links no_networks links.entry }
    {
        let mut filter = TransitFilter::empty();
        for link in links {
            filter = filter.with_link(link);
        }
        filter
    }

    /// The filter of the networks of an LSA: of the transit links of a router-LSA (RFC 2328,
    /// A.4.2), and of a network-LSA its own, by its Link State ID (A.4.3). Others have none.
    fn of_lsa<A: Allocator + Copy>(lsa: &Lsa<A>) -> TransitFilter
        ensures { result ≡ filter_of_lsa lsa.now }
    {
        if let Some(router) = lsa.router() {
            return TransitFilter::of_links(router.links());
        }
        if lsa.network().is_some() {
            return TransitFilter::empty().with(lsa.key().id);
        }
        TransitFilter::empty()
    }

    /// The filter of the networks of the LSA at a slot.
    pub(crate) fn of_slot<A: Allocator + Copy>(slot: &Option<Lsa<A>>) -> TransitFilter
        ensures { result ≡ filter_of_slot slot.now }
    {
        match slot {
            Some(lsa) => TransitFilter::of_lsa(lsa),
            None => TransitFilter::empty(),
        }
    }
}

/// The filters of the LSAs at slots, in order. The error is want of memory.
pub(crate) fn filters_of<A: Allocator + Copy>(
    alloc: A,
    slots: &[Option<Lsa<A>>],
) -> Result<Vec<TransitFilter, A>, AllocError>
    ensures { IfOk result (λ filters. filters.items ≡ filters_of slots.now) }
{
    let mut filters = Vec::with_capacity(alloc, slots.len())?;
    for slot in slots {
        filters.push(TransitFilter::of_slot(slot))?;
    }
    Ok(filters)
}

/// Rebuilds the filter of one slot, at which something else stands now. It takes no memory.
pub(crate) fn put_filter<A: Allocator + Copy>(
    filters: &mut Vec<TransitFilter, A>,
    slots: &[Option<Lsa<A>>],
    index: usize,
)
    requires within { index < length slots.now }
    requires noted { index < length filters.old.items }
    ensures { filters.new.items ≡ slice_set filters.old.items index
        (filter_of_slot (slice_index_or slots.now index None)) }
{
    filters[index] = TransitFilter::of_slot(&slots[index]);
}
