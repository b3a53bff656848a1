//! Hops, their text, and lists of them.

use lsa_codec::Addr;
use next_hops::{Hop, HopList};
use std::alloc::Global;
use std::test::*;

const LINK: Hop = Hop::Link(Addr(0x0a00_0001));

const ATTACHED: Hop = Hop::Attached(Addr(0x0a05_0001));

const GATEWAY: Hop = Hop::Gateway(Addr(0x0a05_0001), Addr(0x0a05_0003));

#[test]
fn prints_hops(rt: HostRuntime) -> Result<(), Fail> {
    let text = format!(in rt.alloc(); "{} {LINK} {ATTACHED} {GATEWAY}", Hop::Connected)?;
    assert_eq!(rt;
        text.as_str(),
        "connected link:10.0.0.1 attached:10.5.0.1 gateway:10.5.0.1:10.5.0.3"
    );
    Ok(())
}

const NEAR: Hop = Hop::Link(Addr(0x0a00_0000));

const FAR: Hop = Hop::Link(Addr(0xc000_0201));

/// Hops in no order, two of them twice.
const GIVEN: &[Hop] = &[
    GATEWAY,
    FAR,
    LINK,
    Hop::Connected,
    GATEWAY,
    ATTACHED,
    NEAR,
    LINK,
];

/// The same in order, each once.
const SORTED: &[Hop] = &[Hop::Connected, NEAR, LINK, FAR, ATTACHED, GATEWAY];

/// The list of these hops, added one by one.
fn added(alloc: Global, hops: &[Hop]) -> Result<HopList, Fail> {
    let mut list = HopList::new(alloc)?;
    for hop in hops {
        list.add(*hop)?;
    }
    Ok(list)
}

/// Whether the clone of a list has these hops, also when others are then joined to the list.
fn is_clone_so(
    alloc: Global,
    list: &mut HopList,
    hops: &[Hop],
    others: &[Hop],
) -> Result<bool, Fail> {
    let clone = list.clone_of(alloc)?;
    list.join(others)?;
    Ok(clone.as_slice() == hops)
}

#[test]
fn keeps_hops_in_order(rt: HostRuntime) -> Result<(), Fail> {
    assert_eq!(rt; added(rt.alloc(), GIVEN)?.as_slice(), SORTED);
    Ok(())
}

/// Hops that are few enough to lie in place.
const SHORT: &[Hop] = &[LINK, GATEWAY];

/// Those that are joined to them first.
const MORE: &[Hop] = &[GATEWAY, ATTACHED, Hop::Connected];

/// The first and the second in order.
const JOINED: &[Hop] = &[Hop::Connected, LINK, ATTACHED, GATEWAY];

/// Those that are joined to them then.
const REST: &[Hop] = &[FAR, NEAR];

/// What a list has, and what is then joined to it.
const JOINS: &[(&[Hop], &[Hop])] = &[(SHORT, MORE), (JOINED, REST), (SORTED, &[])];

/// A short list lies in place, and one of more hops elsewhere.
#[test]
fn joins_and_clones(rt: HostRuntime) -> Result<(), Fail> {
    let mut list = added(rt.alloc(), SHORT)?;
    for (hops, others) in JOINS {
        assert!(rt; is_clone_so(rt.alloc(), &mut list, hops, others)?);
    }
    assert_eq!(rt; list.as_slice(), SORTED);
    Ok(())
}
