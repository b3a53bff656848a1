//! One link of a router-LSA of any age, and what names links.

use super::built::{link_text, numbers};
use lsa_codec::{Addr, Prefix};
use std::test::*;
use study_arguments::LinkName;

/// Both router-LSAs are at MaxAge.
const AT_MAX_AGE: &str = "area 0.0.0.0
router 1.1.1.1 age=3600: point-to-point 2.2.2.2 data=10.0.12.1 cost=10, stub \
10.0.12.0/30 cost=10, point-to-point 2.2.2.2 data=10.0.12.5 cost=11, virtual \
4.4.4.4 data=10.0.12.1 cost=1, stub 10.0.12.0/30 cost=1
router 2.2.2.2 age=3600: point-to-point 1.1.1.1 data=10.0.12.2 cost=65535, stub \
10.0.12.0/30 cost=10";

#[test]
fn links_of_any_age_are_described(rt: HostRuntime) -> Result<(), Fail> {
    for (number, wanted) in [
        (0, "-"),
        (
            1,
            "#1 point-to-point to r2, 10.0.12.1 = #1 point-to-point to r2, 10.0.12.1, cost \
            10, back 65535, peer 10.0.12.2, stub #2 10.0.12.0/30 cost 10",
        ),
        (
            2,
            "#2 stub 10.0.12.0/30 = #2 stub 10.0.12.0/30, cost 10, of #1",
        ),
        (5, "#5 stub 10.0.12.0/30 = #5 stub 10.0.12.0/30, cost 1"),
        (6, "-"),
    ] {
        let found = link_text(rt.alloc(), AT_MAX_AGE, number)?;
        assert_eq!(rt; found.as_str(), wanted, "{number}");
    }
    Ok(())
}

#[test]
fn words_name_links(rt: HostRuntime) -> Result<(), Fail> {
    let net = Prefix::new(Addr(0x0a00_0c00), 30).ok_or("a prefix")?;
    for (name, wanted) in [
        (LinkName::Number(3), "[3]"),
        (LinkName::Number(6), "[]"),
        (LinkName::Address(Addr(0x0a00_0c01)), "[1, 4]"),
        (LinkName::Address(Addr(0x0202_0202)), "[1, 3]"),
        (LinkName::Address(Addr(0x0a00_0c00)), "[]"),
        (LinkName::Prefix(net), "[2, 5]"),
    ] {
        let found = numbers(rt.alloc(), AT_MAX_AGE, &name)?;
        assert_eq!(rt; found.as_str(), wanted, "{name:?}");
    }
    Ok(())
}
