//! Edits, read from lines and printed as them.

use super::nets::edit_of;
use edit_script::{Edit, Event, print};
use std::alloc::Global;
use std::test::*;

/// The printed lines of edits, and what each says. The addresses are numbers: 1.1.1.1 is 16843009.
const EDITS: &[(&str, &str)] = &[
    (
        "cost 0.0.0.0 1.1.1.1 1 7",
        "Cost { area: AreaId(0), router: RouterId(16843009), link: 1, metric: 7 }",
    ),
    (
        "cost 255.255.255.255 10.9.0.1 65535 65535",
        "Cost { area: AreaId(4294967295), router: RouterId(168361985), link: 65535, \
            metric: 65535 }",
    ),
    (
        "drop-link 0.0.0.0 1.1.1.1 2",
        "DropLink { area: AreaId(0), router: RouterId(16843009), link: 2 }",
    ),
    (
        "drop-link 0.0.0.1 1.1.1.1 0",
        "DropLink { area: AreaId(1), router: RouterId(16843009), link: 0 }",
    ),
    (
        "fail-link 0.0.0.0 1.1.1.1 2.2.2.2",
        "FailLink { area: AreaId(0), router: RouterId(16843009), neighbor: RouterId(33686018) }",
    ),
    (
        "fail-net 0.0.0.0 192.0.2.1",
        "FailNet { area: AreaId(0), network: Addr(3221225985) }",
    ),
    (
        "fail-router 2.2.2.2",
        "FailRouter { router: RouterId(33686018) }",
    ),
    (
        "add-stub 0.0.0.0 1.1.1.1 10.7.0.0/16 0",
        "AddStub { area: AreaId(0), router: RouterId(16843009), \
        prefix: Prefix { addr: Addr(168230912), len: 16 }, metric: 0 }",
    ),
    (
        "add-stub 0.0.0.0 1.1.1.1 10.7.0.1/32 65535",
        "AddStub { area: AreaId(0), router: RouterId(16843009), \
        prefix: Prefix { addr: Addr(168230913), len: 32 }, metric: 65535 }",
    ),
    (
        "summary 0.0.0.0 2.2.2.2 0.0.0.0/0 16777215",
        "Summary { area: AreaId(0), router: RouterId(33686018), \
        prefix: Prefix { addr: Addr(0), len: 0 }, metric: Metric { value: 16777215 } }",
    ),
    (
        "add-summary 0.0.0.0 2.2.2.2 10.8.0.0/16 7",
        "AddSummary { area: AreaId(0), router: RouterId(33686018), \
        prefix: Prefix { addr: Addr(168296448), len: 16 }, metric: Metric { value: 7 } }",
    ),
    (
        "add-summary 0.0.0.0 2.2.2.2 128.0.0.0/1 16777215",
        "AddSummary { area: AreaId(0), router: RouterId(33686018), \
        prefix: Prefix { addr: Addr(2147483648), len: 1 }, metric: Metric { value: 16777215 } }",
    ),
    (
        "add-external 2.2.2.2 10.9.0.0/16 2 20 0.0.0.0 0",
        "AddExternal { router: RouterId(33686018), \
        prefix: Prefix { addr: Addr(168361984), len: 16 }, metric_type: Type2, \
        metric: Metric { value: 20 }, forward: Addr(0), tag: 0 }",
    ),
    (
        "add-external 2.2.2.2 10.9.0.0/17 1 16777215 192.0.2.1 4294967295",
        "AddExternal { router: RouterId(33686018), \
        prefix: Prefix { addr: Addr(168361984), len: 17 }, metric_type: Type1, \
        metric: Metric { value: 16777215 }, forward: Addr(3221225985), tag: 4294967295 }",
    ),
    (
        "drop-external 2.2.2.2 10.9.0.0/16",
        "DropExternal { router: RouterId(33686018), \
        prefix: Prefix { addr: Addr(168361984), len: 16 } }",
    ),
    ("refresh", "Refresh"),
];

/// What an edit says.
fn said(alloc: Global, edit: &Edit) -> Result<String, Fail> {
    Ok(format!(in alloc; "{edit:?}")?)
}

/// The line that is printed of an edit.
fn printed(alloc: Global, edit: &Edit) -> Result<String, Fail> {
    Ok(print(alloc, edit)?)
}

/// The event that an edit is, if it is one.
fn event_of(edit: &Edit) -> Option<&Event> {
    match edit {
        Edit::Event(event) => Some(event),
        _ => None,
    }
}

#[test]
fn reads_edits_and_prints_them(rt: HostRuntime) -> Result<(), Fail> {
    for (line, meaning) in EDITS {
        let edit = edit_of(line)?;
        assert!(rt; event_of(&edit).is_none(), "{line}");
        assert_eq!(rt; said(rt.alloc(), &edit)?.as_str(), *meaning, "{line}");
        assert_eq!(rt; printed(rt.alloc(), &edit)?.as_str(), *line, "{line}");
    }
    Ok(())
}
