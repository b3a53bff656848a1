//! Routes, steps, changes, and strings.

use super::built::{BACKBONE, json_of, net, own_source, router, source, text_of};
use change_lines::{ChangeGroup, ChangeLine, ChangeName, Changes};
use lsa_codec::Addr;
use route_lines::{PathStep, RouteLine, RouteWay, StepTarget, StepWay, WayTarget};
use std::test::*;
use study_json::{Counts, push_string};
use study_words::RouteKind;

#[test]
fn strings_escape_quotes_backslashes_and_control_characters(rt: HostRuntime) -> Result<(), Fail> {
    let mut text = Vec::new(rt.alloc());
    push_string(&mut text, b"a\"b\\c/\x08\x0c\n\r\t\x01\x1f\x7f\xc3\xa9")?;
    let found = text_of(text)?;
    assert_eq!(rt;
        found.as_str(),
        "\"a\\\"b\\\\c/\\b\\f\\n\\r\\t\\u0001\\u001f\u{7f}\u{e9}\""
    );
    Ok(())
}

#[test]
fn routes_have_their_ways(rt: HostRuntime) -> Result<(), Fail> {
    let alloc = rt.alloc();
    let mut addresses = Vec::new(alloc);
    addresses.push(Addr(0x0a00_0001))?;
    let mut ways = Vec::new(alloc);
    ways.push(RouteWay {
        target: WayTarget::Via(router(2)),
        out: Some(Addr(0x0a00_0002)),
        addresses,
    })?;
    ways.push(RouteWay {
        target: WayTarget::Direct,
        out: None,
        addresses: Vec::new(alloc),
    })?;
    ways.push(RouteWay {
        target: WayTarget::Exit(Some(Addr(0x0a00_0003))),
        out: None,
        addresses: Vec::new(alloc),
    })?;
    let route = RouteLine {
        net: net(1)?,
        source: source(RouteKind::External2, 20, 3),
        area: BACKBONE,
        ways,
    };
    let found = json_of(alloc, &route)?;
    assert_eq!(rt;
        found.as_str(),
        "{\"prefix\":\"10.1.0.0/16\",\"kind\":\"ext2\",\
\"cost\":20,\"metric\":3,\"area\":\"0.0.0.0\",\"ways\":[{\"kind\":\"via\",\
\"out\":\"10.0.0.2\",\"router\":\"2.2.2.2\",\"addresses\":[\"10.0.0.1\"]},\
{\"kind\":\"direct\",\"out\":null},{\"kind\":\"exit\",\"out\":null,\
\"address\":\"10.0.0.3\"}]}"
    );
    Ok(())
}

#[test]
fn own_externals_have_a_forwarding_address_or_none(rt: HostRuntime) -> Result<(), Fail> {
    for (forward, wanted) in [
        (
            Addr(0),
            "{\"prefix\":\"10.2.0.0/16\",\"kind\":\"own\",\"external\":\"ext1\",\"metric\":7,\
\"forward\":null}",
        ),
        (
            Addr(0x0a00_0007),
            "{\"prefix\":\"10.2.0.0/16\",\"kind\":\"own\",\"external\":\"ext1\",\"metric\":7,\
\"forward\":\"10.0.0.7\"}",
        ),
    ] {
        let route = RouteLine {
            net: net(2)?,
            source: own_source(false, 7, forward),
            area: None,
            ways: Vec::new(rt.alloc()),
        };
        let found = json_of(rt.alloc(), &route)?;
        assert_eq!(rt; found.as_str(), wanted);
    }
    Ok(())
}

#[test]
fn steps_lead_on_or_end(rt: HostRuntime) -> Result<(), Fail> {
    let route = source(RouteKind::Intra, 20, 0);
    for (target, wanted) in [
        (
            StepTarget::To(router(3), 10),
            "{\"router\":\"1.1.1.1\",\"route\":{\"prefix\":\"10.3.0.0/16\",\"kind\":\"intra\",\
\"cost\":20,\"metric\":null},\"to\":\"3.3.3.3\",\"out\":\"10.0.0.1\",\"cost\":10}",
        ),
        (
            StepTarget::Delivered,
            "{\"router\":\"1.1.1.1\",\"route\":{\"prefix\":\"10.3.0.0/16\",\"kind\":\"intra\",\
\"cost\":20,\"metric\":null},\"end\":\"delivered\",\"out\":\"10.0.0.1\"}",
        ),
        (
            StepTarget::External(None),
            "{\"router\":\"1.1.1.1\",\"route\":{\"prefix\":\"10.3.0.0/16\",\"kind\":\"intra\",\
\"cost\":20,\"metric\":null},\"end\":\"external\",\"out\":\"10.0.0.1\",\"address\":null}",
        ),
    ] {
        let way = Some(StepWay {
            net: net(3)?,
            source: route,
            out: Some(Addr(0x0a00_0001)),
            target,
        });
        let found = json_of(
            rt.alloc(),
            &PathStep {
                router: router(1),
                way,
            },
        )?;
        assert_eq!(rt; found.as_str(), wanted);
    }
    let (router, way) = (router(2), None);
    let found = json_of(rt.alloc(), &PathStep { router, way })?;
    assert_eq!(rt;
        found.as_str(),
        "{\"router\":\"2.2.2.2\",\"end\":\"blackhole\"}"
    );
    Ok(())
}

#[test]
fn own_externals_of_steps_have_no_cost(rt: HostRuntime) -> Result<(), Fail> {
    let way = Some(StepWay {
        net: net(3)?,
        source: own_source(true, 5, Addr(0)),
        out: None,
        target: StepTarget::External(None),
    });
    let found = json_of(
        rt.alloc(),
        &PathStep {
            router: router(1),
            way,
        },
    )?;
    assert_eq!(rt;
        found.as_str(),
        "{\"router\":\"1.1.1.1\",\"route\":{\
\"prefix\":\"10.3.0.0/16\",\"kind\":\"own\",\"metric\":5,\"external\":\"ext2\"},\
\"end\":\"external\",\"out\":null,\"address\":null}"
    );
    Ok(())
}

/// A router that is not there any more.
fn router_gone() -> ChangeName {
    ChangeName {
        group: ChangeGroup::RouterGone,
        router: router(4),
        net: None,
    }
}

#[test]
fn changes_name_what_differs(rt: HostRuntime) -> Result<(), Fail> {
    let alloc = rt.alloc();
    let line: ChangeLine = ChangeLine {
        name: router_gone(),
        now: None,
        was: None,
    };
    let found = json_of(alloc, &line)?;
    assert_eq!(rt;
        found.as_str(),
        "{\"change\":\"router-gone\",\"router\":\"4.4.4.4\",\
\"prefix\":null,\"now\":null,\"was\":null}"
    );
    Ok(())
}

#[test]
fn changes_are_counted_by_group(rt: HostRuntime) -> Result<(), Fail> {
    let alloc = rt.alloc();
    let changes = Changes {
        names: Vec::new(alloc),
        unchanged: 5,
    };
    let counts = Counts(&changes);
    let found = json_of(alloc, &counts)?;
    assert_eq!(rt;
        found.as_str(),
        "{\"router-gone\":0,\"router-new\":0,\"lost\":0,\"gone\":0,\
\"gained\":0,\"type\":0,\"dearer\":0,\"cheaper\":0,\"moved\":0,\"unchanged\":5}"
    );
    Ok(())
}
