//! Reading an edit from its command word and its arguments.

ghost use Rattle.std.specs.Prelude.{◌≡◌};
ghost use Rattle.edit_script.specs.Words.{words};
ghost use Rattle.edit_script.specs.Reading.{area_id, router_id, prefix, metric24, four_as};
ghost use Rattle.edit_script.specs.Reading.{cost_of, drop_link_of, fail_link_of, fail_net_of, add_stub_of, add_external_of, drop_external_of, route_edit_of, edit_of};

use crate::edit::Edit;
use crate::fault::ScriptFault;
use crate::reading::{
    address, four, metric_type, metric24, none, number, number16, prefix, router, six, three, two,
};
use lsa_codec::{Addr, AreaId, Metric, Prefix, RouterId};

/// `cost AREA ROUTER LINK METRIC`.
#[tactic(auto, unfolding(crate::specs::Reading::cost_of))]
fn cost(arguments: &[u8]) -> Result<Edit, ScriptFault>
    ensures { result ≡ cost_of (words arguments.now) }
{
    let (area, router, link, metric) = four(arguments)?;
    let area = AreaId(address(area)?);
    let router = RouterId(address(router)?);
    let link = number16(link)?;
    let metric = number16(metric)?;
    Ok(Edit::Cost {
        area,
        router,
        link,
        metric,
    })
}

/// `drop-link AREA ROUTER LINK`.
#[tactic(auto, unfolding(crate::specs::Reading::drop_link_of))]
fn drop_link(arguments: &[u8]) -> Result<Edit, ScriptFault>
    ensures { result ≡ drop_link_of (words arguments.now) }
{
    let (area, router, link) = three(arguments)?;
    let area = AreaId(address(area)?);
    let router = RouterId(address(router)?);
    let link = number16(link)?;
    Ok(Edit::DropLink { area, router, link })
}

/// `fail-link AREA ROUTER NEIGHBOR`.
#[tactic(auto, unfolding(crate::specs::Reading::fail_link_of))]
fn fail_link(arguments: &[u8]) -> Result<Edit, ScriptFault>
    ensures { result ≡ fail_link_of (words arguments.now) }
{
    let (area, router, neighbor) = three(arguments)?;
    let area = AreaId(address(area)?);
    let router = RouterId(address(router)?);
    let neighbor = RouterId(address(neighbor)?);
    Ok(Edit::FailLink {
        area,
        router,
        neighbor,
    })
}

/// `fail-net AREA ADDRESS`.
#[tactic(auto, unfolding(crate::specs::Reading::fail_net_of))]
fn fail_net(arguments: &[u8]) -> Result<Edit, ScriptFault>
    ensures { result ≡ fail_net_of (words arguments.now) }
{
    let (area, network) = two(arguments)?;
    let area = AreaId(address(area)?);
    let network = Addr(address(network)?);
    Ok(Edit::FailNet { area, network })
}

/// `add-stub AREA ROUTER PREFIX METRIC`.
#[tactic(auto, unfolding(crate::specs::Reading::add_stub_of))]
fn add_stub(arguments: &[u8]) -> Result<Edit, ScriptFault>
    ensures { result ≡ add_stub_of (words arguments.now) }
{
    let (area, router, network, metric) = four(arguments)?;
    let area = AreaId(address(area)?);
    let router = RouterId(address(router)?);
    let prefix = prefix(network)?;
    let metric = number16(metric)?;
    Ok(Edit::AddStub {
        area,
        router,
        prefix,
        metric,
    })
}

/// AREA ROUTER PREFIX METRIC, the arguments of `summary` and `add-summary`.
fn summary(arguments: &[u8]) -> Result<(AreaId, RouterId, Prefix, Metric), ScriptFault>
    ensures { result ≡ four_as area_id router_id prefix metric24 (words arguments.now) }
{
    let (area, router, network, metric) = four(arguments)?;
    let area = AreaId(address(area)?);
    let router = RouterId(address(router)?);
    let prefix = prefix(network)?;
    let metric = metric24(metric)?;
    Ok((area, router, prefix, metric))
}

/// `add-external ROUTER PREFIX TYPE METRIC FORWARD TAG`.
#[tactic(auto, unfolding(crate::specs::Reading::add_external_of))]
fn add_external(arguments: &[u8]) -> Result<Edit, ScriptFault>
    ensures { result ≡ add_external_of (words arguments.now) }
{
    let (router, network, kind, metric, forward, tag) = six(arguments)?;
    let router = RouterId(address(router)?);
    let prefix = prefix(network)?;
    let metric_type = metric_type(kind)?;
    let metric = metric24(metric)?;
    let forward = Addr(address(forward)?);
    let tag = number(u32::MAX, tag)?;
    Ok(Edit::AddExternal {
        router,
        prefix,
        metric_type,
        metric,
        forward,
        tag,
    })
}

/// `drop-external ROUTER PREFIX`.
#[tactic(auto, unfolding(crate::specs::Reading::drop_external_of))]
fn drop_external(arguments: &[u8]) -> Result<Edit, ScriptFault>
    ensures { result ≡ drop_external_of (words arguments.now) }
{
    let (router, network) = two(arguments)?;
    let router = RouterId(address(router)?);
    let prefix = prefix(network)?;
    Ok(Edit::DropExternal { router, prefix })
}

/// The edit of summary-LSAs or AS-external-LSAs of a command word and its arguments.
#[tactic(auto, unfolding(crate::specs::Reading::route_edit_of, crate::specs::Reading::summary_of, crate::specs::Reading::add_summary_of, crate::specs::Reading::refresh_of,))]
fn route_edit(word: &[u8], arguments: &[u8]) -> Result<Edit, ScriptFault>
    ensures { result ≡ route_edit_of word.now (words arguments.now) }
{
    if word == b"summary".as_slice() {
        let (area, router, prefix, metric) = summary(arguments)?;
        Ok(Edit::Summary {
            area,
            router,
            prefix,
            metric,
        })
    } else if word == b"add-summary".as_slice() {
        let (area, router, prefix, metric) = summary(arguments)?;
        Ok(Edit::AddSummary {
            area,
            router,
            prefix,
            metric,
        })
    } else if word == b"add-external".as_slice() {
        add_external(arguments)
    } else if word == b"drop-external".as_slice() {
        drop_external(arguments)
    } else if word == b"refresh".as_slice() {
        none(arguments)?;
        Ok(Edit::Refresh)
    } else {
        Err(ScriptFault::UnknownWord)
    }
}

/// The edit of a command word and its arguments.
#[tactic(auto, unfolding(crate::specs::Reading::edit_of, crate::specs::Reading::fail_router_of,))]
pub(crate) fn edit(word: &[u8], arguments: &[u8]) -> Result<Edit, ScriptFault>
    ensures { result ≡ edit_of word.now (words arguments.now) }
{
    if word == b"cost".as_slice() {
        cost(arguments)
    } else if word == b"drop-link".as_slice() {
        drop_link(arguments)
    } else if word == b"fail-link".as_slice() {
        fail_link(arguments)
    } else if word == b"fail-net".as_slice() {
        fail_net(arguments)
    } else if word == b"fail-router".as_slice() {
        let router = router(arguments)?;
        Ok(Edit::FailRouter { router })
    } else if word == b"add-stub".as_slice() {
        add_stub(arguments)
    } else {
        route_edit(word, arguments)
    }
}
