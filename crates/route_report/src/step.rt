//! What routers do with a packet.

ghost use Rattle.std.specs.Prelude.{◌≡◌, ◌++◌, ◌∷◌, [], map, IfOk, OnOk};
ghost use Rattle.lsdb.specs.Slots.{lists_of};
ghost use Rattle.route_report.specs.StepsOver.{cost_over, hop_of, step_down, step_out, step_over, step_target};

use crate::found::least_cost;
use crate::sought::{Leg, Side, Sought};
use crate::way::{gateway_of, interface_of};
use hop_ends::Way;
use lsa_codec::{Prefix, RouterId};
use lsdb::Database;
use next_hops::Hop;
use route_lines::{PathStep, RouteSource, StepTarget, StepWay};
use std::alloc::{AllocError, Allocator};

/// The least cost of the links that lead over a hop to a neighbor, or to the network.
fn cost_over<A: Allocator + Copy>(
    alloc: A,
    database: &Database<A>,
    router: RouterId,
    neighbor: RouterId,
    hop: Hop,
) -> Result<u32, AllocError>
    ensures { IfOk result (λ cost. cost ≡ cost_over (lists_of database.now) router neighbor hop) }
{
    match hop {
        Hop::Link(interface) => {
            let leg = Leg {
                router,
                interface,
                neighbor,
            };
            least_cost(alloc, database, Sought::Ends(leg, Side::Near))
        }
        Hop::Gateway(interface, _) => least_cost(alloc, database, Sought::Nets(router, interface)),
        Hop::Connected | Hop::Attached(_) => Ok(0),
    }
}

/// The hop of a way.
fn hop_of(way: Way) -> Hop
    ensures { result ≡ hop_of way }
{
    match way {
        Way::Via(hop, _) | Way::Direct(hop) | Way::Exit(hop) => hop,
    }
}

/// Where a way of a router leads.
fn step_target<A: Allocator + Copy>(
    alloc: A,
    database: &Database<A>,
    router: RouterId,
    way: Way,
) -> Result<StepTarget, AllocError>
    ensures { IfOk result (λ target. target ≡ step_target (lists_of database.now) router way) }
{
    match way {
        Way::Via(hop, neighbor) => {
            let cost = cost_over(alloc, database, router, neighbor, hop)?;
            Ok(StepTarget::To(neighbor, cost))
        }
        Way::Direct(_) => Ok(StepTarget::Delivered),
        Way::Exit(hop) => Ok(StepTarget::External(gateway_of(hop))),
    }
}

/// A step by a way of the entry for a prefix.
fn step_over<A: Allocator + Copy>(
    alloc: A,
    database: &Database<A>,
    router: RouterId,
    net: Prefix,
    source: RouteSource,
    way: Way,
) -> Result<PathStep, AllocError>
    ensures { IfOk result
        (λ step. step ≡ step_over (lists_of database.now) router net source way) }
{
    let target = step_target(alloc, database, router, way)?;
    let way = Some(StepWay {
        net,
        source,
        out: interface_of(hop_of(way)),
        target,
    });
    Ok(PathStep { router, way })
}

/// Adds a step for each of some ways of the entry for a prefix.
pub(crate) fn push_steps_over<A: Allocator + Copy>(
    alloc: A,
    database: &Database<A>,
    router: RouterId,
    net: Prefix,
    source: RouteSource,
    ways: &[Way],
    steps: &mut Vec<PathStep, A>,
) -> Result<(), AllocError>
    ensures { OnOk result (steps.new.items ≡ steps.old.items
        ++ map (step_over (lists_of database.now) router net source) ways.now) }
{
    for way in ways {
        steps.push(step_over(alloc, database, router, net, source, *way)?)?;
    }
    Ok(())
}

/// Adds the step out of the network, by an external prefix of the router itself.
pub(crate) fn push_step_out<A: Allocator + Copy>(
    router: RouterId,
    net: Prefix,
    source: RouteSource,
    steps: &mut Vec<PathStep, A>,
) -> Result<(), AllocError>
    ensures { OnOk result
        (steps.new.items ≡ steps.old.items ++ step_out router net source ∷ []) }
{
    let way = Some(StepWay {
        net,
        source,
        out: None,
        target: StepTarget::External(None),
    });
    steps.push(PathStep { router, way })?;
    Ok(())
}

/// Adds the step of a router without a match, which drops the packet.
pub(crate) fn push_step_down<A: Allocator + Copy>(
    router: RouterId,
    steps: &mut Vec<PathStep, A>,
) -> Result<(), AllocError>
    ensures { OnOk result (steps.new.items ≡ steps.old.items ++ step_down router ∷ []) }
{
    steps.push(PathStep { router, way: None })?;
    Ok(())
}
