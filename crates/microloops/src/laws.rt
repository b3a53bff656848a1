//! What holds of the definitions.

ghost use Rattle.std.specs.Prelude.{◌↔◌, List};
ghost use Rattle.lsa_codec.specs.declared.address.RouterId.{RouterId};
ghost use Rattle.forwarding.specs.Graphs.{StepValue, next_in};
ghost use Rattle.forwarding.specs.Walks.{IsOnCycle};
ghost use Rattle.microloops.specs.Changeover.{AreAllLoops, AreMicroloops, MayLoop, next_in_either, routers_of};

/// Walks in both graphs together come back to the routers to which packets may come back when some
/// routers have changed over and others have not, whichever these are, and to no others.
pub fn each_loop_may_occur()
    ensures { (before after : List StepValue) (router : RouterId)
        → IsOnCycle (next_in_either before after) router ↔ MayLoop before after router }
{}

/// Where no router changes over, what may loop are the loops of the graph.
pub fn equal_graphs_have_their_loops()
    ensures { (graph : List StepValue) (loops : List (List RouterId))
        → AreMicroloops graph graph loops ↔ AreAllLoops (next_in graph) (routers_of graph) loops }
{}

/// A change has the same loops as taking it back.
pub fn a_change_back_has_the_same_loops()
    ensures { (before after : List StepValue) (loops : List (List RouterId))
        → AreMicroloops before after loops ↔ AreMicroloops after before loops }
{}
