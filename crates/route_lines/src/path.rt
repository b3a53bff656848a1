//! Paths as studies show them.

ghost use Rattle.std.specs.Prelude.{◌≡◌, ◌+◌, length};

use crate::path_end::PathEnd;
use crate::path_loop::PathLoop;
use crate::path_step::PathStep;
use lsa_codec::RouterId;
use std::alloc::{Allocator, Global};
use std::marker::Model;

/// What becomes of a packet, as all walks from a router may take it.
#[derive(Drop)]
pub struct Path<A: Allocator = Global> {
    /// The routers that walks reach: by the least number of steps, then by Router ID.
    pub routers: Vec<RouterId, A>,
    /// What each of these does, a step for each of its ways, in their order.
    pub steps: Vec<PathStep, A>,
    /// How walks end, in the order of the variants, each once.
    pub ends: Vec<PathEnd, A>,
    /// The loops that walks reach, in order of their least routers.
    pub loops: Vec<PathLoop<A>, A>,
}

impl<A: Allocator> Model for Path<A> {
    ghost use Rattle.route_lines.specs.PathLines.{PathValue};

    ghost Value = { PathValue };

    ghost view = { λ p. record {
      routers = p.routers.items;
      steps = p.steps.items;
      ends = p.ends.items;
      loops = p.loops.items;
    } };
}

impl<A: Allocator + Copy> Path<A> {
    /// The number of lines that show it.
    pub fn line_count(&self) -> usize
        ensures { result ≡ length self.now.steps + length self.now.loops }
    {
        self.steps.len() + self.loops.len()
    }
}
