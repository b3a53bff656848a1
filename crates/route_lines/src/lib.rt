//! Routes and paths as studies show them: values, and their texts.
//!
//! A [`RouteLine`] is what a router uses for a prefix, with the neighbors and interfaces of its
//! ways. A [`Path`] is what becomes of a packet, router by router. Both are values, whatever
//! database they are of.
#![tactic(auto)]

// Routes.
mod own_source;
mod route_line;
mod route_source;
mod route_text;
mod route_way;
mod way_text;

// Paths.
mod path;
mod path_end;
mod path_loop;
mod path_step;
mod path_text;
mod step_text;

pub use own_source::OwnSource;
pub use path::Path;
pub use path_end::PathEnd;
pub use path_loop::PathLoop;
pub use path_step::{PathStep, StepTarget, StepWay};
pub use path_text::{push_ends, push_path};
pub use route_line::RouteLine;
pub use route_source::RouteSource;
pub use route_text::{push_route, push_routes};
pub use route_way::{RouteWay, WayTarget};
