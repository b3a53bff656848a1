//! Replies about routes and paths.

ghost use Rattle.std.specs.Prelude.{◌≡◌, ◌++◌, OnOk};
ghost use Rattle.study_documents.specs.Replies.{path_reply, routes_reply, step_fields};
ghost use Rattle.study_json.specs.Fields.{HaveNumbers, more_text};

use lsa_codec::{Addr, RouterId};
use route_lines::{Path, RouteLine};
use std::alloc::{AllocError, Allocator};
use study_json::push_next;
use study_text::push_word;

/// Adds the reply to `routes`.
///
/// # Errors
///
/// Memory ran out. A part of the text may have been added.
pub fn push_routes<A: Allocator + Copy, B: Allocator>(
    text: &mut Vec<u8, A>,
    place: (RouterId, Option<Addr>),
    lines: &[RouteLine<B>],
) -> Result<(), AllocError>
    ensures pushed { OnOk result (text.new.items
        ≡ text.old.items ++ more_text (routes_reply place.0 place.1 lines.now)) }
    ensures numbers { OnOk result
        (HaveNumbers (routes_reply place.0 place.1 lines.now)) }
{
    let (router, address) = place;
    push_next(text, "router", &router)?;
    push_next(text, "address", &address)?;
    push_next(text, "routes", &lines)?;
    push_word(text, "}")
}

/// Adds the steps of a path, and its loops.
fn push_steps<A: Allocator + Copy, B: Allocator>(
    text: &mut Vec<u8, A>,
    path: &Path<B>,
) -> Result<(), AllocError>
    ensures pushed { OnOk result
        (text.new.items ≡ text.old.items ++ more_text (step_fields path.now)) }
    ensures numbers { OnOk result (HaveNumbers (step_fields path.now)) }
{
    push_next(text, "steps", &path.steps)?;
    push_next(text, "loops", &path.loops)?;
    push_word(text, "}")
}

/// Adds the reply to `path`.
///
/// # Errors
///
/// Memory ran out. A part of the text may have been added.
pub fn push_path<A: Allocator + Copy, B: Allocator>(
    text: &mut Vec<u8, A>,
    place: (RouterId, Addr),
    path: &Path<B>,
) -> Result<(), AllocError>
    ensures pushed { OnOk result (text.new.items
        ≡ text.old.items ++ more_text (path_reply place.0 place.1 path.now)) }
    ensures numbers { OnOk result (HaveNumbers (path_reply place.0 place.1 path.now)) }
{
    let (router, address) = place;
    push_next(text, "router", &router)?;
    push_next(text, "address", &address)?;
    push_next(text, "ends", &path.ends)?;
    push_next(text, "routers", &path.routers)?;
    push_steps(text, path)
}
