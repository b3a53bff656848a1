//! Texts without names.

ghost use Rattle.std.specs.Prelude.{◌≡◌};
ghost use Rattle.network_names.specs.Names.{called};
ghost use Rattle.study_json.specs.Unnamed.{no_names};

use network_names::Names;
use std::alloc::Allocator;

/// No names: documents show routers by their Router IDs. It takes no memory.
pub fn no_names<'a, A: Allocator + Copy>(alloc: A) -> Names<'a, A>
    ensures { called result ≡ no_names }
{
    Names::new(alloc)
}
