//! LSAs on which a route rests.

ghost use Rattle.std.specs.Prelude.{◌≡◌, IfOk, map};
ghost use Rattle.finding_json.specs.Lsas.{lsa_json};
ghost use Rattle.explanation_json.specs.Explanations.{rest_json};

use explanation::Rest;
use finding_json::NamedLsa;
use std::alloc::{AllocError, Allocator};

/// LSAs on which a route rests, each as its JSON is added.
pub(crate) fn shown_rests<A: Allocator + Copy>(
    alloc: A,
    rests: &[Rest],
) -> Result<Vec<NamedLsa, A>, AllocError>
    ensures { IfOk result (λ shown. map (λ lsa. lsa_json lsa.0) shown.items
        ≡ map rest_json rests.now) }
{
    let mut shown = Vec::new(alloc);
    for rest in rests {
        shown.push(NamedLsa(rest.name()))?;
    }
    Ok(shown)
}
