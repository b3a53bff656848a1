//! Lists that values are made from.

ghost use Rattle.std.specs.Prelude.{◌≡◌, IfOk};
ghost use Rattle.lsa_codec.specs.Links.{links_of};
ghost use Rattle.area_graph.specs.Rising.{rising};

use lsa_codec::{Link, RouterView};
use std::alloc::{AllocError, Allocator};
use std::collections::BTreeSet;

/// The items of a list in rising order, each once.
///
/// # Errors
///
/// Memory ran out.
pub fn rising<T: Ord + Copy, A: Allocator + Copy>(
    alloc: A,
    items: &[T],
) -> Result<Vec<T, A>, AllocError>
    ensures { IfOk result (λ found. found.items ≡ rising T.cmp items.now) }
{
    let mut found = BTreeSet::new(alloc);
    for i in (0..items.len()).rev() {
        found.insert(items[i])?;
    }
    found.into_iter().collect(alloc)
}

/// The links of a router-LSA, in their order.
///
/// # Errors
///
/// Memory ran out.
pub fn links_of<A: Allocator + Copy>(
    alloc: A,
    lsa: &RouterView<'_>,
) -> Result<Vec<Link, A>, AllocError>
    ensures { IfOk result (λ links. links.items ≡ links_of lsa.now) }
{
    lsa.links().collect(alloc)
}
