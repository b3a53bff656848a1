//! Lists that loops add to.

ghost use Rattle.std.specs.Prelude.{◌≡◌, ◌++◌, [], OnOk};
ghost use Rattle.std.specs.List.{cons_option};

use std::alloc::{AllocError, Allocator};

/// Adds an item, if there is one.
///
/// # Errors
///
/// Memory ran out.
pub fn push_some<T: Drop, A: Allocator>(
    items: &mut Vec<T, A>,
    item: Option<T>,
) -> Result<(), AllocError>
    ensures { OnOk result (items.new.items ≡ items.old.items ++ cons_option item []) }
{
    match item {
        Some(item) => {
            items.push(item)?;
            Ok(())
        }
        None => Ok(()),
    }
}
