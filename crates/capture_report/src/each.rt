//! A finding for each item.

ghost use Rattle.std.specs.Prelude.{◌≡◌, ◌++◌, OnOk, map};
ghost use Rattle.findings.specs.declared.finding.Finding.{Finding as AnyFinding};

use findings::Finding;
use std::alloc::{AllocError, Allocator};

/// Adds a finding for each of these.
pub(crate) fn put_each<T: Copy, A: Allocator + Copy, F: Fn(T) -> Finding>(
    findings: &mut Vec<Finding, A>,
    items: &[T],
    finding: F,
) -> Result<(), AllocError>
    requires { F.IsAlwaysCallable finding }
    ensures { OnOk result ((made : T → AnyFinding)
        → ((item : T) (one : AnyFinding) → F.post finding item one → one ≡ made item)
        → findings.new.items ≡ findings.old.items ++ map made items.now) }
{
    for item in items {
        findings.push(finding(*item))?;
    }
    Ok(())
}
