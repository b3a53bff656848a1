//! Findings, as lines.

ghost use Rattle.std.specs.Prelude.{◌≡◌, IfOk};
ghost use Rattle.std.specs.String.{string_bytes};
ghost use Rattle.findings.specs.Lines.{finding_lines};

use crate::finding::Finding;
use std::alloc::{AllocError, Allocator};

/// A line for each finding, after the name of what it was found in, as `r4-r5.pcap: Cut at 4711`.
///
/// # Errors
///
/// Memory ran out.
pub fn finding_lines<A: Allocator + Copy>(
    alloc: A,
    name: &str,
    findings: &[Finding],
) -> Result<String<A>, AllocError>
    ensures { IfOk result (λ lines. string_bytes lines ≡ finding_lines name.now findings.now) }
{
    let mut lines = String::new(alloc);
    for finding in findings {
        write!(lines, "{name}: {finding}\n")?;
    }
    Ok(lines)
}
