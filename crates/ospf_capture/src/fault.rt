//! Why the file of the dump is not replaced.

ghost use Rattle.std.specs.Prelude.{◌≡◌};
ghost use Rattle.ospf_capture.specs.Exit.{not_replaced};

use capture_lines::{ExitFault, FileEnd};
use host_io::ReplaceFault;

/// Why the file of a name is not replaced.
pub(crate) fn not_replaced(name: &str, fault: ReplaceFault) -> ExitFault<'_>
    ensures { result ≡ not_replaced name.entry fault }
{
    match fault {
        ReplaceFault::Open => ExitFault::File(name, FileEnd::Open),
        ReplaceFault::Write => ExitFault::File(name, FileEnd::Write),
    }
}
