//! The line of a run that ended early.

ghost use Rattle.ospf_plan_c.specs.Status.{IsReported};

use plan_slices::copy_text;

/// Copies a line to the front of the room for it, where there is enough. Returns its length in
/// bytes.
pub(crate) fn put_line(line: &[u8], room: &mut [u8]) -> usize
    ensures { IsReported line.now result room.old room.new }
{
    // Without the room nothing is copied, and the length says what would do.
    let _ = copy_text(line, room);
    line.len()
}
