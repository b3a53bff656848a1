//! Opening a saved session.

ghost use Rattle.std.specs.Prelude.{◌≡◌, IfOk};
ghost use Rattle.lsdb.specs.BaseLoading.{base_front_loaded, begins_session};
ghost use Rattle.lsdb.specs.Loading.{front_loaded};
ghost use Rattle.lsdb.specs.Text.{text};
ghost use Rattle.edit_history.specs.Session.{start};
ghost use Rattle.saved_sessions.specs.Opening.{Loads, Opens, dump_loaded, session_loaded};
ghost use Rattle.saved_sessions.specs.Saved.{saved_text};

use crate::history::read_history;
use crate::laws::line_laws;
use crate::read::fault;
use lsdb::{Database, DumpFault, DumpFaultKind};
use recalculate::Planner;
use std::alloc::Allocator;

/// What the dump of a session begins with: the magic and the version.
const SESSION_START: &[u8] = b"OSWP\x02";

/// Whether bytes begin as the dump of a session does: with the magic, and version 2.
pub fn begins_session(bytes: &[u8]) -> bool
    ensures { result ≡ begins_session bytes.now }
{
    bytes.starts_with(SESSION_START)
}

/// The session of a dump, version 2.
#[tactic(auto, unfolding(crate::specs::Opening::session_loaded))]
fn read_session<A: Allocator + Copy>(alloc: A, bytes: &[u8]) -> Result<Planner<A>, DumpFault>
    ensures loads { Loads (session_loaded bytes.now) (base_front_loaded bytes.now) result }
    ensures spelled { IfOk result (λ planner. bytes.now ≡ saved_text planner.session) }
{
    // The lines that are read are those of the edits.
    line_laws();
    let (base, byte_count) = Database::load_base(alloc, bytes)?;
    let mut planner = Planner::new(alloc, base);
    let end = read_history(alloc, &mut planner, bytes, byte_count)?;
    if end < bytes.len() {
        return Err(fault(end, DumpFaultKind::TrailingBytes));
    }
    Ok(planner)
}

/// The session of a dump, version 1, which has no edits.
#[tactic(auto, unfolding(crate::specs::Opening::dump_loaded))]
fn read_dump<A: Allocator + Copy>(alloc: A, bytes: &[u8]) -> Result<Planner<A>, DumpFault>
    ensures loads { Loads (dump_loaded bytes.now) (front_loaded bytes.now) result }
    ensures spelled { IfOk result (λ planner. bytes.now ≡ text planner.session.base) }
    ensures start { IfOk result (λ planner. planner.session ≡ start planner.session.base) }
{
    let database = Database::load(alloc, bytes)?;
    Ok(Planner::new(alloc, database))
}

/// The session that was saved as these bytes, by [`save`](crate::save), or that begins at the
/// database whose dump, version 1, the bytes are.
///
/// Each edit is carried out in turn, first those that are done, and the undone ones are then taken
/// back. So all limits and refusals of edits hold of a session that is opened.
///
/// # Errors
///
/// The first fault from front to back. `TooLarge` comes before all others for more than 17,825,792
/// bytes, or 16,777,216 where they do not begin as a session does, and after the base where this
/// alone has more bytes than a dump may have. `BadHistory` gives the line, counted from 0, that is
/// not just as an edit is printed or whose edit is refused; it is 10,000, at the numbers, where
/// there are more edits than may be done. `OutOfMemory` may stand in place of any that lies after
/// the front: the magic, the version, the number of areas, and of the first section its head, its
/// count and its first LSA.
#[tactic(auto, unfolding(crate::specs::Opening::opened, crate::specs::Opening::front_opened))]
pub fn open<A: Allocator + Copy>(alloc: A, bytes: &[u8]) -> Result<Planner<A>, DumpFault>
    ensures { Opens bytes.now result }
{
    if begins_session(bytes) {
        read_session(alloc, bytes)
    } else {
        read_dump(alloc, bytes)
    }
}
