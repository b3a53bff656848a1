//! Opening and saving as methods of a planner.

ghost use Rattle.std.specs.Prelude.{◌≡◌, Ok, OnOk, IfOk};
ghost use Rattle.saved_sessions.specs.Opening.{Opens, opened};
ghost use Rattle.saved_sessions.specs.Saved.{CanBeSaved, HasNoEvents, saved_text};

use crate::opening::open;
use crate::saving::save;
use lsdb::DumpFault;
use recalculate::Planner;
use std::alloc::{AllocError, Allocator};

/// What has a session that can be saved: a [`Planner`], of which the methods are [`open`] and
/// [`save`]. With this trait in scope, `Planner::open(alloc, bytes)` and `planner.save()` are
/// calls.
pub trait SavedSession<A: Allocator>: Sized {
    /// The session that was saved as these bytes, as [`open`] returns it.
    ///
    /// # Errors
    ///
    /// Those of [`open`].
    fn open(alloc: A, bytes: &[u8]) -> Result<Self, DumpFault>;

    /// The dump of the session, as [`save`] makes it. An error is want of memory.
    fn save(&mut self) -> Result<Vec<u8, A>, AllocError>;
}

impl<A: Allocator + Copy> SavedSession<A> for Planner<A> {
    fn open(alloc: A, bytes: &[u8]) -> Result<Planner<A>, DumpFault>
        ensures { Opens bytes.now result }
    {
        open(alloc, bytes)
    }

    fn save(&mut self) -> Result<Vec<u8, A>, AllocError>
        ensures text { IfOk result (λ bytes. bytes.items ≡ saved_text self.old.session) }
        ensures opens { HasNoEvents self.old.session
            → IfOk result (λ bytes. opened bytes.items ≡ Ok self.old.session) }
        ensures session { HasNoEvents self.old.session
            → OnOk result (CanBeSaved self.old.session) }
        ensures kept { self.new ≡ self.old }
    {
        save(self)
    }
}
