//! The base of a session: the database that the dump of a session, version 2, begins with.

ghost use Rattle.std.specs.Prelude.{◌≡◌, ◌≤◌, ◌++◌, ℕ, List, length, take, Ok, Err, IfOk, IfErr};
ghost use Rattle.lsdb.specs.Limits.{longest_session};
ghost use Rattle.lsdb.specs.Lists.{Lists, IsDatabase, size};
ghost use Rattle.lsdb.specs.Slots.{lists_of};
ghost use Rattle.lsdb.specs.steps.View.{slots_of};
ghost use Rattle.lsdb.specs.steps.Reading.{at_of, Gives, Reads, IsMemoryAfter};
ghost use Rattle.lsdb.specs.Loading.{IsFirstFault};
ghost use Rattle.lsdb.specs.BaseText.{base_text};
ghost use Rattle.lsdb.specs.BaseLoading.{most_bytes, session_version_at, base_at, base_loaded, base_front_at, base_front_loaded};

use crate::cursor::Cursor;
use crate::database::{Database, SectionOf};
use crate::dump::MAGIC;
use crate::fault::{DumpFault, DumpFaultKind, ReadError};
use crate::limits::{LONGEST_DUMP, LONGEST_SESSION};
use crate::load::{dump_fault, read_magic, read_sections};
use crate::read::{fault, read_u8};
use std::alloc::{AllocError, Allocator};

/// The version of the format of sessions.
const SESSION_VERSION: u8 = 2;

/// The bytes that the dump of a session begins with: the magic and the version.
const SESSION_START: &[u8] = b"OSWP\x02";

/// The most bytes that these may be.
fn most_bytes(bytes: &[u8]) -> usize
    ensures { result ≡ most_bytes bytes.now }
{
    if bytes.starts_with(SESSION_START) {
        LONGEST_SESSION
    } else {
        LONGEST_DUMP
    }
}

#[tactic(auto, unfolding(crate::specs::BaseLoading::session_version_at))]
fn read_session_version(at: Cursor<'_>) -> Result<Cursor<'_>, DumpFault>
    ensures { Reads at_of result (session_version_at (at_of at.entry)) }
{
    let (found, rest) = read_u8(at)?;
    if found != SESSION_VERSION {
        return Err(fault(at, DumpFaultKind::BadVersion));
    }
    Ok(rest)
}

/// Magic, version, the areas, and after them the LSAs of AS scope.
#[tactic(auto, unfolding(crate::specs::BaseLoading::base_at, crate::specs::BaseLoading::base_front_at))]
fn read_base_sections<'a, A: Allocator + Copy>(
    alloc: A,
    at: Cursor<'a>,
) -> Result<(Vec<SectionOf<A>, A>, Cursor<'a>), ReadError>
    ensures base { Gives (λ x. (lists_of (slots_of x.0.items), at_of x.1))
        result (base_at (at_of at.entry)) }
    ensures memory { IsMemoryAfter (base_front_at (at_of at.entry)) result }
{
    let at = read_session_version(read_magic(at)?)?;
    read_sections(alloc, at)
}

/// The sections of the base, and how many bytes stand before what follows it.
#[tactic(auto, unfolding(crate::specs::BaseLoading::base_loaded, crate::specs::BaseLoading::base_front_loaded))]
fn read_base<A: Allocator + Copy>(
    alloc: A,
    bytes: &[u8],
) -> Result<(Vec<SectionOf<A>, A>, usize), ReadError>
    ensures base { Gives (λ x. (lists_of (slots_of x.0.items), x.1))
        result (base_loaded bytes.now) }
    ensures memory { IsMemoryAfter (base_front_loaded bytes.now) result }
{
    if most_bytes(bytes) < bytes.len() {
        return Err(ReadError::Fault(TOO_LARGE));
    }
    let start = Cursor {
        offset: 0,
        rest: bytes,
    };
    let (sections, end) = read_base_sections(alloc, start)?;
    if LONGEST_DUMP < end.offset {
        return Err(ReadError::Fault(TOO_LARGE));
    }
    Ok((sections, end.offset))
}

/// The fault of bytes that are more than the limit.
const TOO_LARGE: DumpFault = DumpFault {
    offset: 0,
    kind: DumpFaultKind::TooLarge,
};

impl<A: Allocator + Copy> Database<A> {
    /// The base of a session, which the bytes begin with, and how many bytes stand before what
    /// follows it. What follows is not looked at.
    ///
    /// Of several faults the first from front to back is reported. `TooLarge` comes before all
    /// others where the bytes are too many, and after them where the base alone has more bytes than
    /// a dump may have; `OutOfMemory` may stand in place of any that comes after the front, which
    /// is that of [`load`](Database::load).
    #[tactic(auto, using(crate::proofs::FirstFault::first_reported))]
    pub fn load_base(alloc: A, bytes: &[u8]) -> Result<(Database<A>, usize), DumpFault>
        // What is loaded is spelled so.
        ensures database { IfOk result (λ base. IsDatabase (lists_of base.0)) }
        ensures spelled { IfOk result
            (λ base. take base.1 bytes.now ≡ base_text (lists_of base.0)) }
        ensures within { IfOk result (λ base. base.1 ≤ length bytes.now) }

        // What is spelled so is loaded, unless memory runs out; else the first fault is reported.
        ensures found { IfOk result
            (λ base. base_loaded bytes.now ≡ Ok (lists_of base.0, base.1)) }
        ensures fault { IfErr result (λ fault. IsFirstFault fault (base_loaded bytes.now)) }

        // A fault of the front is reported whatever memory there is: none is asked for before.
        ensures front { (fault : DumpFault)
            → base_front_loaded bytes.now ≡ Err fault → result ≡ Err fault }
    {
        match read_base(alloc, bytes) {
            Ok((sections, byte_count)) => Ok((
                Database::of_sections(alloc, sections, byte_count),
                byte_count,
            )),
            Err(error) => Err(dump_fault(error)),
        }
    }

    /// The bytes that the dump of a session with this base begins with. `load_base` makes the
    /// same database of them.
    #[tactic(auto, unfolding(crate::specs::BaseText::base_text))]
    pub fn dump_base(&self) -> Result<Vec<u8, A>, AllocError>
        ensures { IfOk result (λ v. v.items ≡ base_text (lists_of self.now)) }
    {
        let mut out = Vec::with_capacity(self.alloc, self.size())?;
        out.extend_from_slice(&MAGIC.to_be_bytes())?;
        out.push(SESSION_VERSION)?;
        self.put_sections(&mut out)?;
        Ok(out)
    }
}

/// Laws of the text of the base of a session.
pub fn base_laws()
    // Every database is loaded from its text, whatever follows it.
    ensures complete { (db : Lists) (rest : List ℕ) → IsDatabase db
        → length (base_text db ++ rest) ≤ longest_session
        → base_loaded (base_text db ++ rest) ≡ Ok (db, length (base_text db)) }

    ensures length { (db : Lists) → length (base_text db) ≡ size db }
{}
