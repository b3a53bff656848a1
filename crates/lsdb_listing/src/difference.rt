//! How a database differs from the headers of a list.

ghost use Rattle.std.specs.Prelude.{◌≡◌, IfOk, Some, option_map};
ghost use Rattle.lsdb.specs.Slots.{lists_of};
ghost use Rattle.lsdb_listing.specs.Comparing.{scope_section, lsa_of, absent, beside_same, change_of, difference_of, differences};
ghost use Rattle.lsdb_listing.specs.Texts.{change_text, difference_text};

use lsa_codec::Lsa;
use lsa_instances::{Header, InstanceId, Place, Scope, compare_instance_ids};
use lsdb::{Database, Section};
use std::alloc::{AllocError, Allocator};
use std::cmp::Ordering;
use std::fmt;

/// How an LSA in a list differs from that of a database.
///
/// Its `Display` is its name, as `Missing`.
#[derive(Clone, Copy, Debug, PartialEq, Eq, PartialOrd, Ord)]
pub enum Change {
    /// The database has no instance of it, or has the same one at MaxAge.
    Missing,
    /// The list's instance is newer.
    Newer,
    /// The list's instance is older.
    Older,
}

/// An LSA on which a list and a database differ.
///
/// Its `Display` is a few words on one line, as
/// `Missing area 0.0.0.1 type 1 id 4.4.4.4 adv 4.4.4.4`. Differences are ordered by what the list
/// has, then by place.
#[derive(Clone, Copy, Debug, PartialEq, Eq, PartialOrd, Ord)]
pub struct Difference {
    /// What the list has.
    pub change: Change,
    /// Where the LSA is flooded, and what identifies it there.
    pub place: Place,
}

impl fmt::Display for Change {
    ghost output = { λ change. Some (change_text change) };

    fn fmt<W: fmt::Write>(&self, f: &mut fmt::Formatter<W>) -> fmt::Result {
        match self {
            Change::Missing => write!(f, "Missing"),
            Change::Newer => write!(f, "Newer"),
            Change::Older => write!(f, "Older"),
        }
    }
}

impl fmt::Display for Difference {
    ghost output = { λ difference. Some (difference_text difference) };

    fn fmt<W: fmt::Write>(&self, f: &mut fmt::Formatter<W>) -> fmt::Result {
        let Difference { change, place } = *self;
        write!(f, "{change} {place}")
    }
}

/// The section of a scope.
fn scope_section(scope: Scope) -> Section
    ensures { result ≡ scope_section scope }
{
    match scope {
        Scope::Area(area) => Section::Area(area),
        Scope::AsWide => Section::AsWide,
    }
}

/// The LSA at a place of a database, if there is one.
fn lsa_of<A: Allocator + Copy>(database: &Database<A>, place: Place) -> Option<&Lsa<A>>
    ensures { option_map (λ lsa. lsa.now) result ≡ lsa_of (lists_of database.now) place }
{
    let slot = database.find(scope_section(place.scope), place.key)?;
    database.get(slot)
}

/// The change where the database has no usable instance of the LSA. An LSA that was flushed in the
/// list is not missing (RFC 2328, 14.1).
fn absent(header: Header) -> Option<Change>
    ensures { result ≡ absent header }
{
    if header.is_at_max_age() {
        None
    } else {
        Some(Change::Missing)
    }
}

/// The change where both have the same instance: none, unless the database has it at MaxAge.
fn beside_same<A: Allocator + Copy>(header: Header, lsa: &Lsa<A>) -> Option<Change>
    ensures { result ≡ beside_same header lsa.now }
{
    if lsa.at_max_age() {
        absent(header)
    } else {
        None
    }
}

/// How a header of the list differs from the LSA of the database.
fn change_from<A: Allocator + Copy>(header: Header, lsa: &Lsa<A>) -> Option<Change>
    ensures { result ≡ change_of header (Some lsa.now) }
{
    match compare_instance_ids(header.instance, InstanceId::of(lsa)) {
        Ordering::Less => Some(Change::Older),
        Ordering::Equal => beside_same(header, lsa),
        Ordering::Greater => Some(Change::Newer),
    }
}

/// How a header of the list differs from the LSA of the database, if there is one.
fn change_of<A: Allocator + Copy>(header: Header, lsa: Option<&Lsa<A>>) -> Option<Change>
    ensures { result ≡ change_of header (option_map (λ lsa. lsa.now) lsa.entry) }
{
    match lsa {
        Some(lsa) => change_from(header, lsa),
        None => absent(header),
    }
}

/// How a database differs from a header.
fn difference_of<A: Allocator + Copy>(database: &Database<A>, header: Header) -> Option<Difference>
    ensures { result ≡ difference_of (lists_of database.now) header }
{
    let place = header.place;
    let change = change_of(header, lsa_of(database, place))?;
    Some(Difference { change, place })
}

/// How a database differs from the headers of a list, in the order of the list: which LSAs it
/// lacks, and which are newer or older in the list (RFC 2328, 13.1, by sequence number and checksum
/// alone). An LSA that it has at MaxAge is missing where the list has the same instance below
/// MaxAge, since no router uses the one at MaxAge. An LSA that is flushed in the list is not
/// missing, and LSAs that the list lacks are not reported. The time for each header grows with the
/// number of areas and with the logarithm of the number of LSAs.
///
/// # Errors
///
/// Memory ran out.
pub fn differences<A: Allocator + Copy>(
    alloc: A,
    database: &Database<A>,
    headers: &[Header],
) -> Result<Vec<Difference, A>, AllocError>
    ensures { IfOk result (λ found. found.items ≡ differences (lists_of database.now) headers.now) }
{
    headers
        .iter()
        .filter_map(|header| difference_of(database, *header))
        .collect(alloc)
}
