//! The names of objects.

ghost use Rattle.std.specs.Prelude.{◌≡◌, ◌<◌, ◌≤◌, IfOk, IfSome, option_map, MatchOption, [], ◌∷◌, bytes_eq, length, position};
ghost use Rattle.std.specs.List.{slice_split};
ghost use Rattle.snmp_walk.specs.Text.{is_dot};
ghost use Rattle.snmp_walk.specs.Names.{type_named, arc_of, arcs_after, column_named, in_table, object_named, head_of};

use std::alloc::{AllocError, Allocator};
use text_words::{cut_at, decimal_up_to};

/// The words of the OSPF-MIB for the LS types from 1 on.
const LINKS: &[&str] = &[
    "routerLink",
    "networkLink",
    "summaryLink",
    "asSummaryLink",
    "asExternalLink",
    "multicastLink",
    "nssaExternalLink",
];

/// The words of the OSPF-MIB for the LS types from 9 on.
const OPAQUE_LINKS: &[&str] = &["localOpaqueLink", "areaOpaqueLink", "asOpaqueLink"];

/// The place of a word among words.
fn place_among(words: &[&str], word: &[u8]) -> Option<usize>
    ensures value { result ≡ position (λ one. bytes_eq word.now one.now) words.now }
    ensures small { IfSome result (λ place. place < length words.now) }
{
    words.iter().position(|one| word == one.as_bytes())
}

/// The LS type that a word of the OSPF-MIB names.
#[tactic(auto, unfolding(crate::specs::Names::type_named))]
fn type_named(word: &[u8]) -> Option<u32>
    ensures { result ≡ type_named word.now }
{
    if let Some(place) = place_among(LINKS, word) {
        return Some(place as u32 + 1);
    }
    match place_among(OPAQUE_LINKS, word) {
        Some(place) => Some(place as u32 + 9),
        None => None,
    }
}

/// A number, or the word for an LS type.
fn arc_of(word: &[u8]) -> Option<u32>
    ensures { result ≡ arc_of word.now }
{
    match decimal_up_to(u32::MAX, word) {
        Some(number) => Some(number),
        None => type_named(word),
    }
}

/// What stands before the first dot, and after it.
fn cut_at_dot(text: &[u8]) -> Option<(&[u8], &[u8])>
    ensures { MatchOption result (slice_split is_dot text.now ≡ text.now ∷ [])
        (λ x. (slice_split is_dot text.now ≡ x.0.now ∷ slice_split is_dot x.1.now)
        × (length x.1.now < length text.now)) }
{
    cut_at(text, b'.')
}

/// The arcs that the words between dots spell, after those that were spelled before.
#[tactic(auto, using(crate::proofs::Names::arc_read, crate::proofs::Names::last_read, crate::proofs::Names::unread))]
pub(crate) fn arcs_after<A: Allocator + Copy>(
    front: Vec<u32, A>,
    words: &[u8],
) -> Result<Option<Vec<u32, A>>, AllocError>
    ensures { IfOk result (λ arcs. option_map (λ v. v.items) arcs
        ≡ arcs_after front.items (slice_split is_dot words.now)) }
{
    let mut arcs = front;
    let mut rest = words;
    while let Some((word, back)) = cut_at_dot(rest) {
        let Some(arc) = arc_of(word) else {
            return Ok(None);
        };
        arcs.push(arc)?;
        rest = back;
    }
    let Some(arc) = arc_of(rest) else {
        return Ok(None);
    };
    arcs.push(arc)?;
    Ok(Some(arcs))
}

/// What the columns of the tables of LSAs are called, in the order of the tables that are not of
/// areas.
const COLUMNS: &[&str] = &[
    "AreaId",
    "Type",
    "Lsid",
    "RouterId",
    "Sequence",
    "Age",
    "Checksum",
    "Advertisement",
];

/// The columns of the tables of LSAs, by their numbers in the tables that are not of areas.
#[tactic(auto, unfolding(crate::specs::Names::column_named))]
fn column_named(word: &[u8]) -> Option<usize>
    ensures value { result ≡ column_named word.now }
    ensures small { IfSome result (λ column. column < 8) }
{
    place_among(COLUMNS, word)
}

/// A table and a column of it. What is not needed here counts as table 0.
fn in_table(table: u32, before: u32, column: Option<usize>) -> (u32, u32)
    requires { (before ≤ 1) × IfSome column (λ column. column < 8) }
    ensures { result ≡ in_table table before column }
{
    match column {
        None => (0, 0),
        Some(column) => (table, column as u32 + before),
    }
}

/// The table and the column that a word of the OSPF-MIB names.
#[tactic(auto, unfolding(crate::specs::Names::object_named))]
fn object_named(word: &[u8]) -> (u32, u32)
    ensures { result ≡ object_named word.now }
{
    if word == b"ospfImportAsExtern".as_slice() {
        return (2, 3);
    }
    if word == b"ospfAreaLsaCount".as_slice() {
        return (2, 7);
    }
    if let Some(column) = word.strip_prefix(b"ospfLsdb".as_slice()) {
        return in_table(4, 1, column_named(column));
    }
    if let Some(column) = word.strip_prefix(b"ospfExtLsdb".as_slice()) {
        return in_table(12, 0, column_named(column));
    }
    match word.strip_prefix(b"ospfAsLsdb".as_slice()) {
        None => (0, 0),
        Some(column) => in_table(19, 0, column_named(column)),
    }
}

/// What the first word of a name stands for.
#[tactic(auto, unfolding(crate::specs::Names::head_of))]
pub(crate) fn head_of<A: Allocator + Copy>(
    alloc: A,
    word: &[u8],
) -> Result<Option<Vec<u32, A>>, AllocError>
    ensures { IfOk result (λ arcs. option_map (λ v. v.items) arcs ≡ head_of word.now) }
{
    if word.is_empty() {
        return Ok(Some(Vec::new(alloc)));
    }
    if word == b"iso".as_slice() {
        return Ok(Some(Vec::from_slice(alloc, &[1])?));
    }
    if word == b"OSPF-MIB::ospfExternLsaCount".as_slice() {
        return Ok(Some(Vec::from_slice(alloc, &[1, 3, 6, 1, 2, 1, 14, 1, 6])?));
    }
    if word == b"SNMPv2-SMI::mib-2".as_slice() {
        return Ok(Some(Vec::from_slice(alloc, &[1, 3, 6, 1, 2, 1])?));
    }
    match word.strip_prefix(b"OSPF-MIB::".as_slice()) {
        None => Ok(None),
        Some(object) => {
            let (table, column) = object_named(object);
            let arcs = [1, 3, 6, 1, 2, 1, 14, table, 1, column];
            Ok(Some(Vec::from_slice(alloc, &arcs)?))
        }
    }
}
