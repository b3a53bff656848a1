//! What the parts of a document contain.

ghost use Rattle.std.specs.Prelude.{◌≡◌, ◌++◌, IfOk, option_map};
ghost use Rattle.json.specs.Find.{as_object};
ghost use Rattle.json.specs.Value.{value_view, items_view, members_view};
ghost use Rattle.frr_text.specs.ParsedParts.{rebuilt};
ghost use Rattle.frr_json.specs.Bodies.{body_in};
ghost use Rattle.frr_json.specs.ParsedDocuments.{area_named, parsed_lsa, parsed_item, lsas_in, parsed_array, areas_in, parsed_areas, parsed_of, tables_in, parsed_in, has_table, has_tables, only_member, has_database};

use crate::body::body_in;
use crate::header::header_in;
use crate::member::{items_of, members_at, members_of};
use crate::opaque::parsed_opaque;
use crate::table::{Table, is_as_wide, table_name};
use findings::{Feature, Part};
use frr_text::fields::{Header, LsType};
use frr_text::rebuilt;
use json::Value;
use lsa_codec::{AS_OPAQUE_LSA, AreaId};
use lsa_instances::{AREA_OPAQUE_LSA, LINK_OPAQUE_LSA};
use std::alloc::{AllocError, Allocator};
use text_words::address_of;

/// The area of this name.
fn area_named(name: &str) -> Option<AreaId>
    ensures { result ≡ area_named name.now }
{
    match address_of(name.as_bytes()) {
        Some(address) => Some(AreaId(address)),
        None => None,
    }
}

/// The LSA that has this header, or why it cannot be used.
fn parsed_header<A: Allocator + Copy>(
    alloc: A,
    area: Option<AreaId>,
    header: Header,
    json: &Value<'_, A>,
) -> Result<Part<A>, AllocError>
    ensures { IfOk result (λ parsed. parsed ≡ rebuilt area header (body_in header
        (value_view json.now))) }
{
    match body_in(alloc, header, json)? {
        Some(body) => rebuilt(alloc, area, header, &body),
        None => Ok(Part::Unreadable),
    }
}

/// The LSA of this type in an object, or why it cannot be used.
fn parsed_lsa<A: Allocator + Copy>(
    alloc: A,
    ls_type: LsType,
    area: Option<AreaId>,
    json: &Value<'_, A>,
) -> Result<Part<A>, AllocError>
    ensures { IfOk result (λ parsed. parsed ≡ parsed_lsa ls_type area (value_view json.now)) }
{
    match header_in(ls_type, json) {
        Some(header) => parsed_header(alloc, area, header, json),
        None => Ok(Part::Unreadable),
    }
}

/// What an object in a database contains.
fn parsed_item<A: Allocator + Copy>(
    alloc: A,
    table: Table,
    area: Option<AreaId>,
    json: &Value<'_, A>,
) -> Result<Part<A>, AllocError>
    ensures { IfOk result (λ parsed. parsed ≡ parsed_item table area (value_view json.now)) }
{
    match table {
        Table::Read(ls_type) => parsed_lsa(alloc, ls_type, area, json),
        Table::Nssa => Ok(Part::NotRead(Feature::Nssa)),
        Table::LinkOpaque => parsed_opaque(alloc, LINK_OPAQUE_LSA, area, json),
        Table::AreaOpaque => parsed_opaque(alloc, AREA_OPAQUE_LSA, area, json),
        Table::AsOpaque => parsed_opaque(alloc, AS_OPAQUE_LSA, area, json),
    }
}

/// What was read before, and after it the LSAs of an area.
fn with_lsas<'a, A: Allocator + Copy>(
    alloc: A,
    mut parsed: Vec<Part<A>, A>,
    table: Table,
    area: Option<AreaId>,
    items: &[Value<'a, A>],
) -> Result<Vec<Part<A>, A>, AllocError>
    ensures { IfOk result (λ all. all.items
        ≡ parsed.items ++ lsas_in table area (items_view items.now)) }
{
    'lsas: for item in items {
        parsed.push(parsed_item(alloc, table, area, item)?)?;
    }
    Ok(parsed)
}

/// What was read before, and after it the LSAs of an area in an array.
fn with_array<A: Allocator + Copy>(
    alloc: A,
    mut parsed: Vec<Part<A>, A>,
    table: Table,
    area: Option<AreaId>,
    json: &Value<'_, A>,
) -> Result<Vec<Part<A>, A>, AllocError>
    ensures { IfOk result (λ all. all.items
        ≡ parsed.items ++ parsed_array table area (value_view json.now)) }
{
    match items_of(json) {
        Some(items) => with_lsas(alloc, parsed, table, area, items),
        None => {
            parsed.push(Part::Unreadable)?;
            Ok(parsed)
        }
    }
}

/// What was read before, and after it the LSAs of the areas that these members are.
fn with_areas<'a, A: Allocator + Copy>(
    alloc: A,
    mut parsed: Vec<Part<A>, A>,
    table: Table,
    members: &[(&'a str, Value<'a, A>)],
) -> Result<Vec<Part<A>, A>, AllocError>
    ensures { IfOk result (λ all. all.items
        ≡ parsed.items ++ areas_in table (members_view members.now)) }
{
    'areas: for member in members {
        let area = area_named(member.0);
        parsed = with_array(alloc, parsed, table, area, &member.1)?;
    }
    Ok(parsed)
}

/// What was read before, and after it the LSAs of a database that has areas.
fn with_all_areas<A: Allocator + Copy>(
    alloc: A,
    mut parsed: Vec<Part<A>, A>,
    table: Table,
    json: &Value<'_, A>,
) -> Result<Vec<Part<A>, A>, AllocError>
    ensures { IfOk result (λ all. all.items
        ≡ parsed.items ++ parsed_areas table (value_view json.now)) }
{
    match members_at("areas", json) {
        Some(members) => with_areas(alloc, parsed, table, members),
        None => {
            parsed.push(Part::Unreadable)?;
            Ok(parsed)
        }
    }
}

/// What was read before, and after it the LSAs of this database of an object.
fn with_table<A: Allocator + Copy>(
    alloc: A,
    parsed: Vec<Part<A>, A>,
    table: Table,
    json: &Value<'_, A>,
) -> Result<Vec<Part<A>, A>, AllocError>
    ensures { IfOk result (λ all. all.items
        ≡ parsed.items ++ parsed_of table (value_view json.now)) }
{
    match json.get(table_name(table)) {
        None => Ok(parsed),
        Some(database) => {
            if is_as_wide(table) {
                with_array(alloc, parsed, table, None, database)
            } else {
                with_all_areas(alloc, parsed, table, database)
            }
        }
    }
}

/// The LSAs of all databases of an object, in rising order of LS types.
fn parse_tables<A: Allocator + Copy>(
    alloc: A,
    json: &Value<'_, A>,
) -> Result<Vec<Part<A>, A>, AllocError>
    ensures { IfOk result (λ parsed. parsed.items ≡ tables_in (value_view json.now)) }
{
    let parsed = with_table(alloc, Vec::new(alloc), Table::Read(LsType::Router), json)?;
    let parsed = with_table(alloc, parsed, Table::Read(LsType::Network), json)?;
    let parsed = with_table(alloc, parsed, Table::Read(LsType::Summary), json)?;
    let parsed = with_table(alloc, parsed, Table::Read(LsType::AsbrSummary), json)?;
    let parsed = with_table(alloc, parsed, Table::Read(LsType::External), json)?;
    let parsed = with_table(alloc, parsed, Table::Nssa, json)?;
    let parsed = with_table(alloc, parsed, Table::LinkOpaque, json)?;
    let parsed = with_table(alloc, parsed, Table::AreaOpaque, json)?;
    let parsed = with_table(alloc, parsed, Table::AsOpaque, json)?;
    Ok(parsed)
}

/// Whether the object has this database.
fn has_table<A: Allocator>(table: Table, json: &Value<'_, A>) -> bool
    ensures { result ≡ has_table table (value_view json.now) }
{
    json.get(table_name(table)).is_some()
}

/// Whether the object has a database.
fn has_tables<A: Allocator>(json: &Value<'_, A>) -> bool
    ensures { result ≡ has_tables (value_view json.now) }
{
    has_table(Table::Read(LsType::Router), json)
        || has_table(Table::Read(LsType::Network), json)
        || has_table(Table::Read(LsType::Summary), json)
        || has_table(Table::Read(LsType::AsbrSummary), json)
        || has_table(Table::Read(LsType::External), json)
        || has_table(Table::Nssa, json)
        || has_table(Table::LinkOpaque, json)
        || has_table(Table::AreaOpaque, json)
        || has_table(Table::AsOpaque, json)
}

/// The value of the only member of an object.
#[tactic(auto, using(crate::proofs::OnlyMember::not_one), unfolding(crate::specs::ParsedDocuments::only_member))]
fn only_member<'v, 'a, A: Allocator>(json: &'v Value<'a, A>) -> Option<&'v Value<'a, A>>
    ensures { option_map (λ value. value_view value.now) result
        ≡ only_member (as_object (value_view json.now)) }
{
    let members = members_of(json)?;
    if members.len() != 1 {
        return None;
    }
    Some(&members[0].1)
}

/// What a document contains: the LSAs of each type, in rising order of LS types. Where it has no
/// database, its only member may have them: under its name FRR prints the databases of a VRF.
pub(crate) fn parse_all<A: Allocator + Copy>(
    alloc: A,
    json: &Value<'_, A>,
) -> Result<Vec<Part<A>, A>, AllocError>
    ensures { IfOk result (λ parsed. parsed.items ≡ parsed_in (value_view json.now)) }
{
    if has_tables(json) {
        return parse_tables(alloc, json);
    }
    match only_member(json) {
        Some(value) => parse_tables(alloc, value),
        None => parse_tables(alloc, json),
    }
}

/// Whether the document has a database.
pub(crate) fn has_database<A: Allocator>(json: &Value<'_, A>) -> bool
    ensures { result ≡ has_database (value_view json.now) }
{
    if has_tables(json) {
        return true;
    }
    match only_member(json) {
        Some(value) => has_tables(value),
        None => false,
    }
}
