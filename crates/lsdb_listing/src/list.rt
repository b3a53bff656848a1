//! What a list contains.

ghost use Rattle.std.specs.Prelude.{◌≡◌, IfOk, IfErr, ◌⊎◌, true, false};
ghost use Rattle.findings.specs.Contents.{content_of};
ghost use Rattle.lsdb_listing.specs.declared.fault.ListFault.TheVariants as faults;
ghost use Rattle.frr_text.specs.Words.{words};
ghost use Rattle.lsdb_listing.specs.Lines.{lines};
ghost use Rattle.lsdb_listing.specs.Sorting.{parsed_of, has_line, is_title, is_detail, is_list};

use crate::fault::ListFault;
use crate::label::{Label, begins_with};
use crate::line_kind::line_kind_of;
use crate::parsed_line::parse_all;
use findings::{Content, Finding, sorted};
use lsa_instances::Header;
use std::alloc::{AllocError, Allocator, Global};

/// What a list contains, in the order of its lines.
#[derive(Debug, Drop)]
pub struct PrintedList<A: Allocator = Global> {
    /// The headers, one for each row.
    pub headers: Vec<Header, A>,
    /// What cannot be compared: a finding for each LSA of area scope that stands under a heading
    /// without an area, and after these the number of lines that cannot be read, unless it is 0.
    /// The database may lack these LSAs.
    pub findings: Vec<Finding, A>,
}

/// Whether a line is the heading of rows.
fn is_title(line: &[u8]) -> bool
    ensures { result ≡ is_title (words line.now) }
{
    line_kind_of(line).is_heading()
}

/// Whether one of the lines is the heading of rows.
fn has_title(text: &[u8]) -> bool
    ensures { result ≡ has_line is_title (lines text.now) }
{
    text.split(|byte| *byte == b'\n').any(|line| is_title(line))
}

/// Whether a line is the first of an LSA that is printed whole.
fn is_detail(line: &[u8]) -> bool
    ensures { result ≡ is_detail (words line.now) }
{
    begins_with(Label::Age, line)
}

/// Whether an LSA is printed whole.
fn has_detail(text: &[u8]) -> bool
    ensures { result ≡ has_line is_detail (lines text.now) }
{
    text.split(|byte| *byte == b'\n')
        .any(|line| is_detail(line))
}

/// Whether one of the lines is the heading of rows, and no LSA is printed whole.
fn is_list(text: &[u8]) -> bool
    ensures { result ≡ is_list text.now }
{
    has_title(text) && !has_detail(text)
}

/// Reads a list: what FRR prints for `show ip ospf database`, or BIRD for `show ospf lsadb`.
/// Several lists may stand one after another.
///
/// # Errors
///
/// No line is a heading of a list, or an LSA is printed whole; or memory ran out.
pub fn read_list<A: Allocator + Copy>(alloc: A, text: &[u8]) -> Result<PrintedList<A>, ListFault>
    ensures headers { IfOk result
        (λ list. list.headers.items ≡ (content_of {A = A} (parsed_of text.now)).headers) }
    ensures findings { IfOk result
        (λ list. list.findings.items ≡ (content_of {A = A} (parsed_of text.now)).findings) }
    ensures list { IfOk result (λ list. is_list text.now ≡ true) }
    ensures fault { IfErr result (λ fault. (fault ≡ faults.OutOfMemory)
        ⊎ ((fault ≡ faults.NotAList) × (is_list text.now ≡ false))) }
{
    if !is_list(text) {
        return Err(ListFault::NotAList);
    }
    let parts = parse_all(alloc, text)?;
    let Content {
        headers,
        findings,
        ..
    } = sorted(alloc, parts)?;
    Ok(PrintedList { headers, findings })
}
