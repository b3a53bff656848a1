//! What a file contains, as a line.

ghost use Rattle.std.specs.Prelude.{◌≡◌, IfOk};
ghost use Rattle.std.specs.String.{string_bytes};
ghost use Rattle.capture_report.specs.FileLines.{IsLine, kind_name, line_words};

use crate::areas::reported_areas;
use crate::sets::once;
use network_files::{FileKind, ParsedFile};
use std::alloc::{AllocError, Allocator};

/// The words for the kind of a file.
fn kind_name(kind: FileKind) -> &'static str
    ensures { result.now ≡ kind_name kind }
{
    match kind {
        FileKind::Capture => "capture",
        FileKind::Json => "printed in JSON",
        FileKind::Printed => "printed",
        FileKind::Walk => "walk",
    }
}

/// The line of a file of this name and kind, with these numbers of LSAs and areas.
fn line_of<A: Allocator + Copy>(
    alloc: A,
    name: &str,
    kind: &str,
    lsas: usize,
    areas: usize,
) -> Result<String<A>, AllocError>
    ensures { IfOk result (λ line. string_bytes line ≡ line_words name.now kind.now lsas areas) }
{
    let mut line = String::new(alloc);
    write!(line, "{name}: {kind}, {lsas} LSAs, {areas} areas\n")?;
    Ok(line)
}

/// The line of a file, its end included: its name, its kind, the number of its LSAs, where each
/// repeat counts, and the number of its areas, where none does; as
/// `r4-r5.pcap: capture, 180 LSAs, 1 areas`.
///
/// # Errors
///
/// Memory ran out.
pub fn file_line<A: Allocator + Copy>(
    alloc: A,
    name: &str,
    file: &ParsedFile<A>,
) -> Result<String<A>, AllocError>
    ensures { IfOk result (λ line. IsLine name.now file.now (string_bytes line)) }
{
    let kind = kind_name(file.kind);
    let lsas = file.observations.len();
    let reported = reported_areas(alloc, file)?;
    let areas = once(alloc, &reported)?.len();
    line_of(alloc, name, kind, lsas, areas)
}
