//! What files report about areas.

ghost use Rattle.std.specs.Prelude.{◌≡◌};
ghost use Rattle.lsdb_merge.specs.Joining.{any_stub, is_stub};

use lsa_codec::AreaId;
use lsa_instances::AreaReport;

/// Whether a file reports the area as a stub area or a not-so-stubby one. The backbone is never one
/// (RFC 2328, 3.6).
pub(crate) fn is_stub(areas: &[AreaReport], id: AreaId) -> bool
    ensures { result ≡ is_stub areas.now id }
{
    id.0 != AreaId::BACKBONE.0 && any_stub(areas, id)
}

/// Whether one of the reports has the area as a stub area or a not-so-stubby one.
fn any_stub(areas: &[AreaReport], id: AreaId) -> bool
    ensures { result ≡ any_stub areas.now id }
{
    areas
        .iter()
        .any(|area| area.kind.is_stub() && area.id.0 == id.0)
}
