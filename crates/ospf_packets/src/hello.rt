//! What Hello packets report about their area (RFC 2328, 9.5, A.2 and A.3.2).

ghost use Rattle.std.specs.Prelude.{◌≡◌};
ghost use Rattle.ospf_packets.specs.Hellos.{kind_by_options};

use lsa_instances::AreaKind;

/// The offset in bytes of the Options of a Hello packet.
pub(crate) const OPTIONS: usize = 30;

/// The length in bytes of the shortest Hello packet.
pub(crate) const SHORTEST_HELLO: usize = 44;

/// The kind of area that these Options report (RFC 2328, A.2; RFC 3101, 2.1).
pub(crate) fn kind_by_options(options: u8) -> AreaKind
    ensures { result ≡ kind_by_options options }
{
    if options & 0x02 != 0 {
        AreaKind::Ordinary
    } else if options & 0x08 == 0 {
        AreaKind::Stub
    } else {
        AreaKind::Nssa
    }
}
