//! Areas, as files report them.

ghost use Rattle.std.specs.Prelude.{◌≡◌};
ghost use Rattle.lsa_instances.specs.Areas.{is_stub_kind};

use lsa_codec::AreaId;

/// What kind of area it is (RFC 2328, 3.6; RFC 3101).
#[derive(Clone, Copy, Debug, PartialEq, Eq)]
pub enum AreaKind {
    /// AS-external-LSAs are flooded into the area.
    Ordinary,
    /// A stub area: they are not.
    Stub,
    /// A not-so-stubby area: they are not, and its routers originate NSSA-LSAs in their place.
    Nssa,
}

impl AreaKind {
    /// Whether AS-external-LSAs stay outside of the area: a stub area or a not-so-stubby one. A
    /// dump has both as stub areas.
    pub fn is_stub(self) -> bool
        ensures { result ≡ is_stub_kind self }
    {
        match self {
            AreaKind::Ordinary => false,
            AreaKind::Stub | AreaKind::Nssa => true,
        }
    }
}

/// An area and its kind, as a file reports them.
#[derive(Clone, Copy, Debug, PartialEq, Eq)]
pub struct AreaReport {
    /// The area.
    pub id: AreaId,
    /// What kind of area it is.
    pub kind: AreaKind,
}
