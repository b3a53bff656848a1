//! What the planner leaves out.

ghost use Rattle.std.specs.Prelude.{◌≡◌, Some};
ghost use Rattle.findings.specs.Reporting.{feature_number, is_same_feature};
ghost use Rattle.findings.specs.Texts.{feature_name};

use std::fmt;

/// What the planner leaves out.
///
/// Its `Display` is its name.
#[derive(Clone, Copy, Debug, PartialEq, Eq)]
pub enum Feature {
    /// LSAs of type 7, of a not-so-stubby area (RFC 3101).
    Nssa,
    /// Opaque LSAs, of the types 9 to 11 (RFC 5250).
    Opaque,
    /// Router-LSAs with bit V, of endpoints of virtual links (RFC 2328, A.4.2).
    VirtualEnd,
    /// Virtual links, which are links of type 4 in router-LSAs (RFC 2328, A.4.2).
    VirtualLink,
}

/// A number that no other feature has.
fn feature_number(feature: Feature) -> u8
    ensures { result ≡ feature_number feature }
{
    match feature {
        Feature::Nssa => 0,
        Feature::Opaque => 1,
        Feature::VirtualEnd => 2,
        Feature::VirtualLink => 3,
    }
}

/// Whether two features are the same.
pub(crate) fn is_same_feature(feature: Feature, other: Feature) -> bool
    ensures { result ≡ is_same_feature feature other }
{
    feature_number(feature) == feature_number(other)
}

impl fmt::Display for Feature {
    ghost output = { λ feature. Some (feature_name feature) };

    fn fmt<W: fmt::Write>(&self, f: &mut fmt::Formatter<W>) -> fmt::Result {
        match self {
            Feature::Nssa => write!(f, "Nssa"),
            Feature::Opaque => write!(f, "Opaque"),
            Feature::VirtualEnd => write!(f, "VirtualEnd"),
            Feature::VirtualLink => write!(f, "VirtualLink"),
        }
    }
}
