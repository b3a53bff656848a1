//! The area within which failures are looked for.

ghost use Rattle.std.specs.Prelude.{◌≡◌};
ghost use Rattle.sweep_report.specs.Failures.{is_within};

use lsa_codec::AreaId;

/// Whether an area is the one that is named; each is where none is.
pub(crate) fn is_within(within: Option<AreaId>, area: AreaId) -> bool
    ensures { result ≡ is_within within area }
{
    match within {
        Some(one) => one.0 == area.0,
        None => true,
    }
}
