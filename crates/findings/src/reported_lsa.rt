//! LSAs by what files say of them.

ghost use Rattle.std.specs.Prelude.{Some};
ghost use Rattle.findings.specs.Texts.{reported_text};

use lsa_codec::{AreaId, Key};
use std::fmt;

/// An LSA as a file reports it, whether it can be used or not: by the index of its row in
/// `ospfLsdbTable`, `ospfExtLsdbTable` or `ospfAsLsdbTable` (RFC 4750), or by what is printed. LSAs
/// outside of the areas stand before those of areas. Those are ordered by area, and within one area
/// by key.
///
/// Its `Display` is a few words on one line, as `area 0.0.0.1 type 1 id 4.4.4.4 adv 4.4.4.4`,
/// without an area where none is reported.
#[derive(Clone, Copy, Debug, PartialEq, Eq, PartialOrd, Ord)]
pub struct ReportedLsa {
    /// The area in which the file reports the LSA; `None` where it names no area.
    pub area: Option<AreaId>,
    /// LS type, Link State ID and Advertising Router.
    pub key: Key,
}

impl fmt::Display for ReportedLsa {
    ghost output = { λ lsa. Some (reported_text lsa) };

    fn fmt<W: fmt::Write>(&self, f: &mut fmt::Formatter<W>) -> fmt::Result {
        let Key { kind, id, adv } = self.key;
        match self.area {
            Some(area) => write!(f, "area {area} type {kind} id {id} adv {adv}"),
            None => write!(f, "type {kind} id {id} adv {adv}"),
        }
    }
}
