//! Where LSAs of each type stand.

use lsa_codec::AreaId;
use lsa_instances::Scope;
use std::test::*;

#[test]
fn lsas_of_as_scope_have_no_area(rt: HostRuntime) -> Result<(), Fail> {
    assert_eq!(rt; Scope::of(5, Some(AreaId(1))), Some(Scope::AsWide));
    assert_eq!(rt; Scope::of(11, None), Some(Scope::AsWide));
    assert_eq!(rt; Scope::of(7, Some(AreaId(1))), Some(Scope::Area(AreaId(1))));
    assert_eq!(rt; Scope::of(10, None), None);
    Ok(())
}
