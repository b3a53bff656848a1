//! The base of a session.

use lsdb::{Database, DumpFault, DumpFaultKind};
use std::test::*;

/// A session without areas, LSAs and edits.
const SESSION: &[u8] = b"OSWP\x02\0\0\0\0\0\0\0";

/// A database without areas and LSAs, which is no session.
const DATABASE: &[u8] = b"OSWP\x01\0\0\0";

#[test]
fn loads_and_dumps_the_base_of_a_session_alone(rt: HostRuntime) -> Result<(), Fail> {
    let fault = Database::load_base(rt.alloc(), DATABASE).err();
    let version = DumpFault {
        offset: 4,
        kind: DumpFaultKind::BadVersion,
    };
    assert_eq!(rt; fault, Some(version));
    let (database, bytes) = Database::load_base(rt.alloc(), SESSION)?;
    assert_eq!(rt; bytes, 8);
    let base = database.dump_base()?;
    assert_eq!(rt; base.as_slice(), &SESSION[..8]);
    Ok(())
}
