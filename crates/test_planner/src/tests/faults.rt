//! Texts of faults.

use recalculate::TableFault;
use std::test::*;

/// Why a router has no table: codes and names.
const TABLE_FAULTS: &[(TableFault, &str, &str)] = &[
    (TableFault::NoRouter, "N1", "NoRouter"),
    (TableFault::OutOfMemory, "N2", "OutOfMemory"),
];

#[test]
fn names_the_faults_of_tables(rt: HostRuntime) -> Result<(), Fail> {
    for (fault, code, name) in TABLE_FAULTS {
        assert_eq!(rt; (fault.code(), fault.name()), (*code, *name));
        assert_eq!(rt; format!(in rt.alloc(); "{fault}")?.as_str(), *name);
    }
    Ok(())
}
