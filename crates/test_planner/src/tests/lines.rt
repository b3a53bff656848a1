//! Lines of edits, read and written.

use edit_script::Edit;
use lsa_codec::{AreaId, RouterId};
use saved_sessions::{edit_line, put_line};
use std::test::*;

const COST: Edit = Edit::Cost {
    area: AreaId(0),
    router: RouterId(0x01010101),
    link: 2,
    metric: 7,
};

/// Bytes, and the length of their first line, where it is that of `COST`: each edit has one
/// spelling alone.
const LINES: &[(&[u8], Option<usize>)] = &[
    (b"cost 0.0.0.0 1.1.1.1 2 7\nrefresh\n", Some(25)),
    (b"", None),
    (b"\nrefresh\n", None),
    (b"refresh", None),
    (b"refresh \n", None),
    (b" refresh\n", None),
    (b"@0 refresh\n", None),
    (b"refresh\r\n", None),
    (b"#refresh\n", None),
    (b"undo 1\n", None),
    (b"cost 0.0.0.0  1.1.1.1 2 7\n", None),
];

#[test]
fn reads_one_spelling_of_the_first_line_alone(rt: HostRuntime) -> Result<(), Fail> {
    for (number, (bytes, length)) in LINES.iter().enumerate() {
        let wanted = match *length {
            Some(length) => Some((COST, length)),
            None => None,
        };
        assert_eq!(rt; edit_line(rt.alloc(), bytes)?, wanted, "row {number}");
    }
    Ok(())
}

#[test]
fn writes_a_line(rt: HostRuntime) -> Result<(), Fail> {
    let mut out = Vec::from_slice(rt.alloc(), b"refresh\n")?;
    put_line(rt.alloc(), &mut out, &COST)?;
    assert_eq!(rt;
        out.as_slice(),
        b"refresh\ncost 0.0.0.0 1.1.1.1 2 7\n".as_slice()
    );
    Ok(())
}
