//! Names files: what names stand for, and each fault.

use super::hosts::{hosts, names_text, text_of};
use lsa_codec::RouterId;
use std::test::*;

/// Words, and the addresses that they stand for; 1.1.1.1 is 16843009.
const ADDRESSES: &[(&str, Option<u32>)] = &[
    ("r1", Some(16_843_009)),
    ("r1.example.net", Some(16_843_009)),
    ("edge", Some(16_843_009)),
    ("r2", Some(33_686_018)),
    ("r3", Some(50_529_027)),
    ("lan-1", Some(167_772_161)),
    ("localhost", None),
    ("R1", None),
    ("1.1.1.1", None),
    ("first", None),
];

/// Names files, each with its fault.
const FAULTS: &[(&str, &str)] = &[
    ("", "names"),
    ("\n \t\r\n#", "names"),
    ("1.1.1.1 r1 r1", "names"),
    ("fe80::1 1.1.1.1", "names"),
    ("1.1.1.1 -._a", "names"),
    ("1.1.1 r1", "1 H1 BadAddress 1.1.1"),
    ("01.1.1.1 r1", "1 H1 BadAddress 01.1.1.1"),
    ("\nhost 1.1.1.1", "2 H1 BadAddress host"),
    ("1.1.1.256", "1 H1 BadAddress 1.1.1.256"),
    ("1.1.1.1", "1 H2 MissingName 1.1.1.1"),
    ("# a\n\n1.1.1.1 # r1", "3 H2 MissingName 1.1.1.1"),
    ("1.1.1.1 r!", "1 H3 BadName r!"),
    ("1.1.1.1 r1 r2,r3", "1 H3 BadName r2,r3"),
    ("1.1.1.1 2.2.2.2", "1 H4 ReservedName 2.2.2.2"),
    ("1.1.1.1 77", "1 H4 ReservedName 77"),
    ("1.1.1.1 7.7", "names"),
    ("1.1.1.1 cost", "1 H4 ReservedName cost"),
    ("1.1.1.1 microloops", "1 H4 ReservedName microloops"),
    ("1.1.1.1 expect", "1 H4 ReservedName expect"),
    ("1.1.1.1 route", "1 H4 ReservedName route"),
    ("1.1.1.1 ext2", "1 H4 ReservedName ext2"),
    ("1.1.1.1 max-age", "1 H4 ReservedName max-age"),
    ("1.1.1.1 all", "1 H4 ReservedName all"),
    ("1.1.1.1 via", "1 H4 ReservedName via"),
    ("1.1.1.1 within", "1 H4 ReservedName within"),
    ("1.1.1.1 r1\n2.2.2.2 r2 r1", "2 H5 NameTaken r1"),
    ("1.1.1.1 r1\n2.2.2.2 r1 r!", "2 H5 NameTaken r1"),
    ("1.1.1.1 r1\n2.2.2.2 r! r1", "2 H3 BadName r!"),
];

#[test]
fn names_stand_for_addresses(rt: HostRuntime) -> Result<(), Fail> {
    let names = hosts(rt.alloc())?;
    for (word, address) in ADDRESSES {
        assert_eq!(rt; names.address_of(word.as_bytes()), *address, "{word}");
    }
    Ok(())
}

#[test]
fn routers_have_their_first_names(rt: HostRuntime) -> Result<(), Fail> {
    let names = hosts(rt.alloc())?;
    assert_eq!(rt;
        names.name_of(RouterId(16_843_009)).map(text_of),
        Some("r1")
    );
    assert_eq!(rt;
        names.name_of(RouterId(33_686_018)).map(text_of),
        Some("r2")
    );
    assert!(rt; names.name_of(RouterId(0)).is_none());
    Ok(())
}

#[test]
fn faults_have_their_line_and_word(rt: HostRuntime) -> Result<(), Fail> {
    for (text, fault) in FAULTS {
        assert_eq!(rt; names_text(rt.alloc(), text)?.as_str(), *fault, "{text}");
    }
    Ok(())
}
