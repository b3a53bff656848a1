//! Dumps that are made from texts.

use super::made::NETWORK_DUMP;
use std::alloc::Global;
use std::test::*;
use test_support::{SAMPLE, TextFault, dump_of_text};

/// Texts, and their dumps or the numbers of their first lines that cannot be read.
const TEXTS: &[(&str, Result<&[u8], usize>)] = &[
    (
        "area 0.0.0.0\n\
        router 1.1.1.1: point-to-point 2.2.2.2 data=10.0.0.1 cost=10\n\
        router 2.2.2.2: point-to-point 1.1.1.1 data=10.0.0.2 cost=10, stub 10.2.0.0/16 cost=5\n",
        Ok(SAMPLE),
    ),
    (
        "area 0.0.0.0\nnetwork 10.5.0.3/16 by=3.3.3.3: 1.1.1.1, 3.3.3.3\n",
        Ok(NETWORK_DUMP),
    ),
    ("router 1.1.1.1\narea 0\n", Err(1)),
    ("area x\n", Err(1)),
    ("area 0\nrouter\n", Err(2)),
    ("area 0\nrouter 1.1.1.1 age=65536\n", Err(2)),
    (
        "area 0\nrouter 1.1.1.1\nrouter 2.2.2.2: stub 10.9.0.0/33\n",
        Err(3),
    ),
    ("area 0\nrouter 1.1.1.1:\nrouter 2.2.2.2\n", Err(2)),
    (
        "area 0\nrouter 1.1.1.1\narea 1\nrouter 1.1.1.1 metric=5\n",
        Err(4),
    ),
];

/// Whether a text has this dump, or cannot be read from this line on.
fn is_read_so(alloc: Global, text: &str, expected: Result<&[u8], usize>) -> bool {
    match dump_of_text(alloc, text) {
        Ok(dump) => expected.ok() == Some(dump.as_slice()),
        Err(TextFault::Line(line)) => expected.err() == Some(line),
        Err(TextFault::OutOfMemory) => false,
    }
}

#[test]
fn reads_dumps_or_reports_the_line_that_is_none(rt: HostRuntime) -> Result<(), Fail> {
    for (text, expected) in TEXTS {
        assert!(rt; is_read_so(rt.alloc(), text, *expected), "{text}");
    }
    Ok(())
}
