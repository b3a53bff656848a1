//! Names files and lines where memory is refused.

use super::hosts::HOSTS;
use network_names::{NamesError, read_names};
use std::test::*;
use study_arguments::ParseError;
use study_script::parse;
use test_support::FailingAlloc;

/// Whether reading the names runs out of memory after a number of growths.
fn names_run_out(alloc: &FailingAlloc) -> bool {
    matches!(read_names(alloc, HOSTS), Err(NamesError::OutOfMemory))
}

#[test]
fn names_report_refused_memory(rt: HostRuntime) -> Result<(), Fail> {
    for growths in 0..2 {
        assert!(rt; names_run_out(&FailingAlloc::new(rt.alloc(), growths)));
    }
    assert!(rt; !names_run_out(&FailingAlloc::new(rt.alloc(), 100)));
    Ok(())
}

/// Whether a line runs out of memory where none is left.
fn line_runs_out(rt: &HostRuntime, line: &str) -> Result<bool, Fail> {
    let empty = FailingAlloc::new(rt.alloc(), 0);
    let no_names = read_names(&empty, &[])?;
    Ok(matches!(
        parse(&empty, &no_names, line.as_bytes()),
        Err(ParseError::OutOfMemory)
    ))
}

#[test]
fn lists_alone_take_memory(rt: HostRuntime) -> Result<(), Fail> {
    for line in ["routers", "cost 0.0.0.0 1.1.1.1 0.0.0.0/0 5", "expect same"] {
        assert!(rt; !line_runs_out(&rt, line)?, "{line}");
    }
    for line in [
        "expect lost only 0.0.0.0/0",
        "expect route 1.1.1.1 0.0.0.0/0 via 2.2.2.2",
        "expect audit only nssa",
    ] {
        assert!(rt; line_runs_out(&rt, line)?, "{line}");
    }
    Ok(())
}
