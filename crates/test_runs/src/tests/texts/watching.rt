//! Readers and writers that remember whether they have failed, ended and are flushed.

use super::text::{NEVER, TEXT};
use host_io::{Watched, write_whole};
use std::io::ErrorKind;
use std::test::Fail;
use test_support::{Failing, FailsOnce, Sink, Source};

#[test]
fn watches_a_reader(rt: HostRuntime) -> Result<(), Fail> {
    let mut reader = Watched::new(Source::new(TEXT, 4, Some(6)));
    let mut buf = [b'-'; 5];
    assert!(rt; !reader.failed());
    assert_eq!(rt; reader.read(&mut buf)?, 4);
    assert_eq!(rt; &buf, b"cost-");
    assert_eq!(rt; reader.read(&mut buf)?, 2);
    assert_eq!(rt; &buf, b" 0st-");
    assert!(rt; !reader.failed());
    let fault = reader.read(&mut buf).map_err(|error| error.kind());
    assert_eq!(rt; fault, Err(ErrorKind::Interrupted));
    assert!(rt; reader.failed());
    assert!(rt; !reader.ended());
    Ok(())
}

#[test]
fn remembers_that_a_read_failed(rt: HostRuntime) -> Result<(), Fail> {
    let mut reader = Watched::new(FailsOnce { calls: 0 });
    let mut buf = [0u8; 5];
    assert!(rt; reader.read(&mut buf).is_err());
    assert_eq!(rt; reader.read(&mut buf)?, 0);
    assert!(rt; reader.failed());
    assert!(rt; reader.ended());
    assert_eq!(rt; reader.into_inner().calls, 2);
    Ok(())
}

#[test]
fn watches_a_writer(rt: HostRuntime) -> Result<(), Fail> {
    let cases = [
        (Failing::WriteErrs, Err(ErrorKind::Interrupted)),
        (Failing::WriteTakesNone, Ok(0)),
    ];
    for (failing, answer) in cases {
        let mut writer = Watched::new(Sink::new(rt.alloc(), 4, 6, failing));
        assert_eq!(rt; writer.write(TEXT)?, 4);
        assert_eq!(rt; writer.write(TEXT)?, 2);
        assert!(rt; !writer.flushed());
        assert!(rt; writer.flush().is_ok());
        assert!(rt; writer.flushed());
        assert!(rt; !writer.failed(), "{failing:?}");
        assert_eq!(rt; writer.write(TEXT).map_err(|error| error.kind()), answer);
        assert!(rt; writer.failed(), "{failing:?}");
        assert_eq!(rt; writer.into_inner().taken.as_slice(), b"costco".as_slice());
    }
    Ok(())
}

#[test]
fn an_empty_write_is_no_failure(rt: HostRuntime) -> Result<(), Fail> {
    let mut writer = Watched::new(Sink::new(rt.alloc(), 4, 6, Failing::WriteTakesNone));
    assert_eq!(rt; writer.write(b"")?, 0);
    assert!(rt; !writer.failed());
    Ok(())
}

#[test]
fn remembers_that_a_flush_failed(rt: HostRuntime) -> Result<(), Fail> {
    let mut writer = Watched::new(Sink::new(rt.alloc(), 4, NEVER, Failing::FlushErrs));
    assert_eq!(rt; write_whole(&mut writer, TEXT), Ok(()));
    assert!(rt; !writer.failed());
    let fault = writer.flush().map_err(|error| error.kind());
    assert_eq!(rt; fault, Err(ErrorKind::Interrupted));
    assert!(rt; !writer.flushed());
    assert_eq!(rt; writer.write(TEXT)?, 4);
    assert!(rt; writer.failed());
    Ok(())
}
