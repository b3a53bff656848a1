//! What edits, expectations, and lines that are not carried out are answered.

use super::built::text_of;
use std::test::*;
use study_documents::{
    Counted, push_expectation, push_fault, push_faulty, push_front, push_hint, push_place,
    push_summary,
};
use study_words::ConditionWord;

#[test]
fn documents_begin_with_their_place(rt: HostRuntime) -> Result<(), Fail> {
    let mut text = Vec::new(rt.alloc());
    push_place(&mut text, "a \"b\".study", 7)?;
    push_front(&mut text, 0, b"expect", "ok")?;
    push_expectation(&mut text, ConditionWord::Hops, b"hops 1")?;
    let found = text_of(text)?;
    assert_eq!(rt;
        found.as_str(),
        "{\"file\":\"a \\\"b\\\".study\",\"line\":7,\"branch\":0,\
\"word\":\"expect\",\"answer\":\"ok\",\"expected\":\"hops\",\"found\":\"hops 1\"}"
    );
    Ok(())
}

#[test]
fn faults_have_no_branch(rt: HostRuntime) -> Result<(), Fail> {
    let mut text = Vec::new(rt.alloc());
    push_place(&mut text, "-", 1)?;
    push_faulty(&mut text)?;
    push_fault(&mut text, "S2", "UnknownWord")?;
    push_hint(&mut text, b"drian", b"see help")?;
    let found = text_of(text)?;
    assert_eq!(rt;
        found.as_str(),
        "{\"file\":\"-\",\"line\":1,\"answer\":\"fault\",\
\"code\":\"S2\",\"name\":\"UnknownWord\",\"at\":\"drian\",\"hint\":\"see help\"}"
    );
    Ok(())
}

#[test]
fn refusals_have_the_word_and_a_hint(rt: HostRuntime) -> Result<(), Fail> {
    let mut text = Vec::new(rt.alloc());
    push_front(&mut text, 2, b"cost", "refused")?;
    push_fault(&mut text, "E3", "NoLink")?;
    push_hint(&mut text, b"9", b"1.1.1.1 has no link")?;
    let found = text_of(text)?;
    assert_eq!(rt;
        found.as_str(),
        ",\"branch\":2,\"word\":\"cost\",\"answer\":\"refused\",\
\"code\":\"E3\",\"name\":\"NoLink\",\"at\":\"9\",\"hint\":\"1.1.1.1 has no link\"}"
    );
    Ok(())
}

#[test]
fn the_summary_counts(rt: HostRuntime) -> Result<(), Fail> {
    let mut text = Vec::new(rt.alloc());
    let counted = Counted {
        has_passed: false,
        lines: 4,
        refused: 1,
        expectations: 2,
        failed: 3,
    };
    push_summary(&mut text, counted)?;
    let found = text_of(text)?;
    assert_eq!(rt;
        found.as_str(),
        "{\"summary\":{\"result\":\"failed\",\"lines\":4,\
\"refused\":1,\"expectations\":2,\"failed\":3}}"
    );
    Ok(())
}
