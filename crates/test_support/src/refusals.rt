//! Calls whose growths are refused, each in turn.

ghost use Rattle.std.specs.Prelude.{◌≡◌, ◌<◌, [], IfOk};

use crate::failing_alloc::FailingAlloc;
use std::alloc::Global;
use std::test::Fail;

/// An answer, as bytes that determine it. `None` means that memory ran out.
pub type Answer = Option<Vec<u8>>;

/// The outcome of a call with a limited number of growths.
#[derive(Drop)]
pub struct Outcome {
    /// Its answer.
    pub first: Answer,
    /// The answer of the same call after that, with ample memory.
    pub then: Answer,
    /// What it was lent, before the first call, as bytes that determine it.
    pub before: Vec<u8>,
    /// The same, between the two calls.
    pub between: Vec<u8>,
}

impl Outcome {
    /// The outcome of a call that is lent nothing that it can change, except the meter of a tree,
    /// for which there is a separate test.
    pub fn of_answers(alloc: Global, first: Answer, then: Answer) -> Outcome
        ensures first { result.first ≡ first }
        ensures then { result.then ≡ then }
        ensures before { result.before.items ≡ [] }
        ensures between { result.between.items ≡ [] }
    {
        Outcome {
            first,
            then,
            before: Vec::new(alloc),
            between: Vec::new(alloc),
        }
    }
}

/// A call that may ask for growths.
pub trait FallibleCall {
    /// Makes the call with `growths` growths, on what it is lent with ample memory, and then makes
    /// the same call with ample memory.
    fn outcome(&self, alloc: Global, failing: &FailingAlloc, growths: u64) -> Result<Outcome, Fail>;

    /// Whether the call may report that memory ran out after it has changed what it was lent, in
    /// the same way as where memory suffices.
    fn may_be_done(&self) -> bool {
        false
    }
}

/// A call on what it is lent.
pub trait CallOn<'a, S>: Copy {
    /// What the call answers.
    fn answer(
        &self,
        alloc: Global,
        failing: &'a FailingAlloc,
        subject: &mut S,
    ) -> Result<Answer, Fail>;
}

/// The outcome of a call that changes nothing of what it is lent, with `growths` growths and then
/// with ample memory.
///
/// # Errors
///
/// The call fails for another reason than memory.
pub fn outcome_of<'a, S: Drop, C: CallOn<'a, S>>(
    alloc: Global,
    failing: &'a FailingAlloc,
    mut subject: S,
    call: C,
    growths: u64,
) -> Result<Outcome, Fail> {
    failing.set_remaining(growths);
    let first = call.answer(alloc, failing, &mut subject)?;
    failing.set_remaining(u64::MAX);
    let then = call.answer(alloc, failing, &mut subject)?;
    Ok(Outcome::of_answers(alloc, first, then))
}

/// The outcome of a call with `growths` growths.
fn outcome_with<G: FallibleCall>(alloc: Global, call: &G, growths: u64) -> Result<Outcome, Fail> {
    let failing = FailingAlloc::new(alloc, u64::MAX);
    call.outcome(alloc, &failing, growths)
}

/// What is wrong with a call that reported that memory ran out, if anything is.
fn wrong_refusal<G: FallibleCall>(
    call: &G,
    outcome: &Outcome,
    ample: &Outcome,
) -> Option<&'static str> {
    let stays = outcome.between == outcome.before;
    if !stays && !(call.may_be_done() && outcome.between == ample.between) {
        Some("something else after a refusal")
    } else if outcome.then != ample.first {
        Some("another answer after a refusal")
    } else {
        None
    }
}

/// The maximum number of growths that are refused in turn.
const MANY: u64 = 10_000;

/// The number of growths with which a call answers as with ample memory. With fewer, it reports
/// that memory ran out, what it was lent is as before, and the same call then answers as with ample
/// memory. Where the call may be done already, what it was lent may also be as after the call. If
/// it behaves otherwise, or reports that memory ran out with each number of growths below 10,000,
/// the inner `Err` says how. No clause can state this.
///
/// # Errors
///
/// The call fails for another reason.
pub fn growths_or_wrong<G: FallibleCall>(
    alloc: Global,
    call: &G,
) -> Result<Result<u64, &'static str>, Fail>
    ensures { IfOk result (λ found. IfOk found (λ growths. growths < 10000)) }
{
    let ample = outcome_with(alloc, call, u64::MAX)?;
    for growths in 0..MANY {
        let outcome = outcome_with(alloc, call, growths)?;
        if outcome.first.is_some() {
            let same = outcome.first == ample.first && outcome.between == ample.between;
            return Ok(if same {
                Ok(growths)
            } else {
                Err("another answer")
            });
        }
        if let Some(wrong) = wrong_refusal(call, &outcome, &ample) {
            return Ok(Err(wrong));
        }
    }
    Ok(Err("no answer with 10,000 growths"))
}

/// The same number, where the call behaves so.
///
/// # Errors
///
/// The call behaves otherwise, or fails for another reason.
pub fn growths_of<G: FallibleCall>(alloc: Global, call: &G) -> Result<u64, Fail>
    ensures { IfOk result (λ growths. growths < 10000) }
{
    match growths_or_wrong(alloc, call)? {
        Ok(growths) => Ok(growths),
        Err(wrong) => Err(wrong)?,
    }
}

/// The place of the first call of a list that asks for no growth or behaves otherwise, and how; or
/// `None`, where each asks for growths and behaves as [`growths_or_wrong`] says.
///
/// # Errors
///
/// A call fails for another reason.
pub fn first_wrong<G: FallibleCall>(
    alloc: Global,
    calls: &[G],
) -> Result<Option<(usize, &'static str)>, Fail> {
    for (place, call) in calls.iter().enumerate() {
        match growths_or_wrong(alloc, call)? {
            Ok(growths) if 0 < growths => {}
            Ok(_) => return Ok(Some((place, "no growth"))),
            Err(wrong) => return Ok(Some((place, wrong))),
        }
    }
    Ok(None)
}
