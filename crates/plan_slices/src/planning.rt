//! A run over bytes in memory.

ghost use Rattle.std.specs.Prelude.{◌≡◌, [], IfErr, IfOk, IfSome, Some, false, is_some};
ghost use Rattle.host_io.specs.Watched.{inner_of};
ghost use Rattle.whole_run.specs.Streams.{has_any_failed};
ghost use Rattle.whole_run.specs.WholeRun.{MayEndRun};
ghost use Rattle.plan_slices.specs.Texts.{AreTextsOf, text_if};

use host_io::Watched;
use std::alloc::{Allocator, Global};
use whole_run::{RunFault, Summary, run};

/// Which texts are wanted.
#[derive(Clone, Copy, Debug, PartialEq, Eq)]
pub struct Wanted {
    /// Whether the replies are wanted.
    pub replies: bool,
    /// Whether the dump that branch 0 is left with is wanted.
    pub dump: bool,
    /// Whether its session is wanted.
    pub session: bool,
}

/// What a script writes on a dump. A text that is not wanted is empty.
#[derive(Drop)]
pub struct PlanTexts<A: Allocator = Global> {
    /// How many lines had a reply, and how many were refused.
    pub summary: Summary,
    /// The replies, one after another.
    pub replies: Vec<u8, A>,
    /// The dump that branch 0 is left with.
    pub dump: Vec<u8, A>,
    /// The session of branch 0.
    pub session: Vec<u8, A>,
}

/// Carries out a script on a dump or on a saved session.
///
/// # Errors
///
/// The dump is refused, the script is longer than 1,048,576 bytes, or memory ran out. Then there is
/// no text. `Read` does not come, since bytes in memory can be read, and `Write` means that memory
/// ran out.
pub fn plan<A: Allocator + Copy>(
    alloc: A,
    dump: &[u8],
    script: &[u8],
    wanted: Wanted,
) -> Result<PlanTexts<A>, RunFault>
    ensures texts { IfOk result (AreTextsOf dump.now script.now wanted) }
    ensures fault { IfErr result (MayEndRun (Some dump.now) (Some script.now)) }
{
    let mut dump = Watched::new(dump);
    let mut script = Watched::new(script);
    let mut replies = Watched::new(Vec::new(alloc));
    let mut out = memory_if(alloc, wanted.dump);
    let mut save = memory_if(alloc, wanted.session);
    let summary = run(
        alloc,
        &mut dump,
        &mut script,
        &mut replies,
        &mut out,
        &mut save,
    )?;
    Ok(PlanTexts {
        summary,
        replies: text_if(alloc, wanted.replies, replies.into_inner()),
        dump: text_in(alloc, out),
        session: text_in(alloc, save),
    })
}

/// A writer to memory, where a text is wanted.
fn memory_if<A: Allocator + Copy>(alloc: A, wanted: bool) -> Option<Watched<Vec<u8, A>>>
    ensures open { has_any_failed result ≡ false }
    ensures given { is_some result ≡ wanted }
    ensures empty { IfSome result (λ writer. (inner_of writer).items ≡ []) }
{
    if wanted {
        Some(Watched::new(Vec::new(alloc)))
    } else {
        None
    }
}

/// A text, where it is wanted.
fn text_if<A: Allocator + Copy>(alloc: A, wanted: bool, text: Vec<u8, A>) -> Vec<u8, A>
    ensures { result.items ≡ text_if wanted text.items }
{
    if wanted { text } else { Vec::new(alloc) }
}

/// What a writer to memory got; nothing, where there is none.
fn text_in<A: Allocator + Copy>(alloc: A, writer: Option<Watched<Vec<u8, A>>>) -> Vec<u8, A>
    ensures given { IfSome writer (λ writer. result.items ≡ (inner_of writer).items) }
    ensures none { is_some writer ≡ false → result.items ≡ [] }
{
    match writer {
        Some(writer) => writer.into_inner(),
        None => Vec::new(alloc),
    }
}
