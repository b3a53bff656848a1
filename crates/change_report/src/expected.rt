//! What is expected of pairs that are lost or gone, and of changes.

ghost use Rattle.std.specs.Prelude.{◌≡◌, ◌++◌, OnOk};
ghost use Rattle.std.specs.List.{list_all};
ghost use Rattle.change_lines.specs.PairTexts.{is_listed};
ghost use Rattle.network_names.specs.Names.{called};
ghost use Rattle.study_script.specs.Expected.{pairs_allowed};
ghost use Rattle.change_report.specs.Expected.{are_allowed, are_few, found_text};

use change_lines::{Changes, Pair, is_listed, push_pairs_found, push_unlisted, unlisted};
use lsa_codec::Prefix;
use network_names::Names;
use std::alloc::{AllocError, Allocator};
use study_script::Allowed;

/// Whether the prefix of each pair is among some.
fn are_listed(nets: &[Prefix], pairs: &[Pair]) -> bool
    ensures { result ≡ list_all (λ pair. is_listed nets.now pair.net) pairs.now }
{
    pairs.iter().all(|pair| is_listed(nets, pair.net))
}

/// Whether these pairs may be lost, or gone.
pub fn are_allowed<A: Allocator + Copy>(allowed: &Allowed<A>, pairs: &[Pair]) -> bool
    ensures { result ≡ are_allowed (pairs_allowed allowed.now) pairs.now }
{
    match allowed {
        Allowed::Nothing => pairs.is_empty(),
        Allowed::AtMost(most) => pairs.len() as u64 <= u64::from(*most),
        Allowed::Only(nets) => are_listed(nets, pairs),
    }
}

/// Adds what was found after the word of the condition, as `lost 1: r1 10.0.0.0/24`.
///
/// # Errors
///
/// Memory ran out. A part of the text may have been added.
pub fn push_found<A: Allocator + Copy>(
    alloc: A,
    text: &mut Vec<u8, A>,
    names: &Names<'_, A>,
    word: &str,
    allowed: &Allowed<A>,
    pairs: &[Pair],
) -> Result<(), AllocError>
    ensures { OnOk result (text.new.items ≡ text.old.items
        ++ found_text (called names.now) word.now (pairs_allowed allowed.now) pairs.now) }
{
    match allowed {
        Allowed::Nothing | Allowed::AtMost(_) => push_pairs_found(text, names, word, pairs),
        Allowed::Only(nets) => {
            let others = unlisted(alloc, nets, pairs)?;
            push_unlisted(text, names, word, pairs, &others)
        }
    }
}

/// Whether there are no more changes than this number.
pub fn are_few<A: Allocator + Copy>(most: u32, changes: &Changes<A>) -> bool
    ensures { result ≡ are_few most changes.now }
{
    changes.names.len() as u64 <= u64::from(most)
}
