//! What was found where a condition does not hold.

ghost use Rattle.std.specs.Prelude.{◌≡◌, ◌++◌, IfOk, OnOk};
ghost use Rattle.network_names.specs.Names.{called};
ghost use Rattle.change_lines.specs.ChangeTexts.{changes_found, counted};
ghost use Rattle.change_lines.specs.PairTexts.{is_listed, pairs_found, unlisted, unlisted_found};

use crate::change_name::ChangeName;
use crate::pair::Pair;
use lsa_codec::Prefix;
use network_names::Names;
use std::alloc::{AllocError, Allocator};
use study_text::{push_first_three, push_number_after, push_word};

/// Adds a word, a space and a number.
#[tactic(auto, unfolding(crate::specs::ChangeTexts::counted))]
fn push_counted<A: Allocator + Copy>(
    text: &mut Vec<u8, A>,
    word: &str,
    count: usize,
) -> Result<(), AllocError>
    ensures { OnOk result (text.new.items ≡ text.old.items ++ counted word.now count) }
{
    push_word(text, word)?;
    push_number_after(text, " ", count as u64)
}

/// Adds the number of changes, and the first of them, as `changes 1: moved r1 10.0.0.0/24`.
///
/// # Errors
///
/// Memory ran out. A part of the text may have been added.
pub fn push_changes_found<A: Allocator + Copy>(
    text: &mut Vec<u8, A>,
    names: &Names<'_, A>,
    changes: &[ChangeName],
) -> Result<(), AllocError>
    ensures { OnOk result
        (text.new.items ≡ text.old.items ++ changes_found (called names.now) changes.now) }
{
    push_counted(text, "changes", changes.len())?;
    push_first_three(text, names, changes)
}

/// Adds the number of pairs after a word, and the first of them, as `lost 1: r1 10.0.0.0/24`.
///
/// # Errors
///
/// Memory ran out. A part of the text may have been added.
pub fn push_pairs_found<A: Allocator + Copy>(
    text: &mut Vec<u8, A>,
    names: &Names<'_, A>,
    word: &str,
    pairs: &[Pair],
) -> Result<(), AllocError>
    ensures { OnOk result
        (text.new.items ≡ text.old.items ++ pairs_found (called names.now) word.now pairs.now) }
{
    push_counted(text, word, pairs.len())?;
    push_first_three(text, names, pairs)
}

/// Whether a prefix is among some.
pub fn is_listed(nets: &[Prefix], net: Prefix) -> bool
    ensures { result ≡ is_listed nets.now net }
{
    nets.iter().any(|listed| net == *listed)
}

/// The pairs whose prefixes are not among some.
///
/// # Errors
///
/// Memory ran out.
pub fn unlisted<A: Allocator + Copy>(
    alloc: A,
    nets: &[Prefix],
    pairs: &[Pair],
) -> Result<Vec<Pair, A>, AllocError>
    ensures { IfOk result (λ others. others.items ≡ unlisted nets.now pairs.now) }
{
    let pairs = pairs.iter().copied();
    pairs
        .filter(|pair| !is_listed(nets, pair.net))
        .collect(alloc)
}

/// Adds the number of pairs after a word, that of those which are not listed, and the first of
/// these, as `lost 2, not listed 1: r1 10.0.0.0/24`.
///
/// # Errors
///
/// Memory ran out. A part of the text may have been added.
pub fn push_unlisted<A: Allocator + Copy>(
    text: &mut Vec<u8, A>,
    names: &Names<'_, A>,
    word: &str,
    pairs: &[Pair],
    others: &[Pair],
) -> Result<(), AllocError>
    ensures { OnOk result (text.new.items ≡ text.old.items
        ++ unlisted_found (called names.now) word.now pairs.now others.now) }
{
    push_counted(text, word, pairs.len())?;
    push_counted(text, ", not listed", others.len())?;
    push_first_three(text, names, others)
}
