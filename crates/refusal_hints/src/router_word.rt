//! The word of a line that names a router.

ghost use Rattle.std.specs.Prelude.{◌≡◌, option_map};
ghost use Rattle.std.specs.List.{find};
ghost use Rattle.edit_script.specs.Words.{words};
ghost use Rattle.network_names.specs.Names.{stands_for};
ghost use Rattle.study_arguments.specs.Values.{router_id};
ghost use Rattle.refusal_hints.specs.RouterWord.{is_router, naming, parts};

use lsa_codec::RouterId;
use network_names::Names;
use std::alloc::Allocator;
use study_arguments::{Argument, first_word};
use text_words::cut_at;

/// Whether a word spells or names a router.
fn is_router<A: Allocator + Copy>(names: &Names<'_, A>, router: RouterId, word: &[u8]) -> bool
    ensures { result ≡ is_router router (router_id (stands_for names.now) word.now) }
{
    match RouterId::read(names, word) {
        Ok(named) => named.0 == router.0,
        Err(_) => false,
    }
}

/// The first part of a word, between commas, that spells or names a router.
fn part_naming<'l, A: Allocator + Copy>(
    names: &Names<'_, A>,
    router: RouterId,
    word: &'l [u8],
) -> Option<&'l [u8]>
    ensures { option_map (λ part. part.now) result
        ≡ find (λ part. is_router router (router_id (stands_for names.now) part)) (parts word.now) }
{
    let mut rest = word;
    while let Some((part, after)) = cut_at(rest, b',') {
        if is_router(names, router, part) {
            return Some(part);
        }
        rest = after;
    }
    if is_router(names, router, rest) {
        return Some(rest);
    }
    None
}

/// The first word of a text, of a list the first part, that spells or names a router.
pub(crate) fn naming<'l, A: Allocator + Copy>(
    names: &Names<'_, A>,
    router: RouterId,
    text: &'l [u8],
) -> &'l [u8]
    ensures { result.now ≡ naming (stands_for names.now) router (words text.now) }
{
    let mut rest = text;
    while let Some(at) = first_word(rest) {
        if let Some(part) = part_naming(names, router, at.word) {
            return part;
        }
        rest = at.rest;
    }
    &[]
}
