//! The fields of a row.

ghost use Rattle.std.specs.Prelude.{◌≡◌, ◌≤◌, IfSome, option_map};
ghost use Rattle.frr_text.specs.Words.{words};
ghost use Rattle.text_words.specs.Numbers.{number_up_to};
ghost use Rattle.text_words.specs.Addresses.{address_of};
ghost use Rattle.lsdb_listing.specs.Rows.{hex_of, marked_hex_of, value_of, table_row, section_row, row_under};

use crate::heading::Heading;
use frr_text::next_word;
use lsa_codec::{Addr, Key, RouterId};
use lsa_instances::InstanceId;
use text_words::{address_of, hex_up_to, number_up_to};

/// What a row has.
#[derive(Clone, Copy)]
pub(crate) struct Row {
    /// LS type, Link State ID and Advertising Router.
    pub(crate) key: Key,
    /// LS sequence number and LS checksum.
    pub(crate) instance: InstanceId,
    /// LS age, in seconds.
    pub(crate) age: u16,
}

/// The number that a word spells in `count` hexadecimal digits, where it is at most `max`.
#[tactic(auto, unfolding(crate::specs::Rows::hex_of))]
fn hex_of(count: usize, max: u32, word: &[u8]) -> Option<u32>
    ensures value { result ≡ hex_of count max word.now }
    ensures bound { IfSome result (λ n. n ≤ max) }
{
    if word.len() != count {
        return None;
    }
    hex_up_to(max, word)
}

/// The number that a word spells in `count` hexadecimal digits after `0x`, where it is at most
/// `max`.
#[tactic(auto, unfolding(crate::specs::Rows::marked_hex_of))]
fn marked_hex_of(count: usize, max: u32, word: &[u8]) -> Option<u32>
    ensures value { result ≡ marked_hex_of count max word.now }
    ensures bound { IfSome result (λ n. n ≤ max) }
{
    match word {
        [b'0', b'x', digits @ ..] => hex_of(count, max, digits),
        _ => None,
    }
}

/// The address that stands here, and what follows it.
fn address_in(line: &[u8]) -> Option<(u32, &[u8])>
    ensures { option_map (λ found. (found.0, words found.1.now)) result
        ≡ value_of address_of (words line.now) }
{
    let (word, rest) = next_word(line)?;
    let address = address_of(word)?;
    Some((address, rest))
}

/// The decimal number that stands here, where it is at most `max`, and what follows it.
fn number_in(max: u32, line: &[u8]) -> Option<(u32, &[u8])>
    ensures value { option_map (λ found. (found.0, words found.1.now)) result
        ≡ value_of (number_up_to max) (words line.now) }
    ensures bound { IfSome result (λ found. found.0 ≤ max) }
{
    let (word, rest) = next_word(line)?;
    let number = number_up_to(max, word)?;
    Some((number, rest))
}

/// The number of `count` hexadecimal digits that stands here, where it is at most `max`, and what
/// follows it.
fn hex_in(count: usize, max: u32, line: &[u8]) -> Option<(u32, &[u8])>
    ensures value { option_map (λ found. (found.0, words found.1.now)) result
        ≡ value_of (hex_of count max) (words line.now) }
    ensures bound { IfSome result (λ found. found.0 ≤ max) }
{
    let (word, rest) = next_word(line)?;
    let number = hex_of(count, max, word)?;
    Some((number, rest))
}

/// The number of `count` hexadecimal digits that stands here after `0x`, where it is at most `max`,
/// and what follows it.
fn marked_in(count: usize, max: u32, line: &[u8]) -> Option<(u32, &[u8])>
    ensures value { option_map (λ found. (found.0, words found.1.now)) result
        ≡ value_of (marked_hex_of count max) (words line.now) }
    ensures bound { IfSome result (λ found. found.0 ≤ max) }
{
    let (word, rest) = next_word(line)?;
    let number = marked_hex_of(count, max, word)?;
    Some((number, rest))
}

/// A row of a table of this LS type.
#[tactic(auto, unfolding(crate::specs::Rows::table_row))]
fn table_row(kind: u8, line: &[u8]) -> Option<Row>
    ensures { result ≡ table_row kind (words line.now) }
{
    let (id, rest) = address_in(line)?;
    let (adv, rest) = address_in(rest)?;
    let (age, rest) = number_in(0xffff, rest)?;
    let (sequence, rest) = marked_in(8, 0xffff_ffff, rest)?;
    let (checksum, _) = marked_in(4, 0xffff, rest)?;
    let key = Key {
        kind,
        id: Addr(id),
        adv: RouterId(adv),
    };
    let instance = InstanceId {
        sequence,
        checksum: checksum as u16,
    };
    let age = age as u16;
    Some(Row { key, instance, age })
}

/// A row of a section.
#[tactic(auto, unfolding(crate::specs::Rows::section_row))]
fn section_row(line: &[u8]) -> Option<Row>
    ensures { result ≡ section_row (words line.now) }
{
    let (kind, rest) = hex_in(4, 0xff, line)?;
    let (id, rest) = address_in(rest)?;
    let (adv, rest) = address_in(rest)?;
    let (sequence, rest) = hex_in(8, 0xffff_ffff, rest)?;
    let (age, rest) = number_in(0xffff, rest)?;
    let (checksum, _) = hex_in(4, 0xffff, rest)?;
    let key = Key {
        kind: kind as u8,
        id: Addr(id),
        adv: RouterId(adv),
    };
    let instance = InstanceId {
        sequence,
        checksum: checksum as u16,
    };
    let age = age as u16;
    Some(Row { key, instance, age })
}

/// The row that stands under a heading.
pub(crate) fn row_under(heading: Heading, line: &[u8]) -> Option<Row>
    ensures { result ≡ row_under heading (words line.now) }
{
    match heading {
        Heading::Table(kind, _) => table_row(kind, line),
        Heading::Section(_) => section_row(line),
    }
}
