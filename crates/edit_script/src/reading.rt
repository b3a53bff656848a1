//! Reading the arguments of a command: each argument, and how many there are.

ghost use Rattle.std.specs.Prelude.{◌≡◌, [], ◌∷◌, MatchResult};
ghost use Rattle.lsa_codec.specs.Views.{ls_infinity};
ghost use Rattle.edit_script.specs.Words.{words};
ghost use Rattle.edit_script.specs.declared.fault.ScriptFault.TheVariants.{MissingWord};
ghost use Rattle.edit_script.specs.Reading.{Gives, greatest_number16, number, address, prefix, metric_type, none_of, one_of, two_of, three_of, four_of, six_of, count_of, router_of};

use crate::arguments::prefix_of;
use crate::edit::MetricType;
use crate::fault::ScriptFault;
use crate::words::next_word;
use lsa_codec::{LS_INFINITY, Metric, Prefix, RouterId};
use text_words::{address_of, number_up_to};

/// The greatest number of 16 bits, for the number of a link and its metric (RFC 2328, A.4.2).
const GREATEST_NUMBER16: u32 = 65_535;

// ---- one argument

/// The number that a word spells, where it is at most `max`.
///
/// # Errors
///
/// S5, where it spells no such number.
pub fn number(max: u32, word: &[u8]) -> Result<u32, ScriptFault>
    ensures { result ≡ number max word.now }
{
    number_up_to(max, word).ok_or(ScriptFault::BadNumber)
}

/// The number of 16 bits that a word spells.
///
/// # Errors
///
/// S5, where it spells no such number.
pub fn number16(word: &[u8]) -> Result<u16, ScriptFault>
    ensures { result ≡ number greatest_number16 word.now }
{
    match number_up_to(GREATEST_NUMBER16, word) {
        Some(number) => Ok(number as u16),
        None => Err(ScriptFault::BadNumber),
    }
}

/// The metric of 24 bits that a word spells.
///
/// # Errors
///
/// S5, where it spells no such number.
pub fn metric24(word: &[u8]) -> Result<Metric, ScriptFault>
    ensures { result ≡ number ls_infinity word.now }
{
    match number_up_to(LS_INFINITY, word) {
        Some(number) => Metric::new(number).ok_or(ScriptFault::BadNumber),
        None => Err(ScriptFault::BadNumber),
    }
}

/// The type of an external metric that a word names, 1 or 2.
///
/// # Errors
///
/// S5, where it is neither.
pub fn metric_type(word: &[u8]) -> Result<MetricType, ScriptFault>
    ensures { result ≡ metric_type word.now }
{
    match word {
        b"1" => Ok(MetricType::Type1),
        b"2" => Ok(MetricType::Type2),
        _ => Err(ScriptFault::BadNumber),
    }
}

/// The address that a word spells.
///
/// # Errors
///
/// S6, where it spells none.
pub fn address(word: &[u8]) -> Result<u32, ScriptFault>
    ensures { result ≡ address word.now }
{
    address_of(word).ok_or(ScriptFault::BadAddress)
}

/// The prefix that a word spells.
///
/// # Errors
///
/// S7, where it spells none, whatever part of it is wrong.
pub fn prefix(word: &[u8]) -> Result<Prefix, ScriptFault>
    ensures { result ≡ prefix word.now }
{
    prefix_of(word).ok_or(ScriptFault::BadPrefix)
}

// ---- a given number of arguments

/// No word of `arguments`; else S4.
pub(crate) fn none(arguments: &[u8]) -> Result<(), ScriptFault>
    ensures { Gives (λ x. tt) result (none_of (words arguments.now)) }
{
    match next_word(arguments) {
        None => Ok(()),
        Some(_) => Err(ScriptFault::ExtraWord),
    }
}

/// The first word of `arguments`, and the rest after it; else S3.
fn word(arguments: &[u8]) -> Result<(&[u8], &[u8]), ScriptFault>
    ensures { MatchResult result (λ x. words arguments.now ≡ x.0.now ∷ words x.1.now)
        (λ fault. (fault ≡ MissingWord) × (words arguments.now ≡ [])) }
{
    next_word(arguments).ok_or(ScriptFault::MissingWord)
}

/// The only word of `arguments`; else S3 or S4.
pub(crate) fn one(arguments: &[u8]) -> Result<&[u8], ScriptFault>
    ensures { Gives (λ x. x.now) result (one_of (words arguments.now)) }
{
    let (first, rest) = word(arguments)?;
    match next_word(rest) {
        None => Ok(first),
        Some(_) => Err(ScriptFault::ExtraWord),
    }
}

/// The two words of `arguments`; else S3 or S4.
pub(crate) fn two(arguments: &[u8]) -> Result<(&[u8], &[u8]), ScriptFault>
    ensures { Gives (λ x. (x.0.now, x.1.now)) result (two_of (words arguments.now)) }
{
    let (first, rest) = word(arguments)?;
    let (second, rest) = word(rest)?;
    match next_word(rest) {
        None => Ok((first, second)),
        Some(_) => Err(ScriptFault::ExtraWord),
    }
}

/// The three words of `arguments`; else S3 or S4.
pub(crate) fn three(arguments: &[u8]) -> Result<(&[u8], &[u8], &[u8]), ScriptFault>
    ensures { Gives (λ x. (x.0.now, x.1.now, x.2.now)) result (three_of (words arguments.now)) }
{
    let (first, rest) = word(arguments)?;
    let (second, rest) = word(rest)?;
    let (third, rest) = word(rest)?;
    match next_word(rest) {
        None => Ok((first, second, third)),
        Some(_) => Err(ScriptFault::ExtraWord),
    }
}

/// The four words of `arguments`; else S3 or S4.
pub(crate) fn four(arguments: &[u8]) -> Result<(&[u8], &[u8], &[u8], &[u8]), ScriptFault>
    ensures { Gives (λ x. (x.0.now, x.1.now, x.2.now, x.3.now)) result
        (four_of (words arguments.now)) }
{
    let (first, rest) = word(arguments)?;
    let (second, rest) = word(rest)?;
    let (third, rest) = word(rest)?;
    let (fourth, rest) = word(rest)?;
    match next_word(rest) {
        None => Ok((first, second, third, fourth)),
        Some(_) => Err(ScriptFault::ExtraWord),
    }
}

/// The six words of `arguments`; else S3 or S4.
pub(crate) fn six(
    arguments: &[u8],
) -> Result<(&[u8], &[u8], &[u8], &[u8], &[u8], &[u8]), ScriptFault>
    ensures { Gives (λ x. (x.0.now, x.1.now, x.2.now, x.3.now, x.4.now, x.5.now)) result
        (six_of (words arguments.now)) }
{
    let (first, rest) = word(arguments)?;
    let (second, rest) = word(rest)?;
    let (third, rest) = word(rest)?;
    let (fourth, rest) = word(rest)?;
    let (fifth, rest) = word(rest)?;
    let (sixth, rest) = word(rest)?;
    match next_word(rest) {
        None => Ok((first, second, third, fourth, fifth, sixth)),
        Some(_) => Err(ScriptFault::ExtraWord),
    }
}

// ---- one argument alone

/// The number of edits that the only word of `arguments` spells; else S3, S4 or S5.
#[tactic(auto, unfolding(crate::specs::Reading::count_of))]
pub(crate) fn count(arguments: &[u8]) -> Result<u32, ScriptFault>
    ensures { result ≡ count_of (words arguments.now) }
{
    number(u32::MAX, one(arguments)?)
}

/// The router that the only word of `arguments` spells; else S3, S4 or S6.
#[tactic(auto, unfolding(crate::specs::Reading::router_of))]
pub(crate) fn router(arguments: &[u8]) -> Result<RouterId, ScriptFault>
    ensures { result ≡ router_of (words arguments.now) }
{
    Ok(RouterId(address(one(arguments)?)?))
}
