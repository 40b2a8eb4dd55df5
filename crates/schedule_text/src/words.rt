//! The words of a line: ids, numbers, lists and texts.
ghost use Rattle.std.specs.Prelude.{◌≡◌, ◌==◌, ◌&&◌, ◌^◌, ◌<◌, List, Option, Some, None, if◌then◌else◌, nat_lt};
ghost use Rattle.std.specs.List.{list_all};
ghost use Rattle.std.specs.Str.{bytes_eq};
ghost use Rattle.schedule_text.specs.Words.{config, listed, text as text_word, number as number_word, is_digit as is_digit_of, is_decimal as is_decimal_of, value_from};
ghost use Rattle.schedule_text.specs.Answers.{Answers};

use crate::fault::{ReadError, WhyBad};
use crate::setting_text::SettingText;
use std::alloc::Global;
use text::Boxed;
use voting_config::{IdList, NodeId, NodeSet};

/// The listed node that a word names, and else `Id`.
#[inline(always)]
pub fn node_at(ids: &NodeSet, word: &[u8]) -> Result<NodeId, WhyBad>
    ensures { result ≡ (listed ids.now).at word.now }
{
    for id in ids.as_slice() {
        if is_same(id.as_bytes(), word) {
            return Ok(*id);
        }
    }
    Err(WhyBad::Id)
}

// Whether two words are the same: a loop over so few bytes costs less than a comparison of slices.
fn is_same(word: &[u8], other: &[u8]) -> bool
    ensures { result ≡ bytes_eq word.now other.now }
{
    if word.len() != other.len() {
        return false;
    }
    for i in 0..word.len() {
        if word[i] != other[i] {
            return false;
        }
    }
    true
}

/// The text that a word is, and else `Text`.
pub fn text_at(word: &[u8]) -> Result<SettingText, WhyBad>
    ensures { result ≡ text_word.at word.now }
{
    match SettingText::from_bytes(word) {
        Some(text) => Ok(text),
        None => Err(WhyBad::Text),
    }
}

/// The number from `low` to `high` that a word is in decimal, and else `Number`.
pub fn number_at(word: &[u8], low: u64, high: u64) -> Result<u64, WhyBad>
    ensures { result ≡ (number_word low high).at word.now }
{
    if !begins_number(word) {
        return Err(WhyBad::Number);
    }
    let Some(value) = value_of(word) else {
        return Err(WhyBad::Number);
    };
    if value < low {
        return Err(WhyBad::Number);
    }
    if value > high {
        return Err(WhyBad::Number);
    }
    Ok(value)
}

// Whether there is a first byte, which is no zero before others.
fn begins_number(word: &[u8]) -> bool
    ensures { is_decimal_of word.now ≡ (list_all is_digit_of word.now && result) }
{
    let Some(first) = word.first() else {
        return false;
    };
    *first != b'0' || word.len() == 1
}

// The number that these bytes say, where they are digits and it has 64 bits at most.
fn value_of(word: &[u8]) -> Option<u64>
    ensures { result ≡ (if list_all is_digit_of word.now
        && nat_lt (value_from 0 word.now) (2 ^ 64) then Some (value_from 0 word.now) else None) }
{
    let mut value: u64 = 0;
    for b in word {
        if !is_digit(*b) {
            return None;
        }
        value = value.checked_mul(10)?.checked_add((*b - b'0') as u64)?;
    }
    Some(value)
}

fn is_digit(b: u8) -> bool
    ensures { result ≡ is_digit_of b }
{
    matches!(b, b'0'..=b'9')
}

/// The listed nodes that a word lists, and else `List`.
pub fn config_at(
    alloc: Global,
    ids: &NodeSet,
    word: &[u8],
) -> Result<Boxed<IdList>, ReadError<WhyBad>>
    ensures { Answers result ((config ids.now).at word.now) }
{
    let Some(some) = NodeSet::from_bytes(word) else {
        return Err(ReadError::Bad(WhyBad::List));
    };
    if !ids.has_all(&some) {
        return Err(ReadError::Bad(WhyBad::List));
    }
    let Ok(list) = IdList::of(alloc, &some) else {
        return Err(ReadError::Memory);
    };
    match Boxed::of(alloc, list) {
        Ok(list) => Ok(list),
        Err(_) => Err(ReadError::Memory),
    }
}
