//! The values of options, by their kinds: texts, ids, addresses, numbers.
ghost use Rattle.std.specs.Prelude.{◌≡◌, option_and_then, option_map};
ghost use Rattle.std.specs.Char.{is_ascii_digit};
ghost use Rattle.std.specs.List.{list_all};
ghost use Rattle.clap.specs.Words.{first_value, found_of};
ghost use Rattle.command_line.specs.Answers.{Gives, GivesBy};
ghost use Rattle.command_line.specs.Values.{plain_text, text_at, is_set as is_set_at, id_of, address_of, has_leading_zero as is_led_by_zero, number_of, number_within as within};

use crate::WordsError;
use clap::ArgMatches;
use cluster_state::Text;
use std::alloc::Global;
use voting_config::NodeId;

// The text, where it is not empty and does not begin with a hyphen.
fn plain(text: &str) -> Option<&str>
    ensures { option_map (λ t. t.now) result ≡ plain_text text.now }
{
    if text.starts_with('-') || text.is_empty() {
        return None;
    }
    Some(text)
}

// The value of an option, where it is not empty and does not begin with a hyphen.
fn value<'a>(matches: &ArgMatches<'a>, name: &str) -> Option<&'a str>
    ensures { option_map (λ t. t.now) result ≡ text_at name.now (first_value (found_of matches.now)) }
{
    matches.get_str(name).and_then(plain)
}

/// The value of an option that has to be given.
pub fn needed<'a>(matches: &ArgMatches<'a>, name: &str) -> Result<&'a str, WordsError>
    ensures { GivesBy (λ t. t.now) result (text_at name.now (first_value (found_of matches.now))) }
{
    match value(matches, name) {
        Some(text) => Ok(text),
        None => Err(WordsError::Usage),
    }
}

/// The value of an option as a text.
pub fn text(alloc: Global, matches: &ArgMatches<'_>, name: &str) -> Result<Text, WordsError>
    ensures { Gives result (text_at name.now (first_value (found_of matches.now))) }
{
    let text = needed(matches, name)?;
    Ok(Text::of(String::from_str(alloc, text)?))
}

/// The value of an option as an id.
pub fn id_at(matches: &ArgMatches<'_>, name: &str) -> Result<NodeId, WordsError>
    ensures { Gives result (option_and_then id_of (text_at name.now (first_value (found_of matches.now)))) }
{
    match id(needed(matches, name)?) {
        Some(id) => Ok(id),
        None => Err(WordsError::Usage),
    }
}

/// The value of an option as a number of 64 bits.
pub fn number_at(matches: &ArgMatches<'_>, name: &str) -> Result<u64, WordsError>
    ensures { Gives result (option_and_then number_of (text_at name.now (first_value (found_of matches.now)))) }
{
    match number(needed(matches, name)?) {
        Some(number) => Ok(number),
        None => Err(WordsError::Usage),
    }
}

/// Whether a flag is set.
pub fn is_set(matches: &ArgMatches<'_>, name: &str) -> bool
    ensures { result ≡ is_set_at name.now (first_value (found_of matches.now)) }
{
    match matches.get_str(name) {
        Some(text) => text == "true",
        None => false,
    }
}

/// The id that the text is.
pub fn id(text: &str) -> Option<NodeId>
    ensures { result ≡ id_of text.now }
{
    NodeId::from_bytes(text.as_bytes())
}

/// The address that the text is: it has no comma.
pub fn address(text: &str) -> Option<&str>
    ensures { option_map (λ t. t.now) result ≡ address_of text.now }
{
    if text.as_bytes().contains(&b',') {
        return None;
    }
    Some(text)
}

fn are_digits(text: &str) -> bool
    ensures { result ≡ list_all is_ascii_digit text.now }
{
    text.as_bytes().iter().all(u8::is_ascii_digit)
}

fn has_leading_zero(text: &str) -> bool
    ensures { result ≡ is_led_by_zero text.now }
{
    text.starts_with('0') && text.len() > 1
}

/// The number of 64 bits that decimal digits alone say, without a zero before others.
pub fn number(text: &str) -> Option<u64>
    ensures { result ≡ number_of text.now }
{
    if !are_digits(text) {
        return None;
    }
    if has_leading_zero(text) {
        return None;
    }
    text.parse().ok()
}

/// The number from `least` to `most` that decimal digits alone say, without a zero before others.
pub fn number_within(text: &str, least: u64, most: u64) -> Option<u64>
    ensures { result ≡ within least most text.now }
{
    let number = number(text)?;
    if number < least || number > most {
        return None;
    }
    Some(number)
}
