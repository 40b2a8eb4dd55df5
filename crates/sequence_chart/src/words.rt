//! Parts of a line, and what of a line is shown.
ghost use Rattle.std.specs.Prelude.{◌≡◌, ◌++◌, ◌≤◌, ◌+◌, length, OnOk};
ghost use Rattle.sequence_chart.specs.Words.{before as before_of, behind as behind_of, last_part as last_part_of, behind_parent as behind_parent_of, term_word as term_word_of, version_word as version_word_of, short_json as short_json_of, short_words as short_words_of, capped as capped_of};

use schedule_text::number_at;
use std::alloc::AllocError;
use text::Text;
use voting_config::cut;

/// What stands before the first such byte: all where there is none.
pub fn before(bytes: &[u8], at: u8) -> &[u8]
    ensures { result.now ≡ before_of at bytes.now }
{
    cut(bytes, at).0
}

/// What stands after the first such byte: nothing where there is none.
pub fn behind(bytes: &[u8], at: u8) -> &[u8]
    ensures { result.now ≡ behind_of at bytes.now }
{
    match cut(bytes, at).1 {
        Some(rest) => rest,
        None => &[],
    }
}

// What stands after the last such byte: all where there is none.
fn last_part(bytes: &[u8], at: u8) -> &[u8]
    ensures { result.now ≡ last_part_of at bytes.now }
{
    let (mut part, mut rest) = cut(bytes, at);
    while let Some(more) = rest {
        let next = cut(more, at);
        part = next.0;
        rest = next.1;
    }
    part
}

// What stands after the parent of a state written as JSON: an object, or none.
fn behind_parent(parent: &[u8]) -> &[u8]
    ensures { result.now ≡ behind_parent_of parent.now }
{
    if parent.starts_with(b"{") {
        behind(parent, b'}')
    } else {
        parent
    }
}

/// The word where a state written as JSON has its term.
pub fn term_word(json: &[u8]) -> &[u8]
    ensures { result.now ≡ term_word_of json.now }
{
    let parent = behind(behind(behind(json, b':'), b':'), b':');
    before(behind(behind_parent(parent), b':'), b',')
}

fn version_word(json: &[u8]) -> &[u8]
    ensures { result.now ≡ version_word_of json.now }
{
    before(last_part(json, b':'), b'}')
}

// A state is shown by its term and version, any other object as `{..}`.
fn short_json(text: &mut Text, json: &[u8]) -> Result<(), AllocError>
    ensures { OnOk result (text.new ≡ text.old ++ short_json_of json.now) }
{
    let Ok(term) = number_at(term_word(json), 0, u64::MAX) else {
        return text.word("{..}");
    };
    let Ok(version) = number_at(version_word(json), 0, u64::MAX) else {
        return text.word("{..}");
    };
    text.number(term)?;
    text.word("/")?;
    text.number(version)
}

/// Writes words of a trace, with the JSON at their end short.
pub fn short_words(text: &mut Text, words: &[u8]) -> Result<(), AllocError>
    ensures { OnOk result (text.new ≡ text.old ++ short_words_of words.now) }
{
    let json = behind(words, b'{');
    text.bytes(before(words, b'{'))?;
    if json.is_empty() {
        return Ok(());
    }
    short_json(text, json)
}

/// Writes bytes, or where they are too many the first of them and two dots.
pub fn write_capped(text: &mut Text, most: usize, bytes: &[u8]) -> Result<(), AllocError>
    ensures { OnOk result (text.new ≡ text.old ++ capped_of most bytes.now) }
{
    if bytes.len() <= most {
        return text.bytes(bytes);
    }
    text.bytes(&bytes[..most])?;
    text.word("..")
}
