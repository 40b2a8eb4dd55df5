//! The words of a line that shows an act or a record.
ghost use Rattle.std.specs.Prelude.{◌≡◌};
ghost use Rattle.voting_config.specs.Lists.{parts_in, comma, space};
ghost use Rattle.schedule_text.specs.Answers.{Gives};
ghost use Rattle.schedule_text.specs.Lines.{one_word, two_words, any_number, one, word_and_rest as word_and_rest_of};
ghost use Rattle.recorded_trace.specs.Words.{node, ids, state_id, no_word};
ghost use Rattle.recorded_trace.specs.Causes.{two_numbers as two_numbers_of};

use cluster_state::StateId;
use schedule_text::{WhyBad, number_at};
use voting_config::{NodeId, NodeSet, cut};

/// The id that a word is.
pub fn id_at(word: &[u8]) -> Result<NodeId, WhyBad>
    ensures { result ≡ node.at word.now }
{
    match NodeId::from_bytes(word) {
        Some(id) => Ok(id),
        None => Err(WhyBad::Id),
    }
}

/// The number below 2^64 that a word is.
pub fn any_number_at(word: &[u8]) -> Result<u64, WhyBad>
    ensures { result ≡ any_number.at word.now }
{
    number_at(word, 0, u64::MAX)
}

/// The word after the first one, and all that stands after the space after it. `Arity` where there is no such word or space.
pub fn word_and_rest(rest: Option<&[u8]>) -> Result<(&[u8], &[u8]), WhyBad>
    ensures { Gives (λ w. (w.0.now, w.1.now)) result (word_and_rest_of (parts_in space rest.entry)) }
{
    let Some(rest) = rest else {
        return Err(WhyBad::Arity);
    };
    let (word, rest) = cut(rest, b' ');
    let Some(rest) = rest else {
        return Err(WhyBad::Arity);
    };
    Ok((word, rest))
}

/// The ids that a word lists.
pub fn ids_at(word: &[u8]) -> Result<NodeSet, WhyBad>
    ensures { result ≡ ids.at word.now }
{
    match NodeSet::from_bytes(word) {
        Some(ids) => Ok(ids),
        None => Err(WhyBad::List),
    }
}

// The one part, where parts are cut by another byte than a space.
fn one_part(rest: Option<&[u8]>, at: u8) -> Result<&[u8], WhyBad>
    ensures { Gives (λ w. w.now) result (one_word (parts_in at rest.entry)) }
{
    let Some(rest) = rest else {
        return Err(WhyBad::Arity);
    };
    let (part, rest) = cut(rest, at);
    let Some(rest) = rest else {
        return Ok(part);
    };
    let _ = cut(rest, at);
    Err(WhyBad::Arity)
}

fn two_parts(rest: Option<&[u8]>, at: u8) -> Result<(&[u8], &[u8]), WhyBad>
    ensures { Gives (λ w. (w.0.now, w.1.now)) result (two_words (parts_in at rest.entry)) }
{
    let Some(rest) = rest else {
        return Err(WhyBad::Arity);
    };
    let (first, rest) = cut(rest, at);
    let last = one_part(rest, at)?;
    Ok((first, last))
}

/// The term and the version that a word says.
pub fn state_id_at(word: &[u8]) -> Result<StateId, WhyBad>
    ensures { result ≡ state_id.at word.now }
{
    let (term, version) = two_parts(Some(word), b'/')?;
    let term = any_number_at(term)?;
    let version = any_number_at(version)?;
    Ok(StateId { term, version })
}

/// Two numbers with a comma between them.
pub fn two_numbers(values: Option<&[u8]>) -> Result<(u64, u64), WhyBad>
    ensures { result ≡ two_numbers_of (parts_in comma values.entry) }
{
    let (first, last) = two_parts(values, b',')?;
    let first = any_number_at(first)?;
    let last = any_number_at(last)?;
    Ok((first, last))
}

/// A number alone.
pub fn one_number(values: Option<&[u8]>) -> Result<u64, WhyBad>
    ensures { result ≡ (one any_number).at (parts_in comma values.entry) }
{
    let word = one_part(values, b',')?;
    let number = any_number_at(word)?;
    Ok(number)
}

/// An id alone.
pub fn one_id(values: Option<&[u8]>) -> Result<NodeId, WhyBad>
    ensures { result ≡ (one node).at (parts_in comma values.entry) }
{
    let word = one_part(values, b',')?;
    let id = id_at(word)?;
    Ok(id)
}

/// `Arity` where there is a value.
pub fn no_value(values: Option<&[u8]>) -> Result<(), WhyBad>
    ensures { result ≡ no_word (parts_in comma values.entry) }
{
    let Some(values) = values else {
        return Ok(());
    };
    let _ = cut(values, b',');
    Err(WhyBad::Arity)
}
