//! The words of a line, one after the other.
ghost use Rattle.std.specs.Prelude.{◌≡◌};
ghost use Rattle.voting_config.specs.Lists.{parts_in, space};
ghost use Rattle.schedule_text.specs.Lines.{one, two, any_number, word_and_rest as word_and_rest_of};
ghost use Rattle.schedule_text.specs.Answers.{Gives};
ghost use Rattle.trace_reader.specs.Reading.{rest_of as rest_of_words};
ghost use Rattle.trace_reader.specs.Results.{no_word as no_word_of, some_word as some_word_of, node, node_alone as node_alone_of, node_with_rest as node_with_rest_of};

use schedule_text::{WhyBad, number_at, one_word};
use voting_config::{NodeId, cut};

/// The id that a word is, and else `Id`.
pub fn id_at(word: &[u8]) -> Result<NodeId, WhyBad>
    ensures { result ≡ node.at word.now }
{
    match NodeId::from_bytes(word) {
        Some(id) => Ok(id),
        None => Err(WhyBad::Id),
    }
}

/// The number below 2^64 that a word is, and else `Number`.
pub fn any_number_at(word: &[u8]) -> Result<u64, WhyBad>
    ensures { result ≡ any_number.at word.now }
{
    number_at(word, 0, u64::MAX)
}

/// `Arity` where a word stands after the first one.
pub fn no_word(rest: Option<&[u8]>) -> Result<(), WhyBad>
    ensures { result ≡ no_word_of (parts_in space rest.entry) }
{
    let Some(rest) = rest else {
        return Ok(());
    };
    // For the proof alone: the rest has one more word at least.
    let _ = cut(rest, b' ');
    Err(WhyBad::Arity)
}

/// `Arity` where no word stands after the first one.
pub fn some_word(rest: Option<&[u8]>) -> Result<(), WhyBad>
    ensures { result ≡ some_word_of (parts_in space rest.entry) }
{
    let Some(rest) = rest else {
        return Err(WhyBad::Arity);
    };
    // For the proof alone: the rest has one more word at least.
    let _ = cut(rest, b' ');
    Ok(())
}

/// All that stands after the first word, and `Arity` where there is no space after it.
pub fn rest_of(rest: Option<&[u8]>) -> Result<&[u8], WhyBad>
    ensures { Gives (λ w. w.now) result (rest_of_words (parts_in space rest.entry)) }
{
    let Some(rest) = rest else {
        return Err(WhyBad::Arity);
    };
    Ok(rest)
}

/// The word after the first one, and all that stands after the space after it, further spaces included. `Arity` where there
/// is no such word or space.
pub fn word_and_rest(rest: Option<&[u8]>) -> Result<(&[u8], &[u8]), WhyBad>
    ensures { Gives (λ w. (w.0.now, w.1.now)) result (word_and_rest_of (parts_in space rest.entry)) }
{
    let Some(rest) = rest else {
        return Err(WhyBad::Arity);
    };
    let (word, rest) = cut(rest, b' ');
    let Some(rest) = rest else {
        return Err(WhyBad::Arity);
    };
    Ok((word, rest))
}

/// The one word after the first one, a node.
pub fn node_alone(rest: Option<&[u8]>) -> Result<NodeId, WhyBad>
    ensures { result ≡ node_alone_of (parts_in space rest.entry) }
{
    let word = one_word(rest)?;
    let node = id_at(word)?;
    Ok(node)
}

/// The word after the first one, a node after which something stands.
pub fn node_with_rest(rest: Option<&[u8]>) -> Result<NodeId, WhyBad>
    ensures { result ≡ node_with_rest_of (parts_in space rest.entry) }
{
    let (word, _) = word_and_rest(rest)?;
    let node = id_at(word)?;
    Ok(node)
}

/// The two words after the first one, a node and a number.
pub fn node_and_number(rest: Option<&[u8]>) -> Result<(NodeId, u64), WhyBad>
    ensures { result ≡ (two node any_number).at (parts_in space rest.entry) }
{
    let Some(rest) = rest else {
        return Err(WhyBad::Arity);
    };
    let (first, rest) = cut(rest, b' ');
    let last = one_word(rest)?;
    let node = id_at(first)?;
    let number = any_number_at(last)?;
    Ok((node, number))
}
