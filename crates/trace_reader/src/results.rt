//! The line of a result.
ghost use Rattle.std.specs.Prelude.{◌≡◌};
ghost use Rattle.voting_config.specs.Lists.{parts_in, space};
ghost use Rattle.schedule_text.specs.Answers.{Gives};
ghost use Rattle.trace_reader.specs.Results.{only_part as only_part_of, sender_at as sender_at_of, receiver_at as receiver_at_of, ends_at as ends_at_of, sent_at, message_at, state_at, note_at, delivery_at, result_at};

use crate::acts::{act, committed, mode, won};
use crate::said::Said;
use crate::words::{any_number_at, id_at, no_word, node_alone, node_with_rest, word_and_rest};
use schedule_text::WhyBad;
use voting_config::{NodeId, cut};

// What stands after the arrow of a message.
fn only_part(rest: Option<&[u8]>) -> Result<&[u8], WhyBad>
    ensures { Gives (λ w. w.now) result (only_part_of (parts_in 62 rest.entry)) }
{
    let Some(rest) = rest else {
        return Err(WhyBad::Id);
    };
    let (part, rest) = cut(rest, b'>');
    let Some(rest) = rest else {
        return Ok(part);
    };
    // For the proof alone: the rest has one more part at least, so these are too many.
    let _ = cut(rest, b'>');
    Err(WhyBad::Id)
}

fn sender_at(word: &[u8]) -> Result<NodeId, WhyBad>
    ensures { result ≡ sender_at_of word.now }
{
    let last = word.len().saturating_sub(1);
    if &word[last..] != b"-".as_slice() {
        return Err(WhyBad::Id);
    }
    id_at(&word[..last])
}

fn receiver_at(word: &[u8]) -> Result<Option<NodeId>, WhyBad>
    ensures { result ≡ receiver_at_of word.now }
{
    if word == b"*".as_slice() {
        return Ok(None);
    }
    let id = id_at(word)?;
    Ok(Some(id))
}

fn ends_at(word: &[u8]) -> Result<Said, WhyBad>
    ensures { result ≡ ends_at_of word.now }
{
    let (from, to) = cut(word, b'>');
    let to = only_part(to)?;
    let from = sender_at(from)?;
    let to = receiver_at(to)?;
    Ok(Said::Sent(from, to))
}

fn sent(next: u64, digits: &[u8], rest: Option<&[u8]>) -> Result<Said, WhyBad>
    ensures { result ≡ sent_at next digits.now (parts_in space rest.entry) }
{
    let number = any_number_at(digits)?;
    if number != next {
        return Err(WhyBad::Number);
    }
    let (ends, _) = word_and_rest(rest)?;
    ends_at(ends)
}

fn message(next: u64, verb: &[u8], rest: Option<&[u8]>) -> Result<Said, WhyBad>
    ensures { result ≡ message_at next verb.now (parts_in space rest.entry) }
{
    let first = verb.len().min(1);
    if &verb[..first] != b"m".as_slice() {
        return Err(WhyBad::Verb);
    }
    sent(next, &verb[first..], rest)
}

fn state(next: u64, verb: &[u8], rest: Option<&[u8]>) -> Result<Said, WhyBad>
    ensures { result ≡ state_at next verb.now (parts_in space rest.entry) }
{
    if verb == b"crashed".as_slice() {
        let node = node_alone(rest)?;
        return Ok(Said::Crashed(node));
    }
    if verb == b"disk".as_slice() {
        let node = node_alone(rest)?;
        return Ok(Said::Disk(node));
    }
    if verb == b"down".as_slice() {
        let node = node_alone(rest)?;
        return Ok(Said::Down(node));
    }
    if verb == b"up".as_slice() {
        let node = node_alone(rest)?;
        return Ok(Said::Up(node));
    }
    message(next, verb, rest)
}

fn note(next: u64, verb: &[u8], rest: Option<&[u8]>) -> Result<Said, WhyBad>
    ensures { result ≡ note_at next verb.now (parts_in space rest.entry) }
{
    if verb == b"record".as_slice() {
        let node = node_with_rest(rest)?;
        return Ok(Said::Opened(node));
    }
    if verb == b"drop".as_slice() {
        let node = node_with_rest(rest)?;
        return Ok(Said::Dropped(node));
    }
    if verb == b"reply".as_slice() {
        let node = node_with_rest(rest)?;
        return Ok(Said::Replied(node));
    }
    state(next, verb, rest)
}

fn delivery(actor: NodeId, next: u64, verb: &[u8], rest: Option<&[u8]>) -> Result<Said, WhyBad>
    ensures { result ≡ delivery_at actor next verb.now (parts_in space rest.entry) }
{
    if verb == b"unsent".as_slice() {
        no_word(rest)?;
        return Ok(Said::Unsent(actor));
    }
    if verb == b"misrouted".as_slice() {
        no_word(rest)?;
        return Ok(Said::Misrouted(actor));
    }
    note(next, verb, rest)
}

/// What the line of a result says, by its first word and those after it. `actor` is the node of the last line of the schedule,
/// and `next` the number of the next message.
pub fn read_result(
    actor: NodeId,
    next: u64,
    verb: &[u8],
    rest: Option<&[u8]>,
) -> Result<Said, WhyBad>
    ensures { result ≡ result_at actor next verb.now (parts_in space rest.entry) }
{
    if verb == b"act".as_slice() {
        return act(rest);
    }
    if verb == b"won".as_slice() {
        return won(rest);
    }
    if verb == b"committed".as_slice() {
        return committed(actor, rest);
    }
    if verb == b"mode".as_slice() {
        return mode(rest);
    }
    delivery(actor, next, verb, rest)
}
