//! A line of a schedule read from its words.
ghost use Rattle.std.specs.Prelude.{◌≡◌, ◌==◌, MatchOption, Option, [], codes, drop, false, get_or, not, true};
ghost use Rattle.std.specs.List.{list_all};
ghost use Rattle.std.specs.Str.{bytes_eq};
ghost use Rattle.voting_config.specs.Lists.{parts_in, space};
ghost use Rattle.schedule_text.specs.Lines.{one_word as one_word_of, two_words as two_words_of, three_words as three_words_of, four_words as four_words_of, word_and_rest as word_and_rest_of, boot_at, start_join_at, value_at, deliver_at, crash_at, restart_at, fuse_at, fail_at, tick_at, disconnect_at, client_at, stop_verb_at, core_line_at, node_line_at, line_at, words_of};
ghost use Rattle.schedule_text.specs.Answers.{Gives, Answers};

use crate::fault::{ReadError, WhyBad};
use crate::level::Level;
use crate::line_bytes::LineBytes;
use crate::modes::mode_at;
use crate::schedule::Line;
use crate::words::{config_at, node_at, number_at, text_at};
use std::alloc::Global;
use text::Boxed;
use voting_config::{NodeId, NodeSet, cut};

/// The greatest number that a `deliver`, `fuse` or `fail` line has.
pub const MAX_ORDINAL: u64 = 4294967295;

/// The latest moment of a `tick` line, in milliseconds.
pub const MAX_MOMENT: u64 = 4611686018427387904;

/// The one word after a verb, and `Arity` where there is another number of words.
#[tactic(auto, using(crate::proofs::Splitting::words_are))]
pub fn one_word(rest: Option<&[u8]>) -> Result<&[u8], WhyBad>
    ensures { Gives (λ w. w.now) result (one_word_of (parts_in space rest.entry)) }
{
    let Some(rest) = rest else {
        return Err(WhyBad::Arity);
    };
    let (word, rest) = cut(rest, b' ');
    match rest {
        None => Ok(word),
        Some(_) => Err(WhyBad::Arity),
    }
}

/// The two words after a verb, and `Arity` where there is another number of words.
pub fn two_words(rest: Option<&[u8]>) -> Result<(&[u8], &[u8]), WhyBad>
    ensures { Gives (λ w. (w.0.now, w.1.now)) result (two_words_of (parts_in space rest.entry)) }
{
    let Some(rest) = rest else {
        return Err(WhyBad::Arity);
    };
    let (first, rest) = cut(rest, b' ');
    let last = one_word(rest)?;
    Ok((first, last))
}

/// The three words after a verb, and `Arity` where there is another number of words.
pub fn three_words(rest: Option<&[u8]>) -> Result<(&[u8], &[u8], &[u8]), WhyBad>
    ensures { Gives (λ w. (w.0.now, w.1.now, w.2.now)) result (three_words_of (parts_in space rest.entry)) }
{
    let Some(rest) = rest else {
        return Err(WhyBad::Arity);
    };
    let (first, rest) = cut(rest, b' ');
    let (second, third) = two_words(rest)?;
    Ok((first, second, third))
}

fn boot(ids: &NodeSet, rest: Option<&[u8]>) -> Result<Line, ReadError<WhyBad>>
    ensures { Answers result (boot_at ids.now (parts_in space rest.entry)) }
{
    let node = one_word(rest)?;
    let node = node_at(ids, node)?;
    Ok(Line::Boot(node))
}

fn start_join(alloc: Global, ids: &NodeSet, rest: Option<&[u8]>) -> Result<Line, ReadError<WhyBad>>
    ensures { Answers result (start_join_at ids.now (parts_in space rest.entry)) }
{
    let (node, candidate, term) = three_words(rest)?;
    let node = node_at(ids, node)?;
    let candidate = node_at(ids, candidate)?;
    let term = number_at(term, 0, u64::MAX)?;
    let Ok(candidate) = Boxed::of(alloc, candidate) else {
        return Err(ReadError::Memory);
    };
    Ok(Line::StartJoin(node, candidate, term))
}

fn deliver(ids: &NodeSet, rest: Option<&[u8]>) -> Result<Line, ReadError<WhyBad>>
    ensures { Answers result (deliver_at ids.now (parts_in space rest.entry)) }
{
    let (node, message) = two_words(rest)?;
    let node = node_at(ids, node)?;
    let message = number_at(message, 1, MAX_ORDINAL)?;
    Ok(Line::Deliver(node, message))
}

/// The four words after a verb, and `Arity` where there is another number of words.
pub fn four_words(rest: Option<&[u8]>) -> Result<(&[u8], &[u8], &[u8], &[u8]), WhyBad>
    ensures { Gives (λ w. (w.0.now, w.1.now, w.2.now, w.3.now)) result (four_words_of (parts_in space rest.entry)) }
{
    let Some(rest) = rest else {
        return Err(WhyBad::Arity);
    };
    let (first, rest) = cut(rest, b' ');
    let (second, third, fourth) = three_words(rest)?;
    Ok((first, second, third, fourth))
}

fn value(alloc: Global, ids: &NodeSet, rest: Option<&[u8]>) -> Result<Line, ReadError<WhyBad>>
    ensures { Answers result (value_at ids.now (parts_in space rest.entry)) }
{
    let (node, version, text, config) = four_words(rest)?;
    let node = node_at(ids, node)?;
    let version = number_at(version, 0, u64::MAX)?;
    let text = text_at(text)?;
    let config = match config_at(alloc, ids, config) {
        Ok(config) => config,
        Err(fault) => return Err(fault),
    };
    let Ok(text) = Boxed::of(alloc, text) else {
        return Err(ReadError::Memory);
    };
    Ok(Line::Value(node, version, text, config))
}

fn crash(ids: &NodeSet, rest: Option<&[u8]>) -> Result<Line, ReadError<WhyBad>>
    ensures { Answers result (crash_at ids.now (parts_in space rest.entry)) }
{
    let (node, mode) = two_words(rest)?;
    let node = node_at(ids, node)?;
    let mode = mode_at(mode)?;
    Ok(Line::Crash(node, mode))
}

fn restart(ids: &NodeSet, rest: Option<&[u8]>) -> Result<Line, ReadError<WhyBad>>
    ensures { Answers result (restart_at ids.now (parts_in space rest.entry)) }
{
    let node = one_word(rest)?;
    let node = node_at(ids, node)?;
    Ok(Line::Restart(node))
}

fn fuse(ids: &NodeSet, rest: Option<&[u8]>) -> Result<Line, ReadError<WhyBad>>
    ensures { Answers result (fuse_at ids.now (parts_in space rest.entry)) }
{
    let (node, count, mode) = three_words(rest)?;
    let node = node_at(ids, node)?;
    let count = number_at(count, 1, MAX_ORDINAL)?;
    let mode = mode_at(mode)?;
    Ok(Line::Fuse(node, count, mode))
}

fn fail(ids: &NodeSet, rest: Option<&[u8]>) -> Result<Line, ReadError<WhyBad>>
    ensures { Answers result (fail_at ids.now (parts_in space rest.entry)) }
{
    let (node, call) = two_words(rest)?;
    let node = node_at(ids, node)?;
    let call = number_at(call, 1, MAX_ORDINAL)?;
    Ok(Line::Fail(node, call))
}

fn tick(ids: &NodeSet, rest: Option<&[u8]>) -> Result<Line, ReadError<WhyBad>>
    ensures { Answers result (tick_at ids.now (parts_in space rest.entry)) }
{
    let (node, now, word) = three_words(rest)?;
    let node = node_at(ids, node)?;
    let now = number_at(now, 0, MAX_MOMENT)?;
    let word = number_at(word, 0, u64::MAX)?;
    Ok(Line::Tick(node, now, word))
}

fn disconnect(alloc: Global, ids: &NodeSet, rest: Option<&[u8]>) -> Result<Line, ReadError<WhyBad>>
    ensures { Answers result (disconnect_at ids.now (parts_in space rest.entry)) }
{
    let (node, peer) = two_words(rest)?;
    let node = node_at(ids, node)?;
    let peer = node_at(ids, peer)?;
    let Ok(peer) = Boxed::of(alloc, peer) else {
        return Err(ReadError::Memory);
    };
    Ok(Line::Disconnect(node, peer))
}

// The first word after a verb, and all that follows the space after it, further spaces included.
fn word_and_rest(rest: Option<&[u8]>) -> Result<(&[u8], &[u8]), WhyBad>
    ensures { Gives (λ w. (w.0.now, w.1.now)) result (word_and_rest_of (parts_in space rest.entry)) }
{
    let Some(rest) = rest else {
        return Err(WhyBad::Arity);
    };
    let (word, rest) = cut(rest, b' ');
    let Some(rest) = rest else {
        return Err(WhyBad::Arity);
    };
    Ok((word, rest))
}

// The line `client`, but for its bytes, which are not yet copied.
fn client_parts<'a>(ids: &NodeSet, rest: Option<&'a [u8]>) -> Result<(NodeId, &'a [u8]), WhyBad>
    ensures { Gives (λ c. Line.Client c.0 c.1.now) result (client_at ids.now (parts_in space rest.entry)) }
{
    let (node, line) = word_and_rest(rest)?;
    let node = node_at(ids, node)?;
    Ok((node, line))
}

fn client(alloc: Global, ids: &NodeSet, rest: Option<&[u8]>) -> Result<Line, ReadError<WhyBad>>
    ensures { Answers result (client_at ids.now (parts_in space rest.entry)) }
{
    let (node, line) = match client_parts(ids, rest) {
        Ok(parts) => parts,
        Err(why) => return Err(ReadError::Bad(why)),
    };
    let Ok(line) = LineBytes::of(alloc, line) else {
        return Err(ReadError::Memory);
    };
    Ok(Line::Client(node, line))
}

// What stands after this verb, where it is the first word of the line, as `cut` gives it.
fn after_verb<'a, const N: usize>(line: &'a [u8], verb: &[u8; N]) -> Option<Option<&'a [u8]>>
    requires { list_all (λ b. not (b == space)) verb.now ≡ true }
    ensures { MatchOption result (bytes_eq (get_or (words_of line.now) 0 []) verb.now ≡ false)
        (λ rest. (bytes_eq (get_or (words_of line.now) 0 []) verb.now ≡ true) × (drop 1 (words_of line.now) ≡ parts_in space rest)) }
{
    if line.len() < N {
        return None;
    }
    for i in 0..N {
        if line[i] != verb[i] {
            return None;
        }
    }
    if line.len() == N {
        return Some(None);
    }
    if line[N] != b' ' {
        return None;
    }
    Some(Some(&line[N + 1..]))
}

// A line that crashes a node, starts it again or lets its disk fail.
fn stop_verb_line(ids: &NodeSet, line: &[u8]) -> Result<Line, ReadError<WhyBad>>
    ensures { Answers result (stop_verb_at ids.now (get_or (words_of line.now) 0 []) (drop 1 (words_of line.now))) }
{
    if let Some(rest) = after_verb(line, b"crash") {
        return crash(ids, rest);
    }
    if let Some(rest) = after_verb(line, b"restart") {
        return restart(ids, rest);
    }
    if let Some(rest) = after_verb(line, b"fuse") {
        return fuse(ids, rest);
    }
    if let Some(rest) = after_verb(line, b"fail") {
        return fail(ids, rest);
    }
    Err(ReadError::Bad(WhyBad::Verb))
}

// A line of level core that delivers no message.
fn core_line(alloc: Global, ids: &NodeSet, line: &[u8]) -> Result<Line, ReadError<WhyBad>>
    requires { bytes_eq (get_or (words_of line.now) 0 []) (codes "deliver") ≡ false }
    ensures { Answers result (core_line_at ids.now (get_or (words_of line.now) 0 []) (drop 1 (words_of line.now))) }
{
    if let Some(rest) = after_verb(line, b"value") {
        return value(alloc, ids, rest);
    }
    if let Some(rest) = after_verb(line, b"boot") {
        return boot(ids, rest);
    }
    if let Some(rest) = after_verb(line, b"startjoin") {
        return start_join(alloc, ids, rest);
    }
    stop_verb_line(ids, line)
}

// A line of level node that delivers no message.
fn node_line(alloc: Global, ids: &NodeSet, line: &[u8]) -> Result<Line, ReadError<WhyBad>>
    requires { bytes_eq (get_or (words_of line.now) 0 []) (codes "deliver") ≡ false }
    ensures { Answers result (node_line_at ids.now (get_or (words_of line.now) 0 []) (drop 1 (words_of line.now))) }
{
    if let Some(rest) = after_verb(line, b"client") {
        return client(alloc, ids, rest);
    }
    if let Some(rest) = after_verb(line, b"tick") {
        return tick(ids, rest);
    }
    if let Some(rest) = after_verb(line, b"disconnect") {
        return disconnect(alloc, ids, rest);
    }
    stop_verb_line(ids, line)
}

/// The line that these bytes are, which have no line feed, or why they are no line of these nodes at this level.
#[tactic(auto, using(crate::proofs::Splitting::words_are))]
pub fn read_line(
    alloc: Global,
    level: Level,
    ids: &NodeSet,
    bytes: &[u8],
) -> Result<Line, ReadError<WhyBad>>
    ensures { Answers result (line_at level ids.now bytes.now) }
{
    // Most lines of a schedule deliver a message, at either level.
    if let Some(rest) = after_verb(bytes, b"deliver") {
        return deliver(ids, rest);
    }
    match level {
        Level::Core => core_line(alloc, ids, bytes),
        Level::Node => node_line(alloc, ids, bytes),
    }
}
