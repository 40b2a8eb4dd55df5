//! The echo of a line of a schedule.
ghost use Rattle.std.specs.Prelude.{◌≡◌};
ghost use Rattle.schedule_text.specs.Answers.{Answers};
ghost use Rattle.trace_reader.specs.Echoes.{word_at, level_of as level_of_verb, with_word, list_at, ids_in, named_in, said_by as said_by_line, echo_at};

use crate::said::Said;
use schedule_text::{Level, Line, ReadError, WhyBad, read_line};
use std::alloc::Global;
use voting_config::{NodeId, NodeSet, cut};

fn level_of(verb: &[u8]) -> Level
    ensures { result ≡ level_of_verb verb.now }
{
    if verb == b"tick".as_slice() {
        return Level::Node;
    }
    if verb == b"client".as_slice() {
        return Level::Node;
    }
    if verb == b"disconnect".as_slice() {
        return Level::Node;
    }
    Level::Core
}

fn first_word(line: &[u8]) -> &[u8]
    ensures { result.now ≡ word_at 0 line.now }
{
    cut(line, b' ').0
}

// The second word of a line, and nothing where it has fewer.
fn second_word(line: &[u8]) -> &[u8]
    ensures { result.now ≡ word_at 1 line.now }
{
    let (_, Some(rest)) = cut(line, b' ') else {
        return &[];
    };
    cut(rest, b' ').0
}

fn third_word(line: &[u8]) -> &[u8]
    ensures { result.now ≡ word_at 2 line.now }
{
    let (_, Some(rest)) = cut(line, b' ') else {
        return &[];
    };
    let (_, Some(rest)) = cut(rest, b' ') else {
        return &[];
    };
    cut(rest, b' ').0
}

fn fifth_word(line: &[u8]) -> &[u8]
    ensures { result.now ≡ word_at 4 line.now }
{
    let (_, Some(rest)) = cut(line, b' ') else {
        return &[];
    };
    let (_, Some(rest)) = cut(rest, b' ') else {
        return &[];
    };
    let (_, Some(rest)) = cut(rest, b' ') else {
        return &[];
    };
    let (_, Some(rest)) = cut(rest, b' ') else {
        return &[];
    };
    cut(rest, b' ').0
}

// The word that is a list of nodes, and nothing where the line has none.
fn list_word(line: &[u8]) -> &[u8]
    ensures { result.now ≡ list_at line.now }
{
    if first_word(line) == b"value".as_slice() {
        return fifth_word(line);
    }
    &[]
}

fn ids_of(word: &[u8]) -> NodeSet
    ensures { result ≡ ids_in word.now }
{
    match NodeSet::from_bytes(word) {
        Some(ids) => ids,
        None => NodeSet::new(),
    }
}

// Adds a word that is an id, if there is room.
fn add_word(ids: &mut NodeSet, word: &[u8])
    ensures { ids.new ≡ with_word word.now ids.old }
{
    let Some(id) = NodeId::from_bytes(word) else {
        return;
    };
    ids.put_if_room(id);
}

fn named(line: &[u8]) -> NodeSet
    ensures { result ≡ named_in line.now }
{
    let mut ids = ids_of(list_word(line));
    add_word(&mut ids, second_word(line));
    add_word(&mut ids, third_word(line));
    ids
}

fn said_by(line: &Line) -> Said
    ensures { result ≡ said_by_line line.now }
{
    match line {
        Line::Boot(node) => Said::Event(*node),
        Line::StartJoin(node, _, _) => Said::Event(*node),
        Line::Value(node, _, _, _) => Said::Event(*node),
        Line::Deliver(node, number) => Said::Delivery(*node, *number),
        Line::Crash(node, _) => Said::Event(*node),
        Line::Restart(node) => Said::Event(*node),
        Line::Fuse(node, _, _) => Said::Event(*node),
        Line::Fail(node, _) => Said::Event(*node),
        Line::Tick(node, _, _) => Said::Event(*node),
        Line::Client(node, _) => Said::Event(*node),
        Line::Disconnect(node, _) => Said::Event(*node),
    }
}

/// What the echo of a line of a schedule says, whose bytes stand after `> `, or why it is no such line.
pub fn read_echo(alloc: Global, bytes: &[u8]) -> Result<Said, ReadError<WhyBad>>
    ensures { Answers result (echo_at bytes.now) }
{
    let ids = named(bytes);
    match read_line(alloc, level_of(first_word(bytes)), &ids, bytes) {
        Ok(line) => Ok(said_by(&line)),
        Err(ReadError::Memory) => Err(ReadError::Memory),
        Err(ReadError::Bad(why)) => Err(ReadError::Bad(why)),
    }
}
