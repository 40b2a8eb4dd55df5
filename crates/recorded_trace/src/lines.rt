//! The lines of a recorded trace.
ghost use Rattle.std.specs.Prelude.{◌≡◌, IfOk, IfSome, Result};
ghost use Rattle.schedule_text.specs.declared.fault.WhyBad.{WhyBad as TheWhy};
ghost use Rattle.recorded_trace.specs.Entries.{IsEntry};
ghost use Rattle.voting_config.specs.Lists.{parts_in, space};
ghost use Rattle.schedule_text.specs.Answers.{Answers};
ghost use Rattle.recorded_trace.specs.declared.entry.Entry.{Entry as TheEntry};
ghost use Rattle.recorded_trace.specs.Lines.{is_numbered as is_numbered_of, is_skipped as is_skipped_of, shaped as shaped_of, shown_at as shown_at_of, some_ids as some_ids_of, initial_of, header_at as header_at_of};

use crate::acts::{act, record};
use crate::entry::Entry;
use crate::fault::Why;
use crate::words::any_number_at;
use schedule_text::{ReadError, WhyBad};
use std::alloc::Global;
use voting_config::{NodeSet, cut};

fn is_numbered(word: &[u8]) -> bool
    ensures { result ≡ is_numbered_of word.now }
{
    match word.split_first() {
        Some((first, digits)) => *first == b'm' && any_number_at(digits).is_ok(),
        None => false,
    }
}

fn is_skipped(word: &[u8]) -> bool
    ensures { result ≡ is_skipped_of word.now }
{
    word == b">".as_slice()
        || word == b"won".as_slice()
        || word == b"committed".as_slice()
        || word == b"mode".as_slice()
        || word == b"drop".as_slice()
        || word == b"reply".as_slice()
        || word == b"unsent".as_slice()
        || word == b"misrouted".as_slice()
        || word == b"down".as_slice()
        || word == b"up".as_slice()
        || word == b"crashed".as_slice()
        || word == b"disk".as_slice()
        || word == b"nomemory".as_slice()
        || is_numbered(word)
}

fn shaped(read: Result<Entry, ReadError<WhyBad>>) -> Result<Option<Entry>, ReadError<Why>>
    ensures read { (there : Result TheEntry TheWhy) → Answers read there → Answers result (shaped_of there) }
    ensures entry { IfOk read IsEntry → IfOk result (λ told. IfSome told IsEntry) }
{
    match read {
        Ok(entry) => Ok(Some(entry)),
        Err(ReadError::Bad(_)) => Err(ReadError::Bad(Why::Shape)),
        Err(ReadError::Memory) => Err(ReadError::Memory),
    }
}

/// What a line shows: an entry, or nothing that an audit looks at.
pub fn shown_at(alloc: Global, line: &[u8]) -> Result<Option<Entry>, ReadError<Why>>
    ensures read { Answers result (shown_at_of line.now) }
    ensures entry { IfOk result (λ told. IfSome told IsEntry) }
{
    let (verb, rest) = cut(line, b' ');
    if verb == b"act".as_slice() {
        return shaped(act(alloc, rest));
    }
    if verb == b"record".as_slice() {
        return shaped(record(alloc, rest));
    }
    if is_skipped(verb) {
        return Ok(None);
    }
    Err(ReadError::Bad(Why::Word))
}

fn some_ids(ids: Option<NodeSet>) -> Result<NodeSet, Why>
    ensures { result ≡ some_ids_of ids }
{
    let Some(ids) = ids else {
        return Err(Why::Header);
    };
    if ids.as_slice().is_empty() {
        return Err(Why::Header);
    }
    Ok(ids)
}

fn initial(rest: Option<&[u8]>) -> Result<NodeSet, Why>
    ensures { result ≡ initial_of (parts_in space rest.entry) }
{
    let Some(rest) = rest else {
        return Err(Why::Header);
    };
    let (word, more) = cut(rest, b' ');
    if let Some(more) = more {
        let _ = cut(more, b' ');
        return Err(Why::Header);
    }
    some_ids(NodeSet::from_bytes(word))
}

/// The initial configuration that the first line names.
pub fn header_at(line: &[u8]) -> Result<NodeSet, Why>
    ensures { result ≡ header_at_of line.now }
{
    let (verb, rest) = cut(line, b' ');
    if verb != b"initial".as_slice() {
        return Err(Why::Header);
    }
    initial(rest)
}
