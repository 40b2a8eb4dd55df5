//! The line that three words of a generator give.
ghost use Rattle.std.specs.Prelude.{◌≡◌, ◌+◌, ◌<◌, ◌^◌, [], IfOk, IsTrue};
ghost use Rattle.voting_config.specs.Lists.{are_ids_after, items_of};
ghost use Rattle.schedule_generator.specs.Drawn.{config_of, drawn_line as drawn_line_of, node_of, ordinal_of, stop_line as stop_line_of, text_of, way_of};

use schedule_text::{Line, SettingText};
use std::alloc::{AllocError, Global};
use text::{Boxed, Text};
use voting_config::{IdList, NodeId, NodeSet};
use zen_disk::Way;

/// Three words of a generator, in the order in which they were drawn.
#[derive(Clone, Copy)]
pub struct Draw {
    pub first: u32,
    pub second: u32,
    pub third: u32,
}

/// The node of a number: `a` of 0, `b`, `c`, `d`, and around again.
pub fn node(number: u64) -> NodeId
    ensures { result ≡ node_of number }
{
    let letter = b'a' + (number % 4) as u8;
    let Some(id) = NodeId::from_bytes(&[letter]) else {
        unreachable!()
    };
    id
}

/// The nodes that a word names.
pub fn nodes(word: &[u8]) -> NodeSet
    requires { IsTrue (are_ids_after [] (items_of word.now)) }
    ensures { result ≡ items_of word.now }
{
    let Some(ids) = NodeSet::from_bytes(word) else {
        unreachable!()
    };
    ids
}

fn config(word: u32) -> NodeSet
    ensures { result ≡ config_of word }
{
    match word % 4 {
        0 => nodes(b"a,b,c"),
        1 => nodes(b"a,b,c,d"),
        2 => nodes(b"b,c,d"),
        _ => nodes(b"a,b"),
    }
}

fn way(word: u32) -> Way
    ensures { result ≡ way_of word }
{
    match word / 8 % 3 {
        0 => Way::Lost,
        1 => Way::Kept,
        _ => Way::Torn(0xa5),
    }
}

// The text that stands for a step: `s` and its number.
fn text(alloc: Global, step: u64) -> Result<SettingText, AllocError>
    ensures { IfOk result (λ t. t ≡ text_of step) }
{
    let mut word = Text::new(alloc);
    word.word("s")?;
    word.number(step)?;
    let Some(text) = SettingText::from_bytes(word.as_bytes()) else {
        unreachable!()
    };
    Ok(text)
}

fn value_line(alloc: Global, step: u64, leader: NodeId, word: u32) -> Result<Line, AllocError>
    requires { step + 1 < 2 ^ 64 }
    ensures { IfOk result (λ l. l ≡ Line.Value leader (1 + step) (text_of step) (config_of word)) }
{
    let text = text(alloc, step)?;
    let text = Boxed::of(alloc, text)?;
    let config = IdList::of(alloc, &config(word))?;
    let config = Boxed::of(alloc, config)?;
    Ok(Line::Value(leader, 1 + step, text, config))
}

fn stop_line(id: NodeId, word: u32) -> Line
    ensures { result ≡ stop_line_of id word }
{
    if word % 2 == 0 {
        return Line::Crash(id, way(word));
    }
    Line::Fuse(id, 1 + u64::from(word / 2 % 4), way(word))
}

// Of so many messages, one of the last.
fn ordinal(sent: u64, word: u32) -> u64
    ensures { result ≡ ordinal_of sent word }
{
    let back = u64::from(word % 8);
    if back < sent { sent - back } else { 1 }
}

/// The line of a step that these words give, after so many messages.
pub fn drawn_line(alloc: Global, step: u64, sent: u64, draw: Draw) -> Result<Line, AllocError>
    requires { step + 1 < 2 ^ 64 }
    ensures { IfOk result (λ l. l ≡ drawn_line_of step sent draw) }
{
    let kind = draw.first % 16;
    let id = node(u64::from(draw.second));
    let leader = node(step / 100);
    if kind < 2 {
        let leader = Boxed::of(alloc, leader)?;
        return Ok(Line::StartJoin(id, leader, 1 + step / 100));
    }
    if kind == 2 {
        return value_line(alloc, step, leader, draw.third);
    }
    if kind == 3 {
        return Ok(stop_line(id, draw.third));
    }
    if kind < 7 {
        return Ok(Line::Restart(id));
    }
    Ok(Line::Deliver(id, ordinal(sent, draw.third)))
}
