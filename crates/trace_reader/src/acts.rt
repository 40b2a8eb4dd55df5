//! The line of an act.
ghost use Rattle.std.specs.Prelude.{◌≡◌};
ghost use Rattle.voting_config.specs.Lists.{parts_in, space};
ghost use Rattle.schedule_text.specs.Lines.{words_of};
ghost use Rattle.trace_reader.specs.Results.{ending_at as ending_at_of, is_act_word as is_act_word_of, act_words as act_words_of, ended_act as ended_act_of, act_at, won_at, committed_at, mode_words as mode_words_of, mode_at};

use crate::said::{Ending, Mode, Said};
use crate::words::{any_number_at, id_at, node_and_number, some_word, word_and_rest};
use schedule_text::WhyBad;
use voting_config::NodeId;

fn ending_at(word: &[u8]) -> Result<Ending, WhyBad>
    ensures { result ≡ ending_at_of word.now }
{
    if word == b"ok".as_slice() {
        return Ok(Ending::Taken);
    }
    if word.starts_with(b"refused:") {
        return Ok(Ending::Refused);
    }
    if word == b"stopped".as_slice() {
        return Ok(Ending::Stopped);
    }
    if word == b"disk".as_slice() {
        return Ok(Ending::Disk);
    }
    if word == b"crashed".as_slice() {
        return Ok(Ending::Crashed);
    }
    Err(WhyBad::Verb)
}

fn is_act_word(word: &[u8]) -> bool
    ensures { result ≡ is_act_word_of word.now }
{
    word == b"boot".as_slice()
        || word == b"startjoin".as_slice()
        || word == b"join".as_slice()
        || word == b"value".as_slice()
        || word == b"publish".as_slice()
        || word == b"response".as_slice()
        || word == b"commit".as_slice()
}

// Whether these words are an act: its word, and its fields.
fn act_words(rest: Option<&[u8]>) -> Result<(), WhyBad>
    ensures { result ≡ act_words_of (parts_in space rest.entry) }
{
    let (word, _) = word_and_rest(rest)?;
    if !is_act_word(word) {
        return Err(WhyBad::Verb);
    }
    Ok(())
}

fn ended_act(node: NodeId, rest: Option<&[u8]>) -> Result<Said, WhyBad>
    ensures { result ≡ ended_act_of node (parts_in space rest.entry) }
{
    let (ending, act) = word_and_rest(rest)?;
    let ending = ending_at(ending)?;
    act_words(Some(act))?;
    Ok(Said::Act(node, ending))
}

/// What a line `act` says, by the words after its first one.
pub fn act(rest: Option<&[u8]>) -> Result<Said, WhyBad>
    ensures { result ≡ act_at (parts_in space rest.entry) }
{
    let (word, rest) = word_and_rest(rest)?;
    let node = id_at(word)?;
    ended_act(node, Some(rest))
}

/// What a line `won` says.
pub fn won(rest: Option<&[u8]>) -> Result<Said, WhyBad>
    ensures { result ≡ won_at (parts_in space rest.entry) }
{
    let (node, term) = node_and_number(rest)?;
    Ok(Said::Won(node, term))
}

/// What a line `committed` says of the node of the last line of the schedule.
pub fn committed(actor: NodeId, rest: Option<&[u8]>) -> Result<Said, WhyBad>
    ensures { result ≡ committed_at actor (parts_in space rest.entry) }
{
    some_word(rest)?;
    Ok(Said::Committed(actor))
}

fn mode_words(node: NodeId, word: &[u8], rest: &[u8]) -> Result<Said, WhyBad>
    ensures { result ≡ mode_words_of node word.now rest.now }
{
    if word == b"follower".as_slice() {
        let (_, term) = node_and_number(Some(rest))?;
        return Ok(Said::Mode(node, Mode::Follower, term));
    }
    if word == b"candidate".as_slice() {
        let term = any_number_at(rest)?;
        return Ok(Said::Mode(node, Mode::Candidate, term));
    }
    if word == b"leader".as_slice() {
        let term = any_number_at(rest)?;
        return Ok(Said::Mode(node, Mode::Leader, term));
    }
    Err(WhyBad::Verb)
}

/// What a line `mode` says.
pub fn mode(rest: Option<&[u8]>) -> Result<Said, WhyBad>
    ensures { result ≡ mode_at (parts_in space rest.entry) }
{
    let (word, rest) = word_and_rest(rest)?;
    let node = id_at(word)?;
    let (word, rest) = word_and_rest(Some(rest))?;
    mode_words(node, word, rest)
}
