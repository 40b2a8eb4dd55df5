//! How an act ended, by the word that says so.
ghost use Rattle.std.specs.Prelude.{◌≡◌, List, ℕ};
ghost use Rattle.voting_config.specs.Lists.{parts_in, parts_of, comma};
ghost use Rattle.schedule_text.specs.Answers.{Gives};
ghost use Rattle.recorded_trace.specs.Causes.{inside as inside_of, called as called_of, plain, initial_at, start_at, join_at, value_at, publish_at, response_at, commit_at, cause_of as cause_of_kind, cause_at as cause_at_of, refused_at as refused_at_of, ending_at as ending_at_of};

use crate::kind::Kind;
use crate::words::{no_value, one_id, one_number, two_numbers};
use cluster_state::{
    CommitCause, InitialCause, JoinCause, PublishCause, ResponseCause, StartCause, ValueCause,
};
use schedule_text::WhyBad;
use trace_text::Ending;
use voting_config::cut;
use world_model::Cause;

// What stands before the closing bracket.
fn inside(word: &[u8]) -> Result<&[u8], WhyBad>
    ensures { Gives (λ w. parts_of comma w.now) result (inside_of word.now) }
{
    let last = word.len().saturating_sub(1);
    if &word[last..] != b")".as_slice() {
        return Err(WhyBad::Arity);
    }
    Ok(&word[..last])
}

// The name, and what stands in its brackets, where it has some.
fn called(word: &[u8]) -> Result<(&[u8], Option<&[u8]>), WhyBad>
    ensures { Gives (λ c. (c.0.now, parts_in comma c.1)) result (called_of (parts_of 40 word.now)) }
{
    let (name, rest) = cut(word, b'(');
    let Some(rest) = rest else {
        return Ok((name, None));
    };
    let (values, more) = cut(rest, b'(');
    if let Some(more) = more {
        let _ = cut(more, b'(');
        return Err(WhyBad::Arity);
    }
    let values = inside(values)?;
    Ok((name, Some(values)))
}

fn initial(name: &[u8], values: Option<&[u8]>) -> Result<InitialCause, WhyBad>
    ensures { result ≡ initial_at name.now (parts_in comma values.entry) }
{
    if name == b"AlreadySet".as_slice() {
        no_value(values)?;
        return Ok(InitialCause::AlreadySet);
    }
    if name == b"EmptyConfig".as_slice() {
        no_value(values)?;
        return Ok(InitialCause::EmptyConfig);
    }
    Err(WhyBad::Verb)
}

fn start(name: &[u8], values: Option<&[u8]>) -> Result<StartCause, WhyBad>
    ensures { result ≡ start_at name.now (parts_in comma values.entry) }
{
    if name == b"TermNotGreater".as_slice() {
        let (x, y) = two_numbers(values)?;
        return Ok(StartCause::TermNotGreater(x, y));
    }
    if name == b"TermTooLarge".as_slice() {
        let x = one_number(values)?;
        return Ok(StartCause::TermTooLarge(x));
    }
    Err(WhyBad::Verb)
}

fn join(name: &[u8], values: Option<&[u8]>) -> Result<JoinCause, WhyBad>
    ensures { result ≡ join_at name.now (parts_in comma values.entry) }
{
    if name == b"NotForMe".as_slice() {
        let node = one_id(values)?;
        return Ok(JoinCause::NotForMe(node));
    }
    if name == b"TermMismatch".as_slice() {
        let (x, y) = two_numbers(values)?;
        return Ok(JoinCause::TermMismatch(x, y));
    }
    if name == b"NotStarted".as_slice() {
        no_value(values)?;
        return Ok(JoinCause::NotStarted);
    }
    if name == b"FresherTerm".as_slice() {
        let (x, y) = two_numbers(values)?;
        return Ok(JoinCause::FresherTerm(x, y));
    }
    if name == b"FresherVersion".as_slice() {
        let (x, y) = two_numbers(values)?;
        return Ok(JoinCause::FresherVersion(x, y));
    }
    if name == b"NoConfig".as_slice() {
        no_value(values)?;
        return Ok(JoinCause::NoConfig);
    }
    Err(WhyBad::Verb)
}

fn value(name: &[u8], values: Option<&[u8]>) -> Result<ValueCause, WhyBad>
    ensures { result ≡ value_at name.now (parts_in comma values.entry) }
{
    if name == b"NotWon".as_slice() {
        no_value(values)?;
        return Ok(ValueCause::NotWon);
    }
    if name == b"NotAccepted".as_slice() {
        let (x, y) = two_numbers(values)?;
        return Ok(ValueCause::NotAccepted(x, y));
    }
    if name == b"VersionNotGreater".as_slice() {
        let (x, y) = two_numbers(values)?;
        return Ok(ValueCause::VersionNotGreater(x, y));
    }
    if name == b"VersionTooLarge".as_slice() {
        let x = one_number(values)?;
        return Ok(ValueCause::VersionTooLarge(x));
    }
    if name == b"Reconfiguring".as_slice() {
        no_value(values)?;
        return Ok(ValueCause::Reconfiguring);
    }
    if name == b"NoJoinQuorum".as_slice() {
        no_value(values)?;
        return Ok(ValueCause::NoJoinQuorum);
    }
    Err(WhyBad::Verb)
}

fn publish(name: &[u8], values: Option<&[u8]>) -> Result<PublishCause, WhyBad>
    ensures { result ≡ publish_at name.now (parts_in comma values.entry) }
{
    if name == b"TermMismatch".as_slice() {
        let (x, y) = two_numbers(values)?;
        return Ok(PublishCause::TermMismatch(x, y));
    }
    if name == b"VersionNotGreater".as_slice() {
        let (x, y) = two_numbers(values)?;
        return Ok(PublishCause::VersionNotGreater(x, y));
    }
    Err(WhyBad::Verb)
}

fn response(name: &[u8], values: Option<&[u8]>) -> Result<ResponseCause, WhyBad>
    ensures { result ≡ response_at name.now (parts_in comma values.entry) }
{
    if name == b"NotForMe".as_slice() {
        let node = one_id(values)?;
        return Ok(ResponseCause::NotForMe(node));
    }
    if name == b"NotWon".as_slice() {
        no_value(values)?;
        return Ok(ResponseCause::NotWon);
    }
    if name == b"TermMismatch".as_slice() {
        let (x, y) = two_numbers(values)?;
        return Ok(ResponseCause::TermMismatch(x, y));
    }
    if name == b"VersionMismatch".as_slice() {
        let (x, y) = two_numbers(values)?;
        return Ok(ResponseCause::VersionMismatch(x, y));
    }
    Err(WhyBad::Verb)
}

fn commit(name: &[u8], values: Option<&[u8]>) -> Result<CommitCause, WhyBad>
    ensures { result ≡ commit_at name.now (parts_in comma values.entry) }
{
    if name == b"TermMismatch".as_slice() {
        let (x, y) = two_numbers(values)?;
        return Ok(CommitCause::TermMismatch(x, y));
    }
    if name == b"AcceptedTermMismatch".as_slice() {
        let (x, y) = two_numbers(values)?;
        return Ok(CommitCause::AcceptedTermMismatch(x, y));
    }
    if name == b"VersionMismatch".as_slice() {
        let (x, y) = two_numbers(values)?;
        return Ok(CommitCause::VersionMismatch(x, y));
    }
    if name == b"Publishing".as_slice() {
        let (x, y) = two_numbers(values)?;
        return Ok(CommitCause::Publishing(x, y));
    }
    Err(WhyBad::Verb)
}

fn cause_of(kind: Kind, name: &[u8], values: Option<&[u8]>) -> Result<Cause, WhyBad>
    ensures { result ≡ cause_of_kind kind name.now (parts_in comma values.entry) }
{
    match kind {
        Kind::Boot => {
            let cause = initial(name, values)?;
            Ok(Cause::Initial(cause))
        }
        Kind::StartJoin => {
            let cause = start(name, values)?;
            Ok(Cause::Start(cause))
        }
        Kind::Join => {
            let cause = join(name, values)?;
            Ok(Cause::Join(cause))
        }
        Kind::Value => {
            let cause = value(name, values)?;
            Ok(Cause::Value(cause))
        }
        Kind::Publish => {
            let cause = publish(name, values)?;
            Ok(Cause::Publish(cause))
        }
        Kind::Response => {
            let cause = response(name, values)?;
            Ok(Cause::Response(cause))
        }
        Kind::Commit => {
            let cause = commit(name, values)?;
            Ok(Cause::Commit(cause))
        }
    }
}

fn cause_at(kind: Kind, word: &[u8]) -> Result<Cause, WhyBad>
    ensures { result ≡ cause_at_of kind word.now }
{
    let (name, values) = called(word)?;
    cause_of(kind, name, values)
}

fn refused_at(kind: Kind, word: &[u8]) -> Result<Ending, WhyBad>
    ensures { result ≡ refused_at_of kind word.now }
{
    if !word.starts_with(b"refused:") {
        return Err(WhyBad::Verb);
    }
    let cause = cause_at(kind, &word[8..])?;
    Ok(Ending::Refused(cause))
}

/// How an act of this kind ended, by the word that says so.
pub fn ending_at(kind: Kind, word: &[u8]) -> Result<Ending, WhyBad>
    ensures { result ≡ ending_at_of kind word.now }
{
    if word == b"ok".as_slice() {
        return Ok(Ending::Taken);
    }
    if word == b"stopped".as_slice() {
        return Ok(Ending::Stopped);
    }
    if word == b"disk".as_slice() {
        return Ok(Ending::Disk);
    }
    if word == b"crashed".as_slice() {
        return Ok(Ending::Crashed);
    }
    refused_at(kind, word)
}
