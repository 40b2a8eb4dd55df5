//! The acts and the records that lines show.
ghost use Rattle.std.specs.Prelude.{◌≡◌, IfOk, false};
ghost use Rattle.world_model.specs.Acts.{is_opening};
ghost use Rattle.recorded_trace.specs.Entries.{IsEntry};
ghost use Rattle.voting_config.specs.Lists.{parts_in, space};
ghost use Rattle.schedule_text.specs.Answers.{Answers};
ghost use Rattle.schedule_text.specs.Lines.{words_of};
ghost use Rattle.world_model.specs.declared.acts.Act.TheVariants as act;
ghost use Rattle.recorded_trace.specs.Acts.{boot_at, start_join_at, join_at, value_act_at, publish_at, response_at, commit_at, fields_at, ended_at, act_at, shown_record as shown_record_of, found_at, record_at};

use crate::causes::ending_at;
use crate::entry::Entry;
use crate::json::{state_at, value_at};
use crate::kind::{Kind, kind_at};
use crate::words::{any_number_at, id_at, ids_at, state_id_at, word_and_rest};
use cluster_state::{
    ApplyCommit, ClusterState, ClusterValue, Join, Kept, PublishRequest, PublishResponse,
    SharedConfig, SharedState, SharedValue, StateId,
};
use schedule_text::{ReadError, WhyBad, four_words, one_word, three_words, two_words};
use std::alloc::{AllocError, Global};
use voting_config::{IdList, NodeId, NodeSet, VotingConfig, cut};
use world_model::{Act, BoxedKept};

// The act by which a node takes this configuration.
fn bootstrap(alloc: Global, config: &NodeSet) -> Result<Act, AllocError>
    ensures { IfOk result (λ a. a ≡ act.Bootstrap config.now) }
{
    let state = SharedState::of(alloc, ClusterState::initial(alloc, config)?)?;
    Ok(Act::Bootstrap(SharedConfig::of(state)))
}

fn boot(alloc: Global, rest: Option<&[u8]>) -> Result<Act, ReadError<WhyBad>>
    ensures read { Answers result (boot_at (parts_in space rest.entry)) }
    ensures shut { IfOk result (λ a. is_opening a ≡ false) }
{
    let word = one_word(rest)?;
    let config = ids_at(word)?;
    match bootstrap(alloc, &config) {
        Ok(act) => Ok(act),
        Err(_) => Err(ReadError::Memory),
    }
}

fn start_join(rest: Option<&[u8]>) -> Result<Act, WhyBad>
    ensures read { result ≡ start_join_at (parts_in space rest.entry) }
    ensures shut { IfOk result (λ a. is_opening a ≡ false) }
{
    let (candidate, term) = two_words(rest)?;
    let candidate = id_at(candidate)?;
    let term = any_number_at(term)?;
    Ok(Act::StartJoin(candidate, term))
}

fn join(rest: Option<&[u8]>) -> Result<Act, WhyBad>
    ensures read { result ≡ join_at (parts_in space rest.entry) }
    ensures shut { IfOk result (λ a. is_opening a ≡ false) }
{
    let (source, target, term, last) = four_words(rest)?;
    let source = id_at(source)?;
    let target = id_at(target)?;
    let term = any_number_at(term)?;
    let last = state_id_at(last)?;
    Ok(Act::TakeJoin(Join {
        source,
        target,
        term,
        last_term: last.term,
        last_version: last.version,
    }))
}

// The act by which a node publishes this value.
fn value_act(
    alloc: Global,
    version: u64,
    config: &NodeSet,
    value: ClusterValue,
) -> Result<Act, AllocError>
    ensures { IfOk result (λ a. a ≡ act.Value version config.now value) }
{
    let state = SharedState::of(
        alloc,
        ClusterState {
            term: 0,
            version,
            parent: None,
            config: IdList::of(alloc, config)?,
            committed: IdList::new(alloc),
            value,
        },
    )?;
    let again = state.share()?;
    Ok(Act::Value(version, SharedConfig::of(again), SharedValue::of(state)))
}

fn value(alloc: Global, rest: Option<&[u8]>) -> Result<Act, ReadError<WhyBad>>
    ensures read { Answers result (value_act_at (parts_in space rest.entry)) }
    ensures shut { IfOk result (λ a. is_opening a ≡ false) }
{
    let (version, rest) = word_and_rest(rest)?;
    let version = any_number_at(version)?;
    let (config, json) = word_and_rest(Some(rest))?;
    let config = ids_at(config)?;
    let value = match value_at(alloc, json) {
        Ok(value) => value,
        Err(fault) => return Err(fault),
    };
    match value_act(alloc, version, &config, value) {
        Ok(act) => Ok(act),
        Err(_) => Err(ReadError::Memory),
    }
}

fn publish(alloc: Global, rest: Option<&[u8]>) -> Result<Act, ReadError<WhyBad>>
    ensures read { Answers result (publish_at (parts_in space rest.entry)) }
    ensures shut { IfOk result (λ a. is_opening a ≡ false) }
{
    let (source, json) = word_and_rest(rest)?;
    let source = id_at(source)?;
    let state = match state_at(alloc, json) {
        Ok(state) => state,
        Err(fault) => return Err(fault),
    };
    match SharedState::of(alloc, state) {
        Ok(state) => Ok(Act::Publish(PublishRequest { source, state })),
        Err(_) => Err(ReadError::Memory),
    }
}

fn response(rest: Option<&[u8]>) -> Result<Act, WhyBad>
    ensures read { result ≡ response_at (parts_in space rest.entry) }
    ensures shut { IfOk result (λ a. is_opening a ≡ false) }
{
    let (source, target, id) = three_words(rest)?;
    let source = id_at(source)?;
    let target = id_at(target)?;
    let id = state_id_at(id)?;
    Ok(Act::Response(PublishResponse {
        source,
        target,
        term: id.term,
        version: id.version,
    }))
}

fn commit(rest: Option<&[u8]>) -> Result<Act, WhyBad>
    ensures read { result ≡ commit_at (parts_in space rest.entry) }
    ensures shut { IfOk result (λ a. is_opening a ≡ false) }
{
    let (source, id) = two_words(rest)?;
    let source = id_at(source)?;
    let id = state_id_at(id)?;
    Ok(Act::Commit(ApplyCommit {
        source,
        term: id.term,
        version: id.version,
    }))
}

// An act that takes no memory, or why it is none.
fn plain(read: Result<Act, WhyBad>) -> Result<Act, ReadError<WhyBad>>
    ensures read { Answers result read }
    ensures shut { IfOk read (λ a. is_opening a ≡ false) → IfOk result (λ a. is_opening a ≡ false) }
{
    match read {
        Ok(act) => Ok(act),
        Err(why) => Err(ReadError::Bad(why)),
    }
}

fn fields(alloc: Global, kind: Kind, rest: Option<&[u8]>) -> Result<Act, ReadError<WhyBad>>
    ensures read { Answers result (fields_at kind (parts_in space rest.entry)) }
    ensures shut { IfOk result (λ a. is_opening a ≡ false) }
{
    match kind {
        Kind::Boot => boot(alloc, rest),
        Kind::StartJoin => plain(start_join(rest)),
        Kind::Join => plain(join(rest)),
        Kind::Value => value(alloc, rest),
        Kind::Publish => publish(alloc, rest),
        Kind::Response => plain(response(rest)),
        Kind::Commit => plain(commit(rest)),
    }
}

fn ended(
    alloc: Global,
    node: NodeId,
    ending: &[u8],
    rest: Option<&[u8]>,
) -> Result<Entry, ReadError<WhyBad>>
    ensures read { Answers result (ended_at node ending.now (parts_in space rest.entry)) }
    ensures entry { IfOk result IsEntry }
{
    let (word, rest) = word_and_rest(rest)?;
    let kind = kind_at(word)?;
    let ending = ending_at(kind, ending)?;
    match fields(alloc, kind, Some(rest)) {
        Ok(act) => Ok(Entry::Acted(node, ending, act)),
        Err(fault) => Err(fault),
    }
}

/// The act that a line shows, by the words after its first one.
pub fn act(alloc: Global, rest: Option<&[u8]>) -> Result<Entry, ReadError<WhyBad>>
    ensures read { Answers result (act_at (parts_in space rest.entry)) }
    ensures entry { IfOk result IsEntry }
{
    let (node, rest) = word_and_rest(rest)?;
    let node = id_at(node)?;
    let (ending, rest) = word_and_rest(Some(rest))?;
    ended(alloc, node, ending, Some(rest))
}

fn shown_record(
    alloc: Global,
    term: u64,
    id: StateId,
    config: &NodeSet,
    committed: &NodeSet,
) -> Result<BoxedKept, AllocError>
    ensures { IfOk result (λ k. k ≡ shown_record_of term id config.now committed.now) }
{
    let state = ClusterState {
        term: id.term,
        version: id.version,
        parent: None,
        config: IdList::of(alloc, config)?,
        committed: IdList::new(alloc),
        value: ClusterValue::empty(alloc),
    };
    let accepted = SharedState::of(alloc, state)?;
    let committed = VotingConfig::of(committed);
    BoxedKept::of(
        alloc,
        Kept {
            term,
            accepted,
            committed,
        },
    )
}

fn found(alloc: Global, rest: Option<&[u8]>) -> Result<BoxedKept, ReadError<WhyBad>>
    ensures { Answers result (found_at (parts_in space rest.entry)) }
{
    let (term, id, config, committed) = four_words(rest)?;
    let term = any_number_at(term)?;
    let id = state_id_at(id)?;
    let config = ids_at(config)?;
    let committed = ids_at(committed)?;
    match shown_record(alloc, term, id, &config, &committed) {
        Ok(kept) => Ok(kept),
        Err(_) => Err(ReadError::Memory),
    }
}

/// The record that a line shows, by the words after its first one.
pub fn record(alloc: Global, rest: Option<&[u8]>) -> Result<Entry, ReadError<WhyBad>>
    ensures read { Answers result (record_at (parts_in space rest.entry)) }
    ensures entry { IfOk result IsEntry }
{
    let (node, rest) = word_and_rest(rest)?;
    let node = id_at(node)?;
    match found(alloc, Some(rest)) {
        Ok(kept) => Ok(Entry::Recorded(node, kept)),
        Err(fault) => Err(fault),
    }
}
