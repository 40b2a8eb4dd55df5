//! What each request does to the value of the next state.
ghost use Rattle.std.specs.Prelude.{◌≡◌, IfOk, OnOk};
ghost use Rattle.master_tasks.specs.Processing.{answer_after, clearing, excluding, processing, processing_once, putting, refused as refused_of, value_after};
ghost use Rattle.cluster_state.specs.declared.request.Ask.TheVariants as ask;
ghost use Rattle.cluster_state.specs.declared.state.ClusterValue.{ClusterValue as ClusterValueOf};
ghost use Rattle.exclusions.specs.Exclusions.{added_of, cleared_of};

use crate::waiting::Waiting;
use cluster_state::{Answer, Ask, ClusterValue, MAX_SETTINGS, SharedState, Text};
use exclusions::AddError;
use std::alloc::{AllocError, Global};
use voting_config::IdList;

/// Processes a request on a value, beside the accepted state and by the profile: the answer, if it gets one at once. Where there is no
/// memory, the value may be anything.
pub fn process(
    alloc: Global,
    second: bool,
    accepted: &SharedState,
    value: &mut ClusterValue,
    ask: &Ask,
) -> Result<Option<Answer>, AllocError>
    ensures value { OnOk result (value.new ≡ value_after value.old (processing second accepted.now value.old ask.now)) }
    ensures answer { IfOk result (λ a. a ≡ answer_after (processing second accepted.now value.old ask.now)) }
{
    match ask {
        Ask::Put { key, value: text } => put(value, key, text),
        Ask::Remove { key } => {
            value.settings.remove(key.as_str());
            Ok(None)
        }
        Ask::Exclude(ids) => exclude(alloc, value, ids),
        Ask::Clear { wait_for_removal } => Ok(clear(alloc, value, *wait_for_removal)),
        Ask::State => show(second, accepted),
    }
}

/// Processes a request, unless it was processed before.
pub fn process_once(
    alloc: Global,
    second: bool,
    accepted: &SharedState,
    value: &mut ClusterValue,
    w: &Waiting,
) -> Result<Option<Answer>, AllocError>
    ensures value { OnOk result (value.new ≡ value_after value.old (processing_once second accepted.now value.old w.now)) }
    ensures answer { IfOk result (λ a. a ≡ answer_after (processing_once second accepted.now value.old w.now)) }
{
    if w.processed {
        return Ok(None);
    }
    let answer = process(alloc, second, accepted, value, &w.request.ask)?;
    Ok(answer)
}

// The accepted state is shown by the first profile; by the second it waits for a state of its own.
fn show(second: bool, accepted: &SharedState) -> Result<Option<Answer>, AllocError>
    ensures answer { (value : ClusterValueOf) → IfOk result (λ a. a ≡ answer_after (processing second accepted.now value ask.State)) }
{
    if second {
        return Ok(None);
    }
    Ok(Some(Answer::State(accepted.share()?)))
}

// A setting is put, unless its key is new and there are as many settings as there may be.
fn put(value: &mut ClusterValue, key: &Text, text: &Text) -> Result<Option<Answer>, AllocError>
    ensures value { OnOk result (value.new ≡ value_after value.old (putting value.old (key.now, text.now))) }
    ensures answer { IfOk result (λ a. a ≡ answer_after (putting value.old (key.now, text.now))) }
{
    if !value.settings.contains_key(key.as_str()) && value.settings.len() >= MAX_SETTINGS as usize {
        return Ok(Some(Answer::TooManySettings(MAX_SETTINGS as u64 + 1)));
    }
    value.settings.put(key.as_str(), text.as_str())?;
    Ok(None)
}

// Nodes are excluded.
fn exclude(
    alloc: Global,
    value: &mut ClusterValue,
    ids: &IdList,
) -> Result<Option<Answer>, AllocError>
    ensures value { OnOk result (value.new ≡ value_after value.old (excluding value.old (added_of value.old.exclusions ids.now))) }
    ensures answer { IfOk result (λ a. a ≡ answer_after (excluding value.old (added_of value.old.exclusions ids.now))) }
{
    match exclusions::add(&value.exclusions, &value.members, ids) {
        Ok(together) => {
            value.exclusions = IdList::of(alloc, &together)?;
            Ok(None)
        }
        Err(error) => Ok(Some(refused(&error))),
    }
}

fn refused(error: &AddError) -> Answer
    ensures { result ≡ refused_of error.now }
{
    match error {
        AddError::TooMany(count) => Answer::TooManyExclusions(*count as u64),
    }
}

// The exclusions are cleared.
fn clear(alloc: Global, value: &mut ClusterValue, wait_for_removal: bool) -> Option<Answer>
    ensures value { value.new
        ≡ value_after value.old (clearing value.old (cleared_of value.old.exclusions value.old.members wait_for_removal)) }
    ensures answer { result ≡ answer_after (clearing value.old (cleared_of value.old.exclusions value.old.members wait_for_removal)) }
{
    match exclusions::clear(&value.exclusions, &value.members, wait_for_removal) {
        Ok(()) => {
            value.exclusions = IdList::new(alloc);
            None
        }
        Err(still) => Some(Answer::StillMember(still.0)),
    }
}
