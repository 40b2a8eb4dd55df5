//! The messages that were sent.
ghost use Rattle.std.specs.Prelude.{◌≡◌, ◌++◌, ◌∷◌, [], IfOk, OnOk, List};
ghost use Rattle.world_model.specs.declared.acts.Message.{Message as TheMessage};
ghost use Rattle.world_model.specs.declared.acts.Message.TheVariants as TheCommits;
ghost use Rattle.world_model.specs.Acts.{source_of as source_of_message};
ghost use Rattle.trace_audit.specs.Places.{is_held, IsSentOf};

use crate::sent_by::SentBy;
use cluster_state::ApplyCommit;
use std::alloc::{AllocError, Global};
use std::collections::BTreeMap;
use voting_config::NodeId;
use world_model::Message;

/// The messages that were sent, by their sources.
#[derive(Drop)]
pub struct SentMessages {
    alloc: Global,
    sources: BTreeMap<NodeId, SentBy>,
}

fn source_of(message: &Message) -> NodeId
    ensures { result ≡ source_of_message message.now }
{
    match message {
        Message::Join(join) => join.source,
        Message::Publish(request) => request.source,
        Message::Response(response) => response.source,
        Message::Commit(commit) => commit.source,
    }
}

impl SentMessages {
    /// None.
    pub fn new(alloc: Global) -> SentMessages
        ensures { IsSentOf result [] }
    {
        SentMessages {
            alloc,
            sources: BTreeMap::new(alloc),
        }
    }

    /// Whether the message was sent.
    pub fn contains(&self, message: &Message) -> Result<bool, AllocError>
        ensures { IfOk result (λ held. held ≡ is_held self.now message.now) }
    {
        let source = source_of(message);
        match self.sources.get(&source) {
            Some(sent) => sent.contains(message),
            None => Ok(false),
        }
    }

    /// Whether the commit was sent.
    pub fn has_commit(&self, commit: &ApplyCommit) -> bool
        ensures { result ≡ is_held self.now (TheCommits.Commit commit.now) }
    {
        match self.sources.get(&commit.source) {
            Some(sent) => sent.has_commit(commit),
            None => false,
        }
    }

    /// Takes a message as sent.
    pub fn add(&mut self, message: Message) -> Result<(), AllocError>
        ensures { OnOk result ((messages : List TheMessage) → IsSentOf self.old messages → IsSentOf self.new (messages ++ message ∷ [])) }
    {
        let source = source_of(&message);
        let mut sent = match self.sources.remove(&source) {
            Some(sent) => sent,
            None => SentBy::new(self.alloc),
        };
        sent.add(message)?;
        self.sources.insert(source, sent)?;
        Ok(())
    }
}
