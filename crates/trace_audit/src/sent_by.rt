//! The messages that one node sent.
ghost use Rattle.std.specs.Prelude.{◌≡◌, IfOk, OnOk, false};
ghost use Rattle.world_model.specs.declared.acts.Message.{Message as TheMessage};
ghost use Rattle.world_model.specs.declared.acts.Message.TheVariants as TheCommits;
ghost use Rattle.trace_audit.specs.Places.{join_key as join_key_of, response_key as response_key_of, commit_key as commit_key_of, join_cmp, response_cmp, number_cmp, WithKey, has_sent, WithMessage};

use crate::requests::Requests;
use cluster_state::{ApplyCommit, Join, PublishResponse};
use std::alloc::{AllocError, Global};
use std::collections::BTreeSet;
use voting_config::NodeId;
use world_model::Message;

// All that a join says but its source: its term, the term and the version of its last accepted state, and its target.
type JoinKey = (u64, u64, u64, NodeId);

// The term and the version of a response, and its target.
type ResponseKey = (u64, u64, NodeId);

// The term and the version of a commit.
type CommitKey = (u64, u64);

/// The messages that one node sent, each once: a join takes 64 bytes and its share of a tree, a response 56, a commit 16, and a publish
/// request what [`Requests`] says.
#[derive(Drop)]
pub struct SentBy {
    joins: BTreeSet<JoinKey>,
    requests: Requests,
    responses: BTreeSet<ResponseKey>,
    commits: BTreeSet<CommitKey>,
}

fn join_key(join: &Join) -> JoinKey
    ensures { result ≡ join_key_of join.now }
{
    (join.term, join.last_term, join.last_version, join.target)
}

fn response_key(response: &PublishResponse) -> ResponseKey
    ensures { result ≡ response_key_of response.now }
{
    (response.term, response.version, response.target)
}

fn commit_key(commit: &ApplyCommit) -> CommitKey
    ensures { result ≡ commit_key_of commit.now }
{
    (commit.term, commit.version)
}

fn add_join(joins: &mut BTreeSet<JoinKey>, join: &Join) -> Result<(), AllocError>
    ensures { OnOk result (WithKey join_cmp joins.old (join_key_of join.now) joins.new) }
{
    joins.insert(join_key(join))?;
    Ok(())
}

fn add_response(
    responses: &mut BTreeSet<ResponseKey>,
    response: &PublishResponse,
) -> Result<(), AllocError>
    ensures { OnOk result (WithKey response_cmp responses.old (response_key_of response.now) responses.new) }
{
    responses.insert(response_key(response))?;
    Ok(())
}

fn add_commit(commits: &mut BTreeSet<CommitKey>, commit: &ApplyCommit) -> Result<(), AllocError>
    ensures { OnOk result (WithKey number_cmp commits.old (commit_key_of commit.now) commits.new) }
{
    commits.insert(commit_key(commit))?;
    Ok(())
}

impl SentBy {
    /// None.
    pub fn new(alloc: Global) -> SentBy
        ensures { (m : TheMessage) → has_sent result m ≡ false }
    {
        SentBy {
            joins: BTreeSet::new(alloc),
            requests: Requests::new(alloc),
            responses: BTreeSet::new(alloc),
            commits: BTreeSet::new(alloc),
        }
    }

    /// Whether the node sent a message that names it as its source.
    pub fn contains(&self, message: &Message) -> Result<bool, AllocError>
        ensures { IfOk result (λ sent. sent ≡ has_sent self.now message.now) }
    {
        match message {
            Message::Join(join) => Ok(self.joins.contains(&join_key(join))),
            Message::Publish(request) => self.requests.contains(request),
            Message::Response(response) => Ok(self.responses.contains(&response_key(response))),
            Message::Commit(commit) => Ok(self.has_commit(commit)),
        }
    }

    /// Whether the node sent a commit that names it as its source.
    pub fn has_commit(&self, commit: &ApplyCommit) -> bool
        ensures { result ≡ has_sent self.now (TheCommits.Commit commit.now) }
    {
        self.commits.contains(&commit_key(commit))
    }

    /// Takes a message of the node as sent.
    pub fn add(&mut self, message: Message) -> Result<(), AllocError>
        ensures { OnOk result (WithMessage self.old message self.new) }
    {
        match message {
            Message::Join(join) => add_join(&mut self.joins, &join),
            Message::Publish(request) => self.requests.add(&request),
            Message::Response(response) => add_response(&mut self.responses, &response),
            Message::Commit(commit) => add_commit(&mut self.commits, &commit),
        }
    }
}
