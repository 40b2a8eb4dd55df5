//! A publication of the leader: who responded, whether its commit was sent, and whether it is finished in time.
#![tactic(auto)]

ghost use Rattle.std.specs.Prelude.{◌≡◌};

use cluster_state::StateId;
use election_clock::has_passed;
use std::marker::Model;
use voting_config::{IdList, MAX_IDS, NodeId, NodeSet, Tally};

/// `cluster.publish.timeout`, in ms: how long a publication may take until it is finished. 30 s by default
/// (Elasticsearch reference 7.x, Discovery and cluster formation settings).
pub const PUBLISH_TIMEOUT_MS: u64 = 30_000;

/// What has become of a publication.
#[derive(Drop)]
pub enum Stage {
    /// It is not finished yet and has time left.
    Running,
    /// It was not finished in time.
    Failed,
    /// It is finished. The set holds the targets that have not applied the state.
    Done(NodeSet),
}

/// The publication of one cluster state, seen as what the calls so far make of it.
#[derive(Drop)]
pub struct Publication {
    id: StateId,
    targets: NodeSet,
    started: u64,
    responders: Tally,
    commit_sent: bool,
    finished: bool,
    laggards: Tally,
}

impl Model for Publication {
    ghost use Rattle.publication.specs.Publications.{Publication as PublicationOf};

    ghost Value = { PublicationOf };

    ghost view = { λ p. record {
      id = p.id;
      targets = p.targets;
      started = p.started;
      responders = p.responders;
      commit_sent = p.commit_sent;
      finished = p.finished;
      laggards = p.laggards;
    } };
}

impl Publication {
    ghost use Rattle.publication.specs.Publications.{Calls, Started, Then, Responded, CommitSent, Finished, Applied, StandsFor, after, stage_of};

    /// A publication of the state with this id to these nodes, which starts now, in ms.
    pub fn start(id: StateId, targets: &IdList, now: u64) -> Publication
        ensures { StandsFor result (Started id targets.now now) }
    {
        let targets = targets.to_set();
        let laggards = Tally::of(&targets);
        Publication {
            id,
            targets,
            started: now,
            responders: Tally::new(),
            commit_sent: false,
            finished: false,
            laggards,
        }
    }

    /// A node responded. Where 64 others have, it is not kept.
    pub fn responded(&mut self, source: NodeId)
        ensures now { self.new ≡ after self.old (Responded source) }
        ensures calls { (calls : Calls) → StandsFor self.old calls → StandsFor self.new (Then calls (Responded source)) }
    {
        if self.responders.len() < MAX_IDS {
            self.responders.add(source);
        }
    }

    /// Its commit is sent.
    pub fn commit_sent(&mut self)
        ensures now { self.new ≡ after self.old CommitSent }
        ensures calls { (calls : Calls) → StandsFor self.old calls → StandsFor self.new (Then calls CommitSent) }
    {
        self.commit_sent = true;
    }

    /// It is finished: the leader has taken its own commit.
    pub fn finished(&mut self)
        ensures now { self.new ≡ after self.old Finished }
        ensures calls { (calls : Calls) → StandsFor self.old calls → StandsFor self.new (Then calls Finished) }
    {
        self.finished = true;
    }

    /// A node has applied the state.
    pub fn applied(&mut self, source: NodeId)
        ensures now { self.new ≡ after self.old (Applied source) }
        ensures calls { (calls : Calls) → StandsFor self.old calls → StandsFor self.new (Then calls (Applied source)) }
    {
        self.laggards.remove(source);
    }

    /// Its stage at this moment, in ms: `Done` exactly where it is finished, `Failed` exactly where it is not and
    /// [`PUBLISH_TIMEOUT_MS`] or more have gone by since its start, else `Running`.
    pub fn tick(&self, now: u64) -> Stage
        ensures { result ≡ stage_of self.now now }
    {
        if self.finished {
            Stage::Done(self.laggards.sources())
        } else if has_passed(self.started, PUBLISH_TIMEOUT_MS, now) {
            Stage::Failed
        } else {
            Stage::Running
        }
    }

    /// The id of the published state.
    pub fn id(&self) -> StateId
        ensures { result ≡ self.now.id }
    {
        self.id
    }

    /// The nodes that the state is published to.
    pub fn targets(&self) -> &NodeSet
        ensures { result.now ≡ self.now.targets }
    {
        &self.targets
    }

    /// Who has responded.
    pub fn responders(&self) -> &Tally
        ensures { result.now ≡ self.now.responders }
    {
        &self.responders
    }

    /// Whether its commit was sent.
    pub fn is_commit_sent(&self) -> bool
        ensures { result ≡ self.now.commit_sent }
    {
        self.commit_sent
    }

    /// Whether it is finished.
    pub fn is_finished(&self) -> bool
        ensures { result ≡ self.now.finished }
    {
        self.finished
    }
}
