//! A node that runs: what it is after its acts, what it answers, and what an act makes of it.
ghost use Rattle.std.specs.Prelude.{◌≡◌, IfOk, OnOk, Bool, false, true, Option, Some};
ghost use Rattle.cluster_state.specs.JoinCheck.{join_checked};
ghost use Rattle.cluster_state.specs.States.{id_of};
ghost use Rattle.voting_config.specs.Ids.{with_id};
ghost use Rattle.world_model.specs.declared.acts.Outcome.TheVariants.{Answered};
ghost use Rattle.world_model.specs.declared.acts.ActReply.TheVariants.{Taken};
ghost use Rattle.world_model.specs.declared.acts.Message.{Message as TheMessage};
ghost use Rattle.cluster_state.specs.declared.state.ClusterValue.{ClusterValue as TheValue};
ghost use Rattle.cluster_state.specs.Initial.{initial_state};
ghost use Rattle.voting_config.specs.Ids.{Id};
ghost use Rattle.world_model.specs.Acts.{is_opening};
ghost use Rattle.world_model.specs.declared.acts.Act.TheVariants as act;
ghost use Rattle.world_model.specs.NodeState.{node_state, opened, durable_of};
ghost use Rattle.world_model.specs.Replies.{bootstrap_reply, start_reply, join_reply, value_reply, publish_reply, response_reply, commit_reply, elects, commits, commit_sent, reply_at, is_taken};
ghost use Rattle.world_model.specs.Moves.{node_state_after};
ghost use Rattle.node_audit.specs.Standing.{seen, kept_by};

use crate::sources::Sources;
use cluster_state::{
    ApplyCommit, ClusterState, ClusterValue, CommitCause, InitialCause, Join, JoinCause, Kept,
    LAST_NUMBER, PublishCause, PublishRequest, PublishResponse, ResponseCause, SharedState,
    StartCause, ValueCause,
};
use std::alloc::{AllocError, Global};
use voting_config::{IdList, NodeId, NodeSet, VotingConfig};
use world_model::{Act, ActReply, Cause, Message};

/// A node that is neither halted nor down.
#[derive(Drop)]
pub struct Running {
    pub term: u64,
    pub accepted: SharedState,
    pub committed: VotingConfig,
    pub started: bool,
    pub votes: Sources,
    pub won: bool,
    pub version: u64,
    pub config: VotingConfig,
    pub acks: Sources,
}

impl Running {
    // Whether the votes with this one elect: a quorum of the committed configuration and of the accepted one.
    fn elects(&self, source: NodeId) -> bool
        ensures { result ≡ elects (seen self.now) (with_id source self.now.votes) }
    {
        let committed = self.committed.members().as_slice();
        let accepted = self.accepted.config.as_slice();
        self.votes.elect_with(committed, source) && self.votes.elect_with(accepted, source)
    }

    // Whether the responses with this one commit: a quorum of the committed configuration and of the published one.
    fn commits(&self, source: NodeId) -> bool
        ensures { result ≡ commits (seen self.now) (with_id source self.now.acks) }
    {
        let committed = self.committed.members().as_slice();
        let published = self.config.members().as_slice();
        self.acks.elect_with(committed, source) && self.acks.elect_with(published, source)
    }

    /// What the node answers to the initial configuration.
    pub fn bootstrap_reply(&self, config: &IdList) -> ActReply
        ensures { result ≡ bootstrap_reply (seen self.now) config.now }
    {
        if !self.accepted.config.is_empty() {
            return ActReply::Refused(Cause::Initial(InitialCause::AlreadySet));
        }
        if config.is_empty() {
            return ActReply::Refused(Cause::Initial(InitialCause::EmptyConfig));
        }
        ActReply::Taken(None, false)
    }

    /// What the node answers to a start of a join.
    pub fn start_reply(&self, me: NodeId, candidate: NodeId, term: u64) -> ActReply
        ensures { result ≡ start_reply me (seen self.now) candidate term }
    {
        if term <= self.term {
            return ActReply::Refused(Cause::Start(StartCause::TermNotGreater(self.term, term)));
        }
        if term > LAST_NUMBER {
            return ActReply::Refused(Cause::Start(StartCause::TermTooLarge(term)));
        }
        ActReply::Taken(
            Some(Message::Join(Join {
                source: me,
                target: candidate,
                term,
                last_term: self.accepted.term,
                last_version: self.accepted.version,
            })),
            false,
        )
    }

    // Why the join is not counted, if it is not.
    #[tactic(auto, unfolding(cluster_state::specs::JoinCheck::join_checked))]
    fn check_join(&self, me: NodeId, join: &Join) -> Result<(), JoinCause>
        ensures { result ≡ join_checked me self.now.term (id_of self.now.accepted) self.now.accepted.config self.now.started join.now }
    {
        if join.target != me {
            return Err(JoinCause::NotForMe(join.target));
        }
        if self.term != join.term {
            return Err(JoinCause::TermMismatch(self.term, join.term));
        }
        if !self.started {
            return Err(JoinCause::NotStarted);
        }
        if self.accepted.term < join.last_term {
            return Err(JoinCause::FresherTerm(self.accepted.term, join.last_term));
        }
        if self.accepted.term == join.last_term && self.accepted.version < join.last_version {
            return Err(JoinCause::FresherVersion(self.accepted.version, join.last_version));
        }
        if self.accepted.config.is_empty() {
            return Err(JoinCause::NoConfig);
        }
        Ok(())
    }

    /// What the node answers to a join.
    pub fn join_reply(&self, me: NodeId, join: &Join) -> ActReply
        ensures { result ≡ join_reply me (seen self.now) join.now }
    {
        if let Err(cause) = self.check_join(me, join) {
            return ActReply::Refused(Cause::Join(cause));
        }
        ActReply::Taken(None, !self.won && self.elects(join.source))
    }

    // The state that publishes a client's value.
    fn state_sent(
        &self,
        alloc: Global,
        version: u64,
        config: &IdList,
        value: &ClusterValue,
    ) -> Result<SharedState, AllocError>
        ensures { IfOk result
            (λ s. s
            ≡ record {
              term = self.now.term;
              version = version;
              parent = Some (id_of self.now.accepted);
              config = config.now;
              committed = self.now.committed;
              value = value.now;
            }) }
    {
        let state = ClusterState {
            term: self.term,
            version,
            parent: Some(self.accepted.id()),
            config: config.copy()?,
            committed: IdList::of(alloc, self.committed.members())?,
            value: value.copy()?,
        };
        SharedState::of(alloc, state)
    }

    /// What the node answers to a client's value.
    pub fn value_reply(
        &self,
        alloc: Global,
        me: NodeId,
        version: u64,
        config: &IdList,
        value: &ClusterValue,
    ) -> Result<ActReply, AllocError>
        ensures { IfOk result (λ r. r ≡ value_reply me (seen self.now) version config.now value.now) }
    {
        let refused = |cause| Ok(ActReply::Refused(Cause::Value(cause)));
        let accepted = self.accepted.version;
        if !self.won {
            return refused(ValueCause::NotWon);
        }
        if self.version != accepted {
            return refused(ValueCause::NotAccepted(self.version, accepted));
        }
        if version <= self.version {
            return refused(ValueCause::VersionNotGreater(self.version, version));
        }
        if version > LAST_NUMBER {
            return refused(ValueCause::VersionTooLarge(version));
        }
        if !config.is_same(&self.accepted.config)
            && !self.committed.is_same_list(&self.accepted.config)
        {
            return refused(ValueCause::Reconfiguring);
        }
        if !self.votes.elect(config.as_slice()) {
            return refused(ValueCause::NoJoinQuorum);
        }
        let state = self.state_sent(alloc, version, config, value)?;
        Ok(ActReply::Taken(
            Some(Message::Publish(PublishRequest { source: me, state })),
            false,
        ))
    }

    /// What the node answers to a published state.
    pub fn publish_reply(&self, me: NodeId, request: &PublishRequest) -> ActReply
        ensures { result ≡ publish_reply me (seen self.now) request.now }
    {
        let term = request.state.term;
        let version = request.state.version;
        if self.term != term {
            return ActReply::Refused(Cause::Publish(PublishCause::TermMismatch(self.term, term)));
        }
        let accepted = self.accepted.version;
        if term == self.accepted.term && version <= accepted {
            return ActReply::Refused(Cause::Publish(PublishCause::VersionNotGreater(
                accepted, version,
            )));
        }
        ActReply::Taken(
            Some(Message::Response(PublishResponse {
                source: me,
                target: request.source,
                term,
                version,
            })),
            false,
        )
    }

    // The commit that the node sends once it counts this response, if it sends one.
    fn commit_sent(&self, me: NodeId, response: &PublishResponse) -> Option<Message>
        ensures { result ≡ commit_sent me (seen self.now) response.now }
    {
        if !self.commits(response.source) {
            return None;
        }
        Some(Message::Commit(ApplyCommit {
            source: me,
            term: response.term,
            version: response.version,
        }))
    }

    /// What the node answers to the response to a publication.
    pub fn response_reply(&self, me: NodeId, response: &PublishResponse) -> ActReply
        ensures { result ≡ response_reply me (seen self.now) response.now }
    {
        if response.target != me {
            return ActReply::Refused(Cause::Response(ResponseCause::NotForMe(response.target)));
        }
        if !self.won {
            return ActReply::Refused(Cause::Response(ResponseCause::NotWon));
        }
        if self.term != response.term {
            return ActReply::Refused(Cause::Response(ResponseCause::TermMismatch(
                self.term,
                response.term,
            )));
        }
        if self.version != response.version {
            return ActReply::Refused(Cause::Response(ResponseCause::VersionMismatch(
                self.version,
                response.version,
            )));
        }
        ActReply::Taken(self.commit_sent(me, response), false)
    }

    /// What the node answers to a commit.
    pub fn commit_reply(&self, commit: &ApplyCommit) -> ActReply
        ensures { result ≡ commit_reply (seen self.now) commit.now }
    {
        let accepted = &self.accepted;
        if self.term != commit.term {
            return ActReply::Refused(Cause::Commit(CommitCause::TermMismatch(
                self.term,
                commit.term,
            )));
        }
        if accepted.term != commit.term {
            return ActReply::Refused(Cause::Commit(CommitCause::AcceptedTermMismatch(
                accepted.term,
                commit.term,
            )));
        }
        if accepted.version != commit.version {
            return ActReply::Refused(Cause::Commit(CommitCause::VersionMismatch(
                accepted.version,
                commit.version,
            )));
        }
        if self.won && accepted.version != self.version {
            return ActReply::Refused(Cause::Commit(CommitCause::Publishing(
                accepted.version,
                self.version,
            )));
        }
        ActReply::Taken(None, false)
    }

    /// What the node answers to an act.
    pub fn reply(&self, alloc: Global, me: NodeId, act: &Act) -> Result<ActReply, AllocError>
        ensures { IfOk result (λ r. r ≡ reply_at me (seen self.now) act.now) }
    {
        match act {
            Act::Bootstrap(config) => Ok(self.bootstrap_reply(config)),
            Act::StartJoin(candidate, term) => Ok(self.start_reply(me, *candidate, *term)),
            Act::TakeJoin(join) => Ok(self.join_reply(me, join)),
            Act::Value(version, config, value) => {
                self.value_reply(alloc, me, *version, config, value)
            }
            Act::Publish(request) => Ok(self.publish_reply(me, request)),
            Act::Response(response) => Ok(self.response_reply(me, response)),
            Act::Commit(commit) => Ok(self.commit_reply(commit)),
            Act::Open(_) => Ok(ActReply::Taken(None, false)),
        }
    }

    /// A node that was just opened, and keeps this.
    pub fn opened(alloc: Global, kept: Kept) -> Running
        ensures { seen result ≡ node_state (opened kept) }
    {
        let Kept {
            term,
            accepted,
            committed,
        } = kept;
        Running {
            term,
            accepted,
            committed,
            started: false,
            votes: Sources::new(alloc),
            won: false,
            version: 0,
            config: VotingConfig::of(&NodeSet::new()),
            acks: Sources::new(alloc),
        }
    }

    /// What the node keeps.
    pub fn kept(&self) -> Result<Kept, AllocError>
        ensures { IfOk result (λ k. k ≡ kept_by (seen self.now)) }
    {
        Ok(Kept {
            term: self.term,
            accepted: self.accepted.share()?,
            committed: VotingConfig::of(self.committed.members()),
        })
    }

    fn start_join(&mut self, term: u64)
        ensures { (candidate : Id) (sends : Option TheMessage) (wins : Bool)
            → seen self.new ≡ node_state_after (seen self.old) (act.StartJoin candidate term) (Answered (Taken sends wins)) }
    {
        self.term = term.max(self.term);
        self.started = true;
        self.votes.clear();
        self.won = false;
        self.version = 0;
        self.config.copy_from(&self.accepted.config);
        self.acks.clear();
    }

    fn count_join(&mut self, join: &Join, wins: bool) -> Result<(), AllocError>
        ensures { OnOk result
            ((sends : Option TheMessage)
            → seen self.new ≡ node_state_after (seen self.old) (act.TakeJoin join.now) (Answered (Taken sends wins))) }
    {
        self.votes.add(join.source)?;
        if wins {
            self.won = true;
            self.version = self.accepted.version;
        }
        Ok(())
    }

    fn publish(&mut self, version: u64, config: &IdList)
        ensures { (value : TheValue) (sends : Option TheMessage) (wins : Bool)
            → seen self.new ≡ node_state_after (seen self.old) (act.Value version config.now value) (Answered (Taken sends wins)) }
    {
        self.version = version;
        self.config.copy_from(config);
        self.acks.clear();
    }

    fn accept(&mut self, state: SharedState)
        ensures { self.new ≡ record self.old { accepted = state; committed = state.committed } }
    {
        self.committed.copy_from(&state.committed);
        self.accepted = state;
    }

    fn commit(&mut self)
        ensures { self.new ≡ record self.old { committed = self.old.accepted.config } }
    {
        self.committed.copy_from(&self.accepted.config);
    }

    fn bootstrap(&mut self, alloc: Global, config: &IdList) -> Result<(), AllocError>
        ensures { OnOk result (self.new ≡ record self.old { accepted = initial_state config.now; committed = config.now }) }
    {
        let state = ClusterState::initial(alloc, &config.to_set())?;
        let state = SharedState::of(alloc, state)?;
        self.accept(state);
        Ok(())
    }

    fn accept_request(&mut self, request: &PublishRequest) -> Result<(), AllocError>
        ensures { OnOk result (self.new ≡ record self.old { accepted = request.now.state; committed = request.now.state.committed }) }
    {
        let state = request.state.share()?;
        self.accept(state);
        Ok(())
    }

    /// Does an act that the node takes.
    pub fn take(&mut self, alloc: Global, act: &Act, wins: bool) -> Result<(), AllocError>
        requires { is_opening act.now ≡ false }
        ensures { OnOk result
            ((sends : Option TheMessage) → seen self.new ≡ node_state_after (seen self.old) act.now (Answered (Taken sends wins))) }
    {
        match act {
            Act::Bootstrap(config) => self.bootstrap(alloc, config),
            Act::StartJoin(_, term) => {
                self.start_join(*term);
                Ok(())
            }
            Act::TakeJoin(join) => self.count_join(join, wins),
            Act::Value(version, config, _) => {
                self.publish(*version, config);
                Ok(())
            }
            Act::Publish(request) => self.accept_request(request),
            Act::Response(response) => self.acks.add(response.source),
            Act::Commit(_) => {
                self.commit();
                Ok(())
            }
            Act::Open(_) => Ok(()),
        }
    }
}
