//! `CoordState`: what one node answers to each of the seven acts, and what it is after them. An act that writes has written before it
//! answers.
ghost use Rattle.std.specs.Prelude.{◌≡◌, ℕ, ◌<◌, ◌≤◌, Bool, false, true, ◌&&◌, ◌⊎◌, ◌↔◌, Option, Some, [], length, is_ok, IfOk, OnErr};
ghost use Rattle.cluster_state.specs.Field.{last_number};
ghost use Rattle.voting_config.specs.Ids.{Id, has, is_quorum_of, most_ids};
ghost use Rattle.zen_disk.specs.Moments.{LeavesOnly, Same};
ghost use Rattle.world_model.specs.declared.acts.Act.TheVariants as act;
ghost use Rattle.world_model.specs.Acts.{NodeHistory};
ghost use Rattle.world_model.specs.Replies.{reply_at};
ghost use Rattle.cluster_state.specs.Initial.{initial_state};
ghost use Rattle.cluster_state.specs.States.{IsFit};
ghost use Rattle.cluster_state.specs.declared.state.Kept.{Kept as Record};
ghost use Rattle.world_model.specs.NodeState.{opened};
ghost use Rattle.coord_state.specs.Outcomes.{outcome, sends_request, initial_outcome, start_outcome, join_outcome, value_outcome, publish_outcome, response_outcome, commit_outcome, HandsBack};
ghost use Rattle.coord_state.specs.StandsFor.{Acts, StandsFor, fields_of, request_of};
ghost use Rattle.cluster_state.specs.declared.state.ClusterValue.{ClusterValue};
ghost use Rattle.world_model.specs.declared.acts.Cause.TheVariants.{Value as ValueRefused};
ghost use Rattle.world_model.specs.declared.acts.Outcome.TheVariants.{Answered};
ghost use Rattle.coord_state.specs.Writes.{WritesBy, IsDuring};
ghost use Rattle.coord_state.specs.Checks.{publish_checked, value_checked, Foretells};

use cluster_state::{
    ApplyCommit, ClusterState, ClusterValue, CommitCause, InitialCause, Join, JoinCause, Kept,
    LAST_NUMBER, PublishCause, PublishRequest, PublishResponse, ResponseCause, SharedState,
    StartCause, ValueCause,
};
use join_rules::join_check;
use state_journal::{ArmKeeper, Keeper, Ready};
use std::alloc::{AllocError, Global};
use voting_config::{IdList, JoinVotes, NodeId, NodeSet, VotingConfig};
use zen_disk::Order;

/// Why an act was not taken. What the call took is handed back, but where the disk failed.
#[derive(Drop)]
pub enum ActError<C, T> {
    /// An earlier act met a fault of the disk, and the journal was not opened since.
    Stopped(T),
    /// The first cause that holds.
    Refused(C, T),
    /// The disk failed: its count of faults rose in this call.
    Disk,
}

/// A join that was counted, and whether it won the election.
#[derive(Clone, Copy)]
pub struct Joined {
    pub won: bool,
}

/// The rules of one node, over what keeps its record: those of `ZenWithTerms.tla` of elastic/elasticsearch-formal-models,
/// under the names of Elasticsearch 7. A refused act changes nothing, in memory and on disk, and no act takes memory, but for
/// `client_value`, which makes the request that it answers.
#[derive(Drop)]
pub struct CoordState<K> {
    me: NodeId,
    keeper: K,
    started_join: bool,
    election_won: bool,
    join_votes: JoinVotes,
    published_version: u64,
    published_config: VotingConfig,
    publish_votes: JoinVotes,
}

// The first cause that refuses a state, by what the node keeps.
fn publish_check(kept: &Kept, state: &ClusterState) -> Result<(), PublishCause>
    ensures { result ≡ publish_checked kept.now state.now }
{
    let term = state.term;
    let version = state.version;
    if kept.term != term {
        return Err(PublishCause::TermMismatch(kept.term, term));
    }
    if term == kept.accepted.term && version <= kept.accepted.version {
        return Err(PublishCause::VersionNotGreater(kept.accepted.version, version));
    }
    Ok(())
}

impl<K: Keeper> CoordState<K> {
    /// The node's id.
    pub fn me(&self) -> NodeId
        ensures { result ≡ self.now.me }
    {
        self.me
    }

    /// What the node keeps durably: a term of at most 2^62, and a state within the limits and of no greater term.
    pub fn kept(&self) -> &Kept
        ensures kept { result.now ≡ K.record_of self.now.keeper }
        ensures bounded { (K.record_of self.now.keeper).term ≤ last_number }
        ensures fit { IsFit (K.record_of self.now.keeper).accepted }
        ensures older { (K.record_of self.now.keeper).accepted.term ≤ (K.record_of self.now.keeper).term }

        // Between two calls a crash leaves this record and nothing else.
        ensures durable { K.told → K.has_stopped self.now.keeper ≡ false → (found : Option Record)
            → (K.left_since self.now.keeper (K.moment self.now.keeper) found ↔ (found ≡ Some (K.record_of self.now.keeper))) }
    {
        self.keeper.kept()
    }

    /// The node's current term, which is at most 2^62.
    pub fn term(&self) -> u64
        ensures term { result ≡ (K.record_of self.now.keeper).term }
        ensures bounded { result ≤ last_number }
    {
        self.keeper.kept().term
    }

    /// The state that the node accepted last, which is within the limits.
    pub fn accepted(&self) -> &ClusterState
        ensures accepted { result.now ≡ (K.record_of self.now.keeper).accepted }
        ensures fit { IsFit (K.record_of self.now.keeper).accepted }
    {
        &self.keeper.kept().accepted
    }

    /// The configuration that the node knows to be committed.
    pub fn committed(&self) -> &VotingConfig
        ensures { result.now ≡ (K.record_of self.now.keeper).committed }
    {
        &self.keeper.kept().committed
    }

    /// Whether the node has started a join since it was opened.
    pub fn started(&self) -> bool
        ensures { result ≡ self.now.started_join }
    {
        self.started_join
    }

    /// Whether the node has won the election of its current term.
    pub fn won(&self) -> bool
        ensures { result ≡ self.now.election_won }
    {
        self.election_won
    }

    /// The votes of this round: the sources of the joins that were counted.
    pub fn votes(&self) -> &JoinVotes
        ensures { result.now ≡ self.now.join_votes }
    {
        &self.join_votes
    }

    /// The sources of the responses counted since the last value was published.
    pub fn acks(&self) -> &JoinVotes
        ensures { result.now ≡ self.now.publish_votes }
    {
        &self.publish_votes
    }

    /// The version and the configuration that were published last.
    pub fn published(&self) -> (u64, &VotingConfig)
        ensures version { result.0 ≡ self.now.published_version }
        ensures config { result.1.now ≡ self.now.published_config }
    {
        (self.published_version, &self.published_config)
    }

    /// What keeps the node's record.
    pub fn keeper(&self) -> &K
        ensures { result.now ≡ self.now.keeper }
    {
        &self.keeper
    }

    /// What kept the node's record, given up by the node.
    pub fn into_keeper(self) -> K
        ensures { result ≡ self.keeper }
    {
        self.keeper
    }

    /// A node that was just opened over what keeps its record.
    pub fn new(me: NodeId, keeper: K) -> CoordState<K>
        requires { K.has_stopped keeper ≡ false }
        ensures me { result.me ≡ me }
        ensures keeper { result.keeper ≡ keeper }
        ensures stands { StandsFor K.Keeper result (opened (K.record_of keeper)) }
    {
        CoordState {
            me,
            keeper,
            started_join: false,
            election_won: false,
            join_votes: JoinVotes::new(),
            published_version: 0,
            published_config: VotingConfig::of(&NodeSet::new()),
            publish_votes: JoinVotes::new(),
        }
    }

    /// Starts a join for the candidate `from` in a term, which must be greater than the current one. All votes are dropped.
    /// Answers the join that is to be sent, with the id of the accepted state.
    pub fn start_join(&mut self, from: NodeId, term: u64) -> Result<Join, ActError<StartCause, ()>>
        ensures act { Acts K.Keeper self.old self.new (act.StartJoin from term) (start_outcome result) }
        ensures wrote { WritesBy K.Keeper self.old.keeper (act.StartJoin from term) self.new.keeper (start_outcome result) }
        ensures any_moment { K.told → (g : NodeHistory) → StandsFor K.Keeper self.old g
            → LeavesOnly K.moment K.left_since self.old.keeper self.new.keeper (IsDuring g (act.StartJoin from term)) }
    {
        if self.keeper.stopped() {
            return Err(ActError::Stopped(()));
        }
        let kept = self.keeper.kept();
        let current = kept.term;
        let last_term = kept.accepted.term;
        let last_version = kept.accepted.version;
        if term <= current {
            return Err(ActError::Refused(StartCause::TermNotGreater(current, term), ()));
        }
        if term > LAST_NUMBER {
            return Err(ActError::Refused(StartCause::TermTooLarge(term), ()));
        }
        let Ok(()) = self.keeper.set_term(term) else {
            return Err(ActError::Disk);
        };
        self.started_join = true;
        self.election_won = false;
        self.join_votes.clear();
        self.published_version = 0;
        let config = &self.keeper.kept().accepted.config;
        self.published_config.copy_from(config);
        self.publish_votes.clear();
        Ok(Join {
            source: self.me,
            target: from,
            term,
            last_term,
            last_version,
        })
    }

    /// Takes the initial configuration, where the node has none. Elasticsearch calls this bootstrapping.
    pub fn set_initial(&mut self, initial: Ready) -> Result<(), ActError<InitialCause, Ready>>
        requires { initial.state ≡ initial_state initial.state.config }
        ensures act { Acts K.Keeper self.old self.new (act.Bootstrap initial.state.config) (initial_outcome result) }
        ensures wrote { WritesBy K.Keeper self.old.keeper (act.Bootstrap initial.state.config) self.new.keeper (initial_outcome result) }
        ensures any_moment { K.told → (g : NodeHistory) → StandsFor K.Keeper self.old g
            → LeavesOnly K.moment K.left_since self.old.keeper self.new.keeper (IsDuring g (act.Bootstrap initial.state.config)) }
        ensures back { HandsBack initial result }
    {
        if self.keeper.stopped() {
            return Err(ActError::Stopped(initial));
        }
        let kept = self.keeper.kept();
        if !kept.accepted.config.is_empty() {
            return Err(ActError::Refused(InitialCause::AlreadySet, initial));
        }
        if initial.state().config.is_empty() {
            return Err(ActError::Refused(InitialCause::EmptyConfig, initial));
        }
        match self.keeper.set_accepted(initial) {
            Ok(()) => Ok(()),
            Err(_) => Err(ActError::Disk),
        }
    }

    /// Counts a join. The node wins the election where it has not won yet and its votes are now a quorum both of the
    /// committed configuration and of the accepted state's.
    pub fn join(&mut self, j: &Join) -> Result<Joined, ActError<JoinCause, ()>>
        requires { (has j.now.source self.old.join_votes ≡ true) ⊎ (length self.old.join_votes < most_ids) }
        ensures act { Acts K.Keeper self.old self.new (act.TakeJoin j.now) (join_outcome result) }
        ensures wrote { WritesBy K.Keeper self.old.keeper (act.TakeJoin j.now) self.new.keeper (join_outcome result) }
        ensures any_moment { K.told → (g : NodeHistory) → StandsFor K.Keeper self.old g
            → LeavesOnly K.moment K.left_since self.old.keeper self.new.keeper (IsDuring g (act.TakeJoin j.now)) }
    {
        if self.keeper.stopped() {
            return Err(ActError::Stopped(()));
        }
        let kept = self.keeper.kept();
        if let Err(cause) = join_check(
            self.me,
            kept.term,
            kept.accepted.id(),
            &kept.accepted.config,
            self.started_join,
            j,
        ) {
            return Err(ActError::Refused(cause, ()));
        }
        self.join_votes.add(j.source);
        // A node that has won compares no configuration again.
        let wins = !self.election_won
            && self
                .join_votes
                .is_quorum_with_state(&kept.committed, &kept.accepted.config);
        if !wins {
            return Ok(Joined { won: false });
        }
        self.published_version = kept.accepted.version;
        self.election_won = true;
        Ok(Joined { won: true })
    }

    // The first cause that refuses a new value of a version with a configuration.
    fn value_check(&self, version: u64, config: &IdList) -> Result<(), ValueCause>
        ensures { result ≡ value_checked (fields_of K.Keeper self.now) version config.now }
    {
        let kept = self.keeper.kept();
        let accepted = kept.accepted.version;
        if !self.election_won {
            return Err(ValueCause::NotWon);
        }
        if self.published_version != accepted {
            return Err(ValueCause::NotAccepted(self.published_version, accepted));
        }
        if version <= self.published_version {
            return Err(ValueCause::VersionNotGreater(self.published_version, version));
        }
        if version > LAST_NUMBER {
            return Err(ValueCause::VersionTooLarge(version));
        }
        if !config.is_same(&kept.accepted.config)
            && !kept.committed.is_same_list(&kept.accepted.config)
        {
            return Err(ValueCause::Reconfiguring);
        }
        if !self.join_votes.is_quorum_of(config) {
            return Err(ValueCause::NoJoinQuorum);
        }
        Ok(())
    }

    // The request that publishes a value with a version and a configuration.
    fn request(
        &self,
        alloc: Global,
        version: u64,
        config: IdList,
        value: ClusterValue,
    ) -> Result<PublishRequest, AllocError>
        ensures { IfOk result (λ request. request ≡ request_of K.Keeper self.now version config value) }
    {
        let kept = self.keeper.kept();
        let committed = IdList::of(alloc, kept.committed.members())?;
        let state = ClusterState {
            term: kept.term,
            version,
            parent: Some(kept.accepted.id()),
            config,
            committed,
            value,
        };
        Ok(PublishRequest {
            source: self.me,
            state: SharedState::of(alloc, state)?,
        })
    }

    // Takes a value that nothing refuses.
    fn begin_value(&mut self, version: u64, config: &IdList)
        requires runs { K.has_stopped self.old.keeper ≡ false }
        requires checked { is_ok (value_checked (fields_of K.Keeper self.old) version config.now) ≡ true }
        ensures act { (value : ClusterValue)
            → Acts K.Keeper self.old self.new (act.Value version config.now value)
            (Answered (sends_request (request_of K.Keeper self.old version config.now value))) }
        ensures rest { self.new ≡ record self.old { published_version = version; published_config = config.now; publish_votes = [] } }
    {
        self.published_version = version;
        self.published_config.copy_from(config);
        self.publish_votes.clear();
    }

    /// Publishes a new value with a version and a configuration, where the node has won and has accepted what it published
    /// last, and answers the request that publishes it: the state in the node's term, of this version, configuration and value, with the
    /// accepted state's id as its parent and the configuration that the node knows to be committed. Another configuration than the
    /// accepted one is taken only once the accepted one is committed, and only if the node's votes are a quorum of it.
    ///
    /// What is published lies in one place for all who hold it, so it takes memory, where it is taken. Where there is none, nothing is
    /// changed.
    pub fn client_value(
        &mut self,
        alloc: Global,
        version: u64,
        config: IdList,
        value: ClusterValue,
    ) -> Result<Result<PublishRequest, ActError<ValueCause, (IdList, ClusterValue)>>, AllocError>
        ensures act { IfOk result
            (λ answer. Acts K.Keeper self.old self.new (act.Value version config value) (outcome sends_request ValueRefused answer)) }
        ensures wrote { IfOk result
            (λ answer. WritesBy K.Keeper self.old.keeper (act.Value version config value) self.new.keeper
            (outcome sends_request ValueRefused answer)) }
        ensures any_moment { K.told → (g : NodeHistory) → StandsFor K.Keeper self.old g
            → LeavesOnly K.moment K.left_since self.old.keeper self.new.keeper (IsDuring g (act.Value version config value)) }
        ensures back { IfOk result (λ answer. HandsBack (config, value) answer) }
        ensures memory { OnErr result (self.new ≡ self.old) }
    {
        if self.keeper.stopped() {
            return Ok(Err(ActError::Stopped((config, value))));
        }
        if let Err(cause) = self.value_check(version, &config) {
            return Ok(Err(ActError::Refused(cause, (config, value))));
        }
        let request = self.request(alloc, version, config, value)?;
        self.begin_value(version, &request.state.config);
        Ok(Ok(request))
    }

    /// [`client_value`](CoordState::client_value) of any value, which no rule looks at, for a caller that makes the request where it is to
    /// stay. It takes no memory, and has nothing to hand back.
    pub fn take_value(
        &mut self,
        version: u64,
        config: &IdList,
    ) -> Result<(), ActError<ValueCause, ()>>
        ensures act { (value : ClusterValue)
            → Acts K.Keeper self.old self.new (act.Value version config.now value)
            (value_outcome (request_of K.Keeper self.old version config.now value) result) }
        ensures wrote { (value : ClusterValue)
            → WritesBy K.Keeper self.old.keeper (act.Value version config.now value) self.new.keeper
            (value_outcome (request_of K.Keeper self.old version config.now value) result) }
        ensures any_moment { (value : ClusterValue) → K.told → (g : NodeHistory) → StandsFor K.Keeper self.old g
            → LeavesOnly K.moment K.left_since self.old.keeper self.new.keeper (IsDuring g (act.Value version config.now value)) }
        ensures same { self.new
            ≡ record self.old {
              published_version = self.new.published_version;
              published_config = self.new.published_config;
              publish_votes = self.new.publish_votes;
            } }
    {
        if self.keeper.stopped() {
            return Err(ActError::Stopped(()));
        }
        if let Err(cause) = self.value_check(version, config) {
            return Err(ActError::Refused(cause, ()));
        }
        self.begin_value(version, config);
        Ok(())
    }

    /// Whether `publish_request` would refuse this state, from whichever node, without taking it. Never answers `Disk`.
    pub fn check_publish(&self, state: &ClusterState) -> Result<(), ActError<PublishCause, ()>>
        ensures { (source : Id)
            → Foretells result (reply_at self.now.me (fields_of K.Keeper self.now)
            (act.Publish (record { source = source; state = state.now }))) }
    {
        if self.keeper.stopped() {
            return Err(ActError::Stopped(()));
        }
        match publish_check(self.keeper.kept(), state) {
            Ok(()) => Ok(()),
            Err(cause) => Err(ActError::Refused(cause, ())),
        }
    }

    /// Accepts a published state of the current term, whose id is above that of the accepted one.
    pub fn publish_request(
        &mut self,
        source: NodeId,
        state: Ready,
    ) -> Result<PublishResponse, ActError<PublishCause, Ready>>
        ensures act { Acts K.Keeper self.old self.new (act.Publish (record { source = source; state = state.state }))
            (publish_outcome result) }
        ensures wrote { WritesBy K.Keeper self.old.keeper (act.Publish (record { source = source; state = state.state })) self.new.keeper
            (publish_outcome result) }
        ensures any_moment { K.told → (g : NodeHistory) → StandsFor K.Keeper self.old g
            → LeavesOnly K.moment K.left_since self.old.keeper self.new.keeper
            (IsDuring g (act.Publish (record { source = source; state = state.state }))) }
        ensures back { HandsBack state result }
    {
        if self.keeper.stopped() {
            return Err(ActError::Stopped(state));
        }
        if let Err(cause) = publish_check(self.keeper.kept(), state.state()) {
            return Err(ActError::Refused(cause, state));
        }
        let term = state.state().term;
        let version = state.state().version;
        match self.keeper.set_accepted(state) {
            Ok(()) => Ok(PublishResponse {
                source: self.me,
                target: source,
                term,
                version,
            }),
            Err(_) => Err(ActError::Disk),
        }
    }

    /// Counts the response to a publication. Answers a commit wherever the responses are a quorum both of the committed
    /// configuration and of the published one, so also at later responses.
    pub fn publish_response(
        &mut self,
        r: &PublishResponse,
    ) -> Result<Option<ApplyCommit>, ActError<ResponseCause, ()>>
        requires { (has r.now.source self.old.publish_votes ≡ true) ⊎ (length self.old.publish_votes < most_ids) }
        ensures act { Acts K.Keeper self.old self.new (act.Response r.now) (response_outcome result) }
        ensures wrote { WritesBy K.Keeper self.old.keeper (act.Response r.now) self.new.keeper (response_outcome result) }
        ensures any_moment { K.told → (g : NodeHistory) → StandsFor K.Keeper self.old g
            → LeavesOnly K.moment K.left_since self.old.keeper self.new.keeper (IsDuring g (act.Response r.now)) }
    {
        if self.keeper.stopped() {
            return Err(ActError::Stopped(()));
        }
        let kept = self.keeper.kept();
        if r.target != self.me {
            return Err(ActError::Refused(ResponseCause::NotForMe(r.target), ()));
        }
        if !self.election_won {
            return Err(ActError::Refused(ResponseCause::NotWon, ()));
        }
        if kept.term != r.term {
            return Err(ActError::Refused(ResponseCause::TermMismatch(kept.term, r.term), ()));
        }
        if self.published_version != r.version {
            return Err(ActError::Refused(
                ResponseCause::VersionMismatch(self.published_version, r.version),
                (),
            ));
        }
        self.publish_votes.add(r.source);
        if self
            .publish_votes
            .is_quorum_of_both(&kept.committed, &self.published_config)
        {
            Ok(Some(ApplyCommit {
                source: self.me,
                term: r.term,
                version: r.version,
            }))
        } else {
            Ok(None)
        }
    }

    /// Takes it that the accepted state is committed: its configuration becomes the committed one. A winner does not take
    /// the commit of a state while its newer publication is not accepted.
    pub fn commit(&mut self, c: &ApplyCommit) -> Result<(), ActError<CommitCause, ()>>
        ensures act { Acts K.Keeper self.old self.new (act.Commit c.now) (commit_outcome result) }
        ensures wrote { WritesBy K.Keeper self.old.keeper (act.Commit c.now) self.new.keeper (commit_outcome result) }
        ensures any_moment { K.told → (g : NodeHistory) → StandsFor K.Keeper self.old g
            → LeavesOnly K.moment K.left_since self.old.keeper self.new.keeper (IsDuring g (act.Commit c.now)) }
    {
        if self.keeper.stopped() {
            return Err(ActError::Stopped(()));
        }
        let kept = self.keeper.kept();
        let accepted = &kept.accepted;
        if kept.term != c.term {
            return Err(ActError::Refused(CommitCause::TermMismatch(kept.term, c.term), ()));
        }
        if accepted.term != c.term {
            return Err(ActError::Refused(
                CommitCause::AcceptedTermMismatch(accepted.term, c.term),
                (),
            ));
        }
        if accepted.version != c.version {
            return Err(ActError::Refused(
                CommitCause::VersionMismatch(accepted.version, c.version),
                (),
            ));
        }
        if self.election_won && accepted.version != self.published_version {
            return Err(ActError::Refused(
                CommitCause::Publishing(accepted.version, self.published_version),
                (),
            ));
        }
        match self.keeper.mark_committed() {
            Ok(()) => Ok(()),
            Err(_) => Err(ActError::Disk),
        }
    }
}

impl<K: ArmKeeper> CoordState<K> {
    /// Takes an order for the disk that the record is kept on, in place of an earlier one of its kind.
    pub fn arm(&mut self, order: Order)
        ensures rest { self.new ≡ record self.old { keeper = self.new.keeper } }
        ensures stands { (g : NodeHistory) → StandsFor K.Keeper self.old g → StandsFor K.Keeper self.new g }
        ensures record { K.Keeper.record_of self.new.keeper ≡ K.Keeper.record_of self.old.keeper }
        ensures stopped { K.Keeper.has_stopped self.new.keeper ≡ K.Keeper.has_stopped self.old.keeper }
        ensures faults { K.Keeper.faults self.new.keeper ≡ K.Keeper.faults self.old.keeper }
        ensures moment { K.Keeper.moment self.new.keeper ≡ K.Keeper.moment self.old.keeper }
        ensures left_since { (t : ℕ) → Same (K.Keeper.left_since self.old.keeper t) (K.Keeper.left_since self.new.keeper t) }
        ensures arms { K.arms self.old.keeper order self.new.keeper }
    {
        self.keeper.arm(order);
    }
}
