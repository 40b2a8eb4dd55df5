//! The acts of the core, each with its entry.
ghost use Rattle.std.specs.Prelude.{◌≡◌, ◌≤◌, ◌<◌, [], ◌∷◌, true, false, None, Some, IfOk, is_ok, if◌then◌else◌};
ghost use Rattle.cluster_state.specs.Initial.{initial_state};
ghost use Rattle.policy_model.specs.Parts.{published_at, watched, finished, state_finished, responded};
ghost use Rattle.world_model.specs.declared.acts.Act.TheVariants as act;
ghost use Rattle.policy_model.specs.Doing.{act_now, reply_now, takes};
ghost use Rattle.voting_config.specs.Ids.{has_room as has_room_of};
ghost use Rattle.policy_model.specs.Joins.{wins_now};
ghost use Rattle.policy_model.specs.LookBacks.{yields as yields_of};
ghost use Rattle.policy_model.specs.Publications.{commits_now};
ghost use Rattle.coord_state.specs.StandsFor.{request_of};
ghost use Rattle.coordinator.specs.Does.{Does};
ghost use Rattle.coordinator.specs.Rooms.{Uses};
ghost use Rattle.coordinator.specs.Views.{view_in, IsReady};

use crate::coordinator::{Coordinator, DiskFailed};
use crate::outcomes::{has_sent, has_won, verdict, was_taken};
use crate::output::Output;
use crate::plan::FirstState;
use cluster_state::{
    ApplyCommit, Join, PublishRequest, PublishResponse, SharedConfig, SharedState, SharedValue,
    StateId,
};
use coord_state::{outcome_of, outcome_of_value};
use fault_checks::FollowerChecks;
use pre_vote::PreVotes;
use publication::Publication;
use state_journal::{Keeper, Ready};
use voting_config::{IdList, NodeId};
use world_model::{Act, Outcome};

/// Whether a join was counted, and whether it won the election.
#[derive(Clone, Copy)]
pub struct Counted {
    pub taken: bool,
    pub wins: bool,
}

impl<K: Keeper> Coordinator<K> {
    // Takes the initial configuration. Answers whether that was taken.
    pub(crate) fn act_set_initial(
        &mut self,
        out: &mut Output,
        first: FirstState,
    ) -> Result<bool, DiskFailed>
        requires ready { IsReady self.old }
        requires deeds { 1 ≤ out.old.deeds.room }
        requires first { first.ready.state ≡ initial_state first.config }
        ensures does { Does K.Keeper self.old self.new out.old out.new (λ s v. act_now s v (act.Bootstrap first.config) ∷ [])
            (is_ok result) }
        ensures taken { IfOk result (λ taken. taken ≡ takes self.old.settings (view_in K.Keeper self.old) (act.Bootstrap first.config)) }
        ensures uses { Uses out.old out.new 1 0 0 }
        ensures rest { self.new ≡ record self.old { core = self.new.core } }
    {
        let FirstState { ready, config } = first;
        let outcome = outcome_of(self.core.set_initial(ready));
        let verdict = verdict(&outcome);
        out.act(Act::Bootstrap(config), outcome);
        verdict
    }

    // Whether it has lost its leader, and joins another by this.
    fn yields(&self, candidate: NodeId, outcome: &Outcome) -> bool
        ensures { result ≡ yields_of self.now.settings self.now.lost_leader candidate outcome.now }
    {
        was_taken(outcome) && self.lost_leader && candidate != self.settings.me
    }

    // Starts a join for a candidate in a term. Answers whether that was taken.
    pub(crate) fn act_start_join(
        &mut self,
        out: &mut Output,
        candidate: NodeId,
        term: u64,
    ) -> Result<bool, DiskFailed>
        requires ready { IsReady self.old }
        requires deeds { 1 ≤ out.old.deeds.room }
        ensures does { Does K.Keeper self.old self.new out.old out.new (λ s v. act_now s v (act.StartJoin candidate term) ∷ [])
            (is_ok result) }
        ensures taken { IfOk result (λ taken. taken ≡ takes self.old.settings (view_in K.Keeper self.old) (act.StartJoin candidate term)) }
        ensures uses { Uses out.old out.new 1 0 0 }
        ensures tasks { self.new.tasks ≡ self.old.tasks }
    {
        let outcome = outcome_of(self.core.start_join(candidate, term));
        let verdict = verdict(&outcome);
        wait_anew(
            self.yields(candidate, &outcome),
            &mut self.deadline,
            &mut self.round,
        );
        out.act(Act::StartJoin(candidate, term), outcome);
        verdict
    }

    // Counts a join. Answers whether that was taken and whether it wins.
    pub(crate) fn act_join(&mut self, out: &mut Output, join: &Join) -> Counted
        requires ready { IsReady self.old }
        requires deeds { 1 ≤ out.old.deeds.room }
        requires room { has_room_of self.old.core.join_votes join.now.source ≡ true }
        ensures does { Does K.Keeper self.old self.new out.old out.new (λ s v. act_now s v (act.TakeJoin join.now) ∷ []) true }
        ensures taken { result.taken ≡ takes self.old.settings (view_in K.Keeper self.old) (act.TakeJoin join.now) }
        ensures wins { result.wins ≡ wins_now (reply_now self.old.settings (view_in K.Keeper self.old) (act.TakeJoin join.now)) }
        ensures uses { Uses out.old out.new 1 0 0 }
        ensures rest { self.new ≡ record self.old { core = self.new.core } }
    {
        let outcome = outcome_of(self.core.join(join));
        let counted = Counted {
            taken: was_taken(&outcome),
            wins: has_won(&outcome),
        };
        out.act(Act::TakeJoin(*join), outcome);
        counted
    }

    // Publishes the state of a request, whose configuration and value the entry holds. Answers whether that was taken: the
    // publication begins, and its members are watched.
    pub(crate) fn act_value(
        &mut self,
        out: &mut Output,
        request: PublishRequest,
        config: SharedConfig,
        value: SharedValue,
    ) -> bool
        requires ready { IsReady self.old }
        requires deeds { 1 ≤ out.old.deeds.room }
        requires request { request ≡ request_of K.Keeper self.old.core request.state.version config value }
        ensures does { Does K.Keeper self.old self.new out.old out.new
            (λ s v. act_now s v (act.Value request.state.version config value) ∷ []) true }
        ensures taken { result ≡ takes self.old.settings (view_in K.Keeper self.old) (act.Value request.state.version config value) }
        ensures uses { Uses out.old out.new 1 0 0 }
        ensures tasks { self.new.tasks ≡ self.old.tasks }
    {
        let id = request.state.id();
        let answer = self.core.take_value(id.version, &config);
        let outcome = outcome_of_value(answer, request);
        let taken = was_taken(&outcome);
        begin_publication(
            taken,
            &mut self.publication,
            &mut self.followers,
            id,
            self.settings.me,
            &value.members,
            self.moment,
        );
        out.act(Act::Value(id.version, config, value), outcome);
        taken
    }

    // Accepts a published state, which the entry shares. Answers whether that was taken.
    pub(crate) fn act_publish(
        &mut self,
        out: &mut Output,
        source: NodeId,
        state: Ready,
        entry: SharedState,
    ) -> Result<bool, DiskFailed>
        requires ready { IsReady self.old }
        requires deeds { 1 ≤ out.old.deeds.room }
        requires entry { entry ≡ state.state }
        ensures does { Does K.Keeper self.old self.new out.old out.new
            (λ s v. act_now s v (act.Publish (record { source = source; state = state.state })) ∷ []) (is_ok result) }
        ensures taken { IfOk result
            (λ taken. taken ≡ takes self.old.settings (view_in K.Keeper self.old)
            (act.Publish (record { source = source; state = state.state }))) }
        ensures uses { Uses out.old out.new 1 0 0 }
        ensures rest { self.new ≡ record self.old { core = self.new.core } }
    {
        let outcome = outcome_of(self.core.publish_request(source, state));
        let verdict = verdict(&outcome);
        let request = PublishRequest {
            source,
            state: entry,
        };
        out.act(Act::Publish(request), outcome);
        verdict
    }

    // Counts a response to the publication. Answers whether it sends a commit.
    pub(crate) fn act_response(&mut self, out: &mut Output, response: &PublishResponse) -> bool
        requires ready { IsReady self.old }
        requires deeds { 1 ≤ out.old.deeds.room }
        requires room { has_room_of self.old.core.publish_votes response.now.source ≡ true }
        ensures does { Does K.Keeper self.old self.new out.old out.new (λ s v. act_now s v (act.Response response.now) ∷ []) true }
        ensures commits { result ≡ commits_now (reply_now self.old.settings (view_in K.Keeper self.old) (act.Response response.now)) }
        ensures uses { Uses out.old out.new 1 0 0 }
        ensures rest { self.new ≡ record self.old { core = self.new.core; publication = self.new.publication } }
    {
        let outcome = outcome_of(self.core.publish_response(response));
        let commits = has_sent(&outcome);
        count_response(
            was_taken(&outcome),
            commits,
            &mut self.publication,
            response.source,
        );
        out.act(Act::Response(*response), outcome);
        commits
    }

    // Takes it that the accepted state is committed. Answers whether that was taken: the state is applied then, and its
    // publication is finished.
    pub(crate) fn act_commit(
        &mut self,
        out: &mut Output,
        commit: &ApplyCommit,
    ) -> Result<bool, DiskFailed>
        requires ready { IsReady self.old }
        requires deeds { 1 ≤ out.old.deeds.room }
        ensures does { Does K.Keeper self.old self.new out.old out.new (λ s v. act_now s v (act.Commit commit.now) ∷ []) (is_ok result) }
        ensures taken { IfOk result (λ taken. taken ≡ takes self.old.settings (view_in K.Keeper self.old) (act.Commit commit.now)) }
        ensures uses { Uses out.old out.new 1 0 0 }
        ensures tasks { self.new.tasks ≡ self.old.tasks }
    {
        let accepted = self.core.accepted().id();
        let outcome = outcome_of(self.core.commit(commit));
        let verdict = verdict(&outcome);
        finish(
            was_taken(&outcome),
            &mut self.applied,
            &mut self.publication,
            &mut self.followers,
            &mut self.lost_leader,
            accepted,
            self.moment,
        );
        out.act(Act::Commit(*commit), outcome);
        verdict
    }
}

// A publication begins, where it is taken, and its members are watched.
fn begin_publication(
    taken: bool,
    publication: &mut Option<Publication>,
    followers: &mut FollowerChecks,
    id: StateId,
    me: NodeId,
    members: &IdList,
    now: u64,
)
    ensures publication { publication.new ≡ (if taken then Some (published_at id members.now now) else publication.old) }
    ensures followers { followers.new ≡ (if taken then watched me followers.old members.now now else followers.old) }
{
    if taken {
        *publication = Some(Publication::start(id, members, now));
        followers.watch_others(me, members, now);
    }
}

// A response is counted, where it is taken.
fn count_response(taken: bool, commits: bool, publication: &mut Option<Publication>, source: NodeId)
    ensures { publication.new ≡ (if taken then responded publication.old source commits else publication.old) }
{
    if !taken {
        return;
    }
    match publication {
        None => {}
        Some(publication) => {
            publication.responded(source);
            if commits {
                publication.commit_sent();
            }
        }
    }
}

// A node that has lost its leader and joins another ends its round, and waits anew.
fn wait_anew(yields: bool, deadline: &mut Option<u64>, round: &mut Option<PreVotes>)
    ensures deadline { deadline.new ≡ (if yields then None else deadline.old) }
    ensures round { round.new ≡ (if yields then None else round.old) }
{
    if yields {
        *deadline = None;
        *round = None;
    }
}

// Where a commit is taken, its state is applied, the node has a leader again, and the publication is finished, unless it was before.
fn finish(
    taken: bool,
    applied: &mut StateId,
    publication: &mut Option<Publication>,
    followers: &mut FollowerChecks,
    lost_leader: &mut bool,
    id: StateId,
    now: u64,
)
    ensures applied { applied.new ≡ (if taken then id else applied.old) }
    ensures publication { publication.new ≡ (if taken then finished publication.old else publication.old) }
    ensures followers { followers.new ≡ (if taken then state_finished publication.old followers.old id now else followers.old) }
    ensures lost { lost_leader.new ≡ (if taken then false else lost_leader.old) }
{
    if !taken {
        return;
    }
    *applied = id;
    *lost_leader = false;
    match publication {
        None => {}
        Some(publication) => {
            if !publication.is_finished() {
                followers.finished(id, now);
            }
            publication.finished();
        }
    }
}
