//! The checks of the followers by their leader: which of them fail, and which lag.
ghost use Rattle.std.specs.Prelude.{◌≡◌, ◌<◌, ◌≤◌, length, map, filter, true, IsTrue, if◌then◌else◌};
ghost use Rattle.std.specs.List.{list_all};
ghost use Rattle.voting_config.specs.Ids.{has, with_id, without_id, most_ids, ascends};
ghost use Rattle.fault_checks.specs.declared.followers.Follower.{Follower as FollowerOf};
ghost use Rattle.fault_checks.specs.Checks.{ticked_at as ticked_at_of};
ghost use Rattle.fault_checks.specs.Choices.{is_chosen as is_chosen_of};
ghost use Rattle.fault_checks.specs.Followers.{new_follower as new_follower_of, watched_or_new as watched_or_new_of, fallen_behind as fallen_behind_of, behind_finished as behind_finished_of, behind_after as behind_after_of, answered_from as answered_from_of, is_late as is_late_of, drops_for_checks as drops_for_checks_of, drops_for_lag as drops_for_lag_of, stays as stays_of, stayed, others_of as others_of_of, is_asked as is_asked_of, ids_of, to_ask, to_drop_for_checks, to_drop_for_lag, AreApart};

use crate::checking::{self, Check};
use crate::spans::FOLLOWER_LAG_TIMEOUT_MS;
use arrayvec::ArrayVec;
use cluster_state::StateId;
use election_clock::has_passed;
use std::marker::Model;
use voting_config::{IdList, MAX_IDS, NodeId, NodeSet};

/// A finished state that a follower has not applied, and the moment at which it fell behind it, in ms.
#[derive(Clone, Copy)]
pub struct Behind {
    pub state: StateId,
    pub since: u64,
}

/// A follower that the leader watches.
#[derive(Clone, Copy)]
pub struct Follower {
    pub id: NodeId,
    pub check: Check,
    /// The state that it has applied, by its last answer; 0/0 before one.
    pub applied: StateId,
    pub behind: Option<Behind>,
}

impl Default for Follower {
    ghost use Rattle.std.specs.Prelude.{replicate};
    ghost use Rattle.fault_checks.specs.Followers.{new_follower};

    ghost is_default = { λ f. f ≡ new_follower (replicate 32 45) 0 };

    fn default() -> Follower {
        new_follower(NodeId::default(), 0)
    }
}

/// What a tick answers. No node is in two of the sets.
#[derive(Drop)]
pub struct Checked {
    /// Whom to send a check.
    pub ask: NodeSet,
    /// Whom to drop, since too many checks in a row have failed.
    pub checks: NodeSet,
    /// Whom to drop, since it has been behind a finished state for too long.
    pub lag: NodeSet,
}

/// The checks of the followers by their leader, seen as what the calls so far make of them.
#[derive(Drop)]
pub struct FollowerChecks {
    finished: StateId,
    watched: ArrayVec<Follower, MAX_IDS>,
}

impl Model for FollowerChecks {
    ghost use Rattle.std.specs.Prelude.{IsTrue};
    ghost use Rattle.voting_config.specs.Ids.{ascends};
    ghost use Rattle.fault_checks.specs.Followers.{Followers, ids_of};

    ghost Value = { Followers };

    ghost view = { λ f. record { finished = f.finished; watched = f.watched.items } };

    ghost invariant = { λ f. IsTrue (ascends (ids_of f.watched.items)) };
}

impl FollowerChecks {
    ghost use Rattle.fault_checks.specs.Followers.{
      Calls,
      Started,
      Then,
      Watched,
      Finished,
      Answered,
      Ticked,
      Disconnected,
      StandsFor,
      after,
    };

    /// No follower is watched and no state is finished yet.
    pub fn new() -> FollowerChecks
        ensures { StandsFor result Started }
    {
        FollowerChecks {
            finished: StateId {
                term: 0,
                version: 0,
            },
            watched: ArrayVec::new(),
        }
    }

    /// The same checks once more.
    pub fn copy(&self) -> FollowerChecks
        ensures { result ≡ self.now }
    {
        let mut watched = ArrayVec::new();
        // There is as much room as in the original, so this is no error.
        let _ = watched.try_extend_from_slice(self.watched.as_slice());
        FollowerChecks {
            finished: self.finished,
            watched,
        }
    }

    /// These are the members other than the leader now, in ms. Who was watched already goes on as before, who is new
    /// is watched from now on, and who is gone is watched no more.
    pub fn watch(&mut self, members: &NodeSet, now: u64)
        ensures now { self.new ≡ after self.old (Watched members.now now) }
        ensures calls { (calls : Calls) → StandsFor self.old calls → StandsFor self.new (Then calls (Watched members.now now)) }
    {
        self.watched = watched_from(self.watched.as_slice(), members.as_slice(), now);
    }

    /// [`watch`](FollowerChecks::watch) with the members other than the leader `me`. Most often they are just those who are watched, and
    /// nothing is done then.
    pub fn watch_others(&mut self, me: NodeId, members: &IdList, now: u64)
        ensures now { self.new ≡ after self.old (Watched (without_id me members.now) now) }
    {
        if are_others(self.watched.as_slice(), me, members.as_slice()) {
            return;
        }
        let mut others = members.to_set();
        others.remove(me);
        self.watch(&others, now);
    }

    /// A state is finished now, in ms: who is not behind yet and has not applied it falls behind it. Where it is the
    /// last one that was finished, nothing changes.
    pub fn finished(&mut self, id: StateId, now: u64)
        ensures now { self.new ≡ after self.old (Finished id now) }
        ensures calls { (calls : Calls) → StandsFor self.old calls → StandsFor self.new (Then calls (Finished id now)) }
    {
        let last = self.finished;
        self.finished = id;
        finish_all(self.watched.as_mut_slice(), last, id, now);
    }

    /// A follower answers now, in ms, yes where `good` and else no, with the id of the state that it has applied.
    /// Nothing changes where it isn't watched or no check of it is outstanding.
    pub fn answer(&mut self, from: NodeId, good: bool, applied: StateId, now: u64)
        ensures now { self.new ≡ after self.old (Answered from good applied now) }
        ensures calls { (calls : Calls) → StandsFor self.old calls → StandsFor self.new (Then calls (Answered from good applied now)) }
    {
        let finished = self.finished;
        answer_all(
            self.watched.as_mut_slice(),
            from,
            finished,
            good,
            applied,
            now,
        );
    }

    /// Whether a [tick](FollowerChecks::tick) now, in ms, keeps all who are watched, so that it drops nobody.
    pub fn keeps_all(&self, now: u64) -> bool
        ensures { result ≡ list_all (λ (f : FollowerOf). stays_of f now) self.now.watched }
    {
        keep_all(self.watched.as_slice(), now)
    }

    /// Whom to ask and whom to drop now, in ms. Dropped are those whose last [`crate::CHECK_RETRY_COUNT`] checks have
    /// failed, and of the others those that fell behind a finished state [`FOLLOWER_LAG_TIMEOUT_MS`] or more ago; they
    /// are watched no more. Of the rest those are asked that have no check outstanding, [`crate::CHECK_INTERVAL_MS`] or
    /// more after their last answer or failure, or after they became watched. A check that has had no answer for
    /// [`crate::CHECK_TIMEOUT_MS`] fails at this tick.
    pub fn tick(&mut self, now: u64) -> Checked
        ensures ask { result.ask ≡ to_ask self.old.watched now }
        ensures checks { result.checks ≡ to_drop_for_checks self.old.watched now }
        ensures lag { result.lag ≡ to_drop_for_lag self.old.watched now }
        ensures ask_no_checks { AreApart result.ask result.checks }
        ensures ask_no_lag { AreApart result.ask result.lag }
        ensures checks_no_lag { AreApart result.checks result.lag }
        ensures now { self.new ≡ after self.old (Ticked now) }
        ensures calls { (calls : Calls) → StandsFor self.old calls → StandsFor self.new (Then calls (Ticked now)) }
    {
        let checked = tick_of(self.watched.as_slice(), now);
        self.watched = ticked(self.watched.as_slice(), now);
        checked
    }

    /// A [tick](FollowerChecks::tick) that drops nobody, now, in ms: whom to ask.
    pub fn tick_all(&mut self, now: u64) -> NodeSet
        requires { list_all (λ (f : FollowerOf). stays_of f now) self.old.watched ≡ true }
        ensures ask { result ≡ to_ask self.old.watched now }
        ensures now { self.new ≡ after self.old (Ticked now) }
        ensures calls { (calls : Calls) → StandsFor self.old calls → StandsFor self.new (Then calls (Ticked now)) }
    {
        let ask = chosen(self.watched.as_slice(), Choice::Asked, now);
        tick_each(self.watched.as_mut_slice(), now);
        ask
    }

    /// The connection to a follower has ended: it is watched no more. Nothing changes where it isn't watched.
    pub fn disconnected(&mut self, id: NodeId)
        ensures now { self.new ≡ after self.old (Disconnected id) }
        ensures calls { (calls : Calls) → StandsFor self.old calls → StandsFor self.new (Then calls (Disconnected id)) }
    {
        self.watched = others_of(self.watched.as_slice(), id);
    }

    /// Whether a node is watched.
    pub fn watches(&self, id: NodeId) -> bool
        ensures { result ≡ has id (ids_of self.now.watched) }
    {
        is_among(self.watched.as_slice(), id)
    }

    /// Who is watched.
    pub fn watched(&self) -> NodeSet
        ensures { result ≡ ids_of self.now.watched }
    {
        chosen(self.watched.as_slice(), Choice::All, 0)
    }
}

fn fallen_behind(
    behind: Option<Behind>,
    applied: StateId,
    state: StateId,
    now: u64,
) -> Option<Behind>
    ensures { result ≡ fallen_behind_of behind applied state now }
{
    match behind {
        Some(behind) => Some(behind),
        None => {
            if state.is_reached_by(applied) {
                None
            } else {
                Some(Behind { state, since: now })
            }
        }
    }
}

fn behind_finished(
    behind: Option<Behind>,
    applied: StateId,
    last: StateId,
    state: StateId,
    now: u64,
) -> Option<Behind>
    ensures { result ≡ behind_finished_of behind applied last state now }
{
    if state.is_same(last) {
        behind
    } else {
        fallen_behind(behind, applied, state, now)
    }
}

fn behind_after(
    behind: Option<Behind>,
    applied: StateId,
    finished: StateId,
    now: u64,
) -> Option<Behind>
    ensures { result ≡ behind_after_of behind applied finished now }
{
    match behind {
        None => None,
        Some(behind) => {
            if behind.state.is_reached_by(applied) {
                fallen_behind(None, applied, finished, now)
            } else {
                Some(behind)
            }
        }
    }
}

fn is_late(behind: Option<Behind>, now: u64) -> bool
    ensures { result ≡ is_late_of behind now }
{
    match behind {
        None => false,
        Some(behind) => has_passed(behind.since, FOLLOWER_LAG_TIMEOUT_MS, now),
    }
}

fn drops_for_checks(follower: &Follower, now: u64) -> bool
    ensures { result ≡ drops_for_checks_of follower.now now }
{
    checking::fails(follower.check, now)
}

fn drops_for_lag(follower: &Follower, now: u64) -> bool
    ensures { result ≡ drops_for_lag_of follower.now now }
{
    !drops_for_checks(follower, now) && is_late(follower.behind, now)
}

fn stays(follower: &Follower, now: u64) -> bool
    ensures { result ≡ stays_of follower.now now }
{
    !drops_for_checks(follower, now) && !is_late(follower.behind, now)
}

fn keep_all(watched: &[Follower], now: u64) -> bool
    ensures { result ≡ list_all (λ (f : FollowerOf). stays_of f now) watched.now }
{
    watched.iter().all(|follower| stays(follower, now))
}

fn is_asked(follower: &Follower, now: u64) -> bool
    ensures { result ≡ is_asked_of follower.now now }
{
    stays(follower, now) && checking::asks(follower.check, now)
}

fn finished_at(follower: Follower, last: StateId, state: StateId, now: u64) -> Follower
    ensures { result ≡ record follower { behind = behind_finished_of follower.behind follower.applied last state now } }
{
    Follower {
        id: follower.id,
        check: follower.check,
        applied: follower.applied,
        behind: behind_finished(follower.behind, follower.applied, last, state, now),
    }
}

fn finish_all(watched: &mut [Follower], last: StateId, state: StateId, now: u64)
    ensures { watched.new
        ≡ map (λ (f : FollowerOf). record f { behind = behind_finished_of f.behind f.applied last state now }) watched.old }
{
    for follower in watched {
        *follower = finished_at(*follower, last, state, now);
    }
}

fn answered_from(
    follower: Follower,
    from: NodeId,
    finished: StateId,
    good: bool,
    applied: StateId,
    now: u64,
) -> Follower
    ensures { result ≡ answered_from_of follower from finished good applied now }
{
    if follower.id != from || follower.check.asked.is_none() {
        return follower;
    }
    Follower {
        id: follower.id,
        check: checking::answered_at(follower.check, good, now),
        applied,
        behind: behind_after(follower.behind, applied, finished, now),
    }
}

fn answer_all(
    watched: &mut [Follower],
    from: NodeId,
    finished: StateId,
    good: bool,
    applied: StateId,
    now: u64,
)
    ensures { watched.new ≡ map (λ (f : FollowerOf). answered_from_of f from finished good applied now) watched.old }
{
    for follower in watched {
        *follower = answered_from(*follower, from, finished, good, applied, now);
    }
}

fn ticked_at(follower: &Follower, now: u64) -> Follower
    ensures { result ≡ record follower.now { check = ticked_at_of follower.now.check now } }
{
    Follower {
        id: follower.id,
        check: checking::ticked_at(follower.check, now),
        applied: follower.applied,
        behind: follower.behind,
    }
}

fn tick_each(watched: &mut [Follower], now: u64)
    ensures { watched.new ≡ map (λ (f : FollowerOf). record f { check = ticked_at_of f.check now }) watched.old }
{
    for follower in watched {
        *follower = ticked_at(follower, now);
    }
}

fn watched_or_new(watched: &[Follower], id: NodeId, now: u64) -> Follower
    ensures { result ≡ watched_or_new_of watched.now id now }
{
    for follower in watched {
        if follower.id == id {
            return *follower;
        }
    }
    new_follower(id, now)
}

// Whether those who are watched are just the members other than the leader.
fn are_others(watched: &[Follower], me: NodeId, members: &[NodeId]) -> bool
    ensures { IsTrue result → ids_of watched.now ≡ without_id me members.now }
{
    let mut place = 0;
    for member in members {
        if *member != me {
            if place >= watched.len() || watched[place].id != *member {
                return false;
            }
            place += 1;
        }
    }
    place == watched.len()
}

fn new_follower(id: NodeId, now: u64) -> Follower
    ensures { result ≡ new_follower_of id now }
{
    Follower {
        id,
        check: checking::unchecked(now),
        applied: StateId {
            term: 0,
            version: 0,
        },
        behind: None,
    }
}

fn watched_from(watched: &[Follower], members: &[NodeId], now: u64) -> ArrayVec<Follower, MAX_IDS>
    requires { length members.now ≤ MAX_IDS }
    ensures { result.items ≡ map (λ id. watched_or_new_of watched.now id now) members.now }
{
    let mut all = ArrayVec::new();
    for member in members {
        all.push(watched_or_new(watched, *member, now));
    }
    all
}

fn ticked(watched: &[Follower], now: u64) -> ArrayVec<Follower, MAX_IDS>
    requires { length watched.now ≤ MAX_IDS }
    ensures { result.items ≡ stayed watched.now now }
{
    let mut kept = ArrayVec::new();
    for follower in watched {
        if stays(follower, now) {
            kept.push(ticked_at(follower, now));
        }
    }
    kept
}

// The followers but one.
fn others_of(watched: &[Follower], id: NodeId) -> ArrayVec<Follower, MAX_IDS>
    requires { length watched.now ≤ MAX_IDS }
    ensures { result.items ≡ others_of_of watched.now id }
{
    let mut others = ArrayVec::new();
    for follower in watched {
        if follower.id != id {
            others.push(*follower);
        }
    }
    others
}

fn is_among(watched: &[Follower], id: NodeId) -> bool
    ensures { result ≡ has id (ids_of watched.now) }
{
    for follower in watched {
        if follower.id == id {
            return true;
        }
    }
    false
}

fn tick_of(watched: &[Follower], now: u64) -> Checked
    requires room { length watched.now ≤ MAX_IDS }
    requires ascending { IsTrue (ascends (ids_of watched.now)) }
    ensures ask { result.ask ≡ to_ask watched.now now }
    ensures checks { result.checks ≡ to_drop_for_checks watched.now now }
    ensures lag { result.lag ≡ to_drop_for_lag watched.now now }
{
    Checked {
        ask: chosen(watched, Choice::Asked, now),
        checks: chosen(watched, Choice::DroppedForChecks, now),
        lag: chosen(watched, Choice::DroppedForLag, now),
    }
}

// Which followers a tick names.
#[derive(Clone, Copy)]
enum Choice {
    All,
    Asked,
    DroppedForChecks,
    DroppedForLag,
}

fn is_chosen(choice: Choice, follower: &Follower, now: u64) -> bool
    ensures { result ≡ is_chosen_of choice follower.now now }
{
    match choice {
        Choice::All => true,
        Choice::Asked => is_asked(follower, now),
        Choice::DroppedForChecks => drops_for_checks(follower, now),
        Choice::DroppedForLag => drops_for_lag(follower, now),
    }
}

// Puts the id of a follower in that is chosen, where there is room.
fn insert_chosen(ids: &mut NodeSet, follower: &Follower, choice: Choice, now: u64)
    requires { length ids.old < most_ids }
    ensures { ids.new ≡ (if is_chosen_of choice follower.now now then with_id follower.now.id ids.old else ids.old) }
{
    if is_chosen(choice, follower, now) {
        ids.put(follower.id);
    }
}

fn chosen(watched: &[Follower], choice: Choice, now: u64) -> NodeSet
    requires room { length watched.now ≤ MAX_IDS }
    requires ascending { IsTrue (ascends (ids_of watched.now)) }
    ensures { result ≡ ids_of (filter (λ (f : FollowerOf). is_chosen_of choice f now) watched.now) }
{
    let mut ids = NodeSet::new();
    let mut place = watched.len();
    while place > 0 {
        place -= 1;
        insert_chosen(&mut ids, &watched[place], choice, now);
    }
    ids
}
