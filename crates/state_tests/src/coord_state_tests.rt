//! A node alone, from its first configuration to a commit. What each act promises is proved; these run it. The answers follow
//! from docs/protocol.md.
ghost use Rattle.std.specs.Prelude.{◌≤◌, ◌^◌, IfOk};
ghost use Rattle.cluster_state.specs.States.{IsFit};

use crate::names::{config, id, list, set};
use cluster_state::{
    ApplyCommit, ClusterState, ClusterValue, Join, PublishCause, PublishRequest, PublishResponse,
    SharedState, StateId, ValueCause,
};
use coord_state::{CoordState, NotTaken, outcome_of_value};
use state_journal::{Keeper, PlainKeeper, Ready};
use std::alloc::{AllocError, Global};
use voting_config::MAX_IDS;
use world_model::{ActReply, Cause, Outcome};

fn opened(alloc: Global) -> Result<CoordState<PlainKeeper>, AllocError> {
    Ok(CoordState::new(id("a"), PlainKeeper::new(alloc)?))
}

// The state of version 1 of this term, of the parent 0/0 and with the empty value.
fn published(alloc: Global, term: u64) -> Result<ClusterState, AllocError>
    requires { term ≤ 2 ^ 62 }
    ensures { IfOk result IsFit }
{
    Ok(ClusterState {
        term,
        version: 1,
        parent: Some(StateId {
            term: 0,
            version: 0,
        }),
        config: list(alloc, "a")?,
        committed: list(alloc, "a")?,
        value: ClusterValue::empty(alloc),
    })
}

// What a node alone does, in this order.
#[derive(Clone, Copy)]
enum Act {
    Boot,
    Start,
    Join,
    Value,
    Check,
    Publish,
    Respond,
    Commit,
}

fn boots(alloc: Global, node: &mut CoordState<PlainKeeper>) -> bool {
    match Ready::initial(alloc, &set("a")) {
        Ok(initial) => node.set_initial(initial).is_ok(),
        Err(_) => false,
    }
}

fn is_own_join(join: &Join) -> bool {
    join.source == id("a")
        && join.target == id("a")
        && join.term == 1
        && join.last_term == 0
        && join.last_version == 0
}

// Whether it answers with its own join.
fn starts(node: &mut CoordState<PlainKeeper>) -> bool {
    match node.start_join(id("a"), 1) {
        Ok(join) => is_own_join(&join),
        Err(_) => false,
    }
}

// Whether its own join wins.
fn wins(node: &mut CoordState<PlainKeeper>) -> bool {
    let join = Join {
        source: id("a"),
        target: id("a"),
        term: 1,
        last_term: 0,
        last_version: 0,
    };
    if node.votes().len() >= MAX_IDS {
        return false;
    }
    match node.join(&join) {
        Ok(joined) => joined.won,
        Err(_) => false,
    }
}

// Whether it publishes its first value.
fn publishes(alloc: Global, node: &mut CoordState<PlainKeeper>) -> bool {
    match list(alloc, "a") {
        Ok(config) => node.take_value(1, &config).is_ok(),
        Err(_) => false,
    }
}

// Whether it would refuse a state of another term.
fn refuses(node: &CoordState<PlainKeeper>, later: &ClusterState) -> bool {
    let cause = Cause::Publish(PublishCause::TermMismatch(1, 2));
    match node.check_publish(later) {
        Ok(_) => false,
        Err(error) => error.not_taken() == NotTaken::Refused(cause),
    }
}

// Whether it would accept its state, and refuse one of another term.
fn checks(alloc: Global, node: &CoordState<PlainKeeper>) -> Result<bool, AllocError> {
    let first = published(alloc, 1)?;
    let later = published(alloc, 2)?;
    Ok(node.check_publish(&first).is_ok() && refuses(node, &later))
}

fn is_own_response(sent: &PublishResponse) -> bool {
    sent.source == id("a") && sent.target == id("a") && sent.term == 1 && sent.version == 1
}

fn is_accepted(node: &mut CoordState<PlainKeeper>, state: Ready) -> bool {
    match node.publish_request(id("a"), state).ok() {
        Some(sent) => is_own_response(&sent),
        None => false,
    }
}

// Whether it accepts its own state, and answers with its own response.
fn accepts(alloc: Global, node: &mut CoordState<PlainKeeper>) -> Result<bool, AllocError> {
    match Ready::new(alloc, published(alloc, 1)?) {
        Ok(state) => Ok(is_accepted(node, state)),
        Err(_) => Err(AllocError),
    }
}

// Whether its own response lets it send the commit.
fn responds(node: &mut CoordState<PlainKeeper>) -> bool {
    let response = PublishResponse {
        source: id("a"),
        target: id("a"),
        term: 1,
        version: 1,
    };
    if node.acks().len() >= MAX_IDS {
        return false;
    }
    match node.publish_response(&response) {
        Ok(Some(sent)) => is_own_commit(&sent),
        _ => false,
    }
}

fn is_own_commit(commit: &ApplyCommit) -> bool {
    commit.source == id("a") && commit.term == 1 && commit.version == 1
}

fn commits(node: &mut CoordState<PlainKeeper>) -> bool {
    let commit = ApplyCommit {
        source: id("a"),
        term: 1,
        version: 1,
    };
    node.commit(&commit).is_ok()
}

// Whether the act is taken, and answers as it should.
fn does(alloc: Global, node: &mut CoordState<PlainKeeper>, act: Act) -> bool {
    match act {
        Act::Boot => boots(alloc, node),
        Act::Start => starts(node),
        Act::Join => wins(node),
        Act::Value => publishes(alloc, node),
        Act::Check => checks(alloc, node) == Ok(true),
        Act::Publish => accepts(alloc, node) == Ok(true),
        Act::Respond => responds(node),
        Act::Commit => commits(node),
    }
}

// What a node is, after an act.
#[derive(Clone, Copy)]
struct Seen {
    term: u64,
    started: bool,
    won: bool,
    votes: usize,
    published: u64,
    accepted: u64,
}

fn is_seen(node: &CoordState<PlainKeeper>, seen: Seen) -> bool {
    node.term() == seen.term
        && node.started() == seen.started
        && node.won() == seen.won
        && node.votes().len() == seen.votes
        && node.published().0 == seen.published
        && node.accepted().version == seen.accepted
}

const BOOTED: Seen = Seen {
    term: 0,
    started: false,
    won: false,
    votes: 0,
    published: 0,
    accepted: 0,
};

const STARTED: Seen = Seen {
    term: 1,
    started: true,
    ..BOOTED
};

const WON: Seen = Seen {
    won: true,
    votes: 1,
    ..STARTED
};

const PUBLISHED: Seen = Seen {
    published: 1,
    ..WON
};

const ACCEPTED: Seen = Seen {
    accepted: 1,
    ..PUBLISHED
};

const LIFE: &[Act] = &[
    Act::Boot,
    Act::Start,
    Act::Join,
    Act::Value,
    Act::Check,
    Act::Publish,
    Act::Respond,
    Act::Commit,
];

// What the node is after this act of its life.
fn seen_after(act: Act) -> Seen {
    match act {
        Act::Boot => BOOTED,
        Act::Start => STARTED,
        Act::Join => WON,
        Act::Value | Act::Check => PUBLISHED,
        Act::Publish | Act::Respond | Act::Commit => ACCEPTED,
    }
}

// Whether the node is its only vote and its only voter.
fn has_only_a(node: &CoordState<PlainKeeper>) -> bool {
    let voters = config("a");
    node.votes().sources().as_slice() == set("a").as_slice()
        && node.committed().is_same(&voters)
        && node.kept().committed.is_same(&voters)
}

fn lives(alloc: Global, node: &mut CoordState<PlainKeeper>) -> bool {
    for act in LIFE {
        if !does(alloc, node, *act) || !is_seen(node, seen_after(*act)) {
            return false;
        }
    }
    has_only_a(node)
}

fn lives_alone(alloc: Global) -> bool {
    match opened(alloc) {
        Ok(node) => {
            let mut node = node;
            lives(alloc, &mut node)
        }
        Err(_) => false,
    }
}

#[test]
fn a_node_alone_wins_and_commits(rt: HostRuntime) {
    assert!(rt; lives_alone(rt.alloc()));
}

// Why an act was refused.
fn refusal(outcome: &Outcome) -> Option<Cause> {
    match outcome {
        Outcome::Answered(ActReply::Refused(cause)) => Some(*cause),
        _ => None,
    }
}

// What comes of a value, where the first one would be published.
fn value_outcome(alloc: Global, node: &mut CoordState<PlainKeeper>) -> Result<Outcome, AllocError> {
    let config = list(alloc, "a")?;
    let request = PublishRequest {
        source: id("a"),
        state: SharedState::of(alloc, published(alloc, 1)?)?,
    };
    Ok(outcome_of_value(node.take_value(7, &config), request))
}

fn is_refused(alloc: Global, node: &mut CoordState<PlainKeeper>) -> bool {
    match value_outcome(alloc, node) {
        Ok(outcome) => refusal(&outcome) == Some(Cause::Value(ValueCause::NotWon)),
        Err(_) => false,
    }
}

// Whether the node refuses a value, and keeps nothing.
fn refuses_a_value(alloc: Global, node: CoordState<PlainKeeper>) -> bool {
    let mut node = node;
    let is_refused = is_refused(alloc, &mut node);
    let term = node.keeper().kept().term;
    let keeper = node.into_keeper();
    is_refused && term == 0 && keeper.kept().term == 0
}

fn is_refused_when_opened(alloc: Global) -> bool {
    match opened(alloc) {
        Ok(node) => refuses_a_value(alloc, node),
        Err(_) => false,
    }
}

#[test]
fn a_value_is_refused_before_the_election_is_won(rt: HostRuntime) {
    assert!(rt; is_refused_when_opened(rt.alloc()));
}
