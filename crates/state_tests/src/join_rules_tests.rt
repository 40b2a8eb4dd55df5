//! Joins that are counted, and those that are refused. The causes follow from docs/protocol.md.
use crate::names::{id, list, set};
use cluster_state::{Join, JoinCause, StateId};
use join_rules::join_check;
use std::alloc::Global;
use voting_config::{IdList, JoinVotes, MAX_IDS, NodeId, Roster};

// Sources in the order in which they vote, one that is taken out then, the roster, and the word of the votes over it.
type Counted = (
    &'static [&'static str],
    &'static str,
    &'static [&'static str],
    u64,
);

const VOTES: &[Counted] = &[
    (&[], "a", &[], 0),
    (&["b"], "a", &["b"], 1),
    (&["b", "a"], "c", &["b", "a"], 3),
    (&["b", "a", "b"], "b", &["b", "a"], 2),
    (&["a", "b", "c", "a"], "b", &["a", "b", "c"], 5),
];

fn add(votes: &mut JoinVotes, source: NodeId) {
    if votes.has_room(source) {
        votes.add(source);
    }
}

fn is_roster(roster: &Roster, wanted: &[&str]) -> bool {
    let mut is_same = roster.len() == wanted.len();
    for (found, text) in roster.as_slice().iter().zip(wanted) {
        is_same = is_same && *found == id(text);
    }
    is_same
}

fn voted((sources, out, _, _): &Counted) -> JoinVotes {
    let mut votes = JoinVotes::new();
    for source in *sources {
        add(&mut votes, id(source));
    }
    votes.remove(id(out));
    votes
}

fn are_counted(votes: &JoinVotes, (_, _, roster, word): &Counted) -> bool {
    let (found, bits) = votes.marks();
    is_roster(found, roster) && bits == *word
}

#[test]
fn votes_are_bits_at_the_places_of_their_sources(rt: HostRuntime) {
    for row in VOTES {
        let mut votes = voted(row);
        assert!(rt; are_counted(&votes, row));
        votes.clear();
        assert!(rt; votes.marks().1 == 0 && votes.len() == 0);
    }
}

#[test]
fn a_roster_full_of_nodes_that_do_not_vote_is_made_anew(rt: HostRuntime) {
    let mut votes = JoinVotes::new();
    for id in set("n01..n64").as_slice() {
        add(&mut votes, *id);
    }
    assert!(rt; votes.marks().0.len() == MAX_IDS);
    votes.clear();
    add(&mut votes, id("z"));
    let (roster, word) = votes.marks();
    assert!(rt; is_roster(roster, &["z"]) && word == 1);
}

// The join as the node a checks it, in term 4 and with the accepted state 1/2.
fn check(config: &IdList, started: bool, join: &Join) -> Result<(), JoinCause> {
    let accepted = StateId {
        term: 1,
        version: 2,
    };
    join_check(id("a"), 4, accepted, config, started, join)
}

// b's join, for a candidate in a term, with the state that b has accepted.
fn join(target: &str, term: u64, last_term: u64, last_version: u64) -> Join {
    Join {
        source: id("b"),
        target: id(target),
        term,
        last_term,
        last_version,
    }
}

// Whether the join is checked so where these are the voters.
fn is_checked(
    alloc: Global,
    voters: &str,
    started: bool,
    join: &Join,
    wanted: Result<(), JoinCause>,
) -> bool {
    match list(alloc, voters) {
        Ok(config) => check(&config, started, join) == wanted,
        Err(_) => false,
    }
}

// What is shown, the term of a join for a with the state that is accepted, whether a has started a join, its voters, and what comes
// of the check.
type Checked = (
    &'static str,
    (u64, u64, u64),
    bool,
    &'static str,
    Result<(), JoinCause>,
);

const CHECKS: [Checked; 9] = [
    ("a_fresher_join_is_refused", (4, 1, 1), true, "a", Ok(())),
    ("a_fresher_join_is_refused", (4, 1, 2), true, "a", Ok(())),
    (
        "a_fresher_join_is_refused",
        (4, 1, 3),
        true,
        "a",
        Err(JoinCause::FresherVersion(2, 3)),
    ),
    ("a_fresher_join_is_refused", (4, 0, 3), true, "a", Ok(())),
    (
        "a_fresher_join_is_refused",
        (4, 2, 1),
        true,
        "a",
        Err(JoinCause::FresherTerm(1, 2)),
    ),
    (
        "the_first_cause_refuses_a_join",
        (3, 2, 0),
        false,
        "_",
        Err(JoinCause::TermMismatch(4, 3)),
    ),
    (
        "the_first_cause_refuses_a_join",
        (4, 2, 0),
        false,
        "_",
        Err(JoinCause::NotStarted),
    ),
    (
        "the_first_cause_refuses_a_join",
        (4, 2, 0),
        true,
        "_",
        Err(JoinCause::FresherTerm(1, 2)),
    ),
    (
        "the_first_cause_refuses_a_join",
        (4, 1, 0),
        true,
        "_",
        Err(JoinCause::NoConfig),
    ),
];

fn is_so(alloc: Global, row: &Checked) -> bool {
    let (_, (term, last_term, last_version), started, voters, wanted) = row;
    let join = join("a", *term, *last_term, *last_version);
    is_checked(alloc, voters, *started, &join, *wanted)
}

#[test]
fn a_join_is_counted_or_refused_with_the_first_cause(rt: HostRuntime) {
    for (at, row) in CHECKS.iter().enumerate() {
        assert!(rt; is_so(rt.alloc(), row), "{}: row {at}", row.0);
    }
    let (other, cause) = (join("c", 3, 2, 0), JoinCause::NotForMe(id("c")));
    assert!(rt; is_checked(rt.alloc(), "_", false, &other, Err(cause)));
}
