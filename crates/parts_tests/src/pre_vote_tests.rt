//! Rounds of pre-votes, answer by answer. The answers follow from docs/policy.md.
use crate::names::{config, id, list};
use cluster_state::StateId;
use pre_vote::*;
use std::test::*;
use voting_config::{IdList, Roster, VotingConfig};

fn version(version: u64) -> StateId {
    StateId { term: 1, version }
}

// An answer of a node, with its term and the version of its accepted state.
#[derive(Clone, Copy)]
struct AnswerOf(&'static str, u64, u64);

// What the last answer brings about in a round of node a, which is in term 4 and has accepted version 3 with these
// voters, where the committed voters are a, b and c.
fn last_added(answers: &[AnswerOf], voters: &IdList) -> Option<Added> {
    let mut round = PreVotes::start(id("a"), version(3), 4);
    let committed = config("a,b,c");
    let mut last = None;
    for answer in answers {
        last = added(&mut round, *answer, &committed, voters);
    }
    last
}

fn added(
    round: &mut PreVotes,
    AnswerOf(node, term, last): AnswerOf,
    committed: &VotingConfig,
    voters: &IdList,
) -> Option<Added> {
    let source = id(node);
    // The contract of add bounds the term; no row has one above 9.
    if term > 9 || !round.fits(source) {
        return None;
    }
    Some(round.add(source, term, version(last), committed, voters))
}

// Answers one after the other, and what the last of them brings about.
const ROUNDS: &[(&[AnswerOf], Added)] = &[
    (&[AnswerOf("c", 9, 4)], Added::Fresher),
    (
        &[AnswerOf("c", 9, 4), AnswerOf("b", 4, 2)],
        Added::Quorum(10),
    ),
    (&[AnswerOf("b", 4, 2)], Added::Quorum(5)),
    (&[AnswerOf("c", 4, 4), AnswerOf("d", 4, 2)], Added::Counted),
    (
        &[
            AnswerOf("b", 4, 2),
            AnswerOf("b", 4, 4),
            AnswerOf("d", 4, 2),
        ],
        Added::Counted,
    ),
];

#[test]
fn a_fresher_node_is_no_pre_vote_and_a_quorum_names_the_term(rt: HostRuntime) -> Result<(), Fail> {
    let voters = list(rt.alloc(), "a,b,c")?;
    for row in ROUNDS {
        let (answers, want) = *row;
        assert!(rt; last_added(answers, &voters) == Some(want));
    }
    Ok(())
}

#[test]
fn a_pre_vote_needs_a_quorum_of_both_configurations(rt: HostRuntime) -> Result<(), Fail> {
    let answers = [AnswerOf("b", 4, 3)];
    let voters = list(rt.alloc(), "a,b,c,d")?;
    assert!(rt; last_added(&answers, &voters) == Some(Added::Counted));
    Ok(())
}

// Answers one after the other in a round of node a, the roster of its voters then, and the word of them over it. A node that is no voter
// any more keeps its place.
const WORDS: &[(&[AnswerOf], &[&str], u64)] = &[
    (&[], &["a"], 1),
    (&[AnswerOf("c", 4, 3)], &["a", "c"], 3),
    (
        &[AnswerOf("c", 4, 3), AnswerOf("b", 4, 2)],
        &["a", "c", "b"],
        7,
    ),
    (
        &[
            AnswerOf("c", 4, 3),
            AnswerOf("c", 4, 4),
            AnswerOf("b", 4, 2),
        ],
        &["a", "c", "b"],
        5,
    ),
];

fn is_roster(roster: &Roster, wanted: &[&str]) -> bool {
    let mut is_same = roster.len() == wanted.len();
    for (found, text) in roster.as_slice().iter().zip(wanted) {
        is_same = is_same && *found == id(text);
    }
    is_same
}

fn has_word(answers: &[AnswerOf], voters: &IdList, roster: &[&str], word: u64) -> bool {
    let mut round = PreVotes::start(id("a"), version(3), 4);
    let committed = config("a,b,c");
    for answer in answers {
        let _ = added(&mut round, *answer, &committed, voters);
    }
    let (found, bits) = round.marks();
    is_roster(found, roster) && bits == word
}

#[test]
fn voters_are_bits_in_the_order_of_their_votes(rt: HostRuntime) -> Result<(), Fail> {
    let voters = list(rt.alloc(), "a,b,c")?;
    for (at, (answers, roster, word)) in WORDS.iter().enumerate() {
        assert!(rt; has_word(answers, &voters, roster, *word), "row {at}");
    }
    Ok(())
}

#[test]
fn a_node_that_follows_another_leader_refuses_a_pre_vote(rt: HostRuntime) {
    let (a, b) = (id("a"), id("b"));
    for (leader, want) in [
        (None, Reply::Answer),
        (Some(a), Reply::Answer),
        (Some(b), Reply::Refused(b)),
    ] {
        assert!(rt; answer(a, leader) == want);
    }
}

// A law is an empty function: its contract says it all, and the call shows that it can be called.
#[test]
fn the_laws_can_be_called() {
    law_counted();
}
