//! Members that were down and come back, or vote late, by either profile. The lines of events that tell were written by hand from docs/policy.md;
//! `...` stands for those that are not compared.
use super::coordinators::show_all;
use super::passages::{A_ASKS_FOR_PRE_VOTES, ALL_FOLLOW_A, Passage, THREE, THREE_BY_THE_SECOND};
use super::rows::Traced;
use super::votes::C_HAS_VOTED_FOR_ITSELF;
use std::test::Fail;

// A candidate that is a member answers a check with no.
const A_CHECK_MAKES_NO_FOLLOWER: Passage = &[
    "> tick a 1010 0",
    "...",
    "> deliver b 37",
    "m39 b->a followeranswer yes 1 1/2",
    "> crash c none",
    "...",
    "> restart c",
    "...",
    "> deliver c 38",
    "m40 c->a followeranswer no 1 0/0",
];

// By the first profile: a follower, and yes.
const BY_THE_FIRST_PROFILE_A_CHECK_MAKES_A_FOLLOWER: Passage = &[
    "> tick a 1010 0",
    "...",
    "> crash c none",
    "...",
    "> restart c",
    "...",
    "> deliver c 38",
    "mode c follower a 1",
    "m39 c->a followeranswer yes 1 0/0",
];

// A member that was down joins again, and is sent a state that changes nothing.
const A_MEMBER_THAT_JOINS_AGAIN_IS_SENT_A_STATE: Passage = &[
    "> crash c none",
    "...",
    "> restart c",
    "...",
    "> tick c 0 0",
    "...",
    "> deliver a 37",
    "...",
    "> deliver c 39",
    "m40 c->a joinask 1",
    "> deliver a 40",
    r#"act a ok value 3 a,b,c {"exclusions":[],"master":"a","members":["a","b","c"],"settings":{}}"#,
    r#"m41 a->a publish {"committed":["a","b","c"],"config":["a","b","c"],"parent":{"term":1,"version":2},"term":1,"value":{"exclusions":[],"master":"a","members":["a","b","c"],"settings":{}},"version":3}"#,
    r#"m42 a->b publish {"committed":["a","b","c"],"config":["a","b","c"],"parent":{"term":1,"version":2},"term":1,"value":{"exclusions":[],"master":"a","members":["a","b","c"],"settings":{}},"version":3}"#,
    r#"m43 a->c publish {"committed":["a","b","c"],"config":["a","b","c"],"parent":{"term":1,"version":2},"term":1,"value":{"exclusions":[],"master":"a","members":["a","b","c"],"settings":{}},"version":3}"#,
    "> deliver c 43",
    r#"act c ok publish a {"committed":["a","b","c"],"config":["a","b","c"],"parent":{"term":1,"version":2},"term":1,"value":{"exclusions":[],"master":"a","members":["a","b","c"],"settings":{}},"version":3}"#,
    "mode c follower a 1",
    "m44 c->a response 1/3",
];

// By the first profile: nothing is sent.
const BY_THE_FIRST_PROFILE_WHO_JOINS_AGAIN_IS_SENT_NOTHING: Passage = &[
    "> crash c none",
    "...",
    "> restart c",
    "...",
    "> tick c 0 0",
    "...",
    "> deliver a 37",
    "...",
    "> deliver c 39",
    "m40 c->a joinask 1",
    "> deliver a 40",
];

// A member that comes back raises its term by a check, joins, and is sent a state.
const A_MEMBER_THAT_VOTES_LATE_IS_SENT_A_STATE: Passage = &[
    "> deliver a 46",
    "...",
    "> deliver a 49",
    "...",
    "> deliver b 50",
    "...",
    "> deliver a 52",
    "...",
    "> deliver a 53",
    "...",
    "> deliver a 54",
    "...",
    "> deliver b 55",
    "...",
    "> deliver a 57",
    "...",
    "> deliver a 58",
    "...",
    "> deliver a 59",
    "act a ok commit a 2/3",
    "> tick a 1010 0",
    "...",
    "> deliver c 62",
    "act c ok startjoin a 2",
    "mode c candidate 2",
    "m63 c->a join 2 1/2",
    "m64 c->a followeranswer no 2 0/0",
    "> deliver a 63",
    "act a ok join c a 2 1/2",
    r#"act a ok value 4 a,b,c {"exclusions":[],"master":"a","members":["a","b","c"],"settings":{}}"#,
    r#"m65 a->a publish {"committed":["a","b","c"],"config":["a","b","c"],"parent":{"term":2,"version":3},"term":2,"value":{"exclusions":[],"master":"a","members":["a","b","c"],"settings":{}},"version":4}"#,
    r#"m66 a->b publish {"committed":["a","b","c"],"config":["a","b","c"],"parent":{"term":2,"version":3},"term":2,"value":{"exclusions":[],"master":"a","members":["a","b","c"],"settings":{}},"version":4}"#,
    r#"m67 a->c publish {"committed":["a","b","c"],"config":["a","b","c"],"parent":{"term":2,"version":3},"term":2,"value":{"exclusions":[],"master":"a","members":["a","b","c"],"settings":{}},"version":4}"#,
    "> deliver c 67",
    r#"act c ok publish a {"committed":["a","b","c"],"config":["a","b","c"],"parent":{"term":2,"version":3},"term":2,"value":{"exclusions":[],"master":"a","members":["a","b","c"],"settings":{}},"version":4}"#,
    "mode c follower a 2",
    "m68 c->a response 2/4",
];

// A check before the join is answered with no, and the join makes a state.
const A_LATE_VOTE_OF_THE_FIRST_TERM_IS_SENT_A_STATE: Passage = &[
    "> deliver b 13",
    "...",
    "> deliver a 15",
    "...",
    "> deliver a 16",
    "...",
    "> deliver a 19",
    "...",
    "> deliver b 17",
    "...",
    "> deliver a 20",
    "...",
    "> deliver a 21",
    "...",
    "> deliver b 22",
    "...",
    "> deliver a 23",
    "...",
    "> deliver a 24",
    "...",
    "> deliver b 26",
    "...",
    "> deliver a 25",
    "...",
    "> tick c 1001 0",
    "...",
    "> deliver a 27",
    "...",
    "> deliver c 31",
    "act c ok startjoin a 1",
    "m32 c->a join 1 0/0",
    "> crash c all",
    "...",
    "> restart c",
    "...",
    "> tick a 20 0",
    "> deliver a 32",
    "act a ok join c a 1 0/0",
    r#"act a ok value 2 a,b,c {"exclusions":[],"master":"a","members":["a","b","c"],"settings":{}}"#,
    r#"m33 a->a publish {"committed":["a","b","c"],"config":["a","b","c"],"parent":{"term":1,"version":1},"term":1,"value":{"exclusions":[],"master":"a","members":["a","b","c"],"settings":{}},"version":2}"#,
    r#"m34 a->b publish {"committed":["a","b","c"],"config":["a","b","c"],"parent":{"term":1,"version":1},"term":1,"value":{"exclusions":[],"master":"a","members":["a","b","c"],"settings":{}},"version":2}"#,
    r#"m35 a->c publish {"committed":["a","b","c"],"config":["a","b","c"],"parent":{"term":1,"version":1},"term":1,"value":{"exclusions":[],"master":"a","members":["a","b","c"],"settings":{}},"version":2}"#,
    "> tick a 1020 0",
    "...",
    "> deliver c 37",
    "m38 c->a followeranswer no 1 0/0",
];

// A name, the header, and what comes to the nodes once both others follow a, each line after `> ` with the lines that it shows.
const ROWS: &[Traced] = &[
    (
        "a_check_makes_no_follower",
        THREE_BY_THE_SECOND,
        &[A_CHECK_MAKES_NO_FOLLOWER],
    ),
    (
        "by_the_first_profile_a_check_makes_a_follower",
        THREE,
        &[BY_THE_FIRST_PROFILE_A_CHECK_MAKES_A_FOLLOWER],
    ),
    (
        "a_member_that_joins_again_is_sent_a_state",
        THREE_BY_THE_SECOND,
        &[A_MEMBER_THAT_JOINS_AGAIN_IS_SENT_A_STATE],
    ),
    (
        "by_the_first_profile_who_joins_again_is_sent_nothing",
        THREE,
        &[BY_THE_FIRST_PROFILE_WHO_JOINS_AGAIN_IS_SENT_NOTHING],
    ),
];

// The same, of nodes that have voted late, once a asks for pre-votes.
const LATE_VOTES: &[Traced] = &[
    (
        "a_member_that_votes_late_is_sent_a_state",
        THREE_BY_THE_SECOND,
        &[
            C_HAS_VOTED_FOR_ITSELF,
            A_MEMBER_THAT_VOTES_LATE_IS_SENT_A_STATE,
        ],
    ),
    (
        "a_late_vote_of_the_first_term_is_sent_a_state",
        THREE_BY_THE_SECOND,
        &[A_LATE_VOTE_OF_THE_FIRST_TERM_IS_SENT_A_STATE],
    ),
];

#[test]
fn members_that_come_back_show_these_lines(rt: HostRuntime) -> Result<(), Fail> {
    show_all(&rt, rt.alloc(), ALL_FOLLOW_A, ROWS)
}

#[test]
fn members_that_vote_late_show_these_lines(rt: HostRuntime) -> Result<(), Fail> {
    show_all(&rt, rt.alloc(), &[A_ASKS_FOR_PRE_VOTES], LATE_VOTES)
}
