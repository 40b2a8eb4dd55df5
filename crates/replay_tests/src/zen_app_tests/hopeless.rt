//! Publications that can't succeed, or only seem so, by either profile. The lines of events that tell were written by hand from docs/policy.md;
//! `...` stands for those that are not compared.
use super::coordinators::show_all;
use super::passages::{ALL_FOLLOW_A, Passage, THREE, THREE_BY_THE_SECOND};
use super::rows::Traced;
use std::test::Fail;

// No check is answered, and a publishes a state without both.
const BOTH_FAIL_THEIR_CHECKS: Passage = &[
    "> tick a 1010 0",
    "...",
    "> tick a 11010 0",
    "> tick a 12010 0",
    "...",
    "> tick a 22010 0",
    "> tick a 23010 0",
    "...",
    "> tick a 33010 0",
    r#"act a ok value 3 a,b,c {"exclusions":[],"master":"a","members":["a"],"settings":{}}"#,
    "drop a b checks",
    "drop a c checks",
    r#"m43 a->a publish {"committed":["a","b","c"],"config":["a","b","c"],"parent":{"term":1,"version":2},"term":1,"value":{"exclusions":[],"master":"a","members":["a"],"settings":{}},"version":3}"#,
];

// Both followers fail their checks: what it publishes then is given up at the next tick.
const A_LEADER_ALONE_GIVES_UP_AT_THE_NEXT_TICK: Passage = &[
    "> tick a 33060 0",
    "mode a candidate 1",
];

// By the first profile: given up after 30,000 ms.
const BY_THE_FIRST_PROFILE_30_000_MS_ARE_WAITED_FOR: Passage = &[
    "> tick a 33060 0",
    "> tick a 63009 0",
    "> tick a 63010 0",
    "mode a candidate 1",
];

// No check is answered, and a put comes before the third has failed.
const A_PUT_WHILE_CHECKS_FAIL: Passage = &[
    "> tick a 1010 0",
    "...",
    "> tick a 11010 0",
    "> tick a 12010 0",
    "...",
    "> tick a 22010 0",
    "> tick a 23010 0",
    "...",
    r#"> client a {"id":1,"put":{"key":"k","value":"v"}}"#,
    "...",
];

// The same, with a put in flight, which fails.
const A_PUBLICATION_IN_FLIGHT_IS_GIVEN_UP: Passage = &[
    "> tick a 33010 0",
    "drop a b checks",
    "drop a c checks",
    "> tick a 33060 0",
    "mode a candidate 1",
    r#"reply a {"failed_to_commit":1,"id":1}"#,
];

// A follower responds, and fails its checks before the leader has accepted its own state: that is committed.
const WHO_HAS_RESPONDED_COUNTS_THOUGH_IT_IS_TO_GO: Passage = &[
    "> deliver b 44",
    "...",
    "> deliver a 46",
    "act a ok response b a 1/3",
    "> tick a 33010 0",
    "drop a b checks",
    "drop a c checks",
    "> tick a 33060 0",
    "> deliver a 43",
    "...",
    "> deliver a 47",
    "act a ok response a a 1/3",
    r#"committed {"committed":["a","b","c"],"config":["a","b","c"],"parent":{"term":1,"version":2},"term":1,"value":{"exclusions":[],"master":"a","members":["a","b","c"],"settings":{"k":"v"}},"version":3}"#,
    "m48 a->a commit 1/3",
    "m49 a->b commit 1/3",
    r#"reply a {"acked":{"term":1,"version":3},"id":1}"#,
];

// One of two followers fails its checks: the other may still respond.
const ONE_FOLLOWER_OF_TWO_MAY_STILL_RESPOND: Passage = &[
    "> tick a 1010 0",
    "...",
    "> deliver b 37",
    "...",
    "> deliver a 39",
    "> tick a 11010 0",
    "...",
    "> deliver b 40",
    "...",
    "> deliver a 41",
    "> tick a 12010 0",
    "...",
    "> deliver b 42",
    "...",
    "> deliver a 44",
    "> tick a 22010 0",
    "...",
    "> deliver b 45",
    "...",
    "> deliver a 46",
    "> tick a 23010 0",
    "...",
    "> deliver b 47",
    "...",
    "> deliver a 49",
    r#"> client a {"id":1,"put":{"key":"k","value":"v"}}"#,
    "...",
    "> tick a 33010 0",
    "drop a c checks",
    "m53 a->b followercheck 1",
    "> tick a 33060 0",
];

// Both connections end while a put is in flight that b has answered.
const CONNECTIONS_END_IN_FLIGHT: Passage = &[
    r#"> client a {"id":1,"put":{"key":"k","value":"v"}}"#,
    "...",
    "> deliver b 38",
    "...",
    "m40 b->a response 1/3",
    "> deliver a 40",
    "act a ok response b a 1/3",
    "> disconnect a b",
    "drop a b disconnect",
];

// By the second profile the put is committed.
const THE_PUT_IS_COMMITTED: Passage = &[
    "> disconnect a c",
    "drop a c disconnect",
    "> deliver a 37",
    "...",
    "m41 a->a response 1/3",
    "> deliver a 41",
    "...",
    "m42 a->a commit 1/3",
    "m43 a->b commit 1/3",
    r#"reply a {"acked":{"term":1,"version":3},"id":1}"#,
];

// By the first profile: a leader that watches nobody any more stands down.
const THE_PUT_FAILS: Passage = &[
    "> disconnect a c",
    "mode a candidate 1",
    "drop a c disconnect",
    "m41 a->a startjoin a 2",
    "m42 a->b startjoin a 2",
    "m43 a->c startjoin a 2",
    r#"reply a {"failed_to_commit":1,"id":1}"#,
];

// A name, the header, and what comes to the nodes once both others follow a, each line after `> ` with the lines that it shows.
const ROWS: &[Traced] = &[
    (
        "a_leader_alone_gives_up_at_the_next_tick",
        THREE_BY_THE_SECOND,
        &[
            BOTH_FAIL_THEIR_CHECKS,
            A_LEADER_ALONE_GIVES_UP_AT_THE_NEXT_TICK,
        ],
    ),
    (
        "by_the_first_profile_30_000_ms_are_waited_for",
        THREE,
        &[
            BOTH_FAIL_THEIR_CHECKS,
            BY_THE_FIRST_PROFILE_30_000_MS_ARE_WAITED_FOR,
        ],
    ),
    (
        "a_publication_in_flight_is_given_up",
        THREE_BY_THE_SECOND,
        &[A_PUT_WHILE_CHECKS_FAIL, A_PUBLICATION_IN_FLIGHT_IS_GIVEN_UP],
    ),
    (
        "one_follower_of_two_may_still_respond",
        THREE_BY_THE_SECOND,
        &[ONE_FOLLOWER_OF_TWO_MAY_STILL_RESPOND],
    ),
    (
        "who_has_responded_counts_though_it_is_to_go",
        THREE_BY_THE_SECOND,
        &[
            A_PUT_WHILE_CHECKS_FAIL,
            WHO_HAS_RESPONDED_COUNTS_THOUGH_IT_IS_TO_GO,
        ],
    ),
    (
        "what_was_answered_before_connections_end_counts",
        THREE_BY_THE_SECOND,
        &[CONNECTIONS_END_IN_FLIGHT, THE_PUT_IS_COMMITTED],
    ),
    (
        "by_the_first_profile_who_is_watched_counts",
        THREE,
        &[CONNECTIONS_END_IN_FLIGHT, THE_PUT_FAILS],
    ),
];

#[test]
fn publications_that_may_be_hopeless_show_these_lines(rt: HostRuntime) -> Result<(), Fail> {
    show_all(&rt, rt.alloc(), ALL_FOLLOW_A, ROWS)
}
