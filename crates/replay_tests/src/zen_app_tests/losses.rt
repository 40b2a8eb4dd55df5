//! Whole nodes whose connections end. The lines were written by hand from the rule of a lost peer in docs/policy.md; `...` stands for
//! those that are not compared.
use super::coordinators::{THREE_B_VOTES_ONLY, show_all};
use super::passages::{A_LEADS_THREE, Passage, THREE};
use super::rows::Traced;
use std::test::Fail;

// A leader goes on with a quorum, and stands down with the last follower of it: it asks all for their votes. What waits fails.
const STANDS_DOWN: Passage = &[
    "> disconnect a b",
    r#"act a ok value 3 a,b,c {"exclusions":[],"master":"a","members":["a","c"],"settings":{}}"#,
    "drop a b disconnect",
    r#"m30 a->a publish {"committed":["a","b","c"],"config":["a","b","c"],"parent":{"term":1,"version":2},"term":1,"value":{"exclusions":[],"master":"a","members":["a","c"],"settings":{}},"version":3}"#,
    r#"m31 a->c publish {"committed":["a","b","c"],"config":["a","b","c"],"parent":{"term":1,"version":2},"term":1,"value":{"exclusions":[],"master":"a","members":["a","c"],"settings":{}},"version":3}"#,
    r#"> client a {"id":1,"put":{"key":"k","value":"v"}}"#,
    "> disconnect a c",
    "mode a candidate 1",
    "drop a c disconnect",
    "m32 a->a startjoin a 2",
    "m33 a->b startjoin a 2",
    "m34 a->c startjoin a 2",
    r#"reply a {"failed_to_commit":1,"id":1}"#,
    "> disconnect a c",
];

// A follower that loses another than its leader does nothing.
const FOLLOWS_ON: Passage = &[
    "> disconnect b c",
    "> disconnect b b",
    r#"> client b {"id":1,"state":{}}"#,
    r#"reply b {"id":1,"not_master":"a"}"#,
];

// Both followers lose their leader. They ask their peers 100 ms later, and hear that no one has a master.
pub const BOTH_LOSE_THEIR_LEADER: Passage = &[
    "> disconnect b a",
    "mode b candidate 1",
    "> disconnect c a",
    "mode c candidate 1",
    "> tick b 99 7",
    "> tick c 99 7",
    "> tick b 100 7",
    "m30 b->a peersask a,c",
    "m31 b->c peersask a,c",
    "> tick c 100 7",
    "m32 c->a peersask a,b",
    "m33 c->b peersask a,b",
    "> deliver c 31",
    "m34 c->b peersanswer _ 1 a,b,c",
    "> deliver b 33",
    "m35 b->c peersanswer _ 1 a,b,c",
    "> deliver b 34",
    "> deliver c 35",
];

// A candidate forgets the answer of a node that it loses, and asks again at once; of one that has not answered there is nothing to forget.
const FORGETS_THE_ANSWER: Passage = &[
    "> disconnect b c",
    "> tick b 110 7",
    "m36 b->a peersask a,c",
    "m37 b->c peersask a,c",
    "> tick b 118 7",
    "> disconnect b c",
    "> tick b 119 7",
];

// b, before which only the dead leader comes, stands after its wait of 8 ms. c has waited as long, but leaves b the time of an election.
pub const FIRST_STANDS: Passage = &[
    "> tick b 110 7",
    "> tick c 110 7",
    "> tick b 117 7",
    "> tick c 118 7",
    "> tick b 118 7",
    "m36 b->c prevoteask",
    "> deliver c 36",
    "m37 c->b prevoteanswer 1 1/2",
    "> deliver b 37",
    "m38 b->a startjoin b 2",
    "m39 b->b startjoin b 2",
    "m40 b->c startjoin b 2",
];

// c joins nobody, and stands 500 ms after its wait.
const SECOND_STANDS_500_MS_LATER: Passage = &[
    "> tick c 617 7",
    "> tick c 618 7",
    "m41 c->b prevoteask",
];

// c joins b, which then is not heard of. So it waits anew from its next tick on, and leaves b its time once more.
const SECOND_WAITS_ANEW: Passage = &[
    "> deliver b 39",
    "...",
    "m41 b->b join 2 1/2",
    "> deliver c 40",
    "act c ok startjoin b 2",
    "m42 c->b join 2 1/2",
    "> tick c 119 7",
    "> tick c 626 7",
    "> tick c 627 7",
    "m43 c->b prevoteask",
];

// The first leads, drops the dead leader as it learns that it is gone, and its state is committed.
pub const FIRST_LEADS: Passage = &[
    "> deliver b 39",
    "act b ok startjoin b 2",
    "m41 b->b join 2 1/2",
    "> deliver c 40",
    "act c ok startjoin b 2",
    "m42 c->b join 2 1/2",
    "> deliver b 41",
    "act b ok join b b 2 1/2",
    "> deliver b 42",
    "act b ok join c b 2 1/2",
    "won b 2",
    "mode b leader 2",
    r#"act b ok value 3 a,b,c {"exclusions":[],"master":"b","members":["a","b","c"],"settings":{}}"#,
    r#"m43 b->a publish {"committed":["a","b","c"],"config":["a","b","c"],"parent":{"term":1,"version":2},"term":2,"value":{"exclusions":[],"master":"b","members":["a","b","c"],"settings":{}},"version":3}"#,
    r#"m44 b->b publish {"committed":["a","b","c"],"config":["a","b","c"],"parent":{"term":1,"version":2},"term":2,"value":{"exclusions":[],"master":"b","members":["a","b","c"],"settings":{}},"version":3}"#,
    r#"m45 b->c publish {"committed":["a","b","c"],"config":["a","b","c"],"parent":{"term":1,"version":2},"term":2,"value":{"exclusions":[],"master":"b","members":["a","b","c"],"settings":{}},"version":3}"#,
    "> disconnect b a",
    "drop b a disconnect",
    "> deliver b 44",
    "...",
    "m46 b->b response 2/3",
    "> deliver c 45",
    "...",
    "mode c follower b 2",
    "m47 c->b response 2/3",
    "> deliver b 46",
    "...",
    "> deliver b 47",
    "...",
    "m48 b->b commit 2/3",
    "m49 b->c commit 2/3",
    "> deliver c 49",
    "act c ok commit b 2/3",
    "> deliver b 48",
    "act b ok commit b 2/3",
    r#"act b ok value 4 a,b,c {"exclusions":[],"master":"b","members":["b","c"],"settings":{}}"#,
    "...",
];

// Its leader stands down and says no to its checks. c has taken a commit since it lost a, so it waits 8 ms alone.
const LOSS_IS_OVER: Passage = &[
    "> disconnect b c",
    "mode b candidate 2",
    "drop b c disconnect",
    "m52 b->a startjoin b 3",
    "m53 b->b startjoin b 3",
    "m54 b->c startjoin b 3",
    "> tick c 1119 7",
    "m55 c->b leadercheck 2",
    "> deliver b 55",
    "m56 b->c leaderanswer no",
    "> deliver c 56",
    "> tick c 2119 7",
    "m57 c->b leadercheck 2",
    "> deliver b 57",
    "m58 b->c leaderanswer no",
    "> deliver c 58",
    "> tick c 3119 7",
    "m59 c->b leadercheck 2",
    "> deliver b 59",
    "m60 b->c leaderanswer no",
    "> deliver c 60",
    "> tick c 3120 7",
    "mode c candidate 2",
    "> tick c 3121 7",
    "m61 c->a peersask a,b",
    "m62 c->b peersask a,b",
    "> deliver b 62",
    "m63 b->c peersanswer _ 2 a,b,c",
    "> deliver c 63",
    "> tick c 3130 7",
    "> tick c 3137 7",
    "> tick c 3138 7",
    "m64 c->b prevoteask",
];

// Only voters that may lead come before a node: c is the first where b is voting-only.
const PAST_A_VOTING_ONLY_NODE: Passage = &[
    "> tick c 110 7",
    "> tick c 117 7",
    "> tick c 118 7",
    "m36 c->b prevoteask",
];

// A name, the header, and what comes to the nodes once a leads, each line after `> ` with the lines that it shows.
const ROWS: &[Traced] = &[
    (
        "a_leader_without_its_quorum_stands_down",
        THREE,
        &[STANDS_DOWN],
    ),
    (
        "a_follower_follows_on_where_another_is_lost",
        THREE,
        &[FOLLOWS_ON],
    ),
    (
        "a_candidate_forgets_whom_it_lost",
        THREE,
        &[BOTH_LOSE_THEIR_LEADER, FORGETS_THE_ANSWER],
    ),
    (
        "the_second_stands_500_ms_later",
        THREE,
        &[
            BOTH_LOSE_THEIR_LEADER,
            FIRST_STANDS,
            SECOND_STANDS_500_MS_LATER,
        ],
    ),
    (
        "who_joins_another_waits_anew",
        THREE,
        &[BOTH_LOSE_THEIR_LEADER, FIRST_STANDS, SECOND_WAITS_ANEW],
    ),
    (
        "a_commit_ends_the_loss",
        THREE,
        &[
            BOTH_LOSE_THEIR_LEADER,
            FIRST_STANDS,
            FIRST_LEADS,
            LOSS_IS_OVER,
        ],
    ),
    (
        "a_voting_only_node_comes_before_nobody",
        THREE_B_VOTES_ONLY,
        &[BOTH_LOSE_THEIR_LEADER, PAST_A_VOTING_ONLY_NODE],
    ),
];

#[test]
fn nodes_that_lose_a_peer_show_these_lines(rt: HostRuntime) -> Result<(), Fail> {
    show_all(&rt, rt.alloc(), &[A_LEADS_THREE], ROWS)
}
