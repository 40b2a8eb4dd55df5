//! What a leader answers that was replaced and does not know it, by either profile. The lines of events that tell were written by hand from docs/policy.md;
//! `...` stands for those that are not compared.
use super::coordinators::show_all;
use super::losses::{BOTH_LOSE_THEIR_LEADER, FIRST_LEADS, FIRST_STANDS};
use super::passages::{A_LEADS_THREE, Passage, THREE, THREE_BY_THE_SECOND};
use super::rows::Traced;
use std::test::Fail;

// The next leader sets k, and the one before it, which has heard of nothing, is to remove k.
const THE_NEXT_LEADER_COMMITS_A_PUT: Passage = &[
    r#"> client b {"id":1,"put":{"key":"k","value":"v"}}"#,
    "> deliver b 50",
    "...",
    "> deliver c 51",
    "...",
    "> deliver b 52",
    "...",
    "> deliver b 53",
    "...",
    "> deliver b 54",
    "act b ok commit b 2/4",
    r#"act b ok value 5 a,b,c {"exclusions":[],"master":"b","members":["b","c"],"settings":{"k":"v"}}"#,
    r#"m56 b->b publish {"committed":["a","b","c"],"config":["a","b","c"],"parent":{"term":2,"version":4},"term":2,"value":{"exclusions":[],"master":"b","members":["b","c"],"settings":{"k":"v"}},"version":5}"#,
    r#"m57 b->c publish {"committed":["a","b","c"],"config":["a","b","c"],"parent":{"term":2,"version":4},"term":2,"value":{"exclusions":[],"master":"b","members":["b","c"],"settings":{"k":"v"}},"version":5}"#,
    "> deliver b 56",
    "...",
    "> deliver c 57",
    "...",
    "> deliver b 58",
    "...",
    "> deliver b 59",
    "...",
    "m60 b->b commit 2/5",
    "m61 b->c commit 2/5",
    r#"reply b {"acked":{"term":2,"version":5},"id":1}"#,
    r#"> client a {"id":2,"remove":{"key":"k"}}"#,
];

// By the first profile it acknowledges what changes nothing of its own state with that, and shows it: the order of acknowledged writes is that of their ids, and
// not of time.
const AN_OLD_LEADER_ANSWERS_AT_ONCE: Passage = &[
    r#"reply a {"acked":{"term":1,"version":2},"id":2}"#,
    r#"> client a {"id":3,"state":{}}"#,
    r#"reply a {"id":3,"state":{"committed":["a","b","c"],"config":["a","b","c"],"parent":{"term":1,"version":1},"term":1,"value":{"exclusions":[],"master":"a","members":["a","b","c"],"settings":{}},"version":2}}"#,
];

// By the second it makes a state for it, which nobody takes: it acknowledges nothing, and shows no state.
const AN_OLD_LEADER_ANSWERS_WITH_NO_STATE: Passage = &[
    r#"act a ok value 3 a,b,c {"exclusions":[],"master":"a","members":["a","b","c"],"settings":{}}"#,
    r#"m62 a->a publish {"committed":["a","b","c"],"config":["a","b","c"],"parent":{"term":1,"version":2},"term":1,"value":{"exclusions":[],"master":"a","members":["a","b","c"],"settings":{}},"version":3}"#,
    r#"m63 a->b publish {"committed":["a","b","c"],"config":["a","b","c"],"parent":{"term":1,"version":2},"term":1,"value":{"exclusions":[],"master":"a","members":["a","b","c"],"settings":{}},"version":3}"#,
    r#"m64 a->c publish {"committed":["a","b","c"],"config":["a","b","c"],"parent":{"term":1,"version":2},"term":1,"value":{"exclusions":[],"master":"a","members":["a","b","c"],"settings":{}},"version":3}"#,
    r#"> client a {"id":3,"state":{}}"#,
    "> deliver c 64",
    r#"act c refused:TermMismatch(2,1) publish a {"committed":["a","b","c"],"config":["a","b","c"],"parent":{"term":1,"version":2},"term":1,"value":{"exclusions":[],"master":"a","members":["a","b","c"],"settings":{}},"version":3}"#,
    "> tick a 30019 7",
    "...",
    "> tick a 30020 7",
    "mode a candidate 1",
    r#"reply a {"failed_to_commit":1,"id":2}"#,
    r#"reply a {"failed_to_commit":1,"id":3}"#,
];

// Node b leads in a's place.
const B_LEADS_IN_ITS_PLACE: &[Passage] = &[
    A_LEADS_THREE,
    BOTH_LOSE_THEIR_LEADER,
    FIRST_STANDS,
    FIRST_LEADS,
    THE_NEXT_LEADER_COMMITS_A_PUT,
];

// A name, the header, and what comes to a then, each line after `> ` with the lines that it shows.
const ROWS: &[Traced] = &[
    (
        "by_the_first_profile_an_old_leader_answers_at_once",
        THREE,
        &[AN_OLD_LEADER_ANSWERS_AT_ONCE],
    ),
    (
        "an_old_leader_answers_with_no_state",
        THREE_BY_THE_SECOND,
        &[AN_OLD_LEADER_ANSWERS_WITH_NO_STATE],
    ),
];

#[test]
fn a_leader_that_was_replaced_shows_these_lines(rt: HostRuntime) -> Result<(), Fail> {
    show_all(&rt, rt.alloc(), B_LEADS_IN_ITS_PLACE, ROWS)
}
