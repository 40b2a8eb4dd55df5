//! Requests that change nothing, reads among them, by either profile. The lines of events that tell were written by hand from docs/policy.md;
//! `...` stands for those that are not compared.
use super::coordinators::{LEADER, show_all};
use super::passages::{ONE, Passage};
use super::rows::Traced;
use std::test::Fail;

// Node a, the only voter, by the second profile.
const ONE_BY_THE_SECOND: Passage = &["nodes a", "initial a", "profile 2"];

// The same put once more makes a state, and is acknowledged with that. So does a remove of what is not there.
const WRITES_OF_WHAT_IS_THERE: Passage = &[
    r#"> client a {"id":1,"put":{"key":"k","value":"v"}}"#,
    "...",
    "> deliver a 6",
    "...",
    "> deliver a 7",
    "...",
    r#"reply a {"acked":{"term":1,"version":2},"id":1}"#,
    "> deliver a 8",
    "act a ok commit a 1/2",
    r#"> client a {"id":2,"put":{"key":"k","value":"v"}}"#,
    r#"act a ok value 3 a {"exclusions":[],"master":"a","members":["a"],"settings":{"k":"v"}}"#,
    r#"m9 a->a publish {"committed":["a"],"config":["a"],"parent":{"term":1,"version":2},"term":1,"value":{"exclusions":[],"master":"a","members":["a"],"settings":{"k":"v"}},"version":3}"#,
    "> deliver a 9",
    "...",
    "> deliver a 10",
    "...",
    "m11 a->a commit 1/3",
    r#"reply a {"acked":{"term":1,"version":3},"id":2}"#,
    "> deliver a 11",
    "act a ok commit a 1/3",
    r#"> client a {"id":4,"remove":{"key":"l"}}"#,
    r#"act a ok value 4 a {"exclusions":[],"master":"a","members":["a"],"settings":{"k":"v"}}"#,
    "...",
];

// To be shown the state makes a state, which is shown once its commit is taken.
const A_READ_MAKES_A_STATE: Passage = &[
    r#"> client a {"id":1,"state":{}}"#,
    r#"act a ok value 2 a {"exclusions":[],"master":"a","members":["a"],"settings":{}}"#,
    r#"m6 a->a publish {"committed":["a"],"config":["a"],"parent":{"term":1,"version":1},"term":1,"value":{"exclusions":[],"master":"a","members":["a"],"settings":{}},"version":2}"#,
    "> deliver a 6",
    "...",
    "> deliver a 7",
    "act a ok response a a 1/2",
    r#"committed {"committed":["a"],"config":["a"],"parent":{"term":1,"version":1},"term":1,"value":{"exclusions":[],"master":"a","members":["a"],"settings":{}},"version":2}"#,
    "m8 a->a commit 1/2",
    "> deliver a 8",
    "act a ok commit a 1/2",
    r#"reply a {"id":1,"state":{"committed":["a"],"config":["a"],"parent":{"term":1,"version":1},"term":1,"value":{"exclusions":[],"master":"a","members":["a"],"settings":{}},"version":2}}"#,
];

// By the first profile the accepted state is shown at once.
const A_READ_IS_SHOWN_WHAT_IS_ACCEPTED: Passage = &[
    r#"> client a {"id":1,"state":{}}"#,
    r#"reply a {"id":1,"state":{"committed":["a"],"config":["a"],"parent":{"term":0,"version":0},"term":1,"value":{"exclusions":[],"master":"a","members":["a"],"settings":{}},"version":1}}"#,
];

// A read is not answered with a state before the leader has taken the commit, and then never.
const A_READ_OF_A_LEADER_THAT_GIVES_UP_FAILS: Passage = &[
    r#"> client a {"id":1,"state":{}}"#,
    "...",
    "> deliver a 6",
    "...",
    "> deliver a 7",
    "...",
    "m8 a->a commit 1/2",
    "> tick a 30008 7",
    "mode a candidate 1",
    r#"reply a {"failed_to_commit":1,"id":1}"#,
];

// What comes while a state is in flight waits for the next one.
const READS_AND_PUTS_WHILE_A_STATE_IS_IN_FLIGHT: Passage = &[
    r#"> client a {"id":1,"put":{"key":"k","value":"v"}}"#,
    "...",
    r#"> client a {"id":2,"state":{}}"#,
    r#"> client a {"id":3,"put":{"key":"l","value":"w"}}"#,
    r#"> client a {"id":4,"state":{}}"#,
    "> deliver a 6",
    "...",
    "> deliver a 7",
    "...",
    "m8 a->a commit 1/2",
    r#"reply a {"acked":{"term":1,"version":2},"id":1}"#,
    "> deliver a 8",
    "act a ok commit a 1/2",
    r#"act a ok value 3 a {"exclusions":[],"master":"a","members":["a"],"settings":{"k":"v","l":"w"}}"#,
    r#"m9 a->a publish {"committed":["a"],"config":["a"],"parent":{"term":1,"version":2},"term":1,"value":{"exclusions":[],"master":"a","members":["a"],"settings":{"k":"v","l":"w"}},"version":3}"#,
];

// Both reads are shown the state that both puts are in, also the read that came before the second of them.
const THE_READS_ARE_SHOWN_ALL_PUTS_OF_THEIR_STATE: Passage = &[
    "> deliver a 9",
    "...",
    "> deliver a 10",
    "...",
    "m11 a->a commit 1/3",
    r#"reply a {"acked":{"term":1,"version":3},"id":3}"#,
    "> deliver a 11",
    "act a ok commit a 1/3",
    r#"reply a {"id":2,"state":{"committed":["a"],"config":["a"],"parent":{"term":1,"version":2},"term":1,"value":{"exclusions":[],"master":"a","members":["a"],"settings":{"k":"v","l":"w"}},"version":3}}"#,
    r#"reply a {"id":4,"state":{"committed":["a"],"config":["a"],"parent":{"term":1,"version":2},"term":1,"value":{"exclusions":[],"master":"a","members":["a"],"settings":{"k":"v","l":"w"}},"version":3}}"#,
];

// By the first profile they are shown the accepted state as the next one is made, without the second put.
const THE_READS_ARE_SHOWN_THE_STATE_BEFORE: Passage = &[
    r#"reply a {"id":2,"state":{"committed":["a"],"config":["a"],"parent":{"term":1,"version":1},"term":1,"value":{"exclusions":[],"master":"a","members":["a"],"settings":{"k":"v"}},"version":2}}"#,
    r#"reply a {"id":4,"state":{"committed":["a"],"config":["a"],"parent":{"term":1,"version":1},"term":1,"value":{"exclusions":[],"master":"a","members":["a"],"settings":{"k":"v"}},"version":2}}"#,
];

// Who is excluded has never voted, and is excluded once more.
const AN_EXCLUDE_OF_NO_VOTER: Passage = &[
    r#"> client a {"id":1,"exclude":["z"]}"#,
    r#"act a ok value 2 a {"exclusions":["z"],"master":"a","members":["a"],"settings":{}}"#,
    r#"m6 a->a publish {"committed":["a"],"config":["a"],"parent":{"term":1,"version":1},"term":1,"value":{"exclusions":["z"],"master":"a","members":["a"],"settings":{}},"version":2}"#,
    "> deliver a 6",
    "...",
    "> deliver a 7",
    "...",
    "m8 a->a commit 1/2",
    "> deliver a 8",
    "act a ok commit a 1/2",
    r#"reply a {"acked":{"term":1,"version":2},"id":1}"#,
    r#"> client a {"id":2,"exclude":["z"]}"#,
];

// That makes a state of its own, and is acknowledged once its commit is taken.
const IT_MAKES_A_STATE: Passage = &[
    r#"act a ok value 3 a {"exclusions":["z"],"master":"a","members":["a"],"settings":{}}"#,
    r#"m9 a->a publish {"committed":["a"],"config":["a"],"parent":{"term":1,"version":2},"term":1,"value":{"exclusions":["z"],"master":"a","members":["a"],"settings":{}},"version":3}"#,
    "> deliver a 9",
    "...",
    "> deliver a 10",
    "...",
    "m11 a->a commit 1/3",
    "> deliver a 11",
    "act a ok commit a 1/3",
    r#"reply a {"acked":{"term":1,"version":3},"id":2}"#,
];

// By the first profile it changes nothing, and is acknowledged at once.
const IT_IS_ACKNOWLEDGED_AT_ONCE: Passage = &[r#"reply a {"acked":{"term":1,"version":2},"id":2}"#];

// A name, the header, and what comes to a leader that is alone, each line after `> ` with the lines that it shows.
const ROWS: &[Traced] = &[
    (
        "a_write_of_what_is_there_makes_a_state",
        ONE_BY_THE_SECOND,
        &[WRITES_OF_WHAT_IS_THERE],
    ),
    (
        "a_read_makes_a_state",
        ONE_BY_THE_SECOND,
        &[A_READ_MAKES_A_STATE],
    ),
    (
        "by_the_first_profile_a_read_is_shown_what_is_accepted",
        ONE,
        &[A_READ_IS_SHOWN_WHAT_IS_ACCEPTED],
    ),
    (
        "a_read_of_a_leader_that_gives_up_fails",
        ONE_BY_THE_SECOND,
        &[A_READ_OF_A_LEADER_THAT_GIVES_UP_FAILS],
    ),
    (
        "reads_beside_puts_are_shown_them",
        ONE_BY_THE_SECOND,
        &[
            READS_AND_PUTS_WHILE_A_STATE_IS_IN_FLIGHT,
            THE_READS_ARE_SHOWN_ALL_PUTS_OF_THEIR_STATE,
        ],
    ),
    (
        "by_the_first_profile_reads_are_shown_the_state_before",
        ONE,
        &[
            READS_AND_PUTS_WHILE_A_STATE_IS_IN_FLIGHT,
            THE_READS_ARE_SHOWN_THE_STATE_BEFORE,
        ],
    ),
    (
        "an_exclude_that_changes_nothing_makes_a_state",
        ONE_BY_THE_SECOND,
        &[AN_EXCLUDE_OF_NO_VOTER, IT_MAKES_A_STATE],
    ),
    (
        "by_the_first_profile_an_exclude_that_changes_nothing_makes_none",
        ONE,
        &[AN_EXCLUDE_OF_NO_VOTER, IT_IS_ACKNOWLEDGED_AT_ONCE],
    ),
];

#[test]
fn requests_that_change_nothing_show_these_lines(rt: HostRuntime) -> Result<(), Fail> {
    show_all(&rt, rt.alloc(), &[LEADER], ROWS)
}
