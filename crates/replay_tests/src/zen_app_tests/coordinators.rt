//! Small worlds of coordinators, and the lines that their events are to show.
//!
//! The lines were not taken from this program. Most are worked examples that the rules of the policy were given with,
//! written out by hand before there was any code; those of rounds, stale checks, late excludes, hand-overs and drops
//! follow from docs/policy.md, and states are shown whole by docs/formats.md. Where an example tells only some lines of an event,
//! only those are compared, and `...` stands for the others, if any.
use super::passages::{A_LEADS_THREE, ONE, Passage, TWO_VOTER_A};
use super::rows::Traced;
use super::runs::{replay_of, written_by};
use super::texts;
use schedule_text::Level;
use std::alloc::{AllocError, Global};
use std::process::Abort;
use std::test::Fail;
use zen_app::Status;

// A node alone is elected, and has its first state committed.
pub const LEADER: Passage = &[
    "> tick a 0 7",
    "act a ok boot a",
    "> tick a 8 7",
    "m1 a->a startjoin a 1",
    "> deliver a 1",
    "...",
    "> deliver a 2",
    "act a ok join a a 1 0/0",
    "won a 1",
    "mode a leader 1",
    r#"act a ok value 1 a {"exclusions":[],"master":"a","members":["a"],"settings":{}}"#,
    r#"m3 a->a publish {"committed":["a"],"config":["a"],"parent":{"term":0,"version":0},"term":1,"value":{"exclusions":[],"master":"a","members":["a"],"settings":{}},"version":1}"#,
    "> deliver a 3",
    "...",
    "> deliver a 4",
    "...",
    "> deliver a 5",
    "act a ok commit a 1/1",
];

// The second of two nodes joins the first, and takes its second state, which is in flight.
const FOLLOWER: Passage = &[
    "> tick a 0 7",
    "act a ok boot a",
    "m1 a->b peersask b",
    "> tick a 8 7",
    "m2 a->a startjoin a 1",
    "m3 a->b startjoin a 1",
    "> deliver a 2",
    "...",
    "m4 a->a join 1 0/0",
    "> deliver b 3",
    "...",
    "m5 b->a join 1 0/0",
    "> deliver a 4",
    "...",
    "won a 1",
    "...",
    r#"m6 a->a publish {"committed":["a"],"config":["a"],"parent":{"term":0,"version":0},"term":1,"value":{"exclusions":[],"master":"a","members":["a"],"settings":{}},"version":1}"#,
    "> deliver a 5",
    "...",
    "> deliver a 6",
    "...",
    "m7 a->a response 1/1",
    "> deliver a 7",
    "...",
    "m8 a->a commit 1/1",
    "> deliver a 8",
    "...",
    r#"act a ok value 2 a {"exclusions":[],"master":"a","members":["a","b"],"settings":{}}"#,
    r#"m9 a->a publish {"committed":["a"],"config":["a"],"parent":{"term":1,"version":1},"term":1,"value":{"exclusions":[],"master":"a","members":["a","b"],"settings":{}},"version":2}"#,
    r#"m10 a->b publish {"committed":["a"],"config":["a"],"parent":{"term":1,"version":1},"term":1,"value":{"exclusions":[],"master":"a","members":["a","b"],"settings":{}},"version":2}"#,
    "> deliver b 10",
    "...",
    "mode b follower a 1",
    "m11 b->a response 1/2",
];

const ACKNOWLEDGED: Passage = &[
    r#"> client a {"id":1,"put":{"key":"k","value":"v"}}"#,
    "...",
    "> deliver a 6",
    "...",
    "> deliver a 7",
    "...",
    "m8 a->a commit 1/2",
    r#"reply a {"acked":{"term":1,"version":2},"id":1}"#,
    "> deliver a 8",
    "...",
    r#"> client a {"id":2,"put":{"key":"k","value":"v"}}"#,
    r#"reply a {"acked":{"term":1,"version":2},"id":2}"#,
];

// A put of what the state before last had makes a state of its own, and is acked with that one at its commit, and with no older one.
const OWN_STATE: Passage = &[
    r#"> client a {"id":3,"put":{"key":"k","value":"w"}}"#,
    "...",
    "> deliver a 9",
    "...",
    "> deliver a 10",
    "...",
    "m11 a->a commit 1/3",
    r#"reply a {"acked":{"term":1,"version":3},"id":3}"#,
    "> deliver a 11",
    "...",
    r#"> client a {"id":4,"put":{"key":"k","value":"v"}}"#,
    r#"act a ok value 4 a {"exclusions":[],"master":"a","members":["a"],"settings":{"k":"v"}}"#,
    r#"m12 a->a publish {"committed":["a"],"config":["a"],"parent":{"term":1,"version":3},"term":1,"value":{"exclusions":[],"master":"a","members":["a"],"settings":{"k":"v"}},"version":4}"#,
    "> deliver a 12",
    "...",
    "> deliver a 13",
    "...",
    "m14 a->a commit 1/4",
    r#"reply a {"acked":{"term":1,"version":4},"id":4}"#,
];

const NAMES_ITS_LEADER: Passage = &[
    r#"> client b {"id":1,"state":{}}"#,
    r#"reply b {"id":1,"not_master":"a"}"#,
];

const NO_MASTER: Passage = &[
    r#"> client a {"id":1,"put":{"key":"k","value":"v"}}"#,
    r#"reply a {"id":1,"not_master":null}"#,
];

const LONG_KEY: Passage = &[
    r#"> client a {"id":1,"put":{"key":"kkkkkkkkkkkkkkkkkkkkkkkkkkkkkkkkkkkkkkkkkkkkkkkkkkkkkkkkkkkkkkkkkkkkkkkkkkkkkkkkkkkkkkkkkkkkkkkkkkkkkkkkkkkkkkkkkkkkkkkkkkkkkkkkk","value":"v"}}"#,
    r#"reply a {"bad_setting":129,"id":1}"#,
];

const NO_JSON: Passage = &["> client a {", r#"reply a {"error":"not_json"}"#];

const PUBLICATION_FAILS: Passage = &[
    "> tick a 0 7",
    "act a ok boot a",
    "> tick a 8 7",
    "m1 a->a startjoin a 1",
    "> deliver a 1",
    "...",
    "> deliver a 2",
    "...",
    r#"m3 a->a publish {"committed":["a"],"config":["a"],"parent":{"term":0,"version":0},"term":1,"value":{"exclusions":[],"master":"a","members":["a"],"settings":{}},"version":1}"#,
    "> deliver a 3",
    "...",
    "> tick a 30008 7",
    "mode a candidate 1",
    "> tick a 30008 7",
    "...",
    "> tick a 30016 7",
    "m5 a->a startjoin a 2",
    "> deliver a 5",
    "...",
    "m6 a->a join 2 1/1",
    "> deliver a 6",
    "...",
    "won a 2",
    "mode a leader 2",
    r#"act a ok value 2 a {"exclusions":[],"master":"a","members":["a"],"settings":{}}"#,
    r#"m7 a->a publish {"committed":["a"],"config":["a"],"parent":{"term":1,"version":1},"term":2,"value":{"exclusions":[],"master":"a","members":["a"],"settings":{}},"version":2}"#,
];

const ROUNDS: Passage = &[
    "> tick a 0 7",
    "act a ok boot a",
    "> tick a 8 7",
    "m1 a->a startjoin a 1",
    "> tick a 9 7",
    "> tick a 515 7",
    "> tick a 516 7",
    "m2 a->a startjoin a 1",
];

const EARLIER_TERM: Passage = &[
    "> tick a 1008 7",
    "m12 a->b followercheck 1",
    "> tick a 30008 7",
    "mode a candidate 1",
    "> tick a 30008 7",
    "...",
    "> tick a 30016 7",
    "m14 a->a startjoin a 2",
    "m15 a->b startjoin a 2",
    "> deliver b 15",
    "...",
    "m16 b->a join 2 1/2",
    "> deliver b 12",
    "m17 b->a followeranswer no 2 0/0",
];

const STILL_VOTES: Passage = &[
    r#"> client a {"id":1,"exclude":["a"]}"#,
    "...",
    "> deliver a 6",
    "...",
    "> deliver a 7",
    "...",
    "m8 a->a commit 1/2",
    "> deliver a 8",
    "act a ok commit a 1/2",
    "> tick a 30007 7",
    "> tick a 30008 7",
    r#"reply a {"exclusion_timeout":["a"],"id":1}"#,
];

const HANDS_OVER: Passage = &[
    "> deliver a 11",
    "...",
    "> deliver a 9",
    "...",
    "m12 a->a response 1/2",
    "> deliver a 12",
    "...",
    "m13 a->a commit 1/2",
    "m14 a->b commit 1/2",
    "> deliver a 13",
    "...",
    "> deliver b 14",
    "...",
    r#"> client a {"id":1,"exclude":["a"]}"#,
    "...",
    "> deliver a 15",
    "...",
    "m17 a->a response 1/3",
    "> deliver b 16",
    "...",
    "m18 b->a response 1/3",
    "> deliver a 17",
    "...",
    "> deliver a 18",
    "...",
    "m19 a->a commit 1/3",
    "m20 a->b commit 1/3",
    "> deliver a 19",
    "act a ok commit a 1/3",
    "m21 a->a startjoin b 2",
    "m22 a->b startjoin b 2",
    r#"reply a {"acked":{"term":1,"version":3},"id":1}"#,
    "> tick a 9 7",
    "> tick a 1008 7",
    "m23 a->a startjoin b 2",
    "m24 a->b followercheck 1",
    "m25 a->b startjoin b 2",
];

// The leader a is excluded, and b and c have responded: the next event commits that they are the voters.
const EXCLUDED: Passage = &[
    r#"> client a {"id":1,"exclude":["a"]}"#,
    "...",
    "> deliver a 30",
    "...",
    "> deliver b 31",
    "...",
    "> deliver c 32",
    "...",
    "> deliver a 33",
    "...",
    "> deliver a 34",
    "...",
    "> deliver a 35",
    "...",
];

// Who is asked to be elected then: the least that is not voting-only.
const TO_THE_OTHER: Passage = &[
    "> deliver a 36",
    "act a ok commit a 1/3",
    "m39 a->a startjoin c 2",
    "m40 a->b startjoin c 2",
    "m41 a->c startjoin c 2",
    r#"reply a {"acked":{"term":1,"version":3},"id":1}"#,
];

// Nobody is asked where there is no such node, and the next look comes a second later all the same.
const TO_NOBODY: Passage = &[
    "> deliver a 36",
    "act a ok commit a 1/3",
    r#"reply a {"acked":{"term":1,"version":3},"id":1}"#,
    "> tick a 21 7",
];

// The commit never comes to b, and no check to c.
const DROPS: Passage = &[
    "> tick a 0 7",
    "...",
    "> tick a 8 7",
    "m3 a->a startjoin a 1",
    "m4 a->b startjoin a 1",
    "m5 a->c startjoin a 1",
    "> deliver a 3",
    "...",
    "m6 a->a join 1 0/0",
    "> deliver b 4",
    "...",
    "m7 b->a join 1 0/0",
    "> deliver c 5",
    "...",
    "m8 c->a join 1 0/0",
    "> deliver a 7",
    "...",
    "> deliver a 8",
    "...",
    "> deliver a 6",
    "...",
    "won a 1",
    "...",
    "> deliver b 10",
    "...",
    "m12 b->a response 1/1",
    "> deliver c 11",
    "...",
    "m13 c->a response 1/1",
    "> deliver a 9",
    "...",
    "m14 a->a response 1/1",
    "> deliver a 12",
    "...",
    "> deliver a 13",
    "...",
    "> deliver a 14",
    "...",
    "m15 a->a commit 1/1",
    "m16 a->b commit 1/1",
    "m17 a->c commit 1/1",
    "> deliver a 15",
    "...",
    "> deliver c 17",
    "...",
    "> tick a 1008 7",
    "m18 a->b followercheck 1",
    "m19 a->c followercheck 1",
    "> deliver b 18",
    "m20 b->a followeranswer yes 1 0/0",
    "> deliver a 20",
    "> tick a 40000 7",
    "m21 a->b followercheck 1",
    "> deliver b 21",
    "m22 b->a followeranswer yes 1 0/0",
    "> deliver a 22",
    "> tick a 41000 7",
    "m23 a->b followercheck 1",
    "m24 a->c followercheck 1",
    "> deliver b 23",
    "m25 b->a followeranswer yes 1 0/0",
    "> deliver a 25",
    "> tick a 60000 7",
    "m26 a->b followercheck 1",
    "> deliver b 26",
    "m27 b->a followeranswer yes 1 0/0",
    "> deliver a 27",
    "> tick a 61000 7",
    "m28 a->b followercheck 1",
    "m29 a->c followercheck 1",
    "> deliver b 28",
    "m30 b->a followeranswer yes 1 0/0",
    "> deliver a 30",
    "> tick a 90008 7",
    "...",
    "drop a b lag",
    "drop a c checks",
    "...",
];

// A leader drops at once whom it watches, once, and no node that it doesn't watch.
const DROPS_ITS_FOLLOWER: Passage = &[
    "> disconnect a b",
    "drop a b disconnect",
    "> disconnect a b",
    "> deliver a 9",
    "...",
    "m12 a->a response 1/2",
    "> deliver a 12",
    "...",
    "m13 a->a commit 1/2",
    "> deliver a 13",
    "act a ok commit a 1/2",
    r#"act a ok value 3 a {"exclusions":[],"master":"a","members":["a"],"settings":{}}"#,
    r#"m14 a->a publish {"committed":["a"],"config":["a"],"parent":{"term":1,"version":2},"term":1,"value":{"exclusions":[],"master":"a","members":["a"],"settings":{}},"version":3}"#,
    "> disconnect a b",
];

const THREE_VOTER_A: Passage = &["nodes a,b,c", "initial a"];

pub const THREE_B_VOTES_ONLY: Passage = &["nodes a,b,c", "initial a,b,c", "voting-only b"];

const THREE_B_AND_C_VOTE_ONLY: Passage = &["nodes a,b,c", "initial a,b,c", "voting-only b,c"];

// A name, the header, and what comes to the nodes, each line after `> ` with the lines that it shows.
const ROWS: &[Traced] = &[
    (
        "a_node_alone_elects_itself_and_acknowledges_a_put_as_its_commit_is_sent",
        ONE,
        &[LEADER, ACKNOWLEDGED],
    ),
    (
        "a_put_is_acked_with_no_state_that_is_older_than_its_line",
        ONE,
        &[LEADER, ACKNOWLEDGED, OWN_STATE],
    ),
    (
        "the_second_of_two_nodes_joins_and_follows_and_names_its_leader",
        TWO_VOTER_A,
        &[FOLLOWER, NAMES_ITS_LEADER],
    ),
    (
        "before_its_first_tick_a_node_knows_no_master",
        ONE,
        &[NO_MASTER],
    ),
    (
        "a_leader_refuses_a_key_of_129_bytes_by_its_length",
        ONE,
        &[LEADER, LONG_KEY],
    ),
    ("a_line_that_is_no_json_is_answered_so", ONE, &[NO_JSON]),
    (
        "a_leader_whose_publication_fails_stands_again_and_publishes_the_same_value",
        ONE,
        &[PUBLICATION_FAILS],
    ),
    (
        "the_next_round_waits_for_the_end_of_the_last",
        ONE,
        &[ROUNDS],
    ),
    (
        "a_check_of_an_earlier_term_is_answered_no",
        TWO_VOTER_A,
        &[FOLLOWER, EARLIER_TERM],
    ),
    (
        "an_exclude_is_answered_after_30_000_ms_where_the_excluded_still_votes",
        ONE,
        &[LEADER, STILL_VOTES],
    ),
    (
        "a_leader_that_votes_no_more_hands_over_to_the_least_responder_that_votes",
        TWO_VOTER_A,
        &[FOLLOWER, HANDS_OVER],
    ),
    (
        "a_leader_hands_over_past_voting_only_nodes: to the other",
        THREE_B_VOTES_ONLY,
        &[A_LEADS_THREE, EXCLUDED, TO_THE_OTHER],
    ),
    (
        "a_leader_hands_over_past_voting_only_nodes: to nobody",
        THREE_B_AND_C_VOTE_ONLY,
        &[A_LEADS_THREE, EXCLUDED, TO_NOBODY],
    ),
    (
        "a_leader_drops_who_lags_and_who_fails_its_checks_by_ascending_id",
        THREE_VOTER_A,
        &[DROPS],
    ),
    (
        "a_leader_drops_a_lost_follower_once",
        TWO_VOTER_A,
        &[FOLLOWER, DROPS_ITS_FOLLOWER],
    ),
];

// Whether a trace has the lines that are wanted and no others, but where `...` stands.
fn shows(trace: &[u8], wanted: &[u8]) -> bool {
    let (Ok(trace), Ok(wanted)) = (str::from_utf8(trace), str::from_utf8(wanted)) else {
        return false;
    };
    let mut wanted = wanted.split('\n');
    let mut next = wanted.next();
    let mut skips = false;
    for line in trace.split('\n') {
        if next == Some("...") {
            next = wanted.next();
            skips = true;
        }
        if next == Some(line) {
            next = wanted.next();
            skips = false;
        } else if !skips {
            return false;
        }
    }
    next.is_none()
}

// Whether the schedule of these passages, replayed over whole nodes, shows its lines.
fn shows_its_lines(
    alloc: Global,
    header: Passage,
    first: &[Passage],
    then: &[Passage],
) -> Result<bool, AllocError> {
    let mut passages = Vec::from_slice(alloc, first)?;
    passages.extend_from_slice(then)?;
    let (schedule, wanted) = texts(alloc, header, passages.as_slice())?;
    let case = replay_of(Level::Node, schedule.as_bytes());
    let (status, trace) = written_by(alloc, &case)?;
    Ok(status == Status::Ok && shows(trace.as_bytes(), wanted.as_bytes()))
}

/// Each row's schedule begins with these passages, goes on with its own, and must show the lines of all.
pub fn show_all(
    rt: &impl Abort,
    alloc: Global,
    first: &[Passage],
    rows: &[Traced],
) -> Result<(), Fail> {
    for (name, header, then) in rows {
        let shows = shows_its_lines(alloc, header, first, then)?;
        assert!(rt; shows, "{name}");
    }
    Ok(())
}

#[test]
fn coordinators_show_these_lines(rt: HostRuntime) -> Result<(), Fail> {
    show_all(&rt, rt.alloc(), &[], ROWS)
}
