//! Requests with the states and the answers that they come to. An answer is told as the line that its client gets.
use crate::names::{config, id, list, set, votes};
use client_lines::{LineFault, Reply, write_reply};
use cluster_state::{
    Ask, ClusterState, ClusterValue, Request, Settings, SharedState, StateId, Text, value_to_json,
};
use master_tasks::*;
use std::alloc::{AllocError, Global};
use std::process::Abort;
use std::test::*;
use voting_config::{IdList, NodeSet, VotingConfig};

// The two profiles, whose configurations may shrink.
const FIRST: Policy = Policy {
    shrink: true,
    second: false,
};

const SECOND: Policy = Policy {
    shrink: true,
    second: true,
};

// What a client wishes, as it stands in a table.
#[derive(Clone, Copy)]
enum Wish {
    Put(&'static str, &'static str),
    Remove(&'static str),
    Exclude(&'static str),
    Clear { wait: bool },
    State,
}

// When requests that wait are answered.
#[derive(Clone, Copy)]
enum Occasion {
    // The node is the leader of this term no more.
    Failed(u64),
    // State 1/1 is committed.
    Committed,
    // State 1/1, which commits these voters, is applied.
    Applied(&'static str),
    // It is this late, and a, b and c are the voters.
    Late(u64),
}

fn text(alloc: Global, text: &str) -> Result<Text, AllocError> {
    Ok(Text::of(String::from_str(alloc, text)?))
}

fn put(alloc: Global, key: &str, value: &str) -> Result<Ask, AllocError> {
    let key = text(alloc, key)?;
    let value = text(alloc, value)?;
    Ok(Ask::Put { key, value })
}

fn remove(alloc: Global, key: &str) -> Result<Ask, AllocError> {
    let key = text(alloc, key)?;
    Ok(Ask::Remove { key })
}

fn ask(alloc: Global, wish: Wish) -> Result<Ask, AllocError> {
    match wish {
        Wish::Put(key, value) => put(alloc, key, value),
        Wish::Remove(key) => remove(alloc, key),
        Wish::Exclude(nodes) => Ok(Ask::Exclude(list(alloc, nodes)?)),
        Wish::Clear { wait } => Ok(Ask::Clear {
            wait_for_removal: wait,
        }),
        Wish::State => Ok(Ask::State),
    }
}

// Takes a request of this id, which comes by connection 1 at a moment.
fn take(alloc: Global, tasks: &mut MasterTasks, at: u64, id: u64, wish: Wish) -> Result<(), Fail> {
    let ask = ask(alloc, wish)?;
    tasks.offer(1, at, Request { id, ask }).ok().ok_or("taken")?;
    Ok(())
}

fn one_setting(alloc: Global) -> Result<Settings, AllocError> {
    let mut settings = Settings::new(alloc);
    settings.put("v", "x")?;
    Ok(settings)
}

fn put_number(alloc: Global, settings: &mut Settings, number: u64) -> Result<(), AllocError> {
    let key = format!(in alloc; "{number}")?;
    settings.put(key.as_str(), "")
}

fn as_many_settings_as_there_may_be(alloc: Global) -> Result<Settings, AllocError> {
    let mut settings = one_setting(alloc)?;
    for number in 1..4096u64 {
        put_number(alloc, &mut settings, number)?;
    }
    Ok(settings)
}

// The state 1/1 of master a.
fn state(
    alloc: Global,
    voters: &str,
    members: &str,
    exclusions: &str,
    settings: Settings,
) -> Result<SharedState, AllocError> {
    let value = ClusterValue {
        master: Some(id("a")),
        members: list(alloc, members)?,
        exclusions: list(alloc, exclusions)?,
        settings,
    };
    let state = ClusterState {
        term: 1,
        version: 1,
        parent: Some(StateId {
            term: 0,
            version: 0,
        }),
        config: list(alloc, voters)?,
        committed: list(alloc, voters)?,
        value,
    };
    SharedState::of(alloc, state)
}

fn write_replies(alloc: Global, text: &mut Vec<u8>, replies: &Replies) -> Result<(), AllocError> {
    for outgoing in replies.as_slice() {
        let line = write_reply(alloc, &outgoing.reply)?;
        write_word(text, &line)?;
    }
    Ok(())
}

fn write_word(text: &mut Vec<u8>, word: &[u8]) -> Result<(), AllocError> {
    text.push(b' ')?;
    text.extend_from_slice(word)
}

// The voters and the value of a new state, or 'same', and the replies.
fn written(alloc: Global, next: &Next) -> Result<Vec<u8>, AllocError> {
    let mut text = Vec::new(alloc);
    write_next(alloc, &mut text, next)?;
    Ok(text)
}

fn write_next(alloc: Global, text: &mut Vec<u8>, next: &Next) -> Result<(), AllocError> {
    match next {
        Next::Same(replies) => {
            text.extend_from_slice(b"same")?;
            write_replies(alloc, text, replies)
        }
        Next::New {
            config,
            value,
            replies,
        } => {
            write_state(alloc, text, config, value)?;
            write_replies(alloc, text, replies)
        }
    }
}

fn write_state(
    alloc: Global,
    text: &mut Vec<u8>,
    config: &IdList,
    value: &ClusterValue,
) -> Result<(), AllocError> {
    for id in config.as_slice() {
        text.extend_from_slice(id.as_bytes())?;
    }
    write_word(text, &value_to_json(alloc, value)?)
}

// What comes of the tasks of leader a, of whom a, b, c and d are voters.
fn next(
    alloc: Global,
    policy: Policy,
    tasks: &mut MasterTasks,
    term: u64,
    accepted: &SharedState,
) -> Result<Vec<u8>, AllocError> {
    let committed = VotingConfig::of_list(&accepted.config);
    let votes = votes("a,b,c,d");
    let next = tasks.next_state(id("a"), term, accepted, &committed, &votes, policy)?;
    written(alloc, &next)
}

// Takes requests of ids from 1 on, which come at moment 0.
fn take_all(alloc: Global, tasks: &mut MasterTasks, wishes: &[Wish]) -> Result<(), Fail> {
    let mut id: u64 = 0;
    for wish in wishes {
        id = id.wrapping_add(1);
        take(alloc, tasks, 0, id, *wish)?;
    }
    Ok(())
}

// What comes of requests, of ids from 1 on.
fn came(
    alloc: Global,
    policy: Policy,
    term: u64,
    accepted: &SharedState,
    wishes: &[Wish],
) -> Result<Vec<u8>, Fail> {
    let mut tasks = MasterTasks::new(alloc);
    take_all(alloc, &mut tasks, wishes)?;
    Ok(next(alloc, policy, &mut tasks, term, accepted)?)
}

// As many requests as may wait, each of id 7 and come at moment 5.
fn full(alloc: Global) -> Result<MasterTasks, Fail> {
    let mut tasks = MasterTasks::new(alloc);
    for _ in 0..MAX_OPEN {
        take(alloc, &mut tasks, 5, 7, Wish::State)?;
    }
    Ok(tasks)
}

// The id of a request that is refused, since 64 wait.
fn refused(tasks: &mut MasterTasks, id: u64) -> Option<u64> {
    match tasks.offer(
        1,
        5,
        Request {
            id,
            ask: Ask::State,
        },
    ) {
        Err(OfferError::QueueFull(request)) => Some(request.id),
        _ => None,
    }
}

// The place of the last request that waits, when it came, and the id of the one that is taken out there.
fn last_settled(tasks: &mut MasterTasks) -> Option<(usize, u64, u64)> {
    let place = tasks.open_count().checked_sub(1)?;
    let arrived = tasks.waiting(place).arrived;
    let settled = tasks.settle(place);
    Some((place, arrived, settled.request.id))
}

fn is_copied_full(tasks: &MasterTasks) -> bool {
    match tasks.copy() {
        Ok(copy) => copy.open_count() == MAX_OPEN,
        Err(_) => false,
    }
}

// Whether no request is taken until the last one is settled.
fn is_full_until_settled(tasks: &mut MasterTasks) -> bool {
    tasks.is_full()
        && refused(tasks, 9) == Some(9)
        && tasks.open_count() == MAX_OPEN
        && last_settled(tasks) == Some((63, 5, 7))
        && !tasks.is_full()
}

#[test]
fn a_65th_request_is_refused(rt: HostRuntime) -> Result<(), Fail> {
    let mut tasks = full(rt.alloc())?;
    assert!(rt; is_copied_full(&tasks) && is_full_until_settled(&mut tasks));
    tasks.add_member(id("a"));
    tasks.clear();
    assert!(rt; tasks.open_count() == 0);
    Ok(())
}

// Whether this comes of requests at the leader of the term.
fn comes_of(
    alloc: Global,
    policy: Policy,
    term: u64,
    accepted: &SharedState,
    wishes: &[Wish],
    want: &str,
) -> Result<bool, Fail> {
    let text = came(alloc, policy, term, accepted, wishes)?;
    Ok(text.as_slice() == want.as_bytes())
}

// State 1/1, with one setting.
fn state_of(
    alloc: Global,
    voters: &str,
    members: &str,
    exclusions: &str,
) -> Result<SharedState, AllocError> {
    state(alloc, voters, members, exclusions, one_setting(alloc)?)
}

// The same with members a, b and c.
fn accepted(alloc: Global, voters: &str, exclusions: &str) -> Result<SharedState, AllocError> {
    state_of(alloc, voters, "a,b,c", exclusions)
}

// The leader's term, voters and exclusions in state 1/1, what clients wish, and what comes of that.
type Outcome = (
    u64,
    (&'static str, &'static str),
    &'static [Wish],
    &'static str,
);

fn comes(alloc: Global, policy: Policy, row: &Outcome) -> Result<bool, Fail> {
    let (term, (voters, exclusions), wishes, want) = *row;
    let accepted = accepted(alloc, voters, exclusions)?;
    comes_of(alloc, policy, term, &accepted, wishes, want)
}

const OUTCOMES: &[Outcome] = &[
    (
        1,
        ("a,b,c", "_"),
        &[Wish::State],
        r#"same {"id":1,"state":{"committed":["a","b","c"],"config":["a","b","c"],"parent":{"term":0,"version":0},"term":1,"value":{"exclusions":[],"master":"a","members":["a","b","c"],"settings":{"v":"x"}},"version":1}}"#,
    ),
    (
        1,
        ("a,b,c", "_"),
        &[Wish::Put("v", "x")],
        r#"same {"acked":{"term":1,"version":1},"id":1}"#,
    ),
    (
        1,
        ("a,b,c", "_"),
        &[Wish::Put("w", "1"), Wish::Put("w", "2")],
        r#"abc {"exclusions":[],"master":"a","members":["a","b","c"],"settings":{"v":"x","w":"2"}}"#,
    ),
    (
        1,
        ("a,b,c", "_"),
        &[Wish::Remove("w")],
        r#"same {"acked":{"term":1,"version":1},"id":1}"#,
    ),
    (
        1,
        ("a,b,c", "_"),
        &[Wish::Remove("v")],
        r#"abc {"exclusions":[],"master":"a","members":["a","b","c"],"settings":{}}"#,
    ),
    (
        1,
        ("a,b,c", "_"),
        &[Wish::Exclude("x")],
        r#"abc {"exclusions":["x"],"master":"a","members":["a","b","c"],"settings":{"v":"x"}}"#,
    ),
    (
        1,
        ("a,b,c", "d,e,f,g,h,i,j,k,l,m"),
        &[Wish::Exclude("c")],
        r#"same {"id":1,"too_many_exclusions":11}"#,
    ),
    (
        1,
        ("a,b,c", "_"),
        &[Wish::Exclude("c")],
        r#"ab {"exclusions":["c"],"master":"a","members":["a","b","c"],"settings":{"v":"x"}}"#,
    ),
    (
        1,
        ("a", "c"),
        &[Wish::Exclude("c")],
        r#"same {"acked":{"term":1,"version":1},"id":1}"#,
    ),
    (
        1,
        ("a", "c"),
        &[Wish::Clear { wait: true }],
        r#"same {"id":1,"still_member":"c"}"#,
    ),
    (
        1,
        ("a", "c"),
        &[Wish::Clear { wait: false }],
        r#"abc {"exclusions":[],"master":"a","members":["a","b","c"],"settings":{"v":"x"}}"#,
    ),
    (
        1,
        ("a,b", "_"),
        &[],
        r#"abc {"exclusions":[],"master":"a","members":["a","b","c"],"settings":{"v":"x"}}"#,
    ),
    // A state of an older term is published anew.
    (
        2,
        ("a,b,c", "_"),
        &[],
        r#"abc {"exclusions":[],"master":"a","members":["a","b","c"],"settings":{"v":"x"}}"#,
    ),
];

// The same by the second profile: each request that is not refused makes a state, and the first state of a term keeps the voters.
const OUTCOMES_BY_THE_SECOND: &[Outcome] = &[
    (
        1,
        ("a,b,c", "_"),
        &[Wish::State],
        r#"abc {"exclusions":[],"master":"a","members":["a","b","c"],"settings":{"v":"x"}}"#,
    ),
    (
        1,
        ("a,b,c", "_"),
        &[Wish::Put("w", "1"), Wish::State],
        r#"abc {"exclusions":[],"master":"a","members":["a","b","c"],"settings":{"v":"x","w":"1"}}"#,
    ),
    (
        1,
        ("a,b,c", "_"),
        &[Wish::Put("v", "x")],
        r#"abc {"exclusions":[],"master":"a","members":["a","b","c"],"settings":{"v":"x"}}"#,
    ),
    (
        1,
        ("a,b,c", "_"),
        &[Wish::Remove("w")],
        r#"abc {"exclusions":[],"master":"a","members":["a","b","c"],"settings":{"v":"x"}}"#,
    ),
    (
        1,
        ("a", "c"),
        &[Wish::Exclude("c")],
        r#"a {"exclusions":["c"],"master":"a","members":["a","b","c"],"settings":{"v":"x"}}"#,
    ),
    (
        1,
        ("a,b,c", "d,e,f,g,h,i,j,k,l,m"),
        &[Wish::Exclude("c")],
        r#"same {"id":1,"too_many_exclusions":11}"#,
    ),
    (
        1,
        ("a", "c"),
        &[Wish::Clear { wait: true }],
        r#"same {"id":1,"still_member":"c"}"#,
    ),
    (
        1,
        ("a,b", "_"),
        &[],
        r#"abc {"exclusions":[],"master":"a","members":["a","b","c"],"settings":{"v":"x"}}"#,
    ),
    (
        2,
        ("a,b", "_"),
        &[],
        r#"ab {"exclusions":[],"master":"a","members":["a","b","c"],"settings":{"v":"x"}}"#,
    ),
];

fn all_come(rt: &impl Abort, alloc: Global, policy: Policy, rows: &[Outcome]) -> Result<(), Fail> {
    for (at, row) in rows.iter().enumerate() {
        assert!(rt; comes(alloc, policy, row)?, "row {at}");
    }
    Ok(())
}

#[test]
fn requests_make_this_state_or_get_this_answer(rt: HostRuntime) -> Result<(), Fail> {
    all_come(&rt, rt.alloc(), FIRST, OUTCOMES)
}

#[test]
fn each_request_that_is_not_refused_makes_a_state(rt: HostRuntime) -> Result<(), Fail> {
    all_come(&rt, rt.alloc(), SECOND, OUTCOMES_BY_THE_SECOND)
}

// What comes of one request, first and later.
const TWICE: &[&str] = &[
    r#"abc {"exclusions":[],"master":"a","members":["a","b","c"],"settings":{"v":"x","w":"1"}}"#,
    r#"same {"acked":{"term":1,"version":1},"id":1}"#,
];

fn one_request(alloc: Global) -> Result<MasterTasks, Fail> {
    let mut tasks = MasterTasks::new(alloc);
    take(alloc, &mut tasks, 5, 1, Wish::Put("w", "1"))?;
    Ok(tasks)
}

fn comes_next(alloc: Global, tasks: &mut MasterTasks, accepted: &SharedState, want: &str) -> bool {
    match next(alloc, FIRST, tasks, 1, accepted) {
        Ok(text) => text.as_slice() == want.as_bytes(),
        Err(_) => false,
    }
}

#[test]
fn a_request_is_processed_once(rt: HostRuntime) -> Result<(), Fail> {
    let accepted = accepted(rt.alloc(), "a,b,c", "_")?;
    let mut tasks = one_request(rt.alloc())?;
    for want in TWICE {
        assert!(rt;
            comes_next(rt.alloc(), &mut tasks, &accepted, want),
            "{want}"
        );
    }
    Ok(())
}

// What a client wishes where there are as many settings as there may be, and what comes of it.
const FULL: &[(&[Wish], &str)] = &[
    (
        &[Wish::Put("w", "")],
        r#"same {"id":1,"too_many_settings":4097}"#,
    ),
    (
        &[Wish::Put("v", "x")],
        r#"same {"acked":{"term":1,"version":1},"id":1}"#,
    ),
];

fn full_of_settings(alloc: Global) -> Result<SharedState, AllocError> {
    let settings = as_many_settings_as_there_may_be(alloc)?;
    state(alloc, "a,b,c", "a,b,c", "_", settings)
}

#[test]
fn a_4097th_setting_is_refused(rt: HostRuntime) -> Result<(), Fail> {
    let accepted = full_of_settings(rt.alloc())?;
    for (wishes, want) in FULL {
        assert!(rt;
            comes_of(rt.alloc(), FIRST, 1, &accepted, wishes, want)?,
            "{want}"
        );
    }
    Ok(())
}

const FULL_SET: &str = "n01..n64";

// Members that are accepted, those that are to go, sets of those that are to come, and the members after that.
type Change = (
    &'static str,
    &'static str,
    &'static [&'static str],
    &'static str,
);

// What leader a makes of an accepted state where these members are to go and those are to come.
fn after_changes(
    alloc: Global,
    accepted: &SharedState,
    removals: &str,
    additions: &[&str],
) -> Result<Next, AllocError> {
    let mut tasks = changed(alloc, removals, additions);
    let committed = VotingConfig::of_list(&accepted.config);
    tasks.next_state(id("a"), 2, accepted, &committed, &votes("a,b,c"), FIRST)
}

fn has(next: &Next, voters: &VotingConfig, members: &str) -> bool {
    match next {
        Next::Same(_) => false,
        Next::New { config, value, .. } => {
            voters.is_same_list(config) && value.members.as_slice() == set(members).as_slice()
        }
    }
}

// Whether leader a makes a new state with these voters and members of an accepted one.
fn makes(
    alloc: Global,
    accepted: &SharedState,
    removals: &str,
    additions: &[&str],
    voters: &VotingConfig,
    members: &str,
) -> bool {
    match after_changes(alloc, accepted, removals, additions) {
        Ok(next) => has(&next, voters, members),
        Err(_) => false,
    }
}

// Whether leader a, who accepted a state with these voters, makes a new one with the same voters and these members.
fn is_made(alloc: Global, voters: &str, change: Change) -> bool {
    let (members, removals, additions, after) = change;
    match state_of(alloc, voters, members, "_") {
        Ok(accepted) => makes(
            alloc,
            &accepted,
            removals,
            additions,
            &config(voters),
            after,
        ),
        Err(_) => false,
    }
}

// Members that are to go, and sets of members that are to come, one after the other.
fn changed(alloc: Global, removals: &str, additions: &[&str]) -> MasterTasks {
    let mut tasks = MasterTasks::new(alloc);
    for id in set(removals).as_slice() {
        tasks.drop_member(*id);
    }
    for ids in additions {
        add_members(&mut tasks, &set(ids));
    }
    tasks
}

fn add_members(tasks: &mut MasterTasks, ids: &NodeSet) {
    for id in ids.as_slice() {
        tasks.add_member(*id);
    }
}

const CHANGES: &[Change] = &[
    ("a,b,c", "_", &["d"], "a,b,c,d"),
    ("a,b,c", "b", &[], "a,c"),
    ("a,b,c", "a", &[], "a,b,c"),
    ("a,b,c", "b", &["b"], "a,b,c"),
    (FULL_SET, "_", &["a"], FULL_SET),
    ("n01..n63", "_", &["n65", "n64"], FULL_SET),
    // Of those that come the node itself takes the place that is free, and then the least id.
    (FULL_SET, "n07", &["0,a"], "a,n01..n06,n08..n64"),
    (FULL_SET, "n07", &["n66", "n65"], "n01..n06,n08..n65"),
];

#[test]
fn members_leave_and_join_up_to_64(rt: HostRuntime) {
    for (at, change) in CHANGES.iter().enumerate() {
        assert!(rt; is_made(rt.alloc(), "a,b,c", *change), "row {at}");
    }
}

// Who is excluded where node c joins a, the only voter, and b; and the voters after that.
const JOINED: &[(&str, &str)] = &[("_", "a,b,c"), ("c", "a")];

fn are_voters_with_c(alloc: Global, excluded: &str, voters: &str) -> bool {
    match state_of(alloc, "a", "a,b", excluded) {
        Ok(accepted) => makes(alloc, &accepted, "_", &["c"], &config(voters), "a,b,c"),
        Err(_) => false,
    }
}

#[test]
fn a_node_that_was_excluded_before_it_joins_does_not_vote(rt: HostRuntime) {
    for (excluded, voters) in JOINED {
        assert!(rt; are_voters_with_c(rt.alloc(), excluded, voters), "{voters}");
    }
}

const ONE_TOO_MANY: Change = ("_", "_", &[FULL_SET, "a"], FULL_SET);

#[test]
fn a_65th_member_is_left_out(rt: HostRuntime) {
    assert!(rt; is_made(rt.alloc(), "c", ONE_TOO_MANY));
}

// Four requests, of which the first three are processed beside the accepted state.
fn four(alloc: Global, accepted: &SharedState) -> Result<MasterTasks, Fail> {
    let mut tasks = MasterTasks::new(alloc);
    take_all(
        alloc,
        &mut tasks,
        &[Wish::Put("w", "1"), Wish::Exclude("b"), Wish::State],
    )?;
    let _ = next(alloc, SECOND, &mut tasks, 1, accepted)?;
    take(alloc, &mut tasks, 1, 4, Wish::Exclude("x"))?;
    Ok(tasks)
}

// A leader takes the commit of the accepted state. Without room for all replies none is sent.
fn apply(
    tasks: &mut MasterTasks,
    voters: &str,
    accepted: &SharedState,
    out: &mut Replies,
) -> Result<(), AllocError> {
    let Applied {
        tasks: left,
        replies,
    } = tasks.once_applied(&config(voters), accepted)?;
    if replies.as_slice().len() <= out.room() {
        out.append(replies);
    }
    *tasks = left;
    Ok(())
}

// Answers on an occasion, behind the replies that are there. Without room for all it does nothing: the contracts ask
// for room.
fn reply_on(
    tasks: &mut MasterTasks,
    occasion: Occasion,
    accepted: &SharedState,
    out: &mut Replies,
) -> Result<(), AllocError> {
    if tasks.open_count() > out.room() {
        return Ok(());
    }
    match occasion {
        Occasion::Failed(term) => tasks.fail_all(term, out),
        Occasion::Committed => tasks.ack_committed(accepted.id(), out),
        Occasion::Applied(voters) => return apply(tasks, voters, accepted, out),
        Occasion::Late(now) => tasks.time_out_exclusions(&config("a,b,c"), now, out),
    }
    Ok(())
}

// Room for twelve replies, one of which is there already: others must leave it there and come behind it.
fn begun(alloc: Global) -> Result<Replies, AllocError> {
    let mut replies = Replies::with_room(alloc, 12)?;
    replies.push(Outgoing {
        conn: 1,
        reply: Reply::BadLine(LineFault::NotJson),
    });
    Ok(replies)
}

// The replies that two begun ones have.
const EARLIER: &[u8] = br#" {"error":"not_json"} {"error":"not_json"}"#;

// Replies behind another begun one, where it has room for them, as text.
fn appended(alloc: Global, replies: Replies) -> Result<Vec<u8>, AllocError> {
    let mut all = begun(alloc)?;
    if replies.as_slice().len() <= all.room() {
        all.append(replies);
    }
    written_replies(alloc, &all)
}

fn written_replies(alloc: Global, replies: &Replies) -> Result<Vec<u8>, AllocError> {
    let mut text = Vec::new(alloc);
    write_replies(alloc, &mut text, replies)?;
    Ok(text)
}

fn is_behind_earlier(text: &[u8], want: &str) -> bool {
    match text.split_at_checked(EARLIER.len()) {
        Some((first, rest)) => first == EARLIER && rest == want.as_bytes(),
        None => false,
    }
}

// Occasions one after the other, how many of four requests wait on then, and the replies to the others.
type Answers = (&'static [Occasion], usize, &'static str);

// How many of the four requests wait on after these occasions, and the replies to the others.
fn replied(alloc: Global, occasions: &[Occasion]) -> Result<(usize, Vec<u8>), Fail> {
    let accepted = accepted(alloc, "a,b,c", "_")?;
    let mut tasks = four(alloc, &accepted)?;
    let mut out = begun(alloc)?;
    for occasion in occasions {
        reply_on(&mut tasks, *occasion, &accepted, &mut out)?;
    }
    Ok((tasks.open_count(), appended(alloc, out)?))
}

fn are_replied(alloc: Global, row: &Answers) -> Result<bool, Fail> {
    let (occasions, left, want) = *row;
    let (count, text) = replied(alloc, occasions)?;
    Ok(count == left && is_behind_earlier(&text, want))
}

const ANSWERED: &[Answers] = &[
    (
        &[Occasion::Failed(4)],
        0,
        r#" {"failed_to_commit":4,"id":1} {"failed_to_commit":4,"id":2} {"failed_to_commit":4,"id":3} {"failed_to_commit":4,"id":4}"#,
    ),
    (
        &[Occasion::Committed, Occasion::Late(29_999)],
        3,
        r#" {"acked":{"term":1,"version":1},"id":1}"#,
    ),
    (
        &[Occasion::Committed, Occasion::Applied("a,b,c")],
        2,
        r#" {"acked":{"term":1,"version":1},"id":1} {"id":3,"state":{"committed":["a","b","c"],"config":["a","b","c"],"parent":{"term":0,"version":0},"term":1,"value":{"exclusions":[],"master":"a","members":["a","b","c"],"settings":{"v":"x"}},"version":1}}"#,
    ),
    (
        &[
            Occasion::Committed,
            Occasion::Applied("a,c"),
            Occasion::Late(30_001),
        ],
        0,
        r#" {"acked":{"term":1,"version":1},"id":1} {"acked":{"term":1,"version":1},"id":2} {"id":3,"state":{"committed":["a","b","c"],"config":["a","b","c"],"parent":{"term":0,"version":0},"term":1,"value":{"exclusions":[],"master":"a","members":["a","b","c"],"settings":{"v":"x"}},"version":1}} {"exclusion_timeout":[],"id":4}"#,
    ),
    (
        &[Occasion::Late(30_000)],
        3,
        r#" {"exclusion_timeout":["b"],"id":2}"#,
    ),
];

fn have_room(alloc: Global, count: usize) -> bool {
    match Replies::with_room(alloc, count) {
        Ok(replies) => replies.room() == count,
        Err(_) => false,
    }
}

#[test]
fn replies_have_room_for_as_many_as_was_said(rt: HostRuntime) {
    assert!(rt; have_room(rt.alloc(), 12));
}

#[test]
fn each_occasion_answers_its_requests(rt: HostRuntime) -> Result<(), Fail> {
    for (at, row) in ANSWERED.iter().enumerate() {
        assert!(rt; are_replied(rt.alloc(), row)?, "row {at}");
    }
    Ok(())
}

#[test]
fn laws() {
    law_nothing_new();
    law_answered_or_left();
    law_next_answered_or_left();
    law_left_are_good();
    law_offered_are_good();
}
