//! A follower that never answers, one that lags, one whose connection ends, and a leader that refuses, tick by tick. The moments were worked out from the
//! numbers of docs/policy.md.
use crate::names::{id, list};
use cluster_state::StateId;
use fault_checks::*;
use std::test::*;
use voting_config::{NodeId, NodeSet};

fn b() -> NodeId {
    NodeId::parse("b").unwrap_or_default()
}

fn only_b() -> NodeSet {
    let mut members = NodeSet::new();
    let _ = members.insert(b());
    members
}

fn state(version: u64) -> StateId {
    StateId { term: 1, version }
}

// Follower b is named at a tick in one way, or not.
#[derive(Clone, Copy)]
enum Named {
    Nowhere,
    ToAsk,
    ToDropForChecks,
    ToDropForLag,
}

// What comes of the checks of b, by version and moment, where a tick names it, or whether it is watched.
#[derive(Clone, Copy)]
enum Row {
    Watched(u64),
    Answers(u64, u64),
    Finished(u64, u64),
    Ticks(u64, Named),
    LosesB,
    LosesC,
    IsWatched,
    IsNotWatched,
}

fn is_checked(checks: &mut FollowerChecks, row: Row) -> bool {
    match row {
        Row::Watched(now) => {
            checks.watch(&only_b(), now);
            true
        }
        Row::Answers(version, now) => {
            checks.answer(b(), true, state(version), now);
            true
        }
        Row::Finished(version, now) => {
            checks.finished(state(version), now);
            true
        }
        Row::Ticks(now, named) => is_named(&checks.tick(now), named),
        Row::LosesB => {
            checks.disconnected(b());
            true
        }
        Row::LosesC => {
            checks.disconnected(id("c"));
            true
        }
        Row::IsWatched => checks.watches(b()) && is_b(&checks.watched(), 1),
        Row::IsNotWatched => !checks.watches(b()) && is_b(&checks.watched(), 0),
    }
}

fn is_named(checked: &Checked, named: Named) -> bool {
    let (to_ask, for_checks, for_lag) = match named {
        Named::Nowhere => (0, 0, 0),
        Named::ToAsk => (1, 0, 0),
        Named::ToDropForChecks => (0, 1, 0),
        Named::ToDropForLag => (0, 0, 1),
    };
    is_b(&checked.ask, to_ask) && is_b(&checked.checks, for_checks) && is_b(&checked.lag, for_lag)
}

// Whether b is in a set so often, and nobody else.
fn is_b(ids: &NodeSet, count: usize) -> bool {
    ids.len() == count && only_b().has_all(ids)
}

// Moments, with where a follower is named that never answers.
const SILENCE: &[(u64, Named)] = &[
    (1_000, Named::ToAsk),
    (11_000, Named::Nowhere),
    (12_000, Named::ToAsk),
    (22_000, Named::Nowhere),
    (23_000, Named::ToAsk),
    (33_000, Named::ToDropForChecks),
    (34_000, Named::Nowhere),
];

#[test]
fn a_follower_that_never_answers(rt: HostRuntime) -> Result<(), Fail> {
    let members = list(rt.alloc(), "a,b")?;
    let mut checks = FollowerChecks::new();
    checks.watch_others(id("a"), &members, 0);
    for row in SILENCE {
        let (now, named) = *row;
        // Who is watched already goes on as before.
        if now < 33_000 {
            checks.watch_others(id("a"), &members, now);
        }
        assert!(rt; is_named(&checks.tick(now), named), "at {now}");
    }
    Ok(())
}

const HISTORIES: &[&[Row]] = &[
    // It is behind from the first state that it has not applied, and is watched no more once it is dropped.
    &[
        Row::Watched(0),
        Row::Ticks(1_000, Named::ToAsk),
        Row::Answers(1, 1_000),
        Row::Finished(2, 5_000),
        Row::Finished(3, 50_000),
        Row::Ticks(94_999, Named::ToAsk),
        Row::Answers(1, 94_999),
        Row::Ticks(95_000, Named::ToDropForLag),
        Row::Ticks(96_000, Named::Nowhere),
    ],
    // A state that is finished once more says nothing of who came after it.
    &[
        Row::Finished(2, 0),
        Row::Watched(0),
        Row::Finished(2, 500),
        Row::Ticks(1_000, Named::ToAsk),
        Row::Answers(1, 1_000),
        Row::Ticks(91_000, Named::ToAsk),
    ],
    // An answer counts only where a check is outstanding.
    &[
        Row::Watched(0),
        Row::Finished(2, 0),
        Row::Answers(2, 500),
        Row::Ticks(1_000, Named::ToAsk),
        Row::Answers(1, 1_000),
        Row::Ticks(90_000, Named::ToDropForLag),
    ],
    // It is watched no more once its own connection has ended, and begins anew where a later state names it.
    &[
        Row::IsNotWatched,
        Row::Watched(0),
        Row::IsWatched,
        Row::Ticks(1_000, Named::ToAsk),
        Row::LosesC,
        Row::IsWatched,
        Row::LosesB,
        Row::IsNotWatched,
        Row::Ticks(12_000, Named::Nowhere),
        Row::Watched(12_500),
        Row::IsWatched,
        Row::Ticks(13_499, Named::Nowhere),
        Row::Ticks(13_500, Named::ToAsk),
    ],
];

#[test]
fn a_follower_that_lags(rt: HostRuntime) {
    for (number, history) in HISTORIES.iter().enumerate() {
        let mut checks = FollowerChecks::new();
        for (at, row) in history.iter().enumerate() {
            checks = checks.copy();
            assert!(rt; is_checked(&mut checks, *row), "history {number}, row {at}");
        }
    }
}

// Moments, and what is to be done then. Where the leader is asked, it refuses.
const REFUSED: &[(u64, LeaderTick)] = &[
    (999, LeaderTick::Quiet),
    (1_000, LeaderTick::Ask),
    (2_000, LeaderTick::Ask),
    (3_000, LeaderTick::Ask),
    (3_000, LeaderTick::Lost),
];

fn is_ticked(check: &mut LeaderCheck, now: u64, want: LeaderTick) -> bool {
    let tick = check.tick(now);
    if tick == LeaderTick::Ask {
        check.answer(false, now);
    }
    tick == want
}

#[test]
fn a_leader_that_refuses(rt: HostRuntime) {
    let mut check = LeaderCheck::start(b(), 0);
    assert!(rt; check.leader() == b());
    check.answer(false, 500);
    for (now, want) in REFUSED {
        assert!(rt; is_ticked(&mut check, *now, *want), "at {now}");
    }
}

// A law is an empty function: its contract says it all, and the call shows that it can be called.
#[test]
fn the_laws_can_be_called() {
    law_asked();
    law_dropped();
    law_leader_lost();
}
