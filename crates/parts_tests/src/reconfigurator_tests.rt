//! Live nodes and voters, with the voters that they become. The voters follow from the rule of docs/policy.md.
use crate::names::{config, id, list, set, votes};
use reconfigurator::*;
use std::alloc::{AllocError, Global};
use std::test::*;

// Live nodes, excluded ones, voters, whether they may become fewer, and the voters that are aimed at.
type Row = (&'static str, &'static str, &'static str, bool, &'static str);

const VOTERS: &[Row] = &[
    ("a,b,c,d", "_", "a,b,c", true, "a,b,c"),
    ("a,b,c,d,e", "_", "a,b,c", true, "a,b,c,d,e"),
    ("a,b", "_", "a,b", true, "a"),
    ("a,b,c", "c", "a,b,c", true, "a,b"),
    ("a,b", "_", "a,b,c", true, "a,b,c"),
    ("a", "a", "a", true, "a"),
    ("a,b,c", "_", "a,b,c,d,e", true, "a,b,c"),
    ("a,b,c", "_", "a,b,c,d,e", false, "a,b,c,d,e"),
];

// Whether these are what a aims at.
fn become_these(alloc: Global, row: &Row) -> Result<bool, AllocError> {
    let (live, excluded, voters, shrink, want) = *row;
    let (excluded, voters) = (list(alloc, excluded)?, list(alloc, voters)?);
    let aim = target(&set(live), &excluded, id("a"), &voters, shrink);
    Ok(aim.is_same(&config(want)))
}

#[test]
fn the_voters_become_these(rt: HostRuntime) -> Result<(), Fail> {
    for (at, row) in VOTERS.iter().enumerate() {
        assert!(rt; become_these(rt.alloc(), row)?, "row {at}");
    }
    Ok(())
}

// Members, those of them that voted, excluded ones, voters, and whether it is plain that these stay.
type Plain = (&'static str, &'static str, &'static str, &'static str, bool);

const PLAIN: &[Plain] = &[
    ("a,b,c", "a,b,c", "_", "a,b,c", true),
    ("a,b,c", "a,b", "_", "a,b,c", false),
    ("a,b,c", "a,b,c", "c", "a,b,c", false),
    ("a,b,c,d", "a,b,c,d", "_", "a,b,c", false),
    ("a,b", "a,b", "_", "a,b", false),
    ("b,c,d", "b,c,d", "_", "b,c,d", false),
];

fn is_plain(alloc: Global, row: &Plain) -> Result<bool, AllocError> {
    let (members, voted, excluded, voters, plain) = *row;
    let (members, excluded) = (list(alloc, members)?, list(alloc, excluded)?);
    let voters = list(alloc, voters)?;
    Ok(stays(&members, &votes(voted), &excluded, id("a"), &voters, true) == plain)
}

#[test]
fn that_the_voters_stay_is_plain_where_all_members_are_voters_and_voted(
    rt: HostRuntime,
) -> Result<(), Fail> {
    for (at, row) in PLAIN.iter().enumerate() {
        assert!(rt; is_plain(rt.alloc(), row)?, "row {at}");
    }
    Ok(())
}
