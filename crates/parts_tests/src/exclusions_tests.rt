//! Which exclusions are taken, and when a clear is refused. The answers follow from docs/policy.md.
use crate::names::{config, id, list};
use exclusions::*;
use std::alloc::{AllocError, Global};
use std::fmt::Display;
use std::test::*;
use voting_config::NodeSet;

// Whether a text lists these ids. The sentence of a refusal lists none, and is not the empty set.
fn is_set(ids: &NodeSet, text: &str) -> bool {
    match NodeSet::parse(text) {
        Some(listed) => ids.as_slice() == listed.as_slice(),
        None => false,
    }
}

// Whether a refusal is written so.
fn is_written<E: Display>(alloc: Global, error: &E, want: &str) -> bool {
    match format!(in alloc; "{error}") {
        Ok(text) => text.as_str() == want,
        Err(_) => false,
    }
}

// Excluded nodes, members, nodes to exclude as well, and what comes of that.
type Row = (&'static str, &'static str, &'static str, &'static str);

// Whether these are excluded then, or it is refused so.
fn is_added(alloc: Global, row: &Row) -> Result<bool, AllocError> {
    let (excluded, members, asked, want) = *row;
    let (excluded, members) = (list(alloc, excluded)?, list(alloc, members)?);
    match add(&excluded, &members, &list(alloc, asked)?) {
        Ok(ids) => Ok(is_set(&ids, want)),
        Err(error) => Ok(is_written(alloc, &error, want)),
    }
}

const ADDED: &[Row] = &[
    ("_", "a,b,c", "c", "c"),
    ("c", "a,b,c", "b", "b,c"),
    ("c", "a,b,c", "b,c", "b,c"),
    (
        "a,b,c,d,e,f,g,h,i,j",
        "k",
        "k",
        "11 nodes would be excluded, and 10 may be",
    ),
    // An id may be excluded before it is a member.
    ("_", "a,b,c", "x", "x"),
    ("c", "a,b,c", "b,x,y", "b,c,x,y"),
    (
        "a,b,c,d,e,f,g,h,i,j",
        "_",
        "x",
        "11 nodes would be excluded, and 10 may be",
    ),
];

#[test]
fn at_most_ten_nodes_are_excluded_members_or_not(rt: HostRuntime) -> Result<(), Fail> {
    for (at, row) in ADDED.iter().enumerate() {
        assert!(rt; is_added(rt.alloc(), row)?, "row {at}");
    }
    Ok(())
}

fn is_cleared(alloc: Global, wait: bool, want: &str) -> Result<bool, AllocError> {
    match clear(&list(alloc, "c,d")?, &list(alloc, "a,b,c")?, wait) {
        Ok(()) => Ok(want == "cleared"),
        Err(error) => Ok(is_written(alloc, &error, want)),
    }
}

// Whether a clear waits, and what comes of it.
const CLEARS: &[(bool, &str)] = &[
    (true, "c is excluded and still a member"),
    (false, "cleared"),
];

#[test]
fn a_clear_that_waits_is_refused_while_an_excluded_node_is_a_member(
    rt: HostRuntime,
) -> Result<(), Fail> {
    for (wait, want) in CLEARS {
        assert!(rt; is_cleared(rt.alloc(), *wait, want)?, "{want}");
    }
    Ok(())
}

// Committed voters, accepted ones, excluded nodes, and whether a may win.
type Winner = (&'static str, &'static str, &'static str, bool);

const WINNERS: &[Winner] = &[
    ("a", "_", "a", true),
    ("_", "a", "a", true),
    ("_", "_", "b", true),
    ("_", "_", "a", false),
];

fn wins(alloc: Global, row: &Winner) -> Result<bool, AllocError> {
    let (committed, accepted, excluded, wins) = *row;
    let (accepted, excluded) = (list(alloc, accepted)?, list(alloc, excluded)?);
    Ok(may_win(id("a"), &config(committed), &accepted, &excluded) == wins)
}

#[test]
fn an_excluded_node_wins_only_where_it_is_a_voter(rt: HostRuntime) -> Result<(), Fail> {
    for (at, row) in WINNERS.iter().enumerate() {
        assert!(rt; wins(rt.alloc(), row)?, "row {at}");
    }
    Ok(())
}
