//! When a node takes the first configuration, by cases. The cases are those of docs/policy.md.
use crate::names::{config, id, set};
use bootstrap::*;
use std::test::*;

// The names, a node, whom it knows, whether it has a configuration, and whether it takes one.
type Row = (&'static str, &'static str, &'static str, bool, bool);

const NODES: &[Row] = &[
    ("a,b,c", "a", "_", false, false),
    ("a,b,c", "a", "b", false, true),
    ("a,b,c,d", "a", "b", false, false),
    ("a,b,c", "d", "a,b,c", false, false),
    ("a,b,c", "a", "b,c", true, false),
];

// Whether the node takes the names as its configuration, or takes none.
fn decides(row: &Row) -> bool {
    let (names, me, known, has_config, taken) = *row;
    match decide(&set(names), &set(known), id(me), has_config) {
        Some(taken_config) => taken && taken_config.is_same(&config(names)),
        None => !taken,
    }
}

#[test]
fn a_listed_node_that_knows_more_than_half_bootstraps(rt: HostRuntime) {
    for (at, row) in NODES.iter().enumerate() {
        assert!(rt; decides(row), "row {at}");
    }
}
