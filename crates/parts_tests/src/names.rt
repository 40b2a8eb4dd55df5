//! Ids, sets of them and configurations by their texts, which are right in each test.
use std::alloc::{AllocError, Global};
use voting_config::{IdList, JoinVotes, NodeId, NodeSet, VotingConfig};

pub(crate) fn id(text: &str) -> NodeId {
    NodeId::parse(text).unwrap_or_default()
}

/// The id `n` with the two digits of a number below 100.
pub(crate) fn numbered(number: u8) -> NodeId {
    NodeId::from_bytes(&[b'n', b'0' + number / 10 % 10, b'0' + number % 10]).unwrap_or_default()
}

// The first and the last id of an item of a list.
fn ends(item: &str) -> (NodeId, NodeId) {
    match item.split_once("..") {
        Some((first, last)) => (id(first), id(last)),
        None => (id(item), id(item)),
    }
}

// Puts in what an item of a list stands for. A row that lists too many ids fails by what it wants of the set.
fn put_item(ids: &mut NodeSet, item: &str) {
    let (first, last) = ends(item);
    ids.put_if_room(first);
    for number in 0..100 {
        let id = numbered(number);
        if first <= id && id <= last {
            ids.put_if_room(id);
        }
    }
}

fn put_items(text: &str) -> NodeSet {
    let mut ids = NodeSet::new();
    for item in text.split(',') {
        put_item(&mut ids, item);
    }
    ids
}

/// The set that a text lists, where an item `n01..n64` stands for the ids from n01 up to n64.
pub(crate) fn set(text: &str) -> NodeSet {
    match NodeSet::parse(text) {
        Some(ids) => ids,
        None => put_items(text),
    }
}

/// The same in memory of its own.
pub(crate) fn list(alloc: Global, text: &str) -> Result<IdList, AllocError> {
    IdList::of(alloc, &set(text))
}

/// The votes of these nodes.
pub(crate) fn votes(text: &str) -> JoinVotes {
    let mut votes = JoinVotes::new();
    for id in set(text).as_slice() {
        if votes.has_room(*id) {
            votes.add(*id);
        }
    }
    votes
}

pub(crate) fn config(text: &str) -> VotingConfig {
    VotingConfig::of(&set(text))
}
