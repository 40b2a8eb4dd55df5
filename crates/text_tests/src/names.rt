//! Ids by their texts.
use voting_config::{NodeId, NodeSet};

pub(crate) fn id(text: &str) -> NodeId {
    NodeId::parse(text).unwrap_or_default()
}

pub(crate) fn ids(texts: &[&str]) -> NodeSet {
    let mut ids = NodeSet::new();
    for text in texts {
        let _ = ids.insert(id(text));
    }
    ids
}
