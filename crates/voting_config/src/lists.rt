//! Sets of ids as texts, and how a text is cut.
ghost use Rattle.std.specs.Prelude.{◌≡◌, ◌+◌, ◌≤◌, ◌∷◌, ◌++◌, ◌==◌, [], length, position, Option, Some, None, if◌then◌else◌};
ghost use Rattle.voting_config.specs.Lists.{are_ids_after, left_in, may_follow, parts_in, parts_of, comma};

use crate::node_id::NodeId;
use crate::node_set::{MAX_IDS, NodeSet};

/// What stands before the first such byte, and what stands after it.
pub fn cut(bytes: &[u8], at: u8) -> (&[u8], Option<&[u8]>)
    ensures parts { parts_of at bytes.now ≡ result.0.now ∷ parts_in at result.1 }
    ensures shorter { left_in result.1 ≤ length bytes.now }
    ensures sizes { length bytes.now ≡ length result.0.now + left_in result.1 }
{
    match place_of(bytes, at) {
        None => (bytes, None),
        Some(place) => (&bytes[..place], Some(&bytes[place + 1..])),
    }
}

// The first place of a byte.
fn place_of(bytes: &[u8], wanted: u8) -> Option<usize>
    ensures { result ≡ position (λ b. b == wanted) bytes.now }
{
    bytes.iter().position(|b| *b == wanted)
}

// The set of the ids between commas.
pub(crate) fn read_ids(text: &[u8]) -> Option<NodeSet>
    ensures { result ≡ (if are_ids_after [] (parts_of comma text.now) then Some (parts_of comma text.now) else None) }
{
    let mut ids = NodeSet::new();
    let (mut item, mut rest) = cut(text, b',');
    while let Some(more) = rest {
        if !follows(&mut ids, item) {
            return None;
        }
        let next = cut(more, b',');
        item = next.0;
        rest = next.1;
    }
    if !follows(&mut ids, item) {
        return None;
    }
    Some(ids)
}

// Puts the id in, where it may follow those that are in.
fn follows(ids: &mut NodeSet, item: &[u8]) -> bool
    ensures may { result ≡ may_follow ids.old item.now }
    ensures put { ids.new ≡ (if result then ids.old ++ item.now ∷ [] else ids.old) }
{
    let Some(id) = NodeId::from_bytes(item) else {
        return false;
    };
    if ids.len() >= MAX_IDS {
        return false;
    }
    if !ids.comes_last(id) {
        return false;
    }
    ids.push(id);
    true
}
