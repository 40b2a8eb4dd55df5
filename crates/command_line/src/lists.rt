//! Lists by commas: of ids, and of peers with their addresses.
ghost use Rattle.std.specs.Prelude.{◌≡◌, map, IfOk};
ghost use Rattle.std.specs.List.{list_any};
ghost use Rattle.voting_config.specs.Ids.{same};
ghost use Rattle.voting_config.specs.Lists.{items_of};
ghost use Rattle.zen_host.specs.HostCalls.{told_peer};
ghost use Rattle.command_line.specs.Answers.{Gives, GivesBy};
ghost use Rattle.command_line.specs.Lists.{set_in, initial_of, up_of, peer_of, peers_in, peers_of, with_new_id, with_new_peer};

use crate::WordsError;
use crate::values::id;
use std::alloc::{AllocError, Global};
use voting_config::{NodeId, NodeSet};
use zen_link::Peer;

// What stands between the commas; `_` is nothing.
fn items(alloc: Global, text: &str) -> Result<Vec<&str>, AllocError>
    ensures { IfOk result (λ items. map (λ t. t.now) items.items ≡ items_of text.now) }
{
    if text == "_" {
        return Ok(Vec::new(alloc));
    }
    text.split(',').collect(alloc)
}

// The ids with one more, where the item is an id that is not in yet, and there is room for it.
fn with_id(ids: NodeSet, item: &str) -> Option<NodeSet>
    ensures { result ≡ with_new_id item.now ids }
{
    let mut ids = ids;
    let id = id(item)?;
    if !matches!(ids.insert(id), Ok(true)) {
        return None;
    }
    Some(ids)
}

fn set_of(items: &[&str]) -> Option<NodeSet>
    ensures { result ≡ set_in (map (λ t. t.now) items.now) }
{
    let mut ids = NodeSet::new();
    for item in items {
        ids = with_id(ids, item)?;
    }
    Some(ids)
}

/// The set of the ids that a text lists by commas, which may be `_` for none.
pub fn initial(alloc: Global, text: &str) -> Result<NodeSet, WordsError>
    ensures { Gives result (initial_of text.now) }
{
    let items = items(alloc, text)?;
    set_of(&items).ok_or(WordsError::Usage)
}

/// The set of the ids that a text lists by commas, which may not be `_`.
pub fn up(alloc: Global, text: &str) -> Result<NodeSet, WordsError>
    ensures { Gives result (up_of text.now) }
{
    let ids = initial(alloc, text)?;
    if ids.len() == 0 {
        return Err(WordsError::Usage);
    }
    Ok(ids)
}

fn peer(alloc: Global, item: &str) -> Result<Peer, WordsError>
    ensures { GivesBy told_peer result (peer_of item.now) }
{
    let Some((name, address)) = item.split_once('=') else {
        return Err(WordsError::Usage);
    };
    let id = id(name).ok_or(WordsError::Usage)?;
    if address.is_empty() {
        return Err(WordsError::Usage);
    }
    let address = String::from_str(alloc, address)?;
    Ok(Peer { id, address })
}

fn has_peer(peers: &[Peer], id: NodeId) -> bool
    ensures { result ≡ list_any (λ p. same p.id id) peers.now }
{
    for peer in peers {
        if peer.id == id {
            return true;
        }
    }
    false
}

// The peers with one more, where the item is a peer whose id is not in yet.
fn with_peer(alloc: Global, peers: Vec<Peer>, item: &str) -> Result<Vec<Peer>, WordsError>
    ensures { GivesBy (λ peers. map told_peer peers.items) result (with_new_peer item.now (map told_peer peers.items)) }
{
    let mut peers = peers;
    let peer = peer(alloc, item)?;
    if has_peer(&peers, peer.id) {
        return Err(WordsError::Usage);
    }
    let Ok(()) = peers.push(peer) else {
        return Err(WordsError::Memory);
    };
    Ok(peers)
}

fn peers_of_items(alloc: Global, items: &[&str]) -> Result<Vec<Peer>, WordsError>
    ensures { GivesBy (λ peers. map told_peer peers.items) result (peers_in (map (λ t. t.now) items.now)) }
{
    let mut peers = Vec::new(alloc);
    for item in items {
        peers = with_peer(alloc, peers, item)?;
    }
    Ok(peers)
}

/// The peers that a text lists by commas, each as `id=address`; it may be `_` for none.
pub fn peers(alloc: Global, text: &str) -> Result<Vec<Peer>, WordsError>
    ensures { GivesBy (λ peers. map told_peer peers.items) result (peers_of text.now) }
{
    let items = items(alloc, text)?;
    peers_of_items(alloc, &items)
}
