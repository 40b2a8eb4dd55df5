//! Finding peers: the nodes that a node has met, what they answered, and when they are asked again.
#![tactic(auto)]

ghost use Rattle.std.specs.Prelude.{◌≡◌, ◌+◌, ◌<◌, ◌≤◌, length, filter, map, nat_le};
ghost use Rattle.voting_config.specs.Ids.{set_of};
ghost use Rattle.peer_finder.specs.declared.Peer.{Peer as PeerOf};
ghost use Rattle.peer_finder.specs.Peers.{with_answer as with_answer_of, without_answer as without_answer_of, unanswered as unanswered_of, answer_in, ids_of as ids_in, is_free as is_free_of};
ghost use Rattle.peer_finder.specs.Choices.{is_chosen as is_chosen_of};

use arrayvec::ArrayVec;
use election_clock::has_passed;
use std::marker::Model;
use voting_config::{NodeId, NodeSet};

/// How many peers are known at most.
pub const MAX_PEERS: usize = 63;

/// `discovery.find_peers_interval`, in ms: how long after peers were asked they are asked again. 1 s by default
/// (Elasticsearch reference 7.x, Discovery and cluster formation settings).
pub const FIND_PEERS_INTERVAL_MS: u64 = 1_000;

/// What a peer answered last.
#[derive(Clone, Copy)]
pub struct Found {
    /// The master that it knows.
    pub master: Option<NodeId>,
}

/// A node that is known, and its last answer.
#[derive(Clone, Copy, Default)]
pub struct Peer {
    pub id: NodeId,
    pub answer: Option<Found>,
}

/// The nodes that a node has met, in order of discovery: at most [`MAX_PEERS`], and never the node itself. Seen as
/// what the calls so far make of it.
#[derive(Drop)]
pub struct PeerFinder {
    me: NodeId,
    known: ArrayVec<NodeId, MAX_PEERS>,
    peers: ArrayVec<Peer, MAX_PEERS>,
    // Discovery is due this long after this moment.
    since: u64,
    wait: u64,
}

impl Model for PeerFinder {
    ghost use Rattle.std.specs.Prelude.{◌≡◌, ◌+◌};
    ghost use Rattle.peer_finder.specs.Peers.{PeerFinder as PeerFinderOf, ids_of};

    ghost Value = { PeerFinderOf };

    ghost view = { λ f. record { me = f.me; peers = f.peers.items; due = f.since + f.wait } };

    ghost invariant = { λ f. f.known.items ≡ ids_of f.peers.items };
}

impl PeerFinder {
    ghost use Rattle.peer_finder.specs.Peers.{
      Calls,
      Started,
      Then,
      Added,
      Asked,
      Answered,
      Forgotten,
      AnswersForgotten,
      Disconnected,
      Held,
      StandsFor,
      after,
      known_of,
      answer_of,
      known_set as known_set_of,
      answered_set as answered_set_of,
      free_set as free_set_of,
      to_ask,
    };

    /// A node that has met nobody yet. Discovery is due from the start.
    pub fn new(me: NodeId) -> PeerFinder
        ensures { StandsFor result (Started me) }
    {
        PeerFinder {
            me,
            known: ArrayVec::new(),
            peers: ArrayVec::new(),
            since: 0,
            wait: 0,
        }
    }

    /// A node is met. It becomes a peer, the last one, unless it is the node itself, is known, or
    /// [`MAX_PEERS`] others are known.
    pub fn add(&mut self, id: NodeId)
        ensures now { self.new ≡ after self.old (Added id) }
        ensures calls { (calls : Calls) → StandsFor self.old calls → StandsFor self.new (Then calls (Added id)) }
    {
        if id == self.me || self.known.as_slice().contains(&id) || self.known.is_full() {
            return;
        }
        self.known.push(id);
        self.peers.push(Peer { id, answer: None });
    }

    /// The peers are asked now, in ms: discovery is next due [`FIND_PEERS_INTERVAL_MS`] from now.
    pub fn asked(&mut self, now: u64)
        ensures now { self.new ≡ after self.old (Asked now) }
        ensures calls { (calls : Calls) → StandsFor self.old calls → StandsFor self.new (Then calls (Asked now)) }
    {
        self.since = now;
        self.wait = FIND_PEERS_INTERVAL_MS;
    }

    /// A node answers with the master that it knows. Nothing changes where it isn't known.
    pub fn answered(&mut self, id: NodeId, master: Option<NodeId>)
        ensures now { self.new ≡ after self.old (Answered id master) }
        ensures calls { (calls : Calls) → StandsFor self.old calls → StandsFor self.new (Then calls (Answered id master)) }
    {
        answer_all(self.peers.as_mut_slice(), id, master);
    }

    /// A node is a peer no more. The others keep their order.
    pub fn forget(&mut self, id: NodeId)
        ensures now { self.new ≡ after self.old (Forgotten id) }
        ensures calls { (calls : Calls) → StandsFor self.old calls → StandsFor self.new (Then calls (Forgotten id)) }
    {
        self.peers = chosen(self.peers.as_slice(), Choice::Other(id));
        self.known = ids_of(self.peers.as_slice());
    }

    /// The node becomes a candidate: the answers of all peers are forgotten, and discovery is due now, in ms.
    pub fn forget_answers(&mut self, now: u64)
        ensures now { self.new ≡ after self.old (AnswersForgotten now) }
        ensures calls { (calls : Calls) → StandsFor self.old calls → StandsFor self.new (Then calls (AnswersForgotten now)) }
    {
        forget_all(self.peers.as_mut_slice());
        self.since = now;
        self.wait = 0;
    }

    /// The connection to a node has ended: its answer is forgotten, and discovery is due now, in ms.
    pub fn disconnected(&mut self, id: NodeId, now: u64)
        ensures now { self.new ≡ after self.old (Disconnected id now) }
        ensures calls { (calls : Calls) → StandsFor self.old calls → StandsFor self.new (Then calls (Disconnected id now)) }
    {
        forget_one(self.peers.as_mut_slice(), id);
        self.since = now;
        self.wait = 0;
    }

    /// Peers are not to be asked for some time from now, in ms.
    pub fn hold(&mut self, now: u64, wait: u64)
        ensures now { self.new ≡ after self.old (Held now wait) }
        ensures calls { (calls : Calls) → StandsFor self.old calls → StandsFor self.new (Then calls (Held now wait)) }
    {
        self.since = now;
        self.wait = wait;
    }

    /// The last answer of a peer since it became known, and None where it has not answered or isn't known.
    pub fn found(&self, id: NodeId) -> Option<Found>
        ensures now { result ≡ answer_in self.now.peers id }
        ensures calls { (calls : Calls) → StandsFor self.now calls → result ≡ answer_of calls id }
    {
        answer_among(self.peers.as_slice(), id)
    }

    /// The peers in order of discovery.
    pub fn known(&self) -> &[NodeId]
        ensures now { result.now ≡ ids_in self.now.peers }
        ensures calls { (calls : Calls) → StandsFor self.now calls → result.now ≡ known_of calls }
    {
        self.known.as_slice()
    }

    /// The peers.
    pub fn known_set(&self) -> NodeSet
        ensures value { result ≡ known_set_of self.now }
        ensures few { length result ≤ MAX_PEERS }
    {
        NodeSet::of(self.known.as_slice())
    }

    /// The peers that have answered.
    pub fn answered_set(&self) -> NodeSet
        ensures value { result ≡ answered_set_of self.now }
        ensures few { length result ≤ MAX_PEERS }
    {
        set_chosen(self.peers.as_slice(), Choice::Answered)
    }

    /// The peers whose last answer names no master.
    pub fn free_set(&self) -> NodeSet
        ensures value { result ≡ free_set_of self.now }
        ensures few { length result ≤ MAX_PEERS }
    {
        set_chosen(self.peers.as_slice(), Choice::Free)
    }

    /// Whether discovery is due now, in ms.
    pub fn is_due(&self, now: u64) -> bool
        ensures { result ≡ nat_le self.now.due now }
    {
        has_passed(self.since, self.wait, now)
    }

    /// Whom to ask now, in ms: the peers where discovery is due, else nobody.
    pub fn tick(&self, now: u64) -> NodeSet
        ensures { result ≡ to_ask self.now now }
    {
        if self.is_due(now) {
            self.known_set()
        } else {
            NodeSet::new()
        }
    }
}

// Which peers are chosen.
#[derive(Clone, Copy)]
enum Choice {
    Other(NodeId),
    Answered,
    Free,
}

fn is_chosen(choice: &Choice, peer: &Peer) -> bool
    ensures { result ≡ is_chosen_of choice.now peer.now }
{
    match choice {
        Choice::Other(id) => peer.id != *id,
        Choice::Answered => peer.answer.is_some(),
        Choice::Free => is_free(peer.answer),
    }
}

fn is_free(answer: Option<Found>) -> bool
    ensures { result ≡ is_free_of answer }
{
    match answer {
        None => false,
        Some(found) => found.master.is_none(),
    }
}

fn with_answer(peer: Peer, id: NodeId, master: &Option<NodeId>) -> Peer
    ensures { result ≡ with_answer_of id master.now peer }
{
    if peer.id == id {
        Peer {
            id: peer.id,
            answer: Some(Found { master: *master }),
        }
    } else {
        peer
    }
}

fn answer_all(peers: &mut [Peer], id: NodeId, master: Option<NodeId>)
    ensures { peers.new ≡ map (λ (p : PeerOf). with_answer_of id master p) peers.old }
{
    for peer in peers {
        *peer = with_answer(*peer, id, &master);
    }
}

fn without_answer(peer: Peer) -> Peer
    ensures { result ≡ without_answer_of peer }
{
    Peer {
        id: peer.id,
        answer: None,
    }
}

fn forget_all(peers: &mut [Peer])
    ensures { peers.new ≡ map (λ (p : PeerOf). without_answer_of p) peers.old }
{
    for peer in peers {
        *peer = without_answer(*peer);
    }
}

fn unanswered(peer: Peer, id: NodeId) -> Peer
    ensures { result ≡ unanswered_of id peer }
{
    if peer.id == id {
        without_answer(peer)
    } else {
        peer
    }
}

fn forget_one(peers: &mut [Peer], id: NodeId)
    ensures { peers.new ≡ map (λ (p : PeerOf). unanswered_of id p) peers.old }
{
    for peer in peers {
        *peer = unanswered(*peer, id);
    }
}

fn answer_among(peers: &[Peer], id: NodeId) -> Option<Found>
    ensures { result ≡ answer_in peers.now id }
{
    for peer in peers {
        if peer.id == id {
            return peer.answer;
        }
    }
    None
}

fn chosen(peers: &[Peer], choice: Choice) -> ArrayVec<Peer, MAX_PEERS>
    requires { length peers.now ≤ MAX_PEERS }
    ensures { result.items ≡ filter (λ (p : PeerOf). is_chosen_of choice p) peers.now }
{
    let mut kept = ArrayVec::new();
    for peer in peers {
        if is_chosen(&choice, peer) {
            kept.push(*peer);
        }
    }
    kept
}

fn ids_of(peers: &[Peer]) -> ArrayVec<NodeId, MAX_PEERS>
    requires { length peers.now ≤ MAX_PEERS }
    ensures { result.items ≡ ids_in peers.now }
{
    let mut ids = ArrayVec::new();
    for peer in peers {
        ids.push(peer.id);
    }
    ids
}

fn set_chosen(peers: &[Peer], choice: Choice) -> NodeSet
    requires { length peers.now ≤ MAX_PEERS }
    ensures value { result ≡ set_of (ids_in (filter (λ (p : PeerOf). is_chosen_of choice p) peers.now)) }
    ensures few { length result ≤ MAX_PEERS }
{
    let kept = chosen(peers, choice);
    let ids = ids_of(kept.as_slice());
    NodeSet::of(ids.as_slice())
}
