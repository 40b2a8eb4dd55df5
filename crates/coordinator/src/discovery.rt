//! How nodes find each other, and a master to join.
ghost use Rattle.std.specs.Prelude.{◌≡◌, ◌≤◌, ◌<◌, [], ◌∷◌, true, length, is_ok, IfOk};
ghost use Rattle.voting_config.specs.Ids.{most_ids, with_id};
ghost use Rattle.policy_model.specs.Events.{Notes, Met, Heard};
ghost use Rattle.policy_model.specs.Doing.{is_candidate as is_candidate_of, leader_of as leader_of_mode, then_rule};
ghost use Rattle.policy_model.specs.Discovery.{is_node as is_node_of, meets_first, asks_peers, answers_peers, on_peers_ask, seeks_master, hears_peer, on_peers_answer};
ghost use Rattle.policy_model.specs.Parts.{met};
ghost use Rattle.coordinator.specs.Asks.{ArePlannedAsks};
ghost use Rattle.coordinator.specs.Does.{Does, DoesAll};
ghost use Rattle.coordinator.specs.Rooms.{Uses, to_set};
ghost use Rattle.coordinator.specs.Views.{IsReady};

use crate::coordinator::{Acted, Coordinator, EventError};
use crate::output::{Listed, Output};
use crate::plan::ask_frames;
use peer_finder::PeerFinder;
use policy_model::Mode;
use state_journal::Keeper;
use std::alloc::{AllocError, Global};
use voting_config::{IdList, IdRoom, MAX_IDS, NodeId, NodeSet};
use wire_frames::{Frame, WireMessage};

/// Whether a node in this mode is a candidate.
pub(crate) fn is_candidate(mode: Mode) -> bool
    ensures { result ≡ is_candidate_of mode }
{
    match mode {
        Mode::Candidate => true,
        Mode::Leader | Mode::Follower(_) => false,
    }
}

/// The leader that a node in this mode knows.
pub(crate) fn leader_of(me: NodeId, mode: Mode) -> Option<NodeId>
    ensures { result ≡ leader_of_mode me mode }
{
    match mode {
        Mode::Candidate => None,
        Mode::Leader => Some(me),
        Mode::Follower(leader) => Some(leader),
    }
}

/// The set with one more id, for which there is room.
pub(crate) fn with(ids: NodeSet, id: NodeId) -> NodeSet
    requires { length ids < most_ids }
    ensures { result ≡ with_id id ids }
{
    let mut more = ids;
    // There is room, so this is no error.
    let _ = more.insert(id);
    more
}

// What a peer answers where it is asked for peers: the master that it knows, and its term.
#[derive(Clone, Copy)]
struct PeerAnswer {
    from: NodeId,
    master: Option<NodeId>,
    term: u64,
}

// Whether this node is the master.
fn is_node(master: Option<NodeId>, id: NodeId) -> bool
    ensures { result ≡ is_node_of master id }
{
    match master {
        None => false,
        Some(master) => master == id,
    }
}

// Nodes are met, in this order.
fn meet_all(finder: &mut PeerFinder, ids: &[NodeId])
    ensures { finder.new ≡ met finder.old ids.now }
{
    for id in ids {
        finder.add(*id);
    }
}

impl<K: Keeper> Coordinator<K> {
    // The listed peers are met, and then the members of the accepted value.
    pub(crate) fn meet_first(&mut self)
        ensures { (out : _) → Does K.Keeper self.old self.new out out meets_first true }
    {
        meet_all(&mut self.finder, self.settings.peers.as_slice());
        meet_all(
            &mut self.finder,
            self.core.accepted().value.members.as_slice(),
        );
    }

    /// The frames that ask all peers, where discovery is due.
    pub(crate) fn plan_asks(&self, alloc: Global) -> Result<Option<Listed<Frame>>, AllocError>
        ensures { IfOk result (λ asks. ArePlannedAsks self.now.settings.me self.now.finder self.now.moment asks) }
    {
        if !self.finder.is_due(self.moment) {
            return Ok(None);
        }
        let known = self.finder.known_set();
        let asks = ask_frames(alloc, self.settings.me, &known)?;
        Ok(Some(asks))
    }

    // Asks all peers with the frames that were made, where discovery is due.
    pub(crate) fn ask_peers(&mut self, out: &mut Output, asks: Option<Listed<Frame>>)
        requires asks { ArePlannedAsks self.old.settings.me self.old.finder self.old.moment asks }
        requires frames { to_set ≤ out.old.frames.room }
        ensures does { Does K.Keeper self.old self.new out.old out.new asks_peers true }
        ensures uses { Uses out.old out.new 0 to_set 0 }
    {
        match asks {
            None => {}
            Some(asks) => {
                self.finder.asked(self.moment);
                out.frames.append(asks);
            }
        }
    }

    // Who asks for peers is met, with those that it knows, and is answered with the leader, the term and all peers.
    pub(crate) fn on_peers_ask(
        &mut self,
        out: &mut Output,
        from: NodeId,
        known: &IdList,
    ) -> Result<(), EventError>
        requires frames { 1 ≤ out.old.frames.room }
        ensures does { DoesAll K.Keeper self.old self.new out.old out.new (λ s v. on_peers_ask s v from known.now) result }
    {
        let Ok(room) = IdRoom::of(out.alloc, MAX_IDS) else {
            return Err(EventError::Memory);
        };
        self.meet(from, known);
        self.answer_peers(out, from, room);
        Ok(())
    }

    // A node is met, and those that it knows.
    fn meet(&mut self, from: NodeId, known: &IdList)
        ensures does { (out : _) → Does K.Keeper self.old self.new out out (λ s v. Notes (Met (from ∷ known.now)) ∷ []) true }
        ensures rest { self.new ≡ record self.old { finder = self.new.finder } }
    {
        self.finder.add(from);
        meet_all(&mut self.finder, known.as_slice());
    }

    // A node is answered with the leader, the term and all peers, which take the room that was taken for them.
    fn answer_peers(&self, out: &mut Output, to: NodeId, room: IdRoom)
        requires room { most_ids ≤ room }
        requires frames { 1 ≤ out.old.frames.room }
        ensures does { Does K.Keeper self.now self.now out.old out.new (λ s v. answers_peers s v to) true }
        ensures uses { Uses out.old out.new 0 1 0 }
    {
        let me = self.settings.me;
        let known = with(self.finder.known_set(), me);
        // For the proof alone: a set has at most `MAX_IDS` ids.
        let _ = known.len();
        let answer = WireMessage::PeersAnswer {
            master: leader_of(me, self.mode),
            term: self.core.term(),
            known: room.fill(&known),
        };
        self.send(out, to, answer);
    }

    // A peer is met, and a candidate keeps its answer.
    fn take_peers_answer(&mut self, out: &mut Output, answer: &PeerAnswer, known: &IdList) -> Acted
        requires ready { IsReady self.old }
        requires deeds { 2 ≤ out.old.deeds.room }
        requires frames { 1 ≤ out.old.frames.room }
        requires replies { length self.old.tasks.waiting ≤ out.old.replies.room }
        ensures does { Does K.Keeper self.old self.new out.old out.new
            (λ s v. on_peers_answer s v answer.now.from answer.now.master answer.now.term known.now) (is_ok result) }
    {
        self.meet(answer.from, known);
        self.hear_peer(out, answer)
    }

    /// A peer answers with the master that it knows, its term and its peers. A candidate that hears of a master from that
    /// master joins it.
    pub(crate) fn on_peers_answer(
        &mut self,
        out: &mut Output,
        from: NodeId,
        master: &Option<NodeId>,
        term: u64,
        known: &IdList,
    ) -> Result<(), EventError>
        requires ready { IsReady self.old }
        requires deeds { 2 ≤ out.old.deeds.room }
        requires frames { 1 ≤ out.old.frames.room }
        ensures does { DoesAll K.Keeper self.old self.new out.old out.new (λ s v. on_peers_answer s v from master.now term known.now)
            result }
    {
        let Ok(()) = out.make_room(self.tasks.open_count(), &None) else {
            return Err(EventError::Memory);
        };
        let answer = PeerAnswer {
            from,
            master: *master,
            term,
        };
        match self.take_peers_answer(out, &answer, known) {
            Ok(()) => Ok(()),
            Err(_) => Err(EventError::Struck),
        }
    }

    // A candidate keeps a peer's answer.
    fn hear_peer(&mut self, out: &mut Output, answer: &PeerAnswer) -> Acted
        requires ready { IsReady self.old }
        requires deeds { 2 ≤ out.old.deeds.room }
        requires frames { 1 ≤ out.old.frames.room }
        requires replies { length self.old.tasks.waiting ≤ out.old.replies.room }
        ensures does { Does K.Keeper self.old self.new out.old out.new
            (λ s v. hears_peer s v answer.now.from answer.now.master answer.now.term) (is_ok result) }
        ensures uses { Uses out.old out.new 2 1 (length self.old.tasks.waiting) }
    {
        if is_candidate(self.mode) {
            self.join_master(out, answer)
        } else {
            Ok(())
        }
    }

    fn join_master(&mut self, out: &mut Output, answer: &PeerAnswer) -> Acted
        requires ready { IsReady self.old }
        requires deeds { 2 ≤ out.old.deeds.room }
        requires frames { 1 ≤ out.old.frames.room }
        requires replies { length self.old.tasks.waiting ≤ out.old.replies.room }
        ensures does { Does K.Keeper self.old self.new out.old out.new
            (λ s v. then_rule s v (Notes (Heard answer.now.from answer.now.master) ∷ [])
            (λ u. seeks_master s u answer.now.from answer.now.master answer.now.term)) (is_ok result) }
        ensures uses { Uses out.old out.new 2 1 (length self.old.tasks.waiting) }
    {
        self.hear(answer.from, &answer.master);
        self.seek_master(out, answer)
    }

    // A peer answers with the master that it knows.
    fn hear(&mut self, from: NodeId, master: &Option<NodeId>)
        ensures does { (out : _) → Does K.Keeper self.old self.new out out (λ s v. Notes (Heard from master.now) ∷ []) true }
        ensures rest { self.new ≡ record self.old { finder = self.new.finder } }
    {
        self.finder.answered(from, *master);
    }

    // A master is joined: at once where its term is greater, else it is asked for a join.
    fn seek_master(&mut self, out: &mut Output, answer: &PeerAnswer) -> Acted
        requires ready { IsReady self.old }
        requires deeds { 2 ≤ out.old.deeds.room }
        requires frames { 1 ≤ out.old.frames.room }
        requires replies { length self.old.tasks.waiting ≤ out.old.replies.room }
        ensures does { Does K.Keeper self.old self.new out.old out.new
            (λ s v. seeks_master s v answer.now.from answer.now.master answer.now.term) (is_ok result) }
        ensures uses { Uses out.old out.new 2 1 (length self.old.tasks.waiting) }
    {
        if !is_node(answer.master, answer.from) {
            return Ok(());
        }
        let current = self.core.term();
        if current < answer.term {
            return self.start_join(out, answer.from, answer.term);
        }
        self.send(out, answer.from, WireMessage::JoinAsk { term: current });
        Ok(())
    }
}
