//! `Auditor`: what all nodes are after the entries so far, and whether the next one is legal.
ghost use Rattle.std.specs.Prelude.{◌≡◌, ◌↔◌, IsTrue, IfOk, OnOk, [], List};
ghost use Rattle.voting_config.specs.Ids.{Id};
ghost use Rattle.std.specs.Prelude.{false};
ghost use Rattle.world_model.specs.declared.acts.Act.TheVariants as act;
ghost use Rattle.world_model.specs.declared.acts.ActReply.TheVariants as answer;
ghost use Rattle.world_model.specs.declared.acts.Message.{Message as TheMessage};
ghost use Rattle.world_model.specs.declared.acts.Outcome.TheVariants.{Answered};
ghost use Rattle.world_model.specs.Acts.{NodeHistory, is_opening, wins as wins_by};
ghost use Rattle.world_model.specs.Histories.{History, NoEntries};
ghost use Rattle.world_model.specs.Replies.{is_taken as is_taken_of, writes as writes_of};
ghost use Rattle.recorded_trace.specs.declared.entry.Entry.TheVariants.{Acted, Recorded};
ghost use Rattle.trace_audit.specs.declared.auditor.Stop.TheVariants.{Memory as OutOfMemory};
ghost use Rattle.trace_audit.specs.Clauses.{NamesInitial, WasSent, message_of};
ghost use Rattle.trace_audit.specs.Traced.{with_entry};
ghost use Rattle.trace_audit.specs.Places.{IsSentOf};
ghost use Rattle.trace_audit.specs.Stands.{AllStand, OthersStand, Audits, Takes};
ghost use Rattle.node_audit.specs.Standing.{Stands, MayEnd};
ghost use Rattle.recorded_trace.specs.Entries.{IsEntry};

use crate::clause::Clause;
use crate::notes::Notes;
use crate::sent::SentMessages;
use cluster_state::{Kept, PublishRequest};
use node_audit::{Node, shows_as};
use recorded_trace::Entry;
use std::alloc::{AllocError, Global};
use std::collections::BTreeMap;
use trace_text::Ending;
use voting_config::{IdList, NodeId, NodeSet, VotingConfig};
use world_model::{Act, ActReply, Cause, Message};

/// Why an entry was not taken.
#[derive(Clone, Copy, Debug, PartialEq, Eq)]
pub enum Stop {
    /// It is not legal: the first clause that it breaks.
    Broken(Clause),
    Memory,
}

impl From<AllocError> for Stop {
    ghost from_gives = { λ _ e. e ≡ OutOfMemory };

    fn from(_e: AllocError) -> Stop {
        Stop::Memory
    }
}

/// What all nodes are after entries that are a legal history.
#[derive(Drop)]
pub struct Auditor {
    pub alloc: Global,
    pub initial: NodeSet,
    pub nodes: BTreeMap<NodeId, Node>,
    pub notes: Notes,
}

// The message that an act takes.
fn message_taken(act: &Act) -> Result<Option<Message>, AllocError>
    ensures { IfOk result (λ m. m ≡ message_of act.now) }
{
    match act {
        Act::TakeJoin(join) => Ok(Some(Message::Join(*join))),
        Act::Publish(request) => {
            let state = request.state.share()?;
            Ok(Some(Message::Publish(PublishRequest {
                source: request.source,
                state,
            })))
        }
        Act::Response(response) => Ok(Some(Message::Response(*response))),
        Act::Commit(commit) => Ok(Some(Message::Commit(*commit))),
        Act::Bootstrap(_) => Ok(None),
        Act::StartJoin(_, _) => Ok(None),
        Act::Value(_, _, _) => Ok(None),
        Act::Open(_) => Ok(None),
    }
}

// Whether the message that an act takes was sent.
fn was_sent(sent: &SentMessages, act: &Act) -> Result<bool, AllocError>
    ensures { IfOk result (λ b. (messages : List TheMessage) → IsSentOf sent.now messages → IsTrue b ↔ WasSent messages act.now) }
{
    let Some(message) = message_taken(act)? else {
        return Ok(true);
    };
    sent.contains(&message)
}

// Whether the act writes to the disk.
fn writes(act: &Act) -> bool
    ensures { result ≡ writes_of act.now }
{
    match act {
        Act::Bootstrap(_) => true,
        Act::StartJoin(_, _) => true,
        Act::Publish(_) => true,
        Act::Commit(_) => true,
        Act::TakeJoin(_) => false,
        Act::Value(_, _, _) => false,
        Act::Response(_) => false,
        Act::Open(_) => false,
    }
}

fn is_taken(reply: &ActReply) -> bool
    ensures { result ≡ is_taken_of reply.now }
{
    match reply {
        ActReply::Taken(_, _) => true,
        ActReply::Refused(_) => false,
        ActReply::Stopped => false,
    }
}

fn wins(reply: &ActReply) -> bool
    ensures { result ≡ wins_by (Answered reply.now) }
{
    match reply {
        ActReply::Taken(_, wins) => *wins,
        ActReply::Refused(_) => false,
        ActReply::Stopped => false,
    }
}

fn is_same_cause(a: Cause, b: Cause) -> bool
    ensures { IsTrue result ↔ (a ≡ b) }
{
    a == b
}

fn is_refused(reply: &ActReply, cause: Cause) -> bool
    ensures { IsTrue result ↔ (reply.now ≡ answer.Refused cause) }
{
    match reply {
        ActReply::Refused(given) => is_same_cause(*given, cause),
        ActReply::Taken(_, _) => false,
        ActReply::Stopped => false,
    }
}

fn is_stopped(reply: &ActReply) -> bool
    ensures { IsTrue result ↔ (reply.now ≡ answer.Stopped) }
{
    match reply {
        ActReply::Stopped => true,
        ActReply::Taken(_, _) => false,
        ActReply::Refused(_) => false,
    }
}

// Whether an act of a node may end so, to which the node's reply is this.
fn may_end(reply: &ActReply, act: &Act, ending: Ending) -> bool
    ensures { IsTrue result ↔ MayEnd reply.now act.now ending }
{
    match ending {
        Ending::Taken => is_taken(reply),
        Ending::Refused(cause) => is_refused(reply, cause),
        Ending::Stopped => is_stopped(reply),
        Ending::Disk => is_taken(reply) && writes(act),
        Ending::Crashed => is_taken(reply) && writes(act),
    }
}

// Whether a configuration is the initial one.
fn is_initial(initial: &NodeSet, config: &IdList) -> bool
    ensures { IsTrue result ↔ NamesInitial initial.now (act.Bootstrap config.now) }
{
    VotingConfig::of(initial).is_same_list(config) && !config.is_empty()
}

// Whether a bootstrap names the initial configuration.
fn names_initial(initial: &NodeSet, act: &Act) -> bool
    ensures { IsTrue result ↔ NamesInitial initial.now act.now }
{
    match act {
        Act::Bootstrap(config) => is_initial(initial, config),
        Act::StartJoin(_, _) => true,
        Act::TakeJoin(_) => true,
        Act::Value(_, _, _) => true,
        Act::Publish(_) => true,
        Act::Response(_) => true,
        Act::Commit(_) => true,
        Act::Open(_) => true,
    }
}

// The node, taken out of the others.
fn take_out(
    alloc: Global,
    nodes: &mut BTreeMap<NodeId, Node>,
    id: NodeId,
) -> Result<Node, AllocError>
    ensures node { (acts : Id → NodeHistory) → AllStand nodes.old acts → IfOk result (λ n. Stands n (acts id)) }
    ensures others { (acts : Id → NodeHistory) → AllStand nodes.old acts → OthersStand id nodes.new acts }
{
    match nodes.remove(&id) {
        Some(node) => Ok(node),
        None => Node::fresh(alloc),
    }
}

fn put_back(nodes: &mut BTreeMap<NodeId, Node>, id: NodeId, node: Node) -> Result<(), AllocError>
    ensures { (acts : Id → NodeHistory) → OthersStand id nodes.old acts → Stands node (acts id) → OnOk result (AllStand nodes.new acts) }
{
    drop(nodes.insert(id, node)?);
    Ok(())
}

impl Auditor {
    /// Before any entry, where this is the initial configuration.
    pub fn new(alloc: Global, initial: NodeSet) -> Auditor
        ensures { Audits initial result NoEntries }
    {
        Auditor {
            alloc,
            initial,
            nodes: BTreeMap::new(alloc),
            notes: Notes::new(alloc),
        }
    }

    fn acted(&mut self, id: NodeId, ending: Ending, act: &Act) -> Result<(), Stop>
        requires { is_opening act.now ≡ false }
        ensures { (initial : List Id) (h : History) → Audits initial self.old h
            → Takes initial self.new result (with_entry h (Acted id ending act.now)) }
    {
        let node = take_out(self.alloc, &mut self.nodes, id)?;
        if node.is_down() {
            return Err(Stop::Broken(Clause::Opening));
        }
        if !names_initial(&self.initial, act) {
            return Err(Stop::Broken(Clause::Bootstrap));
        }
        if !was_sent(&self.notes.sent, act)? {
            return Err(Stop::Broken(Clause::Unsent));
        }
        let reply = node.reply(self.alloc, id, act)?;
        if !may_end(&reply, act, ending) {
            return Err(Stop::Broken(Clause::Outcome));
        }
        let term = node.term();
        let node = node.ended(self.alloc, act, wins(&reply), ending)?;
        self.notes.add(id, term, reply, ending)?;
        put_back(&mut self.nodes, id, node)?;
        Ok(())
    }

    fn recorded(&mut self, id: NodeId, shown: &Kept) -> Result<(), Stop>
        ensures { (initial : List Id) (h : History) → Audits initial self.old h
            → Takes initial self.new result (with_entry h (Recorded id shown.now)) }
    {
        let node = take_out(self.alloc, &mut self.nodes, id)?;
        let kept = node.found(shown)?;
        if !shows_as(shown, &kept) {
            return Err(Stop::Broken(Clause::Opening));
        }
        let node = Node::opened(self.alloc, kept)?;
        put_back(&mut self.nodes, id, node)?;
        Ok(())
    }

    /// Takes one more entry, where it is legal.
    pub fn take(&mut self, entry: &Entry) -> Result<(), Stop>
        requires { IsEntry entry.now }
        ensures { (initial : List Id) (h : History) → Audits initial self.old h → Takes initial self.new result (with_entry h entry.now) }
    {
        match entry {
            Entry::Acted(id, ending, act) => self.acted(*id, *ending, act),
            Entry::Recorded(id, shown) => self.recorded(*id, shown.kept()),
        }
    }

    /// What was noted.
    pub fn into_notes(self) -> Notes
        ensures { result ≡ self.notes }
    {
        self.notes
    }
}
