//! `Replayer`: the nodes of a schedule of level core, and the messages that they have sent.
ghost use Rattle.std.specs.Prelude.{◌≡◌, ◌<◌, ◌≤◌, ◌++◌, OnOk, IfOk, ℕ, List, [], None, true, length};
ghost use Rattle.voting_config.specs.Ids.{Id, has};
ghost use Rattle.world_model.specs.declared.acts.Act.{Act};
ghost use Rattle.world_model.specs.declared.acts.Act.TheVariants as act;
ghost use Rattle.schedule_text.specs.declared.level.Level.TheVariants.{Core};
ghost use Rattle.schedule_text.specs.Lines.{FitsLine};
ghost use Rattle.replay_node.specs.Did.{did_text, outcome_of};
ghost use Rattle.replay_node.specs.NodeLines.{restart_text, stop_text};
ghost use Rattle.replay_node.specs.Sent.{some_message, sent_some};
ghost use Rattle.replay_node.specs.Stands.{NodeStands};
ghost use Rattle.replay_node.specs.Worlds.{World, crashed, did_unless_down, fresh_world, node_world, ordered, restarted};
ghost use Rattle.schedule_replay.specs.Replayed.{after, message_at, took_some, value_with};
ghost use Rattle.schedule_replay.specs.Trace.{delivery_results, line_results, results_of};
ghost use Rattle.schedule_replay.specs.WorldStands.{AllStand, DeliversNothing, Stands, DoesLine, WritesLine};

use crate::places::place_of;
use cluster_state::ClusterValue;
use replay_node::{Did, ReplayNode, SentMessage, SentMessages, write_delivery, write_did};
use schedule_text::{Line, Schedule, SettingText, write_echo};
use std::alloc::{AllocError, Global};
use text::Text;
use trace_text::{write_boot, write_down_line, write_start_join, write_value};
use voting_config::{IdList, NodeId, NodeSet};
use zen_disk::{Order, Way};

/// The nodes of a schedule, and the messages that they have sent.
#[derive(Drop)]
pub struct Replayer {
    pub nodes: Vec<ReplayNode>,
    pub sent: SentMessages,
    // The act in hand, as the trace shows it.
    act: Text,
}

impl Replayer {
    /// Nodes that have done nothing yet.
    pub fn new(alloc: Global, ids: &NodeSet) -> Result<Replayer, AllocError>
        ensures { IfOk result (λ r. Stands ids.now r.nodes.items r.sent fresh_world) }
    {
        let nodes = fresh_nodes(alloc, ids.as_slice())?;
        // For the proof alone: a set ascends and has 64 ids at most.
        let _ = ids.len();
        Ok(Replayer {
            nodes,
            sent: SentMessages::new(alloc),
            act: Text::new(alloc),
        })
    }

    /// Does a line of level core, and writes its part of the trace at the end of `text`.
    // A call for each line costs as much as a line that sends nothing, so this and what it calls for such lines is inlined.
    #[inline(always)]
    pub fn line(
        &mut self,
        alloc: Global,
        schedule: &Schedule,
        line: &Line,
        text: &mut Text,
    ) -> Result<(), AllocError>
        requires fits { FitsLine Core schedule.now.nodes line.now }
        requires stands { (w : World) × Stands schedule.now.nodes self.old.nodes.items self.old.sent w }
        ensures done { OnOk result
            (WritesLine schedule.now.nodes schedule.now.initial self.old.nodes.items self.new.nodes.items self.old.sent
            self.new.sent text.old text.new line.now) }
    {
        write_echo(text, line)?;
        if let Line::Deliver(n, ordinal) = line {
            return self.deliver(alloc, &schedule.nodes, n, *ordinal, text);
        }
        self.other_line(alloc, schedule, line, text)
    }

    // Does a line that delivers nothing, and writes what stands after its echo. It stands apart, so that a delivery has no copies of its
    // arguments to clear.
    fn other_line(
        &mut self,
        alloc: Global,
        schedule: &Schedule,
        line: &Line,
        text: &mut Text,
    ) -> Result<(), AllocError>
        requires fits { FitsLine Core schedule.now.nodes line.now }
        requires other { DeliversNothing line.now }
        requires stands { (w : World) × Stands schedule.now.nodes self.old.nodes.items self.old.sent w }
        ensures done { OnOk result
            (DoesLine schedule.now.nodes self.old.nodes.items self.new.nodes.items self.old.sent self.new.sent text.old text.new
            (λ w. after schedule.now.initial w line.now) (λ w. line_results schedule.now.initial w line.now)) }
    {
        let ids = &schedule.nodes;
        match line {
            Line::Boot(n) => self.set_initial(alloc, ids, &schedule.initial, *n, text)?,
            Line::StartJoin(n, candidate, term) => {
                self.start_join(alloc, ids, *n, candidate.get(), *term, text)?
            }
            Line::Value(n, version, setting, config) => {
                self.client_value(alloc, ids, *n, *version, setting.get(), config.lend(), text)?
            }
            Line::Deliver(_, _) => unreachable!(),
            Line::Crash(n, way) => self.crash(alloc, ids, *n, *way, text)?,
            Line::Restart(n) => self.restart(alloc, ids, *n, text)?,
            Line::Fuse(n, count, way) => self.arm(ids, *n, Order::Stop(*count, *way)),
            Line::Fail(n, count) => self.arm(ids, *n, Order::Fault(*count)),
            // No line of level core.
            Line::Tick(_, _, _) => (),
            Line::Client(_, _) => (),
            Line::Disconnect(_, _) => (),
        }
        Ok(())
    }

    fn crash(
        &mut self,
        alloc: Global,
        ids: &NodeSet,
        n: NodeId,
        way: Way,
        text: &mut Text,
    ) -> Result<(), AllocError>
        requires listed { has n ids.now ≡ true }
        requires stands { (w : World) × Stands ids.now self.old.nodes.items self.old.sent w }
        ensures done { OnOk result
            (DoesLine ids.now self.old.nodes.items self.new.nodes.items self.old.sent self.new.sent text.old text.new
            (λ w. crashed w n way) (λ w. stop_text n (node_world w n))) }
    {
        let place = place_of(ids.as_slice(), n);
        let nodes = self.nodes.as_mut_slice();
        nodes[place].crash(alloc, way, text)
    }

    fn restart(
        &mut self,
        alloc: Global,
        ids: &NodeSet,
        n: NodeId,
        text: &mut Text,
    ) -> Result<(), AllocError>
        requires listed { has n ids.now ≡ true }
        requires stands { (w : World) × Stands ids.now self.old.nodes.items self.old.sent w }
        ensures done { OnOk result
            (DoesLine ids.now self.old.nodes.items self.new.nodes.items self.old.sent self.new.sent text.old text.new
            (λ w. restarted w n) (λ w. restart_text n (node_world w n))) }
    {
        let place = place_of(ids.as_slice(), n);
        let nodes = self.nodes.as_mut_slice();
        nodes[place].restart(alloc, text)
    }

    fn arm(&mut self, ids: &NodeSet, n: NodeId, order: Order)
        requires listed { has n ids.now ≡ true }
        requires stands { (w : World) × Stands ids.now self.old.nodes.items self.old.sent w }
        ensures done { (text : List ℕ)
            → DoesLine ids.now self.old.nodes.items self.new.nodes.items self.old.sent self.new.sent text text
            (λ w. ordered w n order) (λ w. []) }
    {
        let place = place_of(ids.as_slice(), n);
        let nodes = self.nodes.as_mut_slice();
        nodes[place].arm(order);
    }

    fn set_initial(
        &mut self,
        alloc: Global,
        ids: &NodeSet,
        initial: &NodeSet,
        n: NodeId,
        text: &mut Text,
    ) -> Result<(), AllocError>
        requires listed { has n ids.now ≡ true }
        requires stands { (w : World) × Stands ids.now self.old.nodes.items self.old.sent w }
        ensures done { OnOk result
            (DoesLine ids.now self.old.nodes.items self.new.nodes.items self.old.sent self.new.sent text.old text.new
            (λ w. did_unless_down w n (act.Bootstrap initial.now)) (λ w. results_of w n (act.Bootstrap initial.now))) }
    {
        self.act.clear();
        write_boot(&mut self.act, initial.as_slice())?;
        let place = place_of(ids.as_slice(), n);
        let nodes = self.nodes.as_mut_slice();
        let did = nodes[place].set_initial(alloc, initial)?;
        self.finish(n, &did, text)
    }

    fn start_join(
        &mut self,
        alloc: Global,
        ids: &NodeSet,
        n: NodeId,
        candidate: NodeId,
        term: u64,
        text: &mut Text,
    ) -> Result<(), AllocError>
        requires listed { has n ids.now ≡ true }
        requires stands { (w : World) × Stands ids.now self.old.nodes.items self.old.sent w }
        ensures done { OnOk result
            (DoesLine ids.now self.old.nodes.items self.new.nodes.items self.old.sent self.new.sent text.old text.new
            (λ w. did_unless_down w n (act.StartJoin candidate term)) (λ w. results_of w n (act.StartJoin candidate term))) }
    {
        self.act.clear();
        write_start_join(&mut self.act, candidate, term)?;
        let place = place_of(ids.as_slice(), n);
        let nodes = self.nodes.as_mut_slice();
        let did = nodes[place].start_join(alloc, candidate, term)?;
        self.finish(n, &did, text)
    }

    fn client_value(
        &mut self,
        alloc: Global,
        ids: &NodeSet,
        n: NodeId,
        version: u64,
        setting: SettingText,
        config: &IdList,
        text: &mut Text,
    ) -> Result<(), AllocError>
        requires listed { has n ids.now ≡ true }
        requires stands { (w : World) × Stands ids.now self.old.nodes.items self.old.sent w }
        ensures done { OnOk result
            (DoesLine ids.now self.old.nodes.items self.new.nodes.items self.old.sent self.new.sent text.old text.new
            (λ w. did_unless_down w n (act.Value version config.now (value_with setting)))
            (λ w. results_of w n (act.Value version config.now (value_with setting)))) }
    {
        let value = value_of(alloc, setting)?;
        self.act.clear();
        write_value(&mut self.act, alloc, version, config, &value)?;
        let place = place_of(ids.as_slice(), n);
        let nodes = self.nodes.as_mut_slice();
        let did = nodes[place].client_value(alloc, version, config, value.settings)?;
        self.finish(n, &did, text)
    }

    #[inline(always)]
    fn deliver(
        &mut self,
        alloc: Global,
        ids: &NodeSet,
        n: &NodeId,
        ordinal: u64,
        text: &mut Text,
    ) -> Result<(), AllocError>
        requires listed { has n.now ids.now ≡ true }
        requires stands { (w : World) × Stands ids.now self.old.nodes.items self.old.sent w }
        requires positive { 0 < ordinal }
        ensures done { OnOk result
            (DoesLine ids.now self.old.nodes.items self.new.nodes.items self.old.sent self.new.sent text.old text.new
            (λ w. took_some w n.now (message_at w ordinal)) (λ w. delivery_results w n.now (message_at w ordinal))) }
    {
        if ordinal <= self.sent.len() as u64 {
            return self.hand(alloc, ids, n, ordinal, text);
        }
        let place = place_of(ids.as_slice(), *n);
        let nodes = self.nodes.as_slice();
        unsent(&nodes[place], n, text)
    }

    // Hands a message to the node, which has been sent.
    fn hand(
        &mut self,
        alloc: Global,
        ids: &NodeSet,
        n: &NodeId,
        ordinal: u64,
        text: &mut Text,
    ) -> Result<(), AllocError>
        requires listed { has n.now ids.now ≡ true }
        requires stands { (w : World) × Stands ids.now self.old.nodes.items self.old.sent w }
        requires positive { 0 < ordinal }
        requires sent { ordinal ≤ length self.old.sent }
        ensures done { OnOk result
            (DoesLine ids.now self.old.nodes.items self.new.nodes.items self.old.sent self.new.sent text.old text.new
            (λ w. took_some w n.now (message_at w ordinal)) (λ w. delivery_results w n.now (message_at w ordinal))) }
    {
        let place = place_of(ids.as_slice(), *n);
        let message = self.sent.get((ordinal - 1) as usize)?;
        let nodes = self.nodes.as_mut_slice();
        let did = nodes[place].deliver(alloc, &message)?;
        write_delivery(text, self.sent.len(), n, &message, &did)?;
        keep(&mut self.sent, &did)
    }

    // Writes what an act did, and keeps the message that it sends.
    fn finish(&mut self, n: NodeId, did: &Did, text: &mut Text) -> Result<(), AllocError>
        ensures nodes { self.new.nodes ≡ self.old.nodes }
        ensures written { OnOk result (text.new ≡ text.old ++ did_text (length self.old.sent) n self.old.act did.now) }
        ensures sent { OnOk result (self.new.sent ≡ self.old.sent ++ sent_some (outcome_of did.now)) }
    {
        write_did(text, self.sent.len(), n, &self.act, did)?;
        keep(&mut self.sent, did)
    }
}

// There is no such message.
#[inline(always)]
fn unsent(node: &ReplayNode, n: &NodeId, text: &mut Text) -> Result<(), AllocError>
    ensures { OnOk result ((w : World) → NodeStands node.now (node_world w n.now) → text.new ≡ text.old ++ delivery_results w n.now None) }
{
    if node.is_down() {
        return write_down_line(text, *n);
    }
    text.word("unsent\n")
}

// Keeps the message that an act has sent.
fn keep(sent: &mut SentMessages, did: &Did) -> Result<(), AllocError>
    ensures { OnOk result (sent.new ≡ sent.old ++ sent_some (outcome_of did.now)) }
{
    match did {
        Did::Taken(effects) => keep_some(sent, &effects.sends),
        _ => Ok(()),
    }
}

fn keep_some(sent: &mut SentMessages, message: &Option<SentMessage>) -> Result<(), AllocError>
    ensures { OnOk result (sent.new ≡ sent.old ++ some_message message.now) }
{
    match message {
        None => Ok(()),
        Some(message) => sent.push(message),
    }
}

// The value that has this text under the key `v`, and nothing else.
fn value_of(alloc: Global, setting: SettingText) -> Result<ClusterValue, AllocError>
    ensures { IfOk result (λ value. value ≡ value_with setting) }
{
    let mut value = ClusterValue::empty(alloc);
    // For the proof alone: the text of a setting has 1 to 32 bytes.
    let _ = setting.as_bytes();
    value.settings.push("v", setting.as_str())?;
    Ok(value)
}

// Nodes that have opened their journals on empty disks.
fn fresh_nodes(alloc: Global, ids: &[NodeId]) -> Result<Vec<ReplayNode>, AllocError>
    ensures { IfOk result (λ nodes. AllStand ids.now nodes.items fresh_world) }
{
    let mut nodes = Vec::new(alloc);
    for id in ids {
        let node = ReplayNode::new(alloc, *id)?;
        nodes.push(node)?;
    }
    Ok(nodes)
}
