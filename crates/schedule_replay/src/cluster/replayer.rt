//! `ClusterReplayer`: the nodes of a schedule of level node, and the frames that they have sent.
ghost use Rattle.std.specs.Prelude.{◌≡◌, ◌<◌, OnOk, IfOk, ℕ, List, [], true, false, not};
ghost use Rattle.voting_config.specs.Ids.{has};
ghost use Rattle.schedule_text.specs.Lines.{FitsLine};
ghost use Rattle.schedule_text.specs.declared.level.Level.TheVariants.{Node};
ghost use Rattle.policy_model.specs.declared.events.Event.TheVariants as event;
ghost use Rattle.policy_model.specs.Fitting.{IsFitEvent};
ghost use Rattle.policy_model.specs.Follows.{is_start};
ghost use Rattle.replay_node.specs.Clusters.{Cluster, after_event_if_up, after_frame, after_restart, frame_at, fresh_cluster, settings_of};
ghost use Rattle.replay_node.specs.NodeLines.{stop_text};
ghost use Rattle.replay_node.specs.NodeWorld.{needs_opening};
ghost use Rattle.replay_node.specs.Worlds.{crashed, node_world, ordered};
ghost use Rattle.schedule_replay.specs.ClusterStands.{AllFor, ClusterFor, DoesLine, WritesLine};
ghost use Rattle.schedule_replay.specs.ClusterTrace.{event_shown_if_up, frame_shown, restart_shown};

use crate::cluster::node::ClusterNode;
use crate::places::place_of;
use client_lines::Line as ClientLine;
use policy_model::Event;
use schedule_text::{Line, LineBytes, Schedule, write_echo};
use std::alloc::{AllocError, Global};
use text::Text;
use trace_text::write_down_line;
use voting_config::{NodeId, NodeSet};
use wire_frames::{BoxedFrame, Frame};
use zen_disk::{Order, Way};

/// The nodes of a schedule of level node, and the frames that they have sent.
#[derive(Drop)]
pub struct ClusterReplayer {
    pub nodes: Vec<ClusterNode>,
    pub frames: Vec<Frame>,
}

// A frame that was sent, once more, as a node takes it.
fn boxed_copy(alloc: Global, frame: &Frame) -> Result<BoxedFrame, AllocError>
    ensures { IfOk result (λ f. f ≡ frame.now) }
{
    BoxedFrame::of(alloc, frame.copy()?)
}

impl ClusterReplayer {
    /// Nodes whose first event alone has come.
    pub fn new(
        alloc: Global,
        ids: &NodeSet,
        initial: &NodeSet,
        voting_only: &NodeSet,
        second: bool,
    ) -> Result<ClusterReplayer, AllocError>
        ensures { IfOk result
            (λ r. ClusterFor ids.now initial.now voting_only.now second r.nodes.items r.frames.items
            (fresh_cluster ids.now initial.now voting_only.now second)) }
    {
        let nodes = fresh_nodes(alloc, ids, initial, voting_only, second)?;
        // For the proof alone: a set ascends and has 64 ids at most.
        let _ = ids.as_slice();
        Ok(ClusterReplayer {
            nodes,
            frames: Vec::new(alloc),
        })
    }

    /// Does a line, and writes its part of the trace at the end of `text`.
    pub fn line(
        &mut self,
        alloc: Global,
        schedule: &Schedule,
        line: &Line,
        text: &mut Text,
    ) -> Result<(), AllocError>
        requires fits { FitsLine Node schedule.now.nodes line.now }
        requires stands { (c : Cluster)
            × ClusterFor schedule.now.nodes schedule.now.initial schedule.now.voting_only schedule.now.second self.old.nodes.items self.old.frames.items c }
        ensures done { OnOk result
            (WritesLine schedule.now.nodes schedule.now.initial schedule.now.voting_only schedule.now.second self.old.nodes.items self.new.nodes.items
            self.old.frames.items self.new.frames.items text.old text.new line.now) }
    {
        write_echo(text, line)?;
        match line {
            Line::Tick(n, now, word) => self.tick(alloc, schedule, *n, *now, *word, text),
            Line::Client(n, bytes) => self.client(alloc, schedule, *n, bytes, text),
            Line::Disconnect(n, peer) => self.disconnect(alloc, schedule, *n, peer.get(), text),
            Line::Deliver(n, ordinal) => self.deliver(alloc, schedule, *n, *ordinal, text),
            Line::Crash(n, way) => self.crash(alloc, schedule, *n, *way, text),
            Line::Restart(n) => self.restart(alloc, schedule, *n, text),
            Line::Fuse(n, count, way) => {
                self.arm(schedule, *n, Order::Stop(*count, *way));
                Ok(())
            }
            Line::Fail(n, count) => {
                self.arm(schedule, *n, Order::Fault(*count));
                Ok(())
            }
            Line::Boot(_) | Line::StartJoin(_, _, _) | Line::Value(_, _, _, _) => unreachable!(),
        }
    }

    fn tick(
        &mut self,
        alloc: Global,
        schedule: &Schedule,
        n: NodeId,
        now: u64,
        word: u64,
        text: &mut Text,
    ) -> Result<(), AllocError>
        requires listed { has n schedule.now.nodes ≡ true }
        requires stands { (c : Cluster)
            × ClusterFor schedule.now.nodes schedule.now.initial schedule.now.voting_only schedule.now.second self.old.nodes.items self.old.frames.items c }
        ensures done { OnOk result
            (DoesLine schedule.now.nodes schedule.now.initial schedule.now.voting_only schedule.now.second self.old.nodes.items self.new.nodes.items
            self.old.frames.items self.new.frames.items text.old text.new
            (λ c. after_event_if_up (settings_of schedule.now.nodes schedule.now.initial schedule.now.voting_only schedule.now.second n) c
            (event.Tick now word))
            (λ c. event_shown_if_up (settings_of schedule.now.nodes schedule.now.initial schedule.now.voting_only schedule.now.second n) c
            (event.Tick now word))) }
    {
        self.event(alloc, schedule, n, Event::Tick { now, word }, text)
    }

    // The connection of a node to another has ended.
    fn disconnect(
        &mut self,
        alloc: Global,
        schedule: &Schedule,
        n: NodeId,
        peer: NodeId,
        text: &mut Text,
    ) -> Result<(), AllocError>
        requires listed { has n schedule.now.nodes ≡ true }
        requires stands { (c : Cluster)
            × ClusterFor schedule.now.nodes schedule.now.initial schedule.now.voting_only schedule.now.second self.old.nodes.items self.old.frames.items c }
        ensures done { OnOk result
            (DoesLine schedule.now.nodes schedule.now.initial schedule.now.voting_only schedule.now.second self.old.nodes.items self.new.nodes.items
            self.old.frames.items self.new.frames.items text.old text.new
            (λ c. after_event_if_up (settings_of schedule.now.nodes schedule.now.initial schedule.now.voting_only schedule.now.second n) c
            (event.Disconnected peer))
            (λ c. event_shown_if_up (settings_of schedule.now.nodes schedule.now.initial schedule.now.voting_only schedule.now.second n) c
            (event.Disconnected peer))) }
    {
        self.event(alloc, schedule, n, Event::Disconnected { peer }, text)
    }

    // A client's line has the one connection of a replay.
    fn client(
        &mut self,
        alloc: Global,
        schedule: &Schedule,
        n: NodeId,
        bytes: &LineBytes,
        text: &mut Text,
    ) -> Result<(), AllocError>
        requires listed { has n schedule.now.nodes ≡ true }
        requires stands { (c : Cluster)
            × ClusterFor schedule.now.nodes schedule.now.initial schedule.now.voting_only schedule.now.second self.old.nodes.items self.old.frames.items c }
        ensures done { OnOk result
            (DoesLine schedule.now.nodes schedule.now.initial schedule.now.voting_only schedule.now.second self.old.nodes.items self.new.nodes.items
            self.old.frames.items self.new.frames.items text.old text.new
            (λ c. after_event_if_up (settings_of schedule.now.nodes schedule.now.initial schedule.now.voting_only schedule.now.second n) c
            (event.Client 0 bytes.now))
            (λ c. event_shown_if_up (settings_of schedule.now.nodes schedule.now.initial schedule.now.voting_only schedule.now.second n) c
            (event.Client 0 bytes.now))) }
    {
        let line = ClientLine::of(Vec::from_slice(alloc, bytes.as_slice())?);
        self.event(alloc, schedule, n, Event::Client { conn: 0, line }, text)
    }

    // An event other than the first comes to the node.
    fn event(
        &mut self,
        alloc: Global,
        schedule: &Schedule,
        n: NodeId,
        event: Event,
        text: &mut Text,
    ) -> Result<(), AllocError>
        requires listed { has n schedule.now.nodes ≡ true }
        requires fit { IsFitEvent event }
        requires later { is_start event ≡ false }
        requires stands { (c : Cluster)
            × ClusterFor schedule.now.nodes schedule.now.initial schedule.now.voting_only schedule.now.second self.old.nodes.items self.old.frames.items c }
        ensures done { OnOk result
            (DoesLine schedule.now.nodes schedule.now.initial schedule.now.voting_only schedule.now.second self.old.nodes.items self.new.nodes.items
            self.old.frames.items self.new.frames.items text.old text.new
            (λ c. after_event_if_up (settings_of schedule.now.nodes schedule.now.initial schedule.now.voting_only schedule.now.second n) c event)
            (λ c. event_shown_if_up (settings_of schedule.now.nodes schedule.now.initial schedule.now.voting_only schedule.now.second n) c event)) }
    {
        let place = place_of(schedule.nodes.as_slice(), n);
        let nodes = self.nodes.as_mut_slice();
        nodes[place].event(alloc, event, &mut self.frames, text)
    }

    fn deliver(
        &mut self,
        alloc: Global,
        schedule: &Schedule,
        n: NodeId,
        ordinal: u64,
        text: &mut Text,
    ) -> Result<(), AllocError>
        requires listed { has n schedule.now.nodes ≡ true }
        requires stands { (c : Cluster)
            × ClusterFor schedule.now.nodes schedule.now.initial schedule.now.voting_only schedule.now.second self.old.nodes.items self.old.frames.items c }
        requires positive { 0 < ordinal }
        ensures done { OnOk result
            (DoesLine schedule.now.nodes schedule.now.initial schedule.now.voting_only schedule.now.second self.old.nodes.items self.new.nodes.items
            self.old.frames.items self.new.frames.items text.old text.new
            (λ c. after_frame (settings_of schedule.now.nodes schedule.now.initial schedule.now.voting_only schedule.now.second n) c (frame_at c ordinal))
            (λ c. frame_shown (settings_of schedule.now.nodes schedule.now.initial schedule.now.voting_only schedule.now.second n) c (frame_at c ordinal))) }
    {
        let runs = self.runs(schedule, n);
        match self.frames.as_slice().get((ordinal - 1) as usize) {
            None => {
                if runs {
                    text.word("unsent\n")
                } else {
                    write_down_line(text, n)
                }
            }
            Some(frame) => {
                if !runs {
                    return write_down_line(text, n);
                }
                if frame.to != n {
                    return text.word("misrouted\n");
                }
                let frame = boxed_copy(alloc, frame)?;
                self.event(alloc, schedule, n, Event::Frame(frame), text)
            }
        }
    }

    // Whether the node runs.
    fn runs(&self, schedule: &Schedule, n: NodeId) -> bool
        requires listed { has n schedule.now.nodes ≡ true }
        requires stands { (c : Cluster)
            × ClusterFor schedule.now.nodes schedule.now.initial schedule.now.voting_only schedule.now.second self.now.nodes.items self.now.frames.items c }
        ensures { (c : Cluster)
            → AllFor schedule.now.nodes schedule.now.initial schedule.now.voting_only schedule.now.second schedule.now.nodes self.now.nodes.items c
            → result ≡ not (needs_opening (node_world c.world n)) }
    {
        let place = place_of(schedule.nodes.as_slice(), n);
        let nodes = self.nodes.as_slice();
        nodes[place].runs()
    }

    fn crash(
        &mut self,
        alloc: Global,
        schedule: &Schedule,
        n: NodeId,
        way: Way,
        text: &mut Text,
    ) -> Result<(), AllocError>
        requires listed { has n schedule.now.nodes ≡ true }
        requires stands { (c : Cluster)
            × ClusterFor schedule.now.nodes schedule.now.initial schedule.now.voting_only schedule.now.second self.old.nodes.items self.old.frames.items c }
        ensures done { OnOk result
            (DoesLine schedule.now.nodes schedule.now.initial schedule.now.voting_only schedule.now.second self.old.nodes.items self.new.nodes.items
            self.old.frames.items self.new.frames.items text.old text.new (λ c. record c { world = crashed c.world n way })
            (λ c. stop_text n (node_world c.world n))) }
    {
        let place = place_of(schedule.nodes.as_slice(), n);
        let nodes = self.nodes.as_mut_slice();
        nodes[place].crash(alloc, way, text)
    }

    fn restart(
        &mut self,
        alloc: Global,
        schedule: &Schedule,
        n: NodeId,
        text: &mut Text,
    ) -> Result<(), AllocError>
        requires listed { has n schedule.now.nodes ≡ true }
        requires stands { (c : Cluster)
            × ClusterFor schedule.now.nodes schedule.now.initial schedule.now.voting_only schedule.now.second self.old.nodes.items self.old.frames.items c }
        ensures done { OnOk result
            (DoesLine schedule.now.nodes schedule.now.initial schedule.now.voting_only schedule.now.second self.old.nodes.items self.new.nodes.items
            self.old.frames.items self.new.frames.items text.old text.new
            (λ c. after_restart (settings_of schedule.now.nodes schedule.now.initial schedule.now.voting_only schedule.now.second n) c)
            (λ c. restart_shown (settings_of schedule.now.nodes schedule.now.initial schedule.now.voting_only schedule.now.second n) c)) }
    {
        let place = place_of(schedule.nodes.as_slice(), n);
        let nodes = self.nodes.as_mut_slice();
        nodes[place].restart(
            alloc,
            &schedule.nodes,
            &schedule.initial,
            &schedule.voting_only,
            schedule.second,
            &mut self.frames,
            text,
        )
    }

    fn arm(&mut self, schedule: &Schedule, n: NodeId, order: Order)
        requires listed { has n schedule.now.nodes ≡ true }
        requires stands { (c : Cluster)
            × ClusterFor schedule.now.nodes schedule.now.initial schedule.now.voting_only schedule.now.second self.old.nodes.items self.old.frames.items c }
        ensures done { (text : List ℕ)
            → DoesLine schedule.now.nodes schedule.now.initial schedule.now.voting_only schedule.now.second self.old.nodes.items self.new.nodes.items
            self.old.frames.items self.new.frames.items text text (λ c. record c { world = ordered c.world n order }) (λ c. []) }
    {
        let place = place_of(schedule.nodes.as_slice(), n);
        let nodes = self.nodes.as_mut_slice();
        nodes[place].arm(order);
    }
}

// Nodes that have opened their journals on empty disks, with these names to begin a new cluster, and these voting-only.
fn fresh_nodes(
    alloc: Global,
    ids: &NodeSet,
    names: &NodeSet,
    voting_only: &NodeSet,
    second: bool,
) -> Result<Vec<ClusterNode>, AllocError>
    ensures { IfOk result
        (λ nodes. AllFor ids.now names.now voting_only.now second ids.now nodes.items (fresh_cluster ids.now names.now voting_only.now second)) }
{
    let mut nodes = Vec::new(alloc);
    let listed = ids.as_slice();
    for id in listed {
        let node = ClusterNode::new(alloc, *id, ids, names, voting_only, second)?;
        nodes.push(node)?;
    }
    Ok(nodes)
}
