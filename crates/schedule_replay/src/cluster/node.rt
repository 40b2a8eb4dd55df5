//! `ClusterNode`: one whole node of a replay. It is open, or down with its disk.
ghost use Rattle.std.specs.Prelude.{◌≡◌, ◌++◌, IfOk, OnOk, ℕ, List, [], false, not, length};
ghost use Rattle.policy_model.specs.declared.settings.Settings.{Settings as SettingsOf};
ghost use Rattle.policy_model.specs.Fitting.{IsFitEvent};
ghost use Rattle.policy_model.specs.Follows.{is_start};
ghost use Rattle.wire_frames.specs.declared.frame.Frame.{Frame as FrameOf};
ghost use Rattle.replay_node.specs.NodeLines.{stop_text};
ghost use Rattle.replay_node.specs.NodeWorld.{fresh_node, needs_opening};
ghost use Rattle.policy_model.specs.Entries.{NotBegun};
ghost use Rattle.event_text.specs.Events.{event_results};
ghost use Rattle.event_text.specs.Published.{published_after};
ghost use Rattle.event_text.specs.Deeds.{as_left};
ghost use Rattle.schedule_replay.specs.OwnStands.{ClosesTo, NodeFor, OwnDoes};
ghost use Rattle.schedule_replay.specs.Own.{Own, own_crash, own_event_if_up, own_frames_if_up, own_order, own_results_if_up};
ghost use Rattle.replay_node.specs.Clusters.{first_life, settings_of as settings_in};
ghost use Rattle.schedule_replay.specs.OpenNodes.{OpenFor};
ghost use Rattle.schedule_replay.specs.Openings.{ClosedFor, OverJournal, Reopens, Restarts, fresh_own};

use crate::cluster::stepping::{Ended, OpenNode, step};
use cluster_state::SharedState;
use coordinator::{Coordinator, Entries, Sealed};
use event_text::{write_event, write_struck_event};
use master_tasks::Policy;
use policy_model::{Event, NodeIds, Settings};
use replay_node::{crashed, empty_disk, restarted, stay_down};
use state_journal::{Keeper, OpenError, StateJournal};
use std::alloc::{AllocError, Global};
use std::mem;
use text::Text;
use trace_text::{write_crashed, write_down_line, write_record, write_up_line};
use voting_config::{NodeId, NodeSet};
use wire_frames::Frame;
use zen_disk::{Armable, Fuse, MemDisks, Order, Way};

/// Whether a node's journal is open.
#[derive(Drop)]
pub enum Slot {
    Open(OpenNode),
    /// The node is down, and this is its disk.
    Down(Fuse<MemDisks>),
}

/// A node of a cluster, and the state that it has published last.
#[derive(Drop)]
pub struct ClusterNode {
    pub me: NodeId,
    pub slot: Slot,
    pub published: Option<SharedState>,
}

// Takes a slot out, and leaves a node that is down on an empty disk.
fn take_slot(slot: &mut Slot, alloc: Global) -> Slot
    ensures { result ≡ slot.old }
{
    mem::replace(slot, Slot::Down(empty_disk(alloc)))
}

// Adds frames to those that were sent.
fn keep_frames(frames: &mut Vec<Frame>, sends: &[Frame]) -> Result<(), AllocError>
    ensures { OnOk result (frames.new.items ≡ frames.old.items ++ sends.now) }
{
    for frame in sends {
        let Ok(()) = frames.push(frame.copy()?) else {
            return Err(AllocError);
        };
    }
    Ok(())
}

// Writes an event that came to its end, and adds its frames to those that were sent.
fn show_whole(
    alloc: Global,
    me: NodeId,
    published: &mut Option<SharedState>,
    sealed: &Sealed,
    frames: &mut Vec<Frame>,
    text: &mut Text,
) -> Result<(), AllocError>
    ensures text { OnOk result
        (text.new ≡ text.old ++ event_results (length frames.old.items) me published.old sealed.now.entries.deeds.list
        sealed.now.entries.drops.list sealed.now.sends.list sealed.now.replies.sent) }
    ensures published { OnOk result (published.new ≡ published_after published.old sealed.now.entries.deeds.list) }
    ensures frames { OnOk result (frames.new.items ≡ frames.old.items ++ sealed.now.sends.list) }
{
    let entries = sealed.entries();
    let sends = sealed.sends().as_slice();
    write_event(
        text,
        alloc,
        frames.as_slice().len(),
        me,
        published,
        entries.deeds.as_slice(),
        entries.drops.as_slice(),
        sends,
        sealed.replies().as_slice(),
    )?;
    keep_frames(frames, sends)
}

// Writes an event up to the act that the disk struck.
fn show_struck(
    alloc: Global,
    me: NodeId,
    published: &mut Option<SharedState>,
    entries: &Entries,
    crashed: bool,
    text: &mut Text,
) -> Result<(), AllocError>
    ensures text { OnOk result
        ((count : ℕ) → text.new
        ≡ text.old ++ event_results count me published.old (as_left crashed entries.now.deeds.list) entries.now.drops.list [] []) }
    ensures published { OnOk result (published.new ≡ published_after published.old entries.now.deeds.list) }
{
    write_struck_event(
        text,
        alloc,
        me,
        published,
        entries.deeds.as_slice(),
        entries.drops.as_slice(),
        crashed,
    )
}

impl ClusterNode {
    /// An event comes to the node. Writes what it shows, and adds the frames that it sends; or writes `down` where the node
    /// is down or its disk has failed.
    pub fn event(
        &mut self,
        alloc: Global,
        event: Event,
        frames: &mut Vec<Frame>,
        text: &mut Text,
    ) -> Result<(), AllocError>
        requires fit { IsFitEvent event }
        requires stands { (s : SettingsOf) × (own : Own) × NodeFor s self.old own (is_start event) }
        ensures { OnOk result
            (OwnDoes self.old self.new (is_start event) frames.old.items frames.new.items text.old text.new
            (λ s own. own_event_if_up s event own) (λ s own. own_frames_if_up s event own)
            (λ s count own. own_results_if_up s event count own)) }
    {
        let Slot::Open(node) = &mut self.slot else {
            return write_down_line(text, self.me);
        };
        match step(node, alloc, event)? {
            Ended::Stopped => write_down_line(text, self.me),
            Ended::Whole(sealed) => {
                show_whole(alloc, self.me, &mut self.published, &sealed, frames, text)
            }
            Ended::Failed(entries) => {
                show_struck(alloc, self.me, &mut self.published, &entries, false, text)
            }
            Ended::Crashed(entries) => {
                self.go_down(alloc);
                show_struck(alloc, self.me, &mut self.published, &entries, true, text)
            }
        }
    }

    // A node whose disk has stopped goes down.
    fn go_down(&mut self, alloc: Global)
        ensures me { self.new.me ≡ self.old.me }
        ensures published { self.new.published ≡ self.old.published }
        ensures slot { ClosesTo self.old.slot self.new.slot }
    {
        match take_slot(&mut self.slot, alloc) {
            Slot::Open(node) => {
                self.slot = Slot::Down(restarted(node.into_keeper().into_disk()));
            }
            Slot::Down(fuse) => {
                self.slot = Slot::Down(fuse);
            }
        }
    }

    /// A node whose journal was opened for the first time, on an empty disk. Its first event, the start, has come.
    pub fn new(
        alloc: Global,
        me: NodeId,
        ids: &NodeSet,
        initial: &NodeSet,
        voting_only: &NodeSet,
        second: bool,
    ) -> Result<ClusterNode, AllocError>
        ensures { IfOk result
            (λ c. NodeFor (settings_in ids.now initial.now voting_only.now second me) c
            (fresh_own (settings_in ids.now initial.now voting_only.now second me)) false) }
    {
        let mut node = first_node(alloc, me, ids, initial, voting_only, second)?;
        start(&mut node, alloc)?;
        Ok(ClusterNode {
            me,
            slot: Slot::Open(node),
            published: None,
        })
    }

    /// Whether the node runs: it is not down, and its disk has not failed since it was opened.
    pub fn runs(&self) -> bool
        ensures { (s : SettingsOf) (own : Own) → NodeFor s self.now own false → result ≡ not (needs_opening own.node) }
    {
        match &self.slot {
            Slot::Open(node) => !node.keeper().stopped(),
            Slot::Down(_) => false,
        }
    }

    /// The node crashes between two events: its disk stops. Writes `crashed` and the node, or `down` where it was down.
    pub fn crash(&mut self, alloc: Global, way: Way, text: &mut Text) -> Result<(), AllocError>
        ensures { OnOk result
            ((frames : List FrameOf)
            → OwnDoes self.old self.new false frames frames text.old text.new (λ s own. own_crash way own) (λ s own. [])
            (λ s count own. stop_text s.me own.node)) }
    {
        match take_slot(&mut self.slot, alloc) {
            Slot::Down(fuse) => {
                self.slot = Slot::Down(fuse);
                write_down_line(text, self.me)
            }
            Slot::Open(node) => {
                self.slot = Slot::Down(crashed(node.into_keeper().into_disk(), way));
                write_crashed(text, self.me)
            }
        }
    }

    /// Orders a stop or a fault of the node's disk.
    pub fn arm(&mut self, order: Order)
        ensures { (frames : List FrameOf) (text : List ℕ)
            → OwnDoes self.old self.new false frames frames text text (λ s own. own_order order own) (λ s own. []) (λ s count own. []) }
    {
        match &mut self.slot {
            Slot::Open(node) => node.arm(order),
            Slot::Down(fuse) => fuse.arm(order),
        }
    }

    /// Opens the node's journal again, where the node is down or its disk has failed, and writes what came of it. The start
    /// follows an opening that succeeds, as an event.
    pub fn restart(
        &mut self,
        alloc: Global,
        ids: &NodeSet,
        initial: &NodeSet,
        voting_only: &NodeSet,
        second: bool,
        frames: &mut Vec<Frame>,
        text: &mut Text,
    ) -> Result<(), AllocError>
        requires { (own : Own) × NodeFor (settings_in ids.now initial.now voting_only.now second self.old.me) self.old own false }
        ensures { OnOk result
            (Reopens ids.now initial.now voting_only.now second self.old self.new frames.old.items frames.new.items text.old text.new) }
    {
        match take_slot(&mut self.slot, alloc) {
            Slot::Down(fuse) => self.open(
                alloc,
                ids,
                initial,
                voting_only,
                second,
                fuse,
                frames,
                text,
            ),
            Slot::Open(node) => {
                if !node.keeper().stopped() {
                    self.slot = Slot::Open(node);
                    return write_up_line(text, self.me);
                }
                let fuse = node.into_keeper().into_disk();
                self.open(alloc, ids, initial, voting_only, second, fuse, frames, text)
            }
        }
    }

    // Opens the journal on this disk, which the node has used before.
    fn open(
        &mut self,
        alloc: Global,
        ids: &NodeSet,
        initial: &NodeSet,
        voting_only: &NodeSet,
        second: bool,
        fuse: Fuse<MemDisks>,
        frames: &mut Vec<Frame>,
        text: &mut Text,
    ) -> Result<(), AllocError>
        requires { (own : Own) × ClosedFor (settings_in ids.now initial.now voting_only.now second self.old.me) self.old fuse own }
        ensures { OnOk result
            (Restarts ids.now initial.now voting_only.now second self.old self.new fuse frames.old.items frames.new.items text.old text.new) }
    {
        match StateJournal::open(alloc, fuse) {
            Ok(journal) => {
                write_record(text, self.me, journal.kept())?;
                let settings = settings_of(alloc, self.me, ids, initial, voting_only, second)?;
                self.slot = Slot::Open(node_over(alloc, settings, journal));
                self.event(alloc, Event::Start, frames, text)
            }
            Err(OpenError::NotAJournal(_, _)) => unreachable!(),
            Err(OpenError::Memory(_)) => Err(AllocError),
            Err(OpenError::Disk(fuse)) => {
                self.slot = Slot::Down(stay_down(fuse, self.me, text)?);
                Ok(())
            }
        }
    }
}

// What the node is given before its start.
fn settings_of(
    alloc: Global,
    me: NodeId,
    ids: &NodeSet,
    initial: &NodeSet,
    voting_only: &NodeSet,
    second: bool,
) -> Result<Settings, AllocError>
    ensures { IfOk result (λ settings. settings ≡ settings_in ids.now initial.now voting_only.now second me) }
{
    let mut others = ids.copy();
    others.remove(me);
    let mut peers = Vec::new(alloc);
    peers.extend_from_slice(others.as_slice())?;
    Ok(Settings {
        me,
        peers: NodeIds::of(peers),
        initial: initial.copy(),
        voting_only: voting_only.copy(),
        policy: Policy {
            shrink: true,
            second,
        },
    })
}

// A node over the journal of an empty disk, to which nothing has come.
fn first_node(
    alloc: Global,
    me: NodeId,
    ids: &NodeSet,
    initial: &NodeSet,
    voting_only: &NodeSet,
    second: bool,
) -> Result<OpenNode, AllocError>
    ensures { IfOk result (λ node. OpenFor (settings_in ids.now initial.now voting_only.now second me) node NotBegun fresh_node) }
{
    let settings = settings_of(alloc, me, ids, initial, voting_only, second)?;
    let Ok(journal) = StateJournal::open(alloc, empty_disk(alloc)) else {
        return Err(AllocError);
    };
    Ok(node_over(alloc, settings, journal))
}

// The start comes to a node, whose disk has no orders.
fn start(node: &mut OpenNode, alloc: Global) -> Result<(), AllocError>
    requires { (s : SettingsOf) × OpenFor s node.old NotBegun fresh_node }
    ensures { OnOk result ((s : SettingsOf) → OpenFor s node.old NotBegun fresh_node → OpenFor s node.new (first_life s) fresh_node) }
{
    let ended = step(node, alloc, Event::Start)?;
    match ended {
        Ended::Whole(_) => Ok(()),
        Ended::Failed(_) | Ended::Crashed(_) | Ended::Stopped => Err(AllocError),
    }
}

// A node over a journal that was just opened.
fn node_over(alloc: Global, settings: Settings, journal: StateJournal<Fuse<MemDisks>>) -> OpenNode
    requires { journal.log.stopped ≡ false }
    ensures { OverJournal settings journal result }
{
    Coordinator::open(alloc, settings, journal)
}
