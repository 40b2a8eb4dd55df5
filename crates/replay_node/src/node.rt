//! `ReplayNode`: one node of a replay. It is open, or down with its disk.
ghost use Rattle.std.specs.Prelude.{◌≡◌, ◌++◌, Bool, Some, IfOk, IfSome, OnOk};
ghost use Rattle.cluster_state.specs.Initial.{empty_value};
ghost use Rattle.cluster_state.specs.States.{IsFitValue};
ghost use Rattle.world_model.specs.declared.acts.Act.TheVariants as act;
ghost use Rattle.zen_disk.specs.declared.orders.Order.{Order as DiskOrder};
ghost use Rattle.world_model.specs.declared.acts.Outcome.TheVariants as outcome;
ghost use Rattle.world_model.specs.declared.acts.ActReply.TheVariants as reply;
ghost use Rattle.replay_node.specs.Did.{outcome_of};
ghost use Rattle.trace_text.specs.Published.{published_by};
ghost use Rattle.replay_node.specs.Published.{state_published};
ghost use Rattle.replay_node.specs.NodeWorld.{NodeWorld, fresh_node, after_order};
ghost use Rattle.replay_node.specs.NodeLines.{after_restart, after_stop, restart_text, stop_text, DoesLine, FindsKept};
ghost use Rattle.replay_node.specs.Opens.{ClosedStands, Opens};
ghost use Rattle.replay_node.specs.Sent.{message_of, message_of_some, taking};
ghost use Rattle.replay_node.specs.Stands.{HasRoom, NodeDoes, NodeStands, is_up as is_up_of};
ghost use Rattle.replay_node.specs.StateDoes.{Closes, ClosesTo};

use crate::did::Did;
use crate::disk::{crashed, empty_disk, restarted, stay_down};
use crate::message::{FitPublishRequest, SentMessage};
use crate::state;
use crate::state::OpenNode;
use cluster_state::Settings;
use coord_state::CoordState;
use state_journal::{Keeper, OpenError, StateJournal};
use std::alloc::{AllocError, Global};
use std::mem;
use std::rc::Rc;
use text::Text;
use trace_text::{write_crashed, write_down_line, write_record, write_up_line};
use voting_config::{IdList, NodeId, NodeSet};
use zen_disk::{Armable, Fuse, MemDisks, Order, Way};

/// Whether a node's journal is open.
#[derive(Drop)]
pub enum Slot {
    Open(OpenNode),
    /// The node is down, and this is its disk.
    Down(Fuse<MemDisks>),
}

/// A node of a replay, and what it has published last.
#[derive(Drop)]
pub struct ReplayNode {
    pub me: NodeId,
    pub slot: Slot,
    pub published: Option<Rc<FitPublishRequest>>,
}

// Takes a slot out, and leaves a node that is down on an empty disk.
fn take_slot(slot: &mut Slot, alloc: Global) -> Slot
    ensures { result ≡ slot.old }
{
    mem::replace(slot, Slot::Down(empty_disk(alloc)))
}

// A node whose disk has stopped goes down.
fn closed(slot: Slot) -> Slot
    ensures { Closes slot Did.Crashed result }
{
    match slot {
        Slot::Open(state) => Slot::Down(restarted(state.into_keeper().into_disk())),
        Slot::Down(fuse) => Slot::Down(fuse),
    }
}

// Keeps what was published, where this message publishes.
fn keep_sent(
    published: &mut Option<Rc<FitPublishRequest>>,
    sends: &Option<SentMessage>,
) -> Result<(), AllocError>
    ensures { OnOk result
        ((wins : Bool) → state_published published.new
        ≡ published_by (outcome.Answered (reply.Taken (message_of_some sends.now) wins)) (state_published published.old)) }
{
    match sends {
        None => Ok(()),
        Some(message) => keep_publication(published, message),
    }
}

fn keep_publication(
    published: &mut Option<Rc<FitPublishRequest>>,
    message: &SentMessage,
) -> Result<(), AllocError>
    ensures { OnOk result
        ((wins : Bool) → state_published published.new
        ≡ published_by (outcome.Answered (reply.Taken (Some (message_of message.now)) wins)) (state_published published.old)) }
{
    match message {
        SentMessage::Publish(request) => {
            let request = request.clone()?;
            *published = Some(request);
            Ok(())
        }
        _ => Ok(()),
    }
}

impl ReplayNode {
    /// A node whose journal was opened for the first time, on an empty disk.
    pub fn new(alloc: Global, me: NodeId) -> Result<ReplayNode, AllocError>
        ensures me { IfOk result (λ c. c.me ≡ me) }
        ensures stands { IfOk result (λ c. NodeStands c fresh_node) }
    {
        match StateJournal::open(alloc, empty_disk(alloc)) {
            Ok(journal) => Ok(ReplayNode {
                me,
                slot: Slot::Open(CoordState::new(me, journal)),
                published: None,
            }),
            Err(_) => Err(AllocError),
        }
    }

    /// Whether the node is down.
    pub fn is_down(&self) -> bool
        ensures { (w : NodeWorld) → NodeStands self.now w → result ≡ w.down }
    {
        match &self.slot {
            Slot::Open(_) => false,
            Slot::Down(_) => true,
        }
    }

    fn close(&mut self, alloc: Global, did: &Did)
        ensures me { self.new.me ≡ self.old.me }
        ensures published { self.new.published ≡ self.old.published }
        ensures slot { Closes self.old.slot did.now self.new.slot }
    {
        if let Did::Crashed = did {
            self.go_down(alloc);
        }
    }

    // Apart from `close`, which every act calls, since a slot is large.
    #[inline(never)]
    fn go_down(&mut self, alloc: Global)
        ensures me { self.new.me ≡ self.old.me }
        ensures published { self.new.published ≡ self.old.published }
        ensures slot { ClosesTo self.old.slot self.new.slot }
    {
        let slot = take_slot(&mut self.slot, alloc);
        self.slot = closed(slot);
    }

    /// The node takes the initial configuration.
    pub fn set_initial(&mut self, alloc: Global, initial: &NodeSet) -> Result<Did, AllocError>
        ensures { IfOk result (λ did. NodeDoes self.old self.new (act.Bootstrap initial.now) did) }
    {
        let Slot::Open(state) = &mut self.slot else {
            return Ok(Did::Down);
        };
        let did = state::set_initial(state, alloc, initial)?;
        self.close(alloc, &did);
        Ok(did)
    }

    /// The node starts a join.
    pub fn start_join(
        &mut self,
        alloc: Global,
        candidate: NodeId,
        term: u64,
    ) -> Result<Did, AllocError>
        ensures { IfOk result (λ did. NodeDoes self.old self.new (act.StartJoin candidate term) did) }
    {
        let Slot::Open(state) = &mut self.slot else {
            return Ok(Did::Down);
        };
        let did = state::start_join(state, candidate, term)?;
        self.close(alloc, &did);
        Ok(did)
    }

    /// The node publishes a client's value that has these settings and nothing else. Such a value is all that a schedule gives, and
    /// settings are small, where a value is large.
    pub fn client_value(
        &mut self,
        alloc: Global,
        version: u64,
        config: &IdList,
        settings: Settings,
    ) -> Result<Did, AllocError>
        requires { IsFitValue (record empty_value { settings = settings }) }
        ensures { IfOk result
            (λ did. NodeDoes self.old self.new (act.Value version config.now (record empty_value { settings = settings })) did) }
    {
        let Slot::Open(state) = &mut self.slot else {
            return Ok(Did::Down);
        };
        let did = state::client_value(state, alloc, version, config, settings)?;
        self.remember(&did)?;
        self.close(alloc, &did);
        Ok(did)
    }

    // Keeps what was published.
    fn remember(&mut self, did: &Did) -> Result<(), AllocError>
        ensures me { self.new.me ≡ self.old.me }
        ensures slot { self.new.slot ≡ self.old.slot }
        ensures published { OnOk result
            (IfSome (outcome_of did.now) (λ o. state_published self.new.published ≡ published_by o (state_published self.old.published))) }
    {
        match did {
            Did::Taken(effects) => keep_sent(&mut self.published, &effects.sends),
            _ => Ok(()),
        }
    }

    /// The node takes a message.
    pub fn deliver(&mut self, alloc: Global, message: &SentMessage) -> Result<Did, AllocError>
        requires { HasRoom self.old (message_of message.now) }
        ensures { IfOk result (λ did. NodeDoes self.old self.new (taking (message_of message.now)) did) }
    {
        let Slot::Open(state) = &mut self.slot else {
            return Ok(Did::Down);
        };
        let did = state::deliver(state, message, &self.published)?;
        self.close(alloc, &did);
        Ok(did)
    }

    /// The node crashes between two acts: its disk stops. Writes `crashed` and the node, or `down` where it was down.
    pub fn crash(&mut self, alloc: Global, way: Way, text: &mut Text) -> Result<(), AllocError>
        ensures { OnOk result (DoesLine self.old self.new (after_stop way) (stop_text self.old.me) text.old text.new) }
    {
        match take_slot(&mut self.slot, alloc) {
            Slot::Down(fuse) => {
                self.slot = Slot::Down(fuse);
                write_down_line(text, self.me)
            }
            Slot::Open(state) => {
                self.slot = Slot::Down(crashed(state.into_keeper().into_disk(), way));
                write_crashed(text, self.me)
            }
        }
    }

    /// Orders a stop or a fault of the node's disk.
    pub fn arm(&mut self, order: Order)
        ensures me { self.new.me ≡ self.old.me }
        ensures stands { (w : NodeWorld) → NodeStands self.old w → NodeStands self.new (after_order order w) }
    {
        match &mut self.slot {
            Slot::Open(state) => state.arm(order),
            Slot::Down(fuse) => fuse.arm(order),
        }
    }

    // Whether its journal is open and takes changes. The slot is looked at where it lies, since it is large.
    fn is_up(&self) -> bool
        ensures { result ≡ is_up_of self.now.slot }
    {
        match &self.slot {
            Slot::Open(state) => !state.keeper().stopped(),
            Slot::Down(_) => false,
        }
    }

    /// Opens the node's journal again, where the node is down or its disk has failed, and writes what came of it.
    pub fn restart(&mut self, alloc: Global, text: &mut Text) -> Result<(), AllocError>
        requires { (w : NodeWorld) × NodeStands self.old w }
        ensures done { OnOk result (DoesLine self.old self.new after_restart (restart_text self.old.me) text.old text.new) }
        ensures finds { OnOk result ((w : NodeWorld) → NodeStands self.old w → FindsKept w) }
    {
        if self.is_up() {
            return write_up_line(text, self.me);
        }
        match take_slot(&mut self.slot, alloc) {
            Slot::Down(fuse) => self.open(alloc, fuse, text),
            Slot::Open(state) => self.open(alloc, state.into_keeper().into_disk(), text),
        }
    }

    // Opens the journal on this disk, which the node has used before.
    fn open(
        &mut self,
        alloc: Global,
        fuse: Fuse<MemDisks>,
        text: &mut Text,
    ) -> Result<(), AllocError>
        requires { (w : NodeWorld) × ClosedStands fuse w }
        ensures me { self.new.me ≡ self.old.me }
        ensures published { self.new.published ≡ self.old.published }
        ensures opens { OnOk result ((w : NodeWorld) → ClosedStands fuse w → Opens self.old.me fuse self.new.slot text.old text.new w) }
    {
        match StateJournal::open(alloc, fuse) {
            Ok(journal) => {
                write_record(text, self.me, journal.kept())?;
                self.slot = Slot::Open(CoordState::new(self.me, journal));
                Ok(())
            }
            Err(OpenError::NotAJournal(_, _)) => unreachable!(),
            Err(OpenError::Memory(_)) => Err(AllocError),
            Err(OpenError::Disk(fuse)) => {
                self.slot = Slot::Down(stay_down(fuse, self.me, text)?);
                Ok(())
            }
        }
    }
}
