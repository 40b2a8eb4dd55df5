//! Nodes in memory. What one seals is handed over to the receivers, in the order in which it was sealed.
ghost use Rattle.std.specs.Prelude.{◌≡◌, false};

use crate::counts::Counts;
use crate::fault::{Fault, expected};
use crate::member::{Given, Member};
use coordinator::Sealed;
use master_tasks::Policy;
use policy_model::{NodeIds, Settings};
use state_journal::Keeper;
use std::alloc::Global;
use std::collections::VecDeque;
use voting_config::{NodeId, NodeSet};

// So many events that send may come of one.
const MOST_HANDED: u32 = 100_000;

// The id of a node by its number.
fn id(alloc: Global, number: u8) -> Result<NodeId, Fault> {
    let name = format!(in alloc; "n{number:02}")?;
    expected(NodeId::parse(name.as_str()), "no id")
}

/// The ids of so many nodes.
pub fn all_ids(alloc: Global, nodes: u8) -> Result<NodeSet, Fault> {
    let mut ids = NodeSet::new();
    for number in 0..nodes {
        match id(alloc, number) {
            Ok(id) => ids.put_if_room(id),
            Err(fault) => return Err(fault),
        }
    }
    Ok(ids)
}

// The settings of a node, which lists all nodes as peers and as first voters.
fn settings(alloc: Global, me: NodeId, all: &NodeSet) -> Result<Settings, Fault> {
    Ok(Settings {
        me,
        peers: NodeIds::of(Vec::from_slice(alloc, all.as_slice())?),
        initial: all.copy(),
        voting_only: NodeSet::new(),
        policy: Policy {
            shrink: true,
            second: false,
        },
    })
}

/// The nodes, the moment in ms, and what was sealed and not handed over yet.
#[derive(Drop)]
pub struct World<K> {
    alloc: Global,
    members: Vec<Member<K>>,
    queue: VecDeque<Sealed>,
    now: u64,
    pub counts: Counts,
}

impl<K: Keeper + Drop> World<K> {
    pub fn new(alloc: Global) -> World<K> {
        World {
            alloc,
            members: Vec::new(alloc),
            queue: VecDeque::new(alloc),
            now: 0,
            counts: Counts::new(),
        }
    }

    /// One more node, one of all, over its keeper. It is started.
    pub fn add(&mut self, me: NodeId, all: &NodeSet, keeper: K) -> Result<(), Fault>
        requires { K.has_stopped keeper ≡ false }
    {
        let place = self.members.len();
        let settings = settings(self.alloc, me, all)?;
        self.members
            .push(Member::open(self.alloc, settings, keeper))?;
        self.give(place, Given::Start)
    }

    fn place_of(&self, id: NodeId) -> Result<usize, Fault> {
        self.members
            .iter()
            .position(|member| member.me == id)
            .ok_or(Fault::Unexpected("a frame for no node"))
    }

    // Gives it to the node at a place. What it sends waits.
    fn give(&mut self, place: usize, given: Given) -> Result<(), Fault> {
        let Some(member) = self.members.get_mut(place) else {
            return Err(Fault::Unexpected("no node at a place"));
        };
        let sealed = member.give(self.alloc, given)?;
        self.counts.add(place, &sealed);
        if !sealed.sends().as_slice().is_empty() {
            self.queue.push_back(sealed)?;
        }
        Ok(())
    }

    fn hand_frames(&mut self, sealed: &Sealed) -> Result<(), Fault> {
        for frame in sealed.sends().as_slice() {
            let place = self.place_of(frame.to)?;
            self.give(place, Given::Frame(frame))?;
        }
        Ok(())
    }

    // Hands over all that waits, and what comes of it.
    fn hand_over(&mut self) -> Result<(), Fault> {
        for _ in 0..MOST_HANDED {
            match self.queue.pop_front() {
                None => return Ok(()),
                Some(sealed) => self.hand_frames(&sealed)?,
            }
        }
        Err(Fault::Unexpected("frames without end"))
    }

    /// An event of the node at a place, and what comes of it.
    pub fn event(&mut self, place: usize, given: Given) -> Result<(), Fault> {
        self.give(place, given)?;
        self.hand_over()
    }

    // A tick of the node at a place, so many ms after the last one of any, and what comes of it.
    fn tick(&mut self, place: usize, ms: u64) -> Result<(), Fault> {
        self.now = self.now.wrapping_add(ms);
        let (now, word) = (self.now, place as u64);
        self.event(place, Given::Tick { now, word })
    }

    /// So many ticks of the node at a place, each so many ms after the last one of any, and what comes of them.
    pub fn tick_often(&mut self, place: usize, ms: u64, rounds: u64) -> Result<(), Fault> {
        for _ in 0..rounds {
            self.tick(place, ms)?;
        }
        Ok(())
    }

    /// All nodes tick at several moments, 250 ms apart.
    pub fn tick_all(&mut self, moments: u32) -> Result<(), Fault> {
        for _ in 0..moments {
            self.now = self.now.wrapping_add(250);
            for place in 0..self.members.len() {
                self.tick(place, 0)?;
            }
        }
        Ok(())
    }

    /// The place of the node that became a leader last.
    pub fn leader(&self) -> Result<usize, Fault> {
        self.counts.leader.ok_or(Fault::Unexpected("no node leads"))
    }
}
