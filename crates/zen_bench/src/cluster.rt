//! Five nodes, each with its journal on a disk in memory, of which the first is the candidate.
ghost use Rattle.std.specs.Prelude.{IfOk};
ghost use Rattle.cluster_state.specs.States.{IsFit};

use crate::fault::{Fault, expected};
use crate::figures::Figures;
use crate::journals::{MemJournal, empty_journal};
use crate::states::{TERM, state_bytes};
use cluster_state::{ApplyCommit, ClusterState, Join, PublishResponse, decode_state};
use coord_state::CoordState;
use state_journal::Ready;
use std::alloc::Global;
use voting_config::{MAX_IDS, NodeId, NodeSet};

type Node = CoordState<MemJournal>;

// The node takes the initial configuration of all.
fn boot(alloc: Global, node: &mut Node, members: &NodeSet) -> Result<(), Fault> {
    let initial = Ready::initial(alloc, members)?;
    expected(node.set_initial(initial), "no initial configuration")
}

// A node over an empty journal.
fn opened(alloc: Global, id: NodeId) -> Result<Node, Fault> {
    Ok(CoordState::new(id, empty_journal(alloc)?))
}

fn count_join(candidate: &mut Node, join: &Join) -> Result<(), Fault> {
    if candidate.votes().len() >= MAX_IDS {
        return Err(Fault::Unexpected("too many votes"));
    }
    expected(candidate.join(join), "join not counted")?;
    Ok(())
}

// The state that these bytes spell.
fn decoded(alloc: Global, bytes: &[u8]) -> Result<ClusterState, Fault>
    ensures { IfOk result IsFit }
{
    expected(decode_state(alloc, bytes), "the bytes are no state")
}

// A node accepts the state that it receives as these bytes.
fn accept(
    alloc: Global,
    node: &mut Node,
    from: NodeId,
    bytes: &[u8],
) -> Result<PublishResponse, Fault> {
    let state = expected(
        Ready::new(alloc, decoded(alloc, bytes)?),
        "no memory for a state",
    )?;
    expected(node.publish_request(from, state), "not accepted")
}

// Counts a response, and keeps the commit that is sent at it.
fn count_response(
    candidate: &mut Node,
    response: &PublishResponse,
    sent: &mut Option<ApplyCommit>,
) -> Result<(), Fault> {
    if candidate.acks().len() >= MAX_IDS {
        return Err(Fault::Unexpected("too many acks"));
    }
    match candidate.publish_response(response) {
        Ok(commit) => {
            *sent = commit;
            Ok(())
        }
        Err(_) => Err(Fault::Unexpected("response not counted")),
    }
}

// The nodes.
#[derive(Drop)]
struct Cluster {
    alloc: Global,
    candidate: Node,
    others: Vec<Node>,
}

impl Cluster {
    // A node more for each of these ids.
    fn add(&mut self, ids: &[NodeId]) -> Result<(), Fault> {
        for id in ids {
            self.others.push(opened(self.alloc, *id)?)?;
        }
        Ok(())
    }

    // All nodes take their initial configuration, and the candidate is elected by their joins.
    fn elect(&mut self, members: &NodeSet) -> Result<(), Fault> {
        boot(self.alloc, &mut self.candidate, members)?;
        let me = self.candidate.me();
        let Ok(own) = self.candidate.start_join(me, TERM) else {
            return Err(Fault::Unexpected("no join"));
        };
        count_join(&mut self.candidate, &own)?;
        for node in self.others.iter_mut() {
            boot(self.alloc, node, members)?;
            match node.start_join(me, TERM) {
                Ok(join) => count_join(&mut self.candidate, &join)?,
                Err(_) => return Err(Fault::Unexpected("no join")),
            }
        }
        if !self.candidate.won() {
            return Err(Fault::Unexpected("not elected"));
        }
        Ok(())
    }

    // The candidate publishes the state that these bytes spell.
    fn publish(&mut self, bytes: &[u8]) -> Result<(), Fault> {
        let state = decoded(self.alloc, bytes)?;
        expected(
            self.candidate.take_value(state.version, &state.config),
            "no publication",
        )
    }

    // Each node accepts the state that it receives as these bytes. Answers the commit that is sent at the last response.
    fn collect(&mut self, bytes: &[u8]) -> Result<ApplyCommit, Fault> {
        let me = self.candidate.me();
        let mut sent = None;
        match accept(self.alloc, &mut self.candidate, me, bytes) {
            Ok(response) => count_response(&mut self.candidate, &response, &mut sent)?,
            Err(fault) => return Err(fault),
        }
        for node in self.others.iter_mut() {
            match accept(self.alloc, node, me, bytes) {
                Ok(response) => count_response(&mut self.candidate, &response, &mut sent)?,
                Err(fault) => return Err(fault),
            }
        }
        match sent {
            Some(commit) => Ok(commit),
            None => Err(Fault::Unexpected("no commit")),
        }
    }

    // Each node commits.
    fn commit(&mut self, commit: &ApplyCommit) -> Result<(), Fault> {
        expected(self.candidate.commit(commit), "not committed")?;
        for node in self.others.iter_mut() {
            expected(node.commit(commit), "not committed")?;
        }
        Ok(())
    }

    // The state that these bytes spell is published, accepted by each node and committed at each.
    fn round(&mut self, bytes: &[u8]) -> Result<(), Fault> {
        self.publish(bytes)?;
        match self.collect(bytes) {
            Ok(sent) => self.commit(&sent),
            Err(fault) => Err(fault),
        }
    }

    // A round of a value with so many settings.
    fn round_of(&mut self, version: u64, settings: u16) -> Result<(), Fault> {
        let bytes = state_bytes(self.alloc, version, settings)?;
        self.round(bytes.as_slice())
    }

    // An election by these members and this many rounds. Says what is committed.
    fn run(&mut self, members: &NodeSet, settings: u16, rounds: u64) -> Result<Figures, Fault> {
        self.elect(members)?;
        for version in 1..=rounds {
            self.round_of(version, settings)?;
        }
        Ok(self.figures())
    }

    // What is committed, where all that was accepted is.
    fn figures(&self) -> Figures {
        let state = self.candidate.accepted();
        Figures::Committed {
            version: state.version,
            settings: state.value.settings.len(),
        }
    }
}

/// An election over five nodes and so many rounds, in each of which a value with so many settings is published, accepted and
/// committed. Says what is committed.
pub fn run_values(alloc: Global, settings: u64, rounds: u64) -> Result<Figures, Fault> {
    let settings = expected(
        u16::try_from(settings),
        "a value has at most 65535 settings",
    )?;
    let Some(members) = NodeSet::parse("a,b,c,d,e") else {
        return Err(Fault::Unexpected("no ids"));
    };
    let Some((first, rest)) = members.as_slice().split_first() else {
        return Err(Fault::Unexpected("no ids"));
    };
    let mut cluster = Cluster {
        alloc,
        candidate: opened(alloc, *first)?,
        others: Vec::new(alloc),
    };
    match cluster.add(rest) {
        Ok(()) => cluster.run(&members, settings, rounds),
        Err(fault) => Err(fault),
    }
}
