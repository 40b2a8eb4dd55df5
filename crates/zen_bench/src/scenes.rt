//! Coordinators in memory: what is given to them, round by round.

use crate::fault::Fault;
use crate::figures::Figures;
use crate::journals::{MemJournal, empty_journal};
use crate::member::Given;
use crate::world::{World, all_ids};
use state_journal::{Keeper, PlainKeeper};
use std::alloc::Global;

// In so many moments new nodes find each other and elect a leader.
const MOMENTS: u32 = 8;

/// What a round is.
#[derive(Clone, Copy)]
pub enum Round {
    /// A tick of a follower, 1 ms later. Each second it asks the leader, which answers.
    FollowerTick,
    /// A tick of the leader, 1 s later. It asks all others, and takes their answers.
    LeaderTick,
    /// A put at the leader.
    Put,
    /// An exclusion at the leader, and ticks of all.
    Exclude,
}

// Excludes the node n02.
const EXCLUDE: &str = "{\"id\":2,\"exclude\":[\"n02\"]}";

// A client's request with this number as its id, for a key of 16 bytes and a text of 32.
fn put(alloc: Global, number: u64, key: u64) -> Result<String, Fault> {
    Ok(format!(in alloc;
        "{{\"id\":{number},\"put\":{{\"key\":\"{key:016}\",\"value\":\"{number:032}\"}}}}"
    )?)
}

// A put at the leader, up to its ack and to the commit at each node: of so many keys in turn, and none with a text that was put
// before.
fn put_next<K: Keeper + Drop>(
    world: &mut World<K>,
    alloc: Global,
    leader: usize,
    keys: u64,
) -> Result<(), Fault> {
    let number = world.counts.acked;
    match put(alloc, number, number % keys.max(1)) {
        Ok(line) => world.event(leader, Given::Line(line.as_str())),
        Err(fault) => Err(fault),
    }
}

// So many puts at the leader.
fn put_all<K: Keeper + Drop>(
    world: &mut World<K>,
    alloc: Global,
    puts: u64,
    keys: u64,
) -> Result<(), Fault> {
    let leader = world.leader()?;
    for _ in 0..puts {
        let acked = world.counts.acked;
        put_next(world, alloc, leader, keys)?;
        if world.counts.acked == acked {
            return Err(Fault::Unexpected("a put without its ack"));
        }
    }
    Ok(())
}

// Excludes a node at the leader, which checks and is checked until the exclusion is done.
fn exclude<K: Keeper + Drop>(world: &mut World<K>, leader: usize) -> Result<(), Fault> {
    let acked = world.counts.acked;
    world.event(leader, Given::Line(EXCLUDE))?;
    world.tick_all(10)?;
    if world.counts.acked == acked {
        return Err(Fault::Unexpected("an exclusion without its ack"));
    }
    Ok(())
}

// So many nodes more, over journals.
fn add_nodes(world: &mut World<MemJournal>, alloc: Global, nodes: u8) -> Result<(), Fault> {
    let all = all_ids(alloc, nodes)?;
    for me in all.as_slice() {
        world.add(*me, &all, empty_journal(alloc)?)?;
    }
    Ok(())
}

// Three nodes more, over records that take no memory.
fn add_small_nodes(world: &mut World<PlainKeeper>, alloc: Global) -> Result<(), Fault> {
    let all = all_ids(alloc, 3)?;
    for me in all.as_slice() {
        world.add(*me, &all, PlainKeeper::new(alloc)?)?;
    }
    Ok(())
}

// The nodes elect a leader and take so many settings, and then so many rounds.
fn play<K: Keeper + Drop>(
    world: &mut World<K>,
    alloc: Global,
    round: Round,
    settings: u64,
    rounds: u64,
) -> Result<Figures, Fault> {
    world.tick_all(MOMENTS)?;
    put_all(world, alloc, settings, settings)?;
    let leader = world.leader()?;
    let played = match round {
        Round::FollowerTick => world.tick_often(if leader == 0 { 1 } else { 0 }, 1, rounds),
        Round::LeaderTick => world.tick_often(leader, 1_000, rounds),
        Round::Put => put_all(world, alloc, rounds, settings),
        Round::Exclude => exclude(world, leader),
    };
    played?;
    Ok(Figures::Sealed(world.counts))
}

/// So many new nodes over journals elect a leader, take so many settings, and then so many rounds.
pub fn run_rounds(
    alloc: Global,
    round: Round,
    nodes: u8,
    settings: u64,
    rounds: u64,
) -> Result<Figures, Fault> {
    let mut world = World::new(alloc);
    match add_nodes(&mut world, alloc, nodes) {
        Ok(()) => play(&mut world, alloc, round, settings, rounds),
        Err(fault) => Err(fault),
    }
}

/// A small cluster, for memory that is refused to its steps: three new nodes elect a leader, which takes a put and excludes a
/// node.
pub fn run_growths(alloc: Global) -> Result<Figures, Fault> {
    let mut world = World::new(alloc);
    match add_small_nodes(&mut world, alloc) {
        Ok(()) => play(&mut world, alloc, Round::Exclude, 1, 1),
        Err(fault) => Err(fault),
    }
}
