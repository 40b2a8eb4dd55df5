//! A host in memory: its disk, its link and its children. What is expected follows from what the host was told to refuse.
use self::Row::*;
use crate::hosts::{disk, host_of};
use std::alloc::{AllocError, Global};
use std::test::Fail;
use voting_config::NodeId;
use zen_disk::{Disks, MemDisks, Side};
use zen_host::{Asked, Ended, Host, HostError, MemChild, MemHost};
use zen_link::{Input, Link, LinkSettings, MemLink, Peer};

// A letter for a call, the child that it was for or how many words, peers or bytes of a name it was made with, and whether it
// was refused.
type Call = (u8, usize, bool);

fn summary(call: &Asked) -> Call {
    match call {
        Asked::OpenDisk { dir, refused } => (b'd', dir.len(), *refused),
        Asked::OpenLink { settings, refused } => (b'l', settings.peers.len(), *refused),
        Asked::Spawn { words, refused, .. } => (b's', words.len(), *refused),
        Asked::Wait { child, ended } => (b'w', *child, ended.is_none()),
        Asked::Kill { child, refused } => (b'k', *child, *refused),
    }
}

fn are_calls(calls: &[Asked], wanted: &[Call]) -> bool {
    let mut left = wanted.iter();
    for call in calls {
        if left.next() != Some(&summary(call)) {
            return false;
        }
    }
    left.next().is_none()
}

// Settings with one peer.
fn settings(alloc: Global) -> Result<LinkSettings, AllocError> {
    let peer = Peer {
        id: NodeId::default(),
        address: String::from_str(alloc, "p")?,
    };
    Ok(LinkSettings {
        me: NodeId::default(),
        listen: String::from_str(alloc, "l")?,
        peers: vec![in alloc; peer]?,
    })
}

fn is_end(answer: Result<Ended, HostError>, status: u8, output: &str) -> bool {
    match answer {
        Ok(ended) => ended.status == status && ended.output.as_slice() == output.as_bytes(),
        Err(_) => false,
    }
}

// Keeps what was given.
fn keep<T: Drop>(slot: &mut Option<T>, answer: Result<T, HostError>) -> Result<(), HostError> {
    match answer {
        Ok(value) => {
            *slot = Some(value);
            Ok(())
        }
        Err(error) => Err(error),
    }
}

fn is_refused<T: Drop>(answer: Result<T, HostError>) -> bool {
    matches!(answer, Err(HostError::Failed))
}

fn words(alloc: Global, count: usize) -> Result<Vec<String>, AllocError> {
    let mut words = Vec::new(alloc);
    for _ in 0..count {
        words.push(String::from_str(alloc, "w")?)?;
    }
    Ok(words)
}

// What is asked of a host, and what it answers. A child is named by its place among those that were spawned.
#[derive(Clone, Copy)]
enum Row {
    OpensDisk(&'static str),
    RefusesDisk(&'static str),
    // The disk that it gave has so many bytes on side zero.
    DiskHas(u64),
    DiskGoesBack,
    // With one peer.
    OpensLink,
    RefusesLink,
    // The link that it gave has nothing left.
    LinkStops,
    LinkGoesBack,
    // With so many words.
    Spawns(usize),
    RefusesToSpawn,
    Waits(usize, u8, &'static str),
    RefusesToWait(usize),
    Kills(usize),
    RefusesToKill(usize),
    // So many run.
    AreRunning(u64),
}

// A host with a link, of which these calls are refused.
fn host_with_link(alloc: Global, refused: &[u64]) -> Result<MemHost<MemDisks>, AllocError> {
    let refused = Vec::from_slice(alloc, refused)?;
    let disk = disk(alloc)?;
    let link = MemLink::new(alloc, Vec::new(alloc), Vec::new(alloc));
    Ok(MemHost::with_link(alloc, disk, link, refused))
}

// A host, and what it gave: its disk, its link, and those of its children that run.
#[derive(Drop)]
struct World<'a> {
    alloc: Global,
    host: &'a mut MemHost<MemDisks>,
    disk: Option<MemDisks>,
    link: Option<MemLink<()>>,
    running: Vec<Option<MemChild>>,
}

impl<'a> World<'a> {
    fn of(alloc: Global, host: &'a mut MemHost<MemDisks>) -> World<'a> {
        World {
            alloc,
            host,
            disk: None,
            link: None,
            running: Vec::new(alloc),
        }
    }

    fn is_so(&mut self, row: Row) -> bool {
        match row {
            OpensDisk(dir) => keep(&mut self.disk, self.host.open_disk(dir)).is_ok(),
            RefusesDisk(dir) => is_refused(self.host.open_disk(dir)),
            DiskHas(len) => self.disk_has(len),
            DiskGoesBack => self.disk_goes_back(),
            OpensLink => self.open_link().is_ok(),
            RefusesLink => is_refused(self.open_link()),
            LinkStops => self.link_stops(),
            LinkGoesBack => self.link_goes_back(),
            Spawns(count) => self.spawns(count),
            RefusesToSpawn => is_refused(self.spawn(0)),
            Waits(place, status, output) => is_end(self.wait(place), status, output),
            RefusesToWait(place) => is_refused(self.wait(place)),
            Kills(place) => self.kill(place).is_ok(),
            RefusesToKill(place) => is_refused(self.kill(place)),
            AreRunning(count) => self.host.running_count() == count,
        }
    }

    fn disk_has(&mut self, len: u64) -> bool {
        match &mut self.disk {
            Some(disk) => disk.len(Side::Zero) == Ok(len),
            None => false,
        }
    }

    fn disk_goes_back(&mut self) -> bool {
        match self.disk.take() {
            Some(disk) => {
                self.host.close_disk(disk);
                true
            }
            None => false,
        }
    }

    fn open_link(&mut self) -> Result<(), HostError> {
        match settings(self.alloc) {
            Ok(settings) => keep(&mut self.link, self.host.open_link(&settings)),
            Err(_) => Err(HostError::Memory),
        }
    }

    fn link_stops(&mut self) -> bool {
        match &mut self.link {
            Some(link) => matches!(link.next(), Ok(Input::Stop)),
            None => false,
        }
    }

    fn link_goes_back(&mut self) -> bool {
        match self.link.take() {
            Some(link) => {
                self.host.close_link(link);
                true
            }
            None => false,
        }
    }

    fn spawn(&mut self, count: usize) -> Result<MemChild, HostError> {
        match words(self.alloc, count) {
            Ok(words) => self.host.spawn("p", words.as_slice()),
            Err(_) => Err(HostError::Memory),
        }
    }

    fn spawns(&mut self, count: usize) -> bool {
        match self.spawn(count) {
            Ok(child) => self.running.push(Some(child)).is_ok(),
            Err(_) => false,
        }
    }

    fn taken(&mut self, place: usize) -> Result<MemChild, HostError> {
        match self.running.get_mut(place) {
            Some(slot) => slot.take().ok_or(HostError::Memory),
            None => Err(HostError::Memory),
        }
    }

    fn wait(&mut self, place: usize) -> Result<Ended, HostError> {
        let child = self.taken(place)?;
        self.host.wait(child)
    }

    fn kill(&mut self, place: usize) -> Result<(), HostError> {
        let child = self.taken(place)?;
        self.host.kill(child)
    }
}

// The place of the first row that is not so.
fn first_untrue(alloc: Global, host: &mut MemHost<MemDisks>, rows: &[Row]) -> Option<usize> {
    let mut world = World::of(alloc, host);
    let mut untrue = None;
    for (place, row) in rows.iter().enumerate() {
        if !world.is_so(*row) {
            untrue = Some(place);
            break;
        }
    }
    untrue
}

// What is asked of a host: its disk or its link, which it then has back, or children.
#[derive(Clone, Copy)]
enum Of {
    Disk,
    Link,
    Children,
}

// A host of which these calls are refused. The first child ends with status 3 and writes "x", the second one with 0.
fn host_for(alloc: Global, of: Of, refused: &[u64]) -> Result<MemHost<MemDisks>, AllocError> {
    match of {
        Of::Link => host_with_link(alloc, refused),
        Of::Disk | Of::Children => host_of(alloc, &[(3, "x"), (0, "")], refused),
    }
}

fn is_back(host: MemHost<MemDisks>, of: Of) -> bool {
    let (disk, link) = host.into_given_back();
    disk.is_some() == matches!(of, Of::Disk) && link.is_some() == matches!(of, Of::Link)
}

// A test's name, what is asked for, which calls are refused, the rows, and the calls that the host has had then.
type Test = (
    &'static str,
    Of,
    &'static [u64],
    &'static [Row],
    &'static [Call],
);

// Says which row is not so, the first being row 0, or that the calls were others or that something else was given back.
fn run(alloc: Global, test: &Test) -> Result<(), Fail> {
    let (name, of, refused, rows, calls) = *test;
    let mut host = host_for(alloc, of, refused)?;
    let untrue = first_untrue(alloc, &mut host, rows);
    let are_calls = are_calls(host.asked(), calls);
    let is_back = is_back(host, of);
    match untrue {
        Some(place) => Err(Fail::new(format_args!("{name}: row {place}"))),
        None if are_calls && is_back => Ok(()),
        None => Err(Fail::new(format_args!("{name}: other calls, or something else is back"))),
    }
}

const DISK: &[Row] = &[
    RefusesDisk("a"),
    OpensDisk("b"),
    DiskHas(2),
    DiskGoesBack,
    RefusesDisk("b"),
];

const DISK_CALLS: &[Call] = &[(b'd', 1, true), (b'd', 1, false), (b'd', 1, true)];

const LINK: &[Row] = &[RefusesLink, OpensLink, LinkStops, LinkGoesBack];

const LINK_CALLS: &[Call] = &[(b'l', 1, true), (b'l', 1, false)];

const THREE_CHILDREN: &[Row] = &[
    Spawns(1),
    RefusesToSpawn,
    Spawns(0),
    // No end is left.
    RefusesToSpawn,
    RefusesToWait(1),
    Waits(0, 3, "x"),
    AreRunning(0),
];

const THREE_CHILDREN_CALLS: &[Call] = &[
    (b's', 1, false),
    (b's', 0, true),
    (b's', 0, false),
    (b's', 0, true),
    (b'w', 3, true),
    (b'w', 1, false),
];

const KILLINGS: &[Row] = &[
    Spawns(0),
    Spawns(0),
    RefusesToKill(1),
    Kills(0),
    // The child whose killing was refused runs on.
    AreRunning(1),
];

const KILLING_CALLS: &[Call] = &[
    (b's', 0, false),
    (b's', 0, false),
    (b'k', 2, true),
    (b'k', 1, false),
];

const TESTS: &[Test] = &[
    (
        "a_host_gives_its_disk_and_takes_it_back",
        Of::Disk,
        &[1],
        DISK,
        DISK_CALLS,
    ),
    (
        "a_host_gives_its_link_and_takes_it_back",
        Of::Link,
        &[1],
        LINK,
        LINK_CALLS,
    ),
    (
        "children_end_in_the_order_in_which_they_are_spawned",
        Of::Children,
        &[2, 5],
        THREE_CHILDREN,
        THREE_CHILDREN_CALLS,
    ),
    (
        "a_killing_is_told",
        Of::Children,
        &[3],
        KILLINGS,
        KILLING_CALLS,
    ),
];

#[test]
fn a_host_in_memory_gives_takes_back_and_tells(rt: HostRuntime) -> Result<(), Fail> {
    for test in TESTS {
        run(rt.alloc(), test)?;
    }
    Ok(())
}
