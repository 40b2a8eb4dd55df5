//! A host in memory, whose calls fail as it was made to.
ghost use Rattle.std.specs.Prelude.{◌≡◌, ◌≤◌, true, [], ◌∷◌, ◌++◌, Some, None, map, string_bytes, IfOk, OnOk, OnErr};
ghost use Rattle.std.specs.Option.{ForSome};
ghost use Rattle.zen_disk.specs.Faults.{Rose};
ghost use Rattle.zen_disk.specs.Numbered.{is_listed};
ghost use Rattle.zen_host.specs.AskedCalls.{call_of};
ghost use Rattle.zen_host.specs.HostCalls.{OpensDisk, OpensLink, Spawns, WaitsFor, told_end, told_peer, told_settings};

use crate::{Ended, Host, HostError};
use std::alloc::{AllocError, Global};
use zen_disk::Disks;
use zen_link::{Link, LinkSettings, MemLink, MemSink, MemSource, Peer};

/// A call of a host in memory that may be refused.
#[derive(Drop)]
pub enum Asked {
    /// To open the disk in this folder, and whether that was refused as `Failed`.
    OpenDisk {
        dir: String,
        refused: bool,
    },
    /// To open a link with these settings, and whether that was refused as `Failed`.
    OpenLink {
        settings: LinkSettings,
        refused: bool,
    },
    /// To run this program with these words, and whether that was refused as `Failed`.
    Spawn {
        program: String,
        words: Vec<String>,
        refused: bool,
    },
    /// To wait for the child that this call spawned, the first call being 1, and how it ended, unless that was refused as
    /// `Failed`.
    Wait {
        child: usize,
        ended: Option<Ended>,
    },
    /// To kill the child that this call spawned, and whether that was refused as `Failed`.
    Kill {
        child: usize,
        refused: bool,
    },
}

/// A child of a host in memory. It ends as was said when the host was made.
#[derive(Drop)]
pub struct MemChild {
    number: usize,
    ended: Ended,
}

/// A host whose parts are in memory. It gives its disk and its link once, and its children end as was said when it was
/// made, in the order in which they are spawned. A call that may be refused is so where its number is in the list that the
/// host was made with, and where there is nothing to give or 2^64 - 1 children run; and a call that finds no memory in which
/// to be noted answers `Memory`.
#[derive(Drop)]
pub struct MemHost<D: Disks + Drop, L: Link + Drop = MemLink<()>> {
    alloc: Global,
    disk: Option<D>,
    link: Option<L>,
    disk_back: Option<D>,
    link_back: Option<L>,
    ends: Vec<Ended>,
    held: u64,
    running: u64,
    asked: Vec<Asked>,
    fails: Vec<u64>,
    number: u64,
    faults: u64,
    ghost counted: { held ≤ running },
    ghost fresh: { ForSome disk (λ given. D.faults given ≡ 0) },
    ghost link_fresh: { ForSome link (λ given. L.faults given ≡ 0) },
}

impl<D: Disks + Drop> MemHost<D, MemLink<()>> {
    /// A host that gives this disk, no link, and children that end so, one after the other. The calls fail whose numbers are listed,
    /// the first being 1.
    pub fn with_children(
        alloc: Global,
        disk: D,
        ends: Vec<Ended>,
        fails: Vec<u64>,
    ) -> MemHost<D, MemLink<()>>
        requires { D.faults disk ≡ 0 }
        ensures calls { ⟦<MemHost<D, MemLink<()>> as Host>⟧.calls result ≡ Some [] }
        ensures ready { ⟦<MemHost<D, MemLink<()>> as Host>⟧.disk_ready result ≡ Some disk }
        ensures link_ready { ⟦<MemHost<D, MemLink<()>> as Host>⟧.link_ready result ≡ None }
        ensures back { ⟦<MemHost<D, MemLink<()>> as Host>⟧.disk_back result ≡ None }
        ensures link_back { ⟦<MemHost<D, MemLink<()>> as Host>⟧.link_back result ≡ None }
        ensures faults { ⟦<MemHost<D, MemLink<()>> as Host>⟧.faults result ≡ 0 }
        ensures held { ⟦<MemHost<D, MemLink<()>> as Host>⟧.held result ≡ 0 }
        ensures running { ⟦<MemHost<D, MemLink<()>> as Host>⟧.running result ≡ 0 }
        ensures ends { result.ends ≡ ends }
        ensures number { result.number ≡ 0 }
        ensures fails { result.fails ≡ fails }
    {
        MemHost {
            alloc,
            disk: Some(disk),
            link: None,
            disk_back: None,
            link_back: None,
            ends,
            held: 0,
            running: 0,
            asked: Vec::new(alloc),
            fails,
            number: 0,
            faults: 0,
        }
    }
}

impl<D: Disks + Drop, L: Link + Drop> MemHost<D, L> {
    /// A host that gives this disk and this link. The calls fail whose numbers are listed, the first being 1.
    pub fn with_link(alloc: Global, disk: D, link: L, fails: Vec<u64>) -> MemHost<D, L>
        requires fresh { D.faults disk ≡ 0 }
        requires link_fresh { L.faults link ≡ 0 }
        ensures calls { ⟦<MemHost<D, L> as Host>⟧.calls result ≡ Some [] }
        ensures ready { ⟦<MemHost<D, L> as Host>⟧.disk_ready result ≡ Some disk }
        ensures link_ready { ⟦<MemHost<D, L> as Host>⟧.link_ready result ≡ Some link }
        ensures back { ⟦<MemHost<D, L> as Host>⟧.disk_back result ≡ None }
        ensures link_back { ⟦<MemHost<D, L> as Host>⟧.link_back result ≡ None }
        ensures faults { ⟦<MemHost<D, L> as Host>⟧.faults result ≡ 0 }
        ensures held { ⟦<MemHost<D, L> as Host>⟧.held result ≡ 0 }
        ensures running { ⟦<MemHost<D, L> as Host>⟧.running result ≡ 0 }
        ensures ends { result.ends.items ≡ [] }
        ensures number { result.number ≡ 0 }
        ensures fails { result.fails ≡ fails }
    {
        MemHost {
            alloc,
            disk: Some(disk),
            link: Some(link),
            disk_back: None,
            link_back: None,
            ends: Vec::new(alloc),
            held: 0,
            running: 0,
            asked: Vec::new(alloc),
            fails,
            number: 0,
            faults: 0,
        }
    }

    /// The calls that were made.
    pub fn asked(&self) -> &[Asked]
        ensures { Some (map call_of result.now) ≡ ⟦<MemHost<D, L> as Host>⟧.calls self.now }
    {
        self.asked.as_slice()
    }

    /// How many children run.
    pub fn running_count(&self) -> u64
        ensures { result ≡ ⟦<MemHost<D, L> as Host>⟧.running self.now }
    {
        self.running
    }

    /// The disk that was given back last.
    pub fn into_disk_back(self) -> Option<D>
        ensures { result ≡ ⟦<MemHost<D, L> as Host>⟧.disk_back self }
    {
        self.disk_back
    }

    /// The disk and the link that were given back last.
    pub fn into_given_back(self) -> (Option<D>, Option<L>)
        ensures { result ≡ (⟦<MemHost<D, L> as Host>⟧.disk_back self, ⟦<MemHost<D, L> as Host>⟧.link_back self) }
    {
        (self.disk_back, self.link_back)
    }
}

// Whether the call of this number is to fail.
fn is_to_fail(fails: &[u64], number: u64) -> bool
    ensures { result ≡ is_listed fails.now number }
{
    fails.contains(&number)
}

fn count_refusal(faults: &mut u64) -> HostError
    ensures failed { result ≡ HostError.Failed }
    ensures later { faults.old ≤ faults.new }
    ensures rose { Rose faults.old faults.new }
{
    *faults = faults.saturating_add(1);
    HostError::Failed
}

fn note(asked: &mut Vec<Asked>, call: Asked) -> Result<(), AllocError>
    ensures told { OnOk result (map call_of asked.new.items ≡ map call_of asked.old.items ++ call_of call ∷ []) }
    ensures kept { OnErr result (asked.new.items ≡ asked.old.items) }
{
    asked.push(call)?;
    Ok(())
}

// Notes a call to open the disk in a folder.
fn note_disk(
    alloc: Global,
    asked: &mut Vec<Asked>,
    dir: &str,
    refused: bool,
) -> Result<(), AllocError>
    ensures told { OnOk result (map call_of asked.new.items ≡ map call_of asked.old.items ++ OpensDisk dir.now refused ∷ []) }
    ensures kept { OnErr result (asked.new.items ≡ asked.old.items) }
{
    let dir = String::from_str(alloc, dir)?;
    note(asked, Asked::OpenDisk { dir, refused })
}

// Refuses a call to open the disk in a folder, and counts a fault.
fn refuse(alloc: Global, asked: &mut Vec<Asked>, faults: &mut u64, dir: &str) -> HostError
    ensures told { result ≡ HostError.Failed → map call_of asked.new.items ≡ map call_of asked.old.items ++ OpensDisk dir.now true ∷ [] }
    ensures kept { result ≡ HostError.Memory → asked.new.items ≡ asked.old.items }
    ensures rose { result ≡ HostError.Failed → Rose faults.old faults.new }
    ensures same { result ≡ HostError.Memory → faults.new ≡ faults.old }
    ensures later { faults.old ≤ faults.new }
{
    let Ok(()) = note_disk(alloc, asked, dir, true) else {
        return HostError::Memory;
    };
    count_refusal(faults)
}

fn copy_peers(alloc: Global, peers: &[Peer]) -> Result<Vec<Peer>, AllocError>
    ensures { IfOk result (λ copies. map told_peer copies.items ≡ map told_peer peers.now) }
{
    let mut copies = Vec::new(alloc);
    for peer in peers {
        let address = peer.address.clone()?;
        copies.push(Peer {
            id: peer.id,
            address,
        })?;
    }
    Ok(copies)
}

fn copy_settings(alloc: Global, settings: &LinkSettings) -> Result<LinkSettings, AllocError>
    ensures { IfOk result (λ copy. told_settings copy ≡ told_settings settings.now) }
{
    let listen = settings.listen.clone()?;
    let peers = copy_peers(alloc, &settings.peers)?;
    Ok(LinkSettings {
        me: settings.me,
        listen,
        peers,
    })
}

// Notes a call to open a link with these settings.
fn note_link(
    alloc: Global,
    asked: &mut Vec<Asked>,
    settings: &LinkSettings,
    refused: bool,
) -> Result<(), AllocError>
    ensures told { OnOk result
        (map call_of asked.new.items ≡ map call_of asked.old.items ++ OpensLink (told_settings settings.now) refused ∷ []) }
    ensures kept { OnErr result (asked.new.items ≡ asked.old.items) }
{
    let settings = copy_settings(alloc, settings)?;
    note(asked, Asked::OpenLink { settings, refused })
}

// Refuses a call to open a link with these settings, and counts a fault.
fn refuse_link(
    alloc: Global,
    asked: &mut Vec<Asked>,
    faults: &mut u64,
    settings: &LinkSettings,
) -> HostError
    ensures told { result ≡ HostError.Failed
        → map call_of asked.new.items ≡ map call_of asked.old.items ++ OpensLink (told_settings settings.now) true ∷ [] }
    ensures kept { result ≡ HostError.Memory → asked.new.items ≡ asked.old.items }
    ensures rose { result ≡ HostError.Failed → Rose faults.old faults.new }
    ensures same { result ≡ HostError.Memory → faults.new ≡ faults.old }
    ensures later { faults.old ≤ faults.new }
{
    let Ok(()) = note_link(alloc, asked, settings, true) else {
        return HostError::Memory;
    };
    count_refusal(faults)
}

fn copy_words(alloc: Global, words: &[String]) -> Result<Vec<String>, AllocError>
    ensures { IfOk result (λ copies. map string_bytes copies.items ≡ map string_bytes words.now) }
{
    let mut copies = Vec::new(alloc);
    for word in words {
        copies.push(word.clone()?)?;
    }
    Ok(copies)
}

// Notes a call to run a program with these words.
fn note_spawn(
    alloc: Global,
    asked: &mut Vec<Asked>,
    program: &str,
    words: &[String],
    refused: bool,
) -> Result<(), AllocError>
    ensures told { OnOk result
        (map call_of asked.new.items ≡ map call_of asked.old.items ++ Spawns program.now (map string_bytes words.now) refused ∷ []) }
    ensures kept { OnErr result (asked.new.items ≡ asked.old.items) }
{
    let program = String::from_str(alloc, program)?;
    let words = copy_words(alloc, words)?;
    note(
        asked,
        Asked::Spawn {
            program,
            words,
            refused,
        },
    )
}

// Refuses a call to run a program with these words, and counts a fault.
fn refuse_spawn(
    alloc: Global,
    asked: &mut Vec<Asked>,
    faults: &mut u64,
    program: &str,
    words: &[String],
) -> HostError
    ensures told { result ≡ HostError.Failed
        → map call_of asked.new.items ≡ map call_of asked.old.items ++ Spawns program.now (map string_bytes words.now) true ∷ [] }
    ensures kept { result ≡ HostError.Memory → asked.new.items ≡ asked.old.items }
    ensures rose { result ≡ HostError.Failed → Rose faults.old faults.new }
    ensures same { result ≡ HostError.Memory → faults.new ≡ faults.old }
    ensures later { faults.old ≤ faults.new }
{
    let Ok(()) = note_spawn(alloc, asked, program, words, true) else {
        return HostError::Memory;
    };
    count_refusal(faults)
}

fn copy_end(alloc: Global, ended: &Ended) -> Result<Ended, AllocError>
    ensures { IfOk result (λ copy. told_end copy ≡ told_end ended.now) }
{
    let output = Vec::from_slice(alloc, ended.output.as_slice())?;
    Ok(Ended {
        status: ended.status,
        output,
    })
}

// Notes a wait for the child that this call spawned, which ended so.
fn note_end(
    alloc: Global,
    asked: &mut Vec<Asked>,
    child: usize,
    ended: &Ended,
) -> Result<(), AllocError>
    ensures told { OnOk result
        (map call_of asked.new.items ≡ map call_of asked.old.items ++ WaitsFor child (Some (told_end ended.now)) ∷ []) }
    ensures kept { OnErr result (asked.new.items ≡ asked.old.items) }
{
    let ended = copy_end(alloc, ended)?;
    note(
        asked,
        Asked::Wait {
            child,
            ended: Some(ended),
        },
    )
}

// Refuses a call that was noted so, and counts a fault.
fn refuse_noted(asked: &mut Vec<Asked>, faults: &mut u64, call: Asked) -> HostError
    ensures told { result ≡ HostError.Failed → map call_of asked.new.items ≡ map call_of asked.old.items ++ call_of call ∷ [] }
    ensures kept { result ≡ HostError.Memory → asked.new.items ≡ asked.old.items }
    ensures rose { result ≡ HostError.Failed → Rose faults.old faults.new }
    ensures same { result ≡ HostError.Memory → faults.new ≡ faults.old }
    ensures later { faults.old ≤ faults.new }
{
    let Ok(()) = note(asked, call) else {
        return HostError::Memory;
    };
    count_refusal(faults)
}

impl<D: Disks + Drop, L: Link + Drop> Host for MemHost<D, L> {
    ghost use Rattle.zen_host.specs.MemHost.{MemOpens, MemSpawns, MemWaits, MemKills};

    type In = MemSource;

    type Out = MemSink;

    type Disk = D;

    type Link = L;

    type Child = MemChild;

    ghost calls = { λ host. Some (map call_of host.asked.items) };

    ghost disk_ready = { λ host. host.disk };

    ghost disk_back = { λ host. host.disk_back };

    ghost link_ready = { λ host. host.link };

    ghost link_back = { λ host. host.link_back };

    ghost held = { λ host. host.held };

    ghost running = { λ host. host.running };

    ghost child_number = { λ child. child.number };

    ghost faults = { λ host. host.faults };

    ghost moves = { λ old new result. MemOpens old.fails.items new.fails.items old.number new.number old.disk new.disk old.faults new.faults
        result };

    ghost link_moves = { λ old new result. MemOpens old.fails.items new.fails.items old.number new.number old.link new.link old.faults
        new.faults result };

    ghost spawn_moves = { λ old new result. MemSpawns old.fails.items new.fails.items old.number new.number old.ends.items new.ends.items
        old.running old.faults new.faults result };

    ghost wait_moves = { λ old new child result. MemWaits old.fails.items new.fails.items old.number new.number old.ends new.ends child
        old.faults new.faults result };

    ghost kill_moves = { λ old new result. MemKills old.fails.items new.fails.items old.number new.number old.ends new.ends old.faults
        new.faults result };

    fn open_disk(&mut self, dir: &str) -> Result<D, HostError> {
        self.number = self.number.saturating_add(1);
        if is_to_fail(&self.fails, self.number) {
            return Err(refuse(self.alloc, &mut self.asked, &mut self.faults, dir));
        }
        let Some(disk) = self.disk.take() else {
            return Err(refuse(self.alloc, &mut self.asked, &mut self.faults, dir));
        };
        let Ok(()) = note_disk(self.alloc, &mut self.asked, dir, false) else {
            self.disk = Some(disk);
            return Err(HostError::Memory);
        };
        Ok(disk)
    }

    fn open_link(&mut self, settings: &LinkSettings) -> Result<L, HostError> {
        self.number = self.number.saturating_add(1);
        if is_to_fail(&self.fails, self.number) {
            return Err(refuse_link(self.alloc, &mut self.asked, &mut self.faults, settings));
        }
        let Some(link) = self.link.take() else {
            return Err(refuse_link(self.alloc, &mut self.asked, &mut self.faults, settings));
        };
        let Ok(()) = note_link(self.alloc, &mut self.asked, settings, false) else {
            self.link = Some(link);
            return Err(HostError::Memory);
        };
        Ok(link)
    }

    fn close_disk(&mut self, disk: D) {
        self.disk_back = Some(disk);
    }

    fn close_link(&mut self, link: L) {
        self.link_back = Some(link);
    }

    fn spawn(&mut self, program: &str, words: &[String]) -> Result<MemChild, HostError> {
        self.number = self.number.saturating_add(1);
        if is_to_fail(&self.fails, self.number)
            || self.ends.is_empty()
            || self.running == u64::MAX
        {
            return Err(refuse_spawn(
                self.alloc,
                &mut self.asked,
                &mut self.faults,
                program,
                words,
            ));
        }
        let Ok(()) = note_spawn(self.alloc, &mut self.asked, program, words, false) else {
            return Err(HostError::Memory);
        };
        self.running += 1;
        self.held += 1;
        let ended = self.ends.remove(0);
        Ok(MemChild {
            number: self.asked.len(),
            ended,
        })
    }

    fn wait(&mut self, child: MemChild) -> Result<Ended, HostError> {
        self.held = self.held.saturating_sub(1);
        self.running = self.running.saturating_sub(1);
        self.number = self.number.saturating_add(1);
        let MemChild { number, ended } = child;
        if is_to_fail(&self.fails, self.number) {
            let call = Asked::Wait {
                child: number,
                ended: None,
            };
            return Err(refuse_noted(&mut self.asked, &mut self.faults, call));
        }
        let Ok(()) = note_end(self.alloc, &mut self.asked, number, &ended) else {
            return Err(HostError::Memory);
        };
        Ok(ended)
    }

    fn kill(&mut self, child: MemChild) -> Result<(), HostError> {
        self.held = self.held.saturating_sub(1);
        self.number = self.number.saturating_add(1);
        let refused = is_to_fail(&self.fails, self.number);
        let call = Asked::Kill {
            child: child.number,
            refused,
        };
        if refused {
            return Err(refuse_noted(&mut self.asked, &mut self.faults, call));
        }
        let Ok(()) = note(&mut self.asked, call) else {
            return Err(HostError::Memory);
        };
        self.running = self.running.saturating_sub(1);
        Ok(())
    }
}
