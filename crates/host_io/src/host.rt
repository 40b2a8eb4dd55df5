//! `SystemHost`: the host that is the system.
ghost use Rattle.std.specs.Prelude.{◌≡◌, ◌≤◌, None, ⊤};
ghost use Rattle.zen_disk.specs.Faults.{Rose};

use crate::children::{Children, SystemChild, Unwaited};
use crate::owner::Owner;
use crate::{FileDisks, Framing, SocketLink, StandardInput, StandardOutput};
use zen_host::{Ended, Host, HostError};
use zen_link::LinkSettings;

/// The host that is the system. A folder's disk is the files `journal.0` and `journal.1` in it, a link's frames are those of a
/// framing, and its children are those of this process.
#[derive(Drop)]
pub struct SystemHost<'a, F: Framing + Copy + Drop> {
    rt: &'a HostRuntime,
    framing: F,
    // For whom folders are opened.
    owner: Owner,
    disk_back: Option<FileDisks>,
    link_back: Option<SocketLink<HostRuntime, F>>,
    children: Children,
    // how many children were spawned, and neither waited for nor to be killed
    held: u64,
    // how many of all that were spawned have not ended, as far as is known
    running: u64,
    faults: u64,
}

impl<'a, F: Framing + Copy + Drop> SystemHost<'a, F> {
    /// This system, with no fault yet.
    pub fn new(rt: &'a HostRuntime, framing: F) -> SystemHost<'a, F>
        ensures { result.faults ≡ 0 }
    {
        SystemHost {
            rt,
            framing,
            owner: Owner::Any,
            disk_back: None,
            link_back: None,
            children: Children::new(rt.alloc()),
            held: 0,
            running: 0,
            faults: 0,
        }
    }

    /// The same system, whose folders are opened for this owner alone.
    pub fn owned_by(mut self, owner: Owner) -> SystemHost<'a, F>
        ensures { result.faults ≡ self.entry.faults }
    {
        self.owner = owner;
        self
    }

    // Counts a fault.
    fn failed(&mut self) -> HostError
        ensures failed { result ≡ HostError.Failed }
        ensures rose { Rose self.old.faults self.new.faults }
        ensures later { self.old.faults ≤ self.new.faults }
        ensures back { self.new.disk_back ≡ self.old.disk_back }
        ensures link_back { self.new.link_back ≡ self.old.link_back }
        ensures held { self.new.held ≡ self.old.held }
        ensures running { self.new.running ≡ self.old.running }
    {
        self.faults = self.faults.saturating_add(1);
        HostError::Failed
    }
}

impl<F: Framing + Copy + Drop> Host for SystemHost<'_, F> {
    type In = StandardInput;

    type Out = StandardOutput;

    type Disk = FileDisks;

    type Link = SocketLink<HostRuntime, F>;

    type Child = SystemChild;

    ghost calls = { λ _. None };

    ghost disk_ready = { λ _. None };

    ghost disk_back = { λ host. host.disk_back };

    ghost link_ready = { λ _. None };

    ghost link_back = { λ host. host.link_back };

    ghost held = { λ host. host.held };

    ghost running = { λ host. host.running };

    ghost child_number = { λ _. 0 };

    ghost faults = { λ host. host.faults };

    ghost moves = { λ _ _ _. ⊤ };

    ghost link_moves = { λ _ _ _. ⊤ };

    ghost spawn_moves = { λ _ _ _. ⊤ };

    ghost wait_moves = { λ _ _ _ _. ⊤ };

    ghost kill_moves = { λ _ _ _. ⊤ };

    fn open_disk(&mut self, dir: &str) -> Result<FileDisks, HostError> {
        match FileDisks::open_for(self.rt, dir, self.owner) {
            Ok(disk) => Ok(disk),
            Err(HostError::Memory) => Err(HostError::Memory),
            Err(HostError::Failed) => Err(self.failed()),
        }
    }

    fn open_link(
        &mut self,
        settings: &LinkSettings,
    ) -> Result<SocketLink<HostRuntime, F>, HostError> {
        match SocketLink::open(*self.rt, self.rt.alloc(), self.framing, settings) {
            Ok(link) => Ok(link),
            Err(HostError::Memory) => Err(HostError::Memory),
            Err(HostError::Failed) => Err(self.failed()),
        }
    }

    fn close_disk(&mut self, disk: FileDisks) {
        self.disk_back = Some(disk);
    }

    fn close_link(&mut self, link: SocketLink<HostRuntime, F>) {
        self.link_back = Some(link);
    }

    fn spawn(&mut self, program: &str, words: &[String]) -> Result<SystemChild, HostError> {
        if self.held == u64::MAX || self.running == u64::MAX {
            return Err(self.failed());
        }
        match self.children.spawn(self.rt, program, words) {
            Ok(child) => {
                self.held += 1;
                self.running += 1;
                Ok(child)
            }
            Err(HostError::Memory) => Err(HostError::Memory),
            Err(HostError::Failed) => Err(self.failed()),
        }
    }

    fn wait(&mut self, child: SystemChild) -> Result<Ended, HostError> {
        self.held = self.held.saturating_sub(1);
        match self.children.wait(child) {
            Ok(ended) => {
                self.running = self.running.saturating_sub(1);
                Ok(ended)
            }
            Err(Unwaited { error, ended }) => {
                if ended {
                    self.running = self.running.saturating_sub(1);
                }
                match error {
                    HostError::Memory => Err(HostError::Memory),
                    HostError::Failed => Err(self.failed()),
                }
            }
        }
    }

    fn kill(&mut self, child: SystemChild) -> Result<(), HostError> {
        self.held = self.held.saturating_sub(1);
        match self.children.kill(child) {
            Ok(()) => {
                self.running = self.running.saturating_sub(1);
                Ok(())
            }
            Err(HostError::Memory) => Err(HostError::Memory),
            Err(HostError::Failed) => Err(self.failed()),
        }
    }
}
