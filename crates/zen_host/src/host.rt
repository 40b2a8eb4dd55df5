//! The trait `Host`: what a program has outside itself, and how it is opened.
ghost use Rattle.std.specs.Prelude.{◌≡◌, ◌⊎◌, ℕ, ◌+◌, ◌-◌, ◌≤◌, Option, Some, Result, List, IfOk, OnOk, OnErr, IsErrOf, map, string_bytes};
ghost use Rattle.zen_disk.specs.Faults.{Rose};
ghost use Rattle.zen_host.specs.HostCalls.{HostCall, OpensDisk, OpensLink, Spawns, Kills, Notes, NotesWait, IsNumber, told_settings};

use thiserror::Error;
use zen_disk::Disks;
use zen_link::{Link, LinkSettings, Sink, Source};

/// Why a host refuses a call.
#[derive(Clone, Copy, Debug, PartialEq, Eq, Error)]
pub enum HostError {
    /// The call has failed, and the host's count of faults rose.
    #[error("the host failed")]
    Failed,
    /// There is no memory for the call.
    #[error("memory ran out")]
    Memory,
}

/// How a child ended.
#[derive(Debug, Drop)]
pub struct Ended {
    /// Its exit status, or 128 and the signal's number where a signal ended it.
    pub status: u8,
    /// What it wrote to its standard output.
    pub output: Vec<u8>,
}

/// The outside of a program: the types of its input and output, what opens a disk and a link, and what runs other
/// programs as its children.
pub trait Host {
    ghost use Rattle.zen_host.specs.declared.host.HostError.{HostError};
    ghost use Rattle.zen_host.specs.declared.host.Ended.{Ended};

    type In: Source + Drop;

    type Out: Sink + Drop;

    type Disk: Disks + Drop;

    type Link: Link + Drop;

    /// A program that was spawned. To drop it neither ends it nor waits for it.
    type Child: Drop;

    /// The calls that may be refused, in the order in which they were made, where the host tells.
    ghost calls: { Self → Option (List HostCall) };

    /// The disk that the next `open_disk` gives, where the host tells.
    ghost disk_ready: { Self → Option Self.Disk };

    /// The disk that was given back last.
    ghost disk_back: { Self → Option Self.Disk };

    /// The link that the next `open_link` gives, where the host tells.
    ghost link_ready: { Self → Option Self.Link };

    /// The link that was given back last.
    ghost link_back: { Self → Option Self.Link };

    /// How many children are held: they were spawned, and given neither to `wait` nor to `kill`.
    ghost held: { Self → ℕ };

    /// How many children run, as far as is known: they were spawned, and neither waited for nor killed. One that the host
    /// was asked to end, and did not, is among them.
    ghost running: { Self → ℕ };

    /// The number of the call that spawned a child, the first call being 1, where the host tells its calls.
    ghost child_number: { Self.Child → ℕ };

    /// How many faults there were.
    ghost faults: { Self → ℕ };

    /// Whether opening a disk with this result leads from one to the other, as far as the host tells.
    ghost moves: { Self → Self → Result Self.Disk HostError → Type 0 };

    /// Whether opening a link with this result leads from one to the other, as far as the host tells.
    ghost link_moves: { Self → Self → Result Self.Link HostError → Type 0 };

    /// Whether spawning with this result leads from one to the other, as far as the host tells.
    ghost spawn_moves: { Self → Self → Result Self.Child HostError → Type 0 };

    /// Whether waiting for this child with this result leads from one to the other, as far as the host tells.
    ghost wait_moves: { Self → Self → Self.Child → Result Ended HostError → Type 0 };

    /// Whether a killing with this result leads from one to the other, as far as the host tells.
    ghost kill_moves: { Self → Self → Result (Unit {0}) HostError → Type 0 };

    /// Opens the disk in a folder, whose count of faults is 0. `Failed` only where the host's count of faults rose.
    fn open_disk(&mut self, dir: &str) -> Result<Self::Disk, HostError>
        ensures call { Notes (calls self.old) (calls self.new) (OpensDisk dir.now) result }
        ensures given { IfOk result (λ disk. (given : Self.Disk) → disk_ready self.old ≡ Some given → disk ≡ given) }
        ensures fresh { IfOk result (λ disk. Self.Disk.faults disk ≡ 0) }
        ensures back { disk_back self.new ≡ disk_back self.old }
        ensures link_ready { link_ready self.new ≡ link_ready self.old }
        ensures link_back { link_back self.new ≡ link_back self.old }
        ensures held { held self.new ≡ held self.old }
        ensures running { running self.new ≡ running self.old }
        ensures later { faults self.old ≤ faults self.new }
        ensures failed { IsErrOf result HostError.Failed → Rose (faults self.old) (faults self.new) }
        ensures moves { moves self.old self.new result };

    /// Opens a link with these settings, whose count of faults is 0. `Failed` only where the host's count of faults rose.
    fn open_link(&mut self, settings: &LinkSettings) -> Result<Self::Link, HostError>
        ensures call { Notes (calls self.old) (calls self.new) (OpensLink (told_settings settings.now)) result }
        ensures given { IfOk result (λ link. (given : Self.Link) → link_ready self.old ≡ Some given → link ≡ given) }
        ensures fresh { IfOk result (λ link. Self.Link.faults link ≡ 0) }
        ensures back { link_back self.new ≡ link_back self.old }
        ensures disk_ready { disk_ready self.new ≡ disk_ready self.old }
        ensures disk_back { disk_back self.new ≡ disk_back self.old }
        ensures held { held self.new ≡ held self.old }
        ensures running { running self.new ≡ running self.old }
        ensures later { faults self.old ≤ faults self.new }
        ensures failed { IsErrOf result HostError.Failed → Rose (faults self.old) (faults self.new) }
        ensures moves { link_moves self.old self.new result };

    /// Takes a disk back.
    fn close_disk(&mut self, disk: Self::Disk)
        ensures back { disk_back self.new ≡ Some disk }
        ensures link_ready { link_ready self.new ≡ link_ready self.old }
        ensures link_back { link_back self.new ≡ link_back self.old }
        ensures calls { calls self.new ≡ calls self.old }
        ensures held { held self.new ≡ held self.old }
        ensures running { running self.new ≡ running self.old }
        ensures faults { faults self.new ≡ faults self.old };

    /// Takes a link back.
    fn close_link(&mut self, link: Self::Link)
        ensures back { link_back self.new ≡ Some link }
        ensures disk_ready { disk_ready self.new ≡ disk_ready self.old }
        ensures disk_back { disk_back self.new ≡ disk_back self.old }
        ensures calls { calls self.new ≡ calls self.old }
        ensures held { held self.new ≡ held self.old }
        ensures running { running self.new ≡ running self.old }
        ensures faults { faults self.new ≡ faults self.old };

    /// Runs a program with these words as a child: with an empty input, and with the same standard error. `Failed` only where
    /// the host's count of faults rose; no child runs then, nor where memory ran out.
    fn spawn(&mut self, program: &str, words: &[String]) -> Result<Self::Child, HostError>
        ensures call { Notes (calls self.old) (calls self.new) (Spawns program.now (map string_bytes words.now)) result }
        ensures number { IfOk result (λ child. IsNumber (calls self.new) (child_number child)) }
        ensures held { IfOk result (λ child. held self.new ≡ held self.old + 1) }
        ensures running { IfOk result (λ child. running self.new ≡ running self.old + 1) }
        ensures unheld { OnErr result (held self.new ≡ held self.old) }
        ensures refused { OnErr result (running self.new ≡ running self.old) }
        ensures disk_ready { disk_ready self.new ≡ disk_ready self.old }
        ensures disk_back { disk_back self.new ≡ disk_back self.old }
        ensures link_ready { link_ready self.new ≡ link_ready self.old }
        ensures link_back { link_back self.new ≡ link_back self.old }
        ensures later { faults self.old ≤ faults self.new }
        ensures failed { IsErrOf result HostError.Failed → Rose (faults self.old) (faults self.new) }
        ensures moves { spawn_moves self.old self.new result };

    /// Waits until a child has ended. The other children go on meanwhile, however much they write. `Failed` only where the
    /// host's count of faults rose. The host ends the child then, and where memory ran out; where it can't, the child runs on.
    fn wait(&mut self, child: Self::Child) -> Result<Ended, HostError>
        ensures call { NotesWait (calls self.old) (calls self.new) (child_number child) result }
        ensures held { held self.new ≡ held self.old - 1 }
        ensures running { IfOk result (λ ended. running self.new ≡ running self.old - 1) }
        ensures refused { OnErr result ((running self.new ≡ running self.old - 1) ⊎ (running self.new ≡ running self.old)) }
        ensures disk_ready { disk_ready self.new ≡ disk_ready self.old }
        ensures disk_back { disk_back self.new ≡ disk_back self.old }
        ensures link_ready { link_ready self.new ≡ link_ready self.old }
        ensures link_back { link_back self.new ≡ link_back self.old }
        ensures later { faults self.old ≤ faults self.new }
        ensures failed { IsErrOf result HostError.Failed → Rose (faults self.old) (faults self.new) }
        ensures moves { wait_moves self.old self.new child result };

    /// Ends a child at once. `Failed` only where the host's count of faults rose. Where it is refused, the child runs on.
    fn kill(&mut self, child: Self::Child) -> Result<(), HostError>
        ensures call { Notes (calls self.old) (calls self.new) (Kills (child_number child)) result }
        ensures held { held self.new ≡ held self.old - 1 }
        ensures running { OnOk result (running self.new ≡ running self.old - 1) }
        ensures refused { OnErr result (running self.new ≡ running self.old) }
        ensures disk_ready { disk_ready self.new ≡ disk_ready self.old }
        ensures disk_back { disk_back self.new ≡ disk_back self.old }
        ensures link_ready { link_ready self.new ≡ link_ready self.old }
        ensures link_back { link_back self.new ≡ link_back self.old }
        ensures later { faults self.old ≤ faults self.new }
        ensures failed { IsErrOf result HostError.Failed → Rose (faults self.old) (faults self.new) }
        ensures moves { kill_moves self.old self.new result };
}
