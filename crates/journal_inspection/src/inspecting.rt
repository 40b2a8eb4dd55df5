//! `inspect`: the disk of a folder opened, shown and given back.
ghost use Rattle.std.specs.Prelude.{◌≡◌, ◌≤◌, IfOk, OnErr, IsErrOf};
ghost use Rattle.zen_disk.specs.Faults.{Rose};
ghost use Rattle.zen_host.specs.HostCalls.{OpensDisk, Notes};
ghost use Rattle.zen_host.specs.Views.{host_view};
ghost use Rattle.journal_inspection.specs.Inspects.{LeavesLinks, Asked, EndsWith, IsComplete, Opened, Says, EndsShown};

use crate::showing::{Shown, show};
use std::alloc::Global;
use text::Text;
use zen_host::{Host, HostError};
use zen_link::{Sink, write_all};

/// How inspecting a folder ended.
#[derive(Clone, Copy, Debug, PartialEq, Eq)]
pub enum Inspection {
    /// The seven lines were written.
    Done,
    /// The files are no journal, and the line that says why was written.
    NotAJournal,
    /// Memory ran out, and nothing was written.
    NoMemory,
    /// The sink failed, and its count of faults rose.
    WriteFault,
    /// The disk that the host gave failed, and its count of faults rose.
    DiskFault,
    /// The host failed, and its count of faults rose.
    HostFault,
}

/// Writes a text, and answers `whole`, or `cut` where the sink failed.
pub fn say<S: Sink, E: Copy + Drop>(out: &mut S, text: &Text, whole: E, cut: E) -> E
    ensures says { Says text.now whole cut (S.written out.old) (S.written out.new) (S.faults out.old) (S.faults out.new) result }
    ensures later { S.faults out.old ≤ S.faults out.new }
{
    match write_all(out, text.as_bytes()) {
        Ok(()) => whole,
        Err(_) => cut,
    }
}

// Writes what is shown, and says how its inspection ends.
fn say_shown<S: Sink>(out: &mut S, shown: &Shown) -> Inspection
    ensures ends { EndsShown shown.now (S.written out.old) (S.written out.new) (S.faults out.old) (S.faults out.new) result }
    ensures later { S.faults out.old ≤ S.faults out.new }
{
    match shown {
        Shown::Report(text) => say(out, text, Inspection::Done, Inspection::WriteFault),
        Shown::NotAJournal(text) => {
            say(out, text, Inspection::NotAJournal, Inspection::WriteFault)
        }
        Shown::Disk => Inspection::DiskFault,
        Shown::Memory => Inspection::NoMemory,
    }
}

// Shows the journal in a folder, whose disk is given back.
fn show_folder<H: Host>(alloc: Global, dir: &str, host: &mut H) -> Result<Shown, HostError>
    ensures call { Notes (H.calls host.old) (H.calls host.new) (OpensDisk dir.now) result }
    ensures opened { IfOk result (λ s. Opened H.Disk.Disks (host_view H.Host host.old) (host_view H.Host host.new) s) }
    ensures back { OnErr result (H.disk_back host.new ≡ H.disk_back host.old) }
    ensures failed { IsErrOf result HostError.Failed → Rose (H.faults host.old) (H.faults host.new) }
    ensures links { LeavesLinks
        (host_view H.Host host.old)
        (host_view H.Host host.new) }
    ensures held { H.held host.new ≡ H.held host.old }
    ensures later { H.faults host.old ≤ H.faults host.new }
{
    let disk = host.open_disk(dir)?;
    let (disk, shown) = show(alloc, disk);
    host.close_disk(disk);
    Ok(shown)
}

/// Opens the journal in a folder, and writes what it keeps or why it is none. The disk is given back before anything is
/// written.
pub fn inspect<H: Host>(alloc: Global, dir: &str, out: &mut H::Out, host: &mut H) -> Inspection
    ensures asked { Asked dir.now (H.calls host.old) (H.calls host.new) result }
    ensures ended { EndsWith H.Disk.Disks
        (host_view H.Host host.old)
        (host_view H.Host host.new)
        (H.Out.written out.old) (H.Out.written out.new) (H.Out.faults out.old) (H.Out.faults out.new) result }
    ensures complete { IsComplete H.Disk.Disks
        (host_view H.Host host.old)
        (host_view H.Host host.new)
        (H.Out.faults out.old) (H.Out.faults out.new) result }
    ensures links { LeavesLinks
        (host_view H.Host host.old)
        (host_view H.Host host.new) }
    ensures held { H.held host.new ≡ H.held host.old }
    ensures wrote_later { H.Out.faults out.old ≤ H.Out.faults out.new }
    ensures later { H.faults host.old ≤ H.faults host.new }
{
    match show_folder(alloc, dir, host) {
        Ok(shown) => say_shown(out, &shown),
        Err(HostError::Failed) => Inspection::HostFault,
        Err(HostError::Memory) => Inspection::NoMemory,
    }
}
