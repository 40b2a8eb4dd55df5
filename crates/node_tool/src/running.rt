//! A tool used on the journal in a folder: the disk is opened, and given back before anything is written.
ghost use Rattle.std.specs.Prelude.{◌≡◌, ◌≤◌, IfOk, OnErr, IsErrOf};
ghost use Rattle.zen_disk.specs.Faults.{Rose};
ghost use Rattle.zen_host.specs.HostCalls.{OpensDisk, Notes};
ghost use Rattle.zen_host.specs.Views.{host_view};
ghost use Rattle.journal_inspection.specs.Inspects.{LeavesLinks};
ghost use Rattle.node_tool.specs.Runs.{Asked, EndsWith, IsComplete, Used, EndsTooled};

use crate::{Tool, Tooled, use_tool};
use journal_inspection::say;
use std::alloc::Global;
use zen_host::{Host, HostError};
use zen_link::Sink;

/// How the use of a tool on a folder ended.
#[derive(Clone, Copy, Debug, PartialEq, Eq)]
pub enum ToolEnd {
    /// The journal keeps the new record, whose seven lines were written.
    Done,
    /// The record is refused and stays, and the line that says why was written.
    Refused,
    /// The files are no journal, and the line that says why was written.
    NotAJournal,
    /// Memory ran out, and nothing was written to the sink.
    NoMemory,
    /// The sink failed, and its count of faults rose.
    WriteFault,
    /// The disk that the host gave failed, and its count of faults rose.
    DiskFault,
    /// The host failed, and its count of faults rose.
    HostFault,
}

// Writes what a tool made, and says how its use ends.
fn say_tooled<S: Sink>(out: &mut S, tooled: &Tooled) -> ToolEnd
    ensures ends { EndsTooled tooled.now (S.written out.old) (S.written out.new) (S.faults out.old) (S.faults out.new) result }
    ensures later { S.faults out.old ≤ S.faults out.new }
{
    match tooled {
        Tooled::Report(text) => say(out, text, ToolEnd::Done, ToolEnd::WriteFault),
        Tooled::Refused(text) => say(out, text, ToolEnd::Refused, ToolEnd::WriteFault),
        Tooled::NotAJournal(text) => say(out, text, ToolEnd::NotAJournal, ToolEnd::WriteFault),
        Tooled::Disk => ToolEnd::DiskFault,
        Tooled::Memory => ToolEnd::NoMemory,
    }
}

// Uses a tool on the journal in a folder, whose disk is given back.
fn use_in_folder<H: Host>(
    alloc: Global,
    tool: Tool,
    dir: &str,
    host: &mut H,
) -> Result<Tooled, HostError>
    ensures call { Notes (H.calls host.old) (H.calls host.new) (OpensDisk dir.now) result }
    ensures used { IfOk result (λ t. Used H.Disk.Disks tool (host_view H.Host host.old) (host_view H.Host host.new) t) }
    ensures back { OnErr result (H.disk_back host.new ≡ H.disk_back host.old) }
    ensures failed { IsErrOf result HostError.Failed → Rose (H.faults host.old) (H.faults host.new) }
    ensures links { LeavesLinks
        (host_view H.Host host.old)
        (host_view H.Host host.new) }
    ensures held { H.held host.new ≡ H.held host.old }
    ensures later { H.faults host.old ≤ H.faults host.new }
{
    let disk = host.open_disk(dir)?;
    let (disk, tooled) = use_tool(alloc, tool, disk);
    host.close_disk(disk);
    Ok(tooled)
}

/// Opens the journal in a folder and uses a tool on it, and writes what it keeps then, or why the tool refuses it, or why it is no
/// journal. The disk is given back before anything is written.
///
/// The folder must be that of a node that does not run.
pub fn run_tool<H: Host>(
    alloc: Global,
    tool: Tool,
    dir: &str,
    out: &mut H::Out,
    host: &mut H,
) -> ToolEnd
    ensures asked { Asked dir.now (H.calls host.old) (H.calls host.new) result }
    ensures ended { EndsWith H.Disk.Disks tool
        (host_view H.Host host.old)
        (host_view H.Host host.new)
        (H.Out.written out.old) (H.Out.written out.new) (H.Out.faults out.old) (H.Out.faults out.new) result }
    ensures complete { IsComplete H.Disk.Disks tool
        (host_view H.Host host.old)
        (host_view H.Host host.new)
        (H.Out.faults out.old) (H.Out.faults out.new) result }
    ensures links { LeavesLinks
        (host_view H.Host host.old)
        (host_view H.Host host.new) }
    ensures held { H.held host.new ≡ H.held host.old }
    ensures wrote_later { H.Out.faults out.old ≤ H.Out.faults out.new }
    ensures later { H.faults host.old ≤ H.faults host.new }
{
    match use_in_folder(alloc, tool, dir, host) {
        Ok(tooled) => say_tooled(out, &tooled),
        Err(HostError::Failed) => ToolEnd::HostFault,
        Err(HostError::Memory) => ToolEnd::NoMemory,
    }
}
