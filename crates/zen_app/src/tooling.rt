//! The commands `unsafe-bootstrap` and `detach-cluster`.
ghost use Rattle.std.specs.Prelude.{◌≡◌};
ghost use Rattle.zen_link.specs.Views.{sink_view};
ghost use Rattle.zen_host.specs.Views.{host_view};
ghost use Rattle.zen_app.specs.Codes.{status_of_tool};
ghost use Rattle.zen_app.specs.NodeFaults.{NodeFaults};
ghost use Rattle.zen_app.specs.ToolRuns.{ToolRun};

use crate::Status;
use node_tool::{Tool, ToolEnd, run_tool};
use std::alloc::Global;
use zen_host::Host;

fn status_after(end: ToolEnd) -> Status
    ensures { result ≡ status_of_tool end }
{
    match end {
        ToolEnd::Done => Status::Ok,
        ToolEnd::Refused => Status::ToolRefused,
        ToolEnd::NotAJournal => Status::NotAJournal,
        ToolEnd::NoMemory => Status::NoMemory,
        ToolEnd::WriteFault => Status::WriteFault,
        ToolEnd::DiskFault => Status::DiskFault,
        ToolEnd::HostFault => Status::HostFault,
    }
}

/// Uses a tool on the journal in a folder, and writes what it keeps then, or why the tool refuses it.
pub fn use_on<H: Host>(
    alloc: Global,
    tool: Tool,
    dir: &str,
    out: &mut H::Out,
    host: &mut H,
) -> Status
    ensures run { ToolRun H.Disk.Disks tool dir.now
        (host_view H.Host host.old)
        (host_view H.Host host.new)
        (sink_view H.Out.Sink out.old)
        (sink_view H.Out.Sink out.new)
        result }
    ensures held { H.held host.new ≡ H.held host.old }
    ensures faults { NodeFaults H.Disk.faults H.Link.faults (H.disk_back host.new) (H.link_back host.new) (H.faults host.old)
        (H.faults host.new) (H.Out.faults out.old) (H.Out.faults out.new) result }
{
    status_after(run_tool(alloc, tool, dir, out, host))
}
