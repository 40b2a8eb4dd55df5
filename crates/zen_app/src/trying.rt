//! The command `trial`.
ghost use Rattle.std.specs.Prelude.{◌≡◌, ◌≤◌};
ghost use Rattle.zen_disk.specs.Faults.{Rose};
ghost use Rattle.zen_link.specs.Views.{sink_view};
ghost use Rattle.zen_host.specs.Views.{host_view};
ghost use Rattle.zen_app.specs.Codes.{status_of_trial};
ghost use Rattle.zen_app.specs.TrialRuns.{TrialRun};
ghost use Rattle.zen_app.specs.declared.status.Status.TheVariants as exit;

use crate::Status;
use command_line::TrialWords;
use node_trial::{Trial, TrialEnd, run_trial};
use std::alloc::Global;
use zen_host::Host;

fn status_after(end: TrialEnd) -> Status
    ensures { result ≡ status_of_trial end }
{
    match end {
        TrialEnd::Done => Status::Ok,
        TrialEnd::TrialFailed => Status::TrialFailed,
        TrialEnd::NoMemory => Status::NoMemory,
        TrialEnd::WriteFault => Status::WriteFault,
        TrialEnd::HostFault => Status::HostFault,
    }
}

/// Starts the three nodes of a trial, waits for each, and writes how they ended and whether one of them has won.
pub fn try_nodes<H: Host>(
    alloc: Global,
    words: &TrialWords,
    out: &mut H::Out,
    host: &mut H,
) -> Status
    requires { words.now.port ≤ 65533 }
    ensures run { TrialRun words.now
        (host_view H.Host host.old)
        (host_view H.Host host.new)
        (sink_view H.Out.Sink out.old)
        (sink_view H.Out.Sink out.new)
        result }
    ensures held { H.held host.new ≡ H.held host.old }
    ensures host_fault { result ≡ exit.HostFault → Rose (H.faults host.old) (H.faults host.new) }
    ensures write_fault { result ≡ exit.WriteFault → Rose (H.Out.faults out.old) (H.Out.faults out.new) }
    ensures later { H.faults host.old ≤ H.faults host.new }
    ensures wrote_later { H.Out.faults out.old ≤ H.Out.faults out.new }
{
    let trial = Trial {
        program: words.program.as_str(),
        dir: words.dir.as_str(),
        port: words.port as u16,
        turns: words.turns,
    };
    status_after(run_trial(alloc, &trial, out, host))
}
