//! `run`, the one call of the program: its words read, and the command done that they are.
ghost use Rattle.std.specs.Prelude.{◌≡◌, ℕ, Some, List, map, string_bytes};
ghost use Rattle.command_line.specs.Commands.{command_of};
ghost use Rattle.zen_link.specs.Views.{source_view, sink_view};
ghost use Rattle.zen_host.specs.Views.{host_view};
ghost use Rattle.zen_app.specs.Codes.{status_of, status_of_audit};
ghost use Rattle.zen_app.specs.Ran.{Ran};
ghost use Rattle.zen_app.specs.Runs.{IsWithin, UsageRun};

use crate::Status;
use crate::generating::run_generate;
use crate::replaying::run_replay;
use crate::rescuing::run_rescue;
use crate::serving::run_node;
use crate::tooling::use_on;
use crate::trying::try_nodes;
use command_line::{ProgramCommand, WordsError, read_words};
use coordinator::Sealed;
use journal_inspection::{Inspection, inspect};
use node_tool::Tool;
use std::alloc::Global;
use trace_audit::{AuditEnd, run_audit};
use zen_host::Host;
use zen_link::{Link, Sink, write_all};

fn status_after(end: Inspection) -> Status
    ensures { result ≡ status_of end }
{
    match end {
        Inspection::Done => Status::Ok,
        Inspection::NotAJournal => Status::NotAJournal,
        Inspection::NoMemory => Status::NoMemory,
        Inspection::WriteFault => Status::WriteFault,
        Inspection::DiskFault => Status::DiskFault,
        Inspection::HostFault => Status::HostFault,
    }
}

fn audit_status(end: AuditEnd) -> Status
    ensures { result ≡ status_of_audit end }
{
    match end {
        AuditEnd::Legal => Status::Ok,
        AuditEnd::NotLegal => Status::NotLegal,
        AuditEnd::BadTrace => Status::BadTrace,
        AuditEnd::NoMemory => Status::NoMemory,
        AuditEnd::ReadFault => Status::ReadFault,
        AuditEnd::WriteFault => Status::WriteFault,
    }
}

fn refuse_words<S: Sink>(out: &mut S) -> Status
    ensures { UsageRun (S.written out.old) (S.written out.new) (S.faults out.old) (S.faults out.new) result }
{
    let Ok(()) = write_all(out, "zen: usage\n".as_bytes()) else {
        return Status::WriteFault;
    };
    Status::Usage
}

// Does a command. No value of its own is alive here, which keeps its many ends cheap.
fn run_command<L: Link<Out = Sealed> + Drop, H: Host<Link = L>>(
    alloc: Global,
    command: &ProgramCommand,
    input: &mut H::In,
    out: &mut H::Out,
    host: &mut H,
) -> Status
    requires { IsWithin command.now }
    ensures { (words : List (List ℕ)) → command_of words ≡ Some command.now
        → Ran H.Disk.Disks L.Link words
        (source_view H.In.Source input.old)
        (source_view H.In.Source input.new)
        (sink_view H.Out.Sink out.old)
        (sink_view H.Out.Sink out.new)
        (host_view H.Host host.old)
        (host_view H.Host host.new)
        result }
{
    match command {
        ProgramCommand::Replay(level) => run_replay(alloc, *level, input, out),
        ProgramCommand::Inspect(dir) => status_after(inspect(alloc, dir.as_str(), out, host)),
        ProgramCommand::Node(words) => run_node(alloc, words, out, host),
        ProgramCommand::Generate { number, steps } => run_generate(alloc, *number, *steps, out),
        ProgramCommand::Trial(words) => try_nodes(alloc, words, out, host),
        ProgramCommand::Rescue(ids) => run_rescue(alloc, ids, input, out),
        ProgramCommand::UnsafeBootstrap { id, dir } => {
            use_on(alloc, Tool::UnsafeBootstrap(*id), dir.as_str(), out, host)
        }
        ProgramCommand::DetachCluster(dir) => {
            use_on(alloc, Tool::DetachCluster, dir.as_str(), out, host)
        }
        ProgramCommand::Audit => audit_status(run_audit(alloc, input, out)),
    }
}

/// Runs the program: `words` are those after its name. `replay --level core` reads a schedule of single acts and writes its
/// trace, `replay --level node` a schedule of whole nodes. `inspect --dir D` opens the journal in a folder and writes what
/// it keeps. `node` runs one node over the journal in a folder and a link, and writes its history. `generate` replays the
/// schedule that a number gives, and writes the summary of its trace. `trial` runs three nodes as children of the program
/// and writes how they ended. `rescue` reads a schedule and writes the lines by which nodes of it go on to commit a new
/// state. `unsafe-bootstrap` and `detach-cluster` use a tool on the journal in a folder. `audit` reads a recorded trace and
/// writes whether it is legal. The clause says what each status means.
pub fn run<L: Link<Out = Sealed> + Drop, H: Host<Link = L>>(
    alloc: Global,
    words: &[String],
    input: &mut H::In,
    out: &mut H::Out,
    host: &mut H,
) -> Status
    ensures { Ran H.Disk.Disks L.Link
        (map (λ w. string_bytes w) words.now)
        (source_view H.In.Source input.old)
        (source_view H.In.Source input.new)
        (sink_view H.Out.Sink out.old)
        (sink_view H.Out.Sink out.new)
        (host_view H.Host host.old)
        (host_view H.Host host.new)
        result }
{
    match read_words(alloc, words) {
        Ok(command) => run_command(alloc, &command, input, out, host),
        Err(WordsError::Usage) => refuse_words(out),
        Err(WordsError::Memory) => Status::NoMemory,
    }
}
