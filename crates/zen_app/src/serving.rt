//! A run of one node: the journal in its folder, its link, and how it ends.
ghost use Rattle.std.specs.Prelude.{◌≡◌, ◌≤◌, IfOk, Some, map};
ghost use Rattle.zen_disk.specs.Faults.{Rose};
ghost use Rattle.zen_link.specs.Views.{sink_view};
ghost use Rattle.zen_host.specs.Views.{host_view};
ghost use Rattle.state_journal.specs.Opening.{handed_back};
ghost use Rattle.journal_inspection.specs.Report.{not_a_journal};
ghost use Rattle.zen_app.specs.NodeFaults.{NodeFaults, status_by};
ghost use Rattle.zen_app.specs.NodeRuns.{EndsBy, NodeRun, history_text, RefusedBy, SaysLine, settings_by};
ghost use Rattle.zen_app.specs.declared.status.Status.TheVariants as exit;

use crate::Status;
use command_line::{HistoryLevel, NodeWords};
use coordinator::Sealed;
use journal_inspection::write_not_a_journal;
use master_tasks::Policy;
use node_loop::{Acts, All, End, History, JournalNode, Node, Nothing};
use policy_model::{NodeIds, Settings};
use state_journal::{OpenError, Why};
use std::alloc::{AllocError, Global};
use text::Text;
use voting_config::NodeId;
use zen_host::{Host, HostError};
use zen_link::{Link, Peer, Sink, write_all};

fn ids(alloc: Global, peers: &[Peer]) -> Result<Vec<NodeId>, AllocError>
    ensures { IfOk result (λ ids. ids.items ≡ map (λ p. p.id) peers.now) }
{
    let mut ids = Vec::new(alloc);
    for peer in peers {
        ids.push(peer.id)?;
    }
    Ok(ids)
}

// What the words give a node.
fn settings(alloc: Global, words: &NodeWords) -> Result<Settings, AllocError>
    ensures { IfOk result (λ s. s ≡ settings_by words.now) }
{
    let link = words.link.settings();
    Ok(Settings {
        me: link.me,
        peers: NodeIds::of(ids(alloc, &link.peers)?),
        initial: words.initial.copy(),
        voting_only: words.voting_only.copy(),
        policy: Policy {
            shrink: words.shrink,
            second: words.second,
        },
    })
}

fn refusal(error: HostError) -> Status
    ensures { result ≡ status_by error }
{
    match error {
        HostError::Failed => Status::HostFault,
        HostError::Memory => Status::NoMemory,
    }
}

// Writes why the two files are no journal.
fn write_why<S: Sink>(alloc: Global, out: &mut S, why: Why) -> Status
    ensures refused { SaysLine (not_a_journal why) exit.NotAJournal (S.written out.old) (S.written out.new) result }
    ensures write { result ≡ exit.WriteFault → Rose (S.faults out.old) (S.faults out.new) }
    ensures later { S.faults out.old ≤ S.faults out.new }
{
    let mut text = Text::new(alloc);
    let Ok(()) = write_not_a_journal(&mut text, why) else {
        return Status::NoMemory;
    };
    let Ok(()) = write_all(out, text.as_bytes()) else {
        return Status::WriteFault;
    };
    Status::NotAJournal
}

// Gives the disk back whose journal was not opened, and says why where its files are no journal.
fn refuse_journal<H: Host>(
    alloc: Global,
    out: &mut H::Out,
    host: &mut H,
    error: OpenError<H::Disk>,
) -> Status
    ensures refused { RefusedBy error (H.Out.written out.old) (H.Out.written out.new) result }
    ensures back { H.disk_back host.new ≡ Some (handed_back error) }
    ensures link_ready { H.link_ready host.new ≡ H.link_ready host.old }
    ensures link_back { H.link_back host.new ≡ H.link_back host.old }
    ensures calls { H.calls host.new ≡ H.calls host.old }
    ensures held { H.held host.new ≡ H.held host.old }
    ensures faults { H.faults host.new ≡ H.faults host.old }
    ensures write { result ≡ exit.WriteFault → Rose (H.Out.faults out.old) (H.Out.faults out.new) }
    ensures later { H.Out.faults out.old ≤ H.Out.faults out.new }
{
    match error {
        OpenError::NotAJournal(why, disk) => {
            host.close_disk(disk);
            write_why(alloc, out, why)
        }
        OpenError::Disk(disk) => {
            host.close_disk(disk);
            Status::DiskFault
        }
        OpenError::Memory(disk) => {
            host.close_disk(disk);
            Status::NoMemory
        }
    }
}

fn write_turns<S: Sink>(out: &mut S) -> Status
    ensures ends { EndsBy End.Turns (S.written out.old) (S.written out.new) result }
    ensures write { result ≡ exit.WriteFault → Rose (S.faults out.old) (S.faults out.new) }
    ensures later { S.faults out.old ≤ S.faults out.new }
{
    let Ok(()) = write_all(out, "zen: turns\n".as_bytes()) else {
        return Status::WriteFault;
    };
    Status::Turns
}

// The status of a run that served, and its line where it has one.
fn write_end<S: Sink>(out: &mut S, end: End) -> Status
    ensures ends { EndsBy end (S.written out.old) (S.written out.new) result }
    ensures write { end ≡ End.Turns → result ≡ exit.WriteFault → Rose (S.faults out.old) (S.faults out.new) }
    ensures later { S.faults out.old ≤ S.faults out.new }
{
    match end {
        End::Stop => Status::Ok,
        End::Turns => write_turns(out),
        End::Write => Status::WriteFault,
        End::Disk => Status::DiskFault,
        End::Link => Status::LinkFault,
        End::Memory => Status::NoMemory,
    }
}

// Runs one node that writes so much of its life.
fn run_with<W: History, L: Link<Out = Sealed> + Drop, H: Host<Link = L>>(
    alloc: Global,
    words: &NodeWords,
    out: &mut H::Out,
    host: &mut H,
) -> Status
    requires { W.lines ≡ history_text words.now.history }
    ensures run { NodeRun H.Disk.Disks L.Link words.now
        (host_view H.Host host.old)
        (host_view H.Host host.new)
        (sink_view H.Out.Sink out.old)
        (sink_view H.Out.Sink out.new)
        result }
    ensures held { H.held host.new ≡ H.held host.old }
    ensures faults { NodeFaults H.Disk.faults L.faults (H.disk_back host.new) (H.link_back host.new) (H.faults host.old) (H.faults host.new)
        (H.Out.faults out.old) (H.Out.faults out.new) result }
{
    let Ok(settings) = settings(alloc, words) else {
        return Status::NoMemory;
    };
    let disk = match host.open_disk(words.dir.as_str()) {
        Ok(disk) => disk,
        Err(error) => return refusal(error),
    };
    let node: JournalNode<H::Disk, W> = match Node::open(alloc, settings, disk) {
        Ok(node) => node,
        Err(error) => return refuse_journal(alloc, out, host, error),
    };
    let mut link = match host.open_link(words.link.settings()) {
        Ok(link) => link,
        Err(error) => {
            host.close_disk(node.into_disk());
            return refusal(error);
        }
    };
    let (disk, end) = node.run(&mut link, out, words.turns);
    host.close_link(link);
    host.close_disk(disk);
    write_end(out, end)
}

/// Runs one node: opens the journal in its folder, then its link, serves the link from the opening on, and gives both back.
/// It writes the node's history, which follows the policy.
pub fn run_node<L: Link<Out = Sealed> + Drop, H: Host<Link = L>>(
    alloc: Global,
    words: &NodeWords,
    out: &mut H::Out,
    host: &mut H,
) -> Status
    ensures run { NodeRun H.Disk.Disks L.Link words.now
        (host_view H.Host host.old)
        (host_view H.Host host.new)
        (sink_view H.Out.Sink out.old)
        (sink_view H.Out.Sink out.new)
        result }
    ensures held { H.held host.new ≡ H.held host.old }
    ensures faults { NodeFaults H.Disk.faults L.faults (H.disk_back host.new) (H.link_back host.new) (H.faults host.old) (H.faults host.new)
        (H.Out.faults out.old) (H.Out.faults out.new) result }
{
    match words.history {
        HistoryLevel::All => run_with::<All, L, H>(alloc, words, out, host),
        HistoryLevel::Acts => run_with::<Acts, L, H>(alloc, words, out, host),
        HistoryLevel::Nothing => run_with::<Nothing, L, H>(alloc, words, out, host),
    }
}
