//! The three nodes started, waited for, and killed where a start or a wait is refused.
ghost use Rattle.std.specs.Prelude.{◌≡◌, ◌+◌, ◌-◌, ◌≤◌, true, false, [], ◌∷◌, IfOk, OnErr, IsErrOf};
ghost use Rattle.zen_disk.specs.Faults.{Rose};
ghost use Rattle.zen_host.specs.HostCalls.{Spawns, Notes, IsNumber};
ghost use Rattle.node_trial.specs.Nodes.{told_trial, words_of};
ghost use Rattle.node_trial.specs.Ends.{told_ends};
ghost use Rattle.node_trial.specs.Trials.{IsKilled, AreKilled, Begins, Awaits, WritesEnds, Tried, end_by, has_waited};

use crate::ends::{have_passed, write_ends};
use crate::node::node_words;
use crate::{Trial, TrialEnds, TrialNode};
use std::alloc::Global;
use text::Text;
use zen_host::{Host, HostError};
use zen_link::{Sink, write_all};

/// How a trial ended.
#[derive(Clone, Copy, Debug, PartialEq, Eq)]
pub enum TrialEnd {
    /// Each node ended with status 0 or 11. How they ended was written.
    Done,
    /// A node ended with another status. How they ended was written.
    TrialFailed,
    /// Memory ran out, and nothing was written.
    NoMemory,
    /// The sink failed, and its count of faults rose.
    WriteFault,
    /// The host failed, and its count of faults rose. Nothing was written.
    HostFault,
}

#[derive(Drop)]
struct Children<C> {
    a: C,
    b: C,
    c: C,
}

// Starts a node.
fn start<H: Host>(
    alloc: Global,
    trial: &Trial<'_>,
    node: TrialNode,
    host: &mut H,
) -> Result<H::Child, HostError>
    ensures call { Notes (H.calls host.old) (H.calls host.new) (Spawns trial.now.program.now (words_of (told_trial trial.now) node))
        result }
    ensures number { IfOk result (λ child. IsNumber (H.calls host.new) (H.child_number child)) }
    ensures held { IfOk result (λ child. H.held host.new ≡ H.held host.old + 1) }
    ensures running { IfOk result (λ child. H.running host.new ≡ H.running host.old + 1) }
    ensures refused { OnErr result (H.held host.new ≡ H.held host.old) }
    ensures disk_ready { H.disk_ready host.new ≡ H.disk_ready host.old }
    ensures disk_back { H.disk_back host.new ≡ H.disk_back host.old }
    ensures link_ready { H.link_ready host.new ≡ H.link_ready host.old }
    ensures link_back { H.link_back host.new ≡ H.link_back host.old }
    ensures later { H.faults host.old ≤ H.faults host.new }
    ensures failed { IsErrOf result HostError.Failed → Rose (H.faults host.old) (H.faults host.new) }
{
    let Ok(words) = node_words(alloc, trial, node) else {
        return Err(HostError::Memory);
    };
    host.spawn(trial.program, words.as_slice())
}

// Kills a child, as far as the host can.
fn kill<H: Host>(host: &mut H, child: H::Child)
    ensures killed { IsKilled (H.child_number child) (H.calls host.old) (H.calls host.new) }
    ensures held { H.held host.new ≡ H.held host.old - 1 }
    ensures disk_ready { H.disk_ready host.new ≡ H.disk_ready host.old }
    ensures disk_back { H.disk_back host.new ≡ H.disk_back host.old }
    ensures link_ready { H.link_ready host.new ≡ H.link_ready host.old }
    ensures link_back { H.link_back host.new ≡ H.link_back host.old }
    ensures later { H.faults host.old ≤ H.faults host.new }
{
    // Where that is refused, the child runs on; the host has counted a fault then, or there was no memory.
    let _ = host.kill(child);
}

fn kill_both<H: Host>(host: &mut H, first: H::Child, second: H::Child)
    ensures killed { AreKilled (H.child_number first ∷ H.child_number second ∷ []) (H.calls host.old) (H.calls host.new) }
    ensures held { H.held host.new ≡ H.held host.old - 2 }
    ensures disk_ready { H.disk_ready host.new ≡ H.disk_ready host.old }
    ensures disk_back { H.disk_back host.new ≡ H.disk_back host.old }
    ensures link_ready { H.link_ready host.new ≡ H.link_ready host.old }
    ensures link_back { H.link_back host.new ≡ H.link_back host.old }
    ensures later { H.faults host.old ≤ H.faults host.new }
{
    kill(host, first);
    kill(host, second);
}

// Starts all nodes, or asks the host to kill those that it has started.
fn start_all<H: Host>(
    alloc: Global,
    trial: &Trial<'_>,
    host: &mut H,
) -> Result<Children<H::Child>, HostError>
    ensures begins { Begins (told_trial trial.now) (H.calls host.old) (H.calls host.new) result
        (λ children. H.child_number children.a ∷ H.child_number children.b ∷ H.child_number children.c ∷ []) }
    ensures held { IfOk result (λ children. H.held host.new ≡ H.held host.old + 3) }
    ensures running { IfOk result (λ children. H.running host.new ≡ H.running host.old + 3) }
    ensures refused { OnErr result (H.held host.new ≡ H.held host.old) }
    ensures disk_ready { H.disk_ready host.new ≡ H.disk_ready host.old }
    ensures disk_back { H.disk_back host.new ≡ H.disk_back host.old }
    ensures link_ready { H.link_ready host.new ≡ H.link_ready host.old }
    ensures link_back { H.link_back host.new ≡ H.link_back host.old }
    ensures later { H.faults host.old ≤ H.faults host.new }
    ensures failed { IsErrOf result HostError.Failed → Rose (H.faults host.old) (H.faults host.new) }
{
    let a = match start(alloc, trial, TrialNode::A, host) {
        Ok(a) => a,
        Err(error) => return Err(error),
    };
    let b = match start(alloc, trial, TrialNode::B, host) {
        Ok(b) => b,
        Err(error) => {
            kill(host, a);
            return Err(error);
        }
    };
    match start(alloc, trial, TrialNode::C, host) {
        Ok(c) => Ok(Children { a, b, c }),
        Err(error) => {
            kill_both(host, a, b);
            Err(error)
        }
    }
}

// Waits for all children, or asks the host to kill those that it has not waited for.
fn wait_for_all<H: Host>(host: &mut H, children: Children<H::Child>) -> Result<TrialEnds, HostError>
    ensures awaits { Awaits told_ends (H.child_number children.a ∷ H.child_number children.b ∷ H.child_number children.c ∷ [])
        (H.calls host.old) (H.calls host.new) result }
    ensures held { H.held host.new ≡ H.held host.old - 3 }
    ensures running { IfOk result (λ ends. H.running host.new ≡ H.running host.old - 3) }
    ensures disk_ready { H.disk_ready host.new ≡ H.disk_ready host.old }
    ensures disk_back { H.disk_back host.new ≡ H.disk_back host.old }
    ensures link_ready { H.link_ready host.new ≡ H.link_ready host.old }
    ensures link_back { H.link_back host.new ≡ H.link_back host.old }
    ensures later { H.faults host.old ≤ H.faults host.new }
    ensures failed { IsErrOf result HostError.Failed → Rose (H.faults host.old) (H.faults host.new) }
{
    let Children { a, b, c } = children;
    let a = match host.wait(a) {
        Ok(ended) => ended,
        Err(error) => {
            kill_both(host, b, c);
            return Err(error);
        }
    };
    let b = match host.wait(b) {
        Ok(ended) => ended,
        Err(error) => {
            kill(host, c);
            return Err(error);
        }
    };
    match host.wait(c) {
        Ok(c) => Ok(TrialEnds { a, b, c }),
        Err(error) => Err(error),
    }
}

// Writes how the nodes ended.
fn report_ends<S: Sink>(alloc: Global, ends: &TrialEnds, out: &mut S) -> TrialEnd
    ensures tells { WritesEnds (told_ends ends.now) (S.written out.old) (S.written out.new) result }
    ensures write_fault { result ≡ TrialEnd.WriteFault → Rose (S.faults out.old) (S.faults out.new) }
    ensures wrote_later { S.faults out.old ≤ S.faults out.new }
{
    let mut text = Text::new(alloc);
    let Ok(()) = write_ends(&mut text, ends) else {
        return TrialEnd::NoMemory;
    };
    let Ok(()) = write_all(out, text.as_bytes()) else {
        return TrialEnd::WriteFault;
    };
    if have_passed(ends) {
        TrialEnd::Done
    } else {
        TrialEnd::TrialFailed
    }
}

fn cut_short(error: HostError) -> TrialEnd
    ensures end { result ≡ end_by error }
    ensures unwaited { has_waited result ≡ false }
{
    match error {
        HostError::Failed => TrialEnd::HostFault,
        HostError::Memory => TrialEnd::NoMemory,
    }
}

/// Starts three nodes, waits for each, and writes how they ended and whether one of them has won. Where one cannot be
/// started or waited for, those that still run are killed. So each child is waited for, or the host is asked to kill it; and
/// where each is waited for, none runs on.
pub fn run_trial<H: Host>(
    alloc: Global,
    trial: &Trial<'_>,
    out: &mut H::Out,
    host: &mut H,
) -> TrialEnd
    ensures tried { Tried (told_trial trial.now) (H.calls host.old) (H.calls host.new) (H.Out.written out.old) (H.Out.written out.new)
        result }
    ensures held { H.held host.new ≡ H.held host.old }
    ensures running { has_waited result ≡ true → H.running host.new ≡ H.running host.old }
    ensures disk_ready { H.disk_ready host.new ≡ H.disk_ready host.old }
    ensures disk_back { H.disk_back host.new ≡ H.disk_back host.old }
    ensures link_ready { H.link_ready host.new ≡ H.link_ready host.old }
    ensures link_back { H.link_back host.new ≡ H.link_back host.old }
    ensures host_fault { result ≡ TrialEnd.HostFault → Rose (H.faults host.old) (H.faults host.new) }
    ensures write_fault { result ≡ TrialEnd.WriteFault → Rose (H.Out.faults out.old) (H.Out.faults out.new) }
    ensures later { H.faults host.old ≤ H.faults host.new }
    ensures wrote_later { H.Out.faults out.old ≤ H.Out.faults out.new }
{
    let children = match start_all(alloc, trial, host) {
        Ok(children) => children,
        Err(error) => return cut_short(error),
    };
    match wait_for_all(host, children) {
        Ok(ends) => report_ends(alloc, &ends, out),
        Err(error) => cut_short(error),
    }
}
