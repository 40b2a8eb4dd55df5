//! `survey`: a schedule of level core replayed without output, and what it has left.
ghost use Rattle.std.specs.Prelude.{◌≡◌, ◌≤◌, IfOk, length, map, List};
ghost use Rattle.std.specs.List.{AllByRecursion};
ghost use Rattle.voting_config.specs.Ids.{Id};
ghost use Rattle.zen_disk.specs.MemDisks.{files_of};
ghost use Rattle.schedule_text.specs.declared.level.Level.TheVariants.{Core};
ghost use Rattle.schedule_text.specs.Lines.{FitsLine};
ghost use Rattle.world_model.specs.Histories.{sent};
ghost use Rattle.world_model.specs.NodeState.{halted_of};
ghost use Rattle.replay_node.specs.NodeDisk.{DiskStands, NodeDisk};
ghost use Rattle.replay_node.specs.NodeWorld.{NodeWorld};
ghost use Rattle.replay_node.specs.Stands.{NodeStands, OpenStands};
ghost use Rattle.replay_node.specs.Worlds.{World};
ghost use Rattle.schedule_replay.specs.WorldStands.{AllStand, Stands};
ghost use Rattle.rescue_plan.specs.Rescue.{up_at};
ghost use Rattle.schedule_replay.specs.Survey.{is_armed, surveyed_at, surveyed, up_if, world_after};

use crate::replayer::Replayer;
use crate::surveyed::{Survey, SurveyedNode};
use replay_node::{OpenNode, ReplayNode, Slot};
use rescue_plan::UpNode;
use schedule_text::Schedule;
use state_journal::Keeper;
use std::alloc::{AllocError, Global};
use text::Text;
use voting_config::{NodeId, VotingConfig};
use zen_disk::{Armable, Fuse, MemDisks};

fn has_orders(fuse: &Fuse<MemDisks>) -> bool
    ensures { (disk : NodeDisk) → DiskStands fuse.now disk → result ≡ is_armed disk.armed }
{
    let armed = fuse.armed();
    armed.stop.is_some() || armed.fault.is_some()
}

fn up_node(me: NodeId, state: &OpenNode) -> UpNode
    ensures { (w : NodeWorld) → OpenStands me state.now w → result ≡ up_at me w.acts }
{
    let kept = state.kept();
    UpNode {
        id: me,
        term: kept.term,
        accepted: kept.accepted.id(),
        config: VotingConfig::of_list(&kept.accepted.config),
        committed: VotingConfig::of(kept.committed.members()),
    }
}

fn up_unless_halted(me: NodeId, state: &OpenNode) -> Option<UpNode>
    ensures { (w : NodeWorld) → OpenStands me state.now w → result ≡ up_if me w }
{
    if state.keeper().stopped() {
        return None;
    }
    Some(up_node(me, state))
}

fn surveyed_node(node: &ReplayNode) -> SurveyedNode
    ensures { (w : NodeWorld) → NodeStands node.now w → result ≡ surveyed_at node.now.me w }
{
    match &node.slot {
        Slot::Open(state) => SurveyedNode {
            id: node.me,
            up: up_unless_halted(node.me, state),
            armed: has_orders(state.keeper().disk()),
        },
        Slot::Down(fuse) => SurveyedNode {
            id: node.me,
            up: None,
            armed: has_orders(fuse),
        },
    }
}

fn surveyed_nodes(alloc: Global, nodes: &[ReplayNode]) -> Result<Vec<SurveyedNode>, AllocError>
    ensures { IfOk result (λ found. (ids : List Id) (w : World) → AllStand ids nodes.now w → found.items ≡ map (λ n. surveyed w n) ids) }
{
    let mut found = Vec::new(alloc);
    for node in nodes {
        found.push(surveyed_node(node))?;
    }
    Ok(found)
}

/// Replays a schedule of level core, and tells where it leaves each node, and how many messages were sent. The error means that memory ran
/// out.
pub fn survey(alloc: Global, schedule: &Schedule) -> Result<Survey, AllocError>
    requires fits { AllByRecursion (FitsLine Core schedule.now.nodes) schedule.now.lines }
    ensures nodes { IfOk result (λ s. s.nodes.items ≡ map (λ n. surveyed (world_after schedule.now) n) schedule.now.nodes) }
    ensures sent { IfOk result (λ s. s.sent ≡ length (sent (world_after schedule.now).history)) }
    ensures few { IfOk result (λ s. s.sent ≤ length schedule.now.lines) }
{
    let mut replayer = Replayer::new(alloc, &schedule.nodes)?;
    let mut text = Text::new(alloc);
    let lines = schedule.lines.as_slice();
    for line in lines {
        text.clear();
        replayer.line(alloc, schedule, line, &mut text)?;
    }
    let nodes = surveyed_nodes(alloc, replayer.nodes.as_slice())?;
    Ok(Survey {
        nodes,
        sent: replayer.sent.len() as u64,
    })
}
