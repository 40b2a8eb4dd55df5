//! The nodes that are to be rescued, or why they cannot be.
ghost use Rattle.std.specs.Prelude.{◌≡◌, [], option_map};
ghost use Rattle.zen_app.specs.Choosing.{Answers, all_free, all_up, chosen_of, found_in, is_armed, up_of};

use crate::refusals::{NoRescue, RescueError};
use rescue_plan::UpNode;
use schedule_replay::{Survey, SurveyedNode};
use std::alloc::Global;
use voting_config::{NodeId, NodeSet, VotingConfig};

fn found(nodes: &[SurveyedNode], id: NodeId) -> Option<&SurveyedNode>
    ensures { option_map (λ n. n.now) result ≡ found_in nodes.now id }
{
    for node in nodes {
        if node.id == id {
            return Some(node);
        }
    }
    None
}

fn up_node(nodes: &[SurveyedNode], id: NodeId) -> Option<&UpNode>
    ensures { option_map (λ n. n.now) result ≡ up_of (found_in nodes.now id) }
{
    match found(nodes, id) {
        None => None,
        Some(node) => node.up.as_ref(),
    }
}

fn has_orders(nodes: &[SurveyedNode], id: NodeId) -> bool
    ensures { result ≡ is_armed (found_in nodes.now id) }
{
    match found(nodes, id) {
        None => false,
        Some(node) => node.armed,
    }
}

fn copied(node: &UpNode) -> UpNode
    ensures { result ≡ node.now }
{
    UpNode {
        id: node.id,
        term: node.term,
        accepted: node.accepted,
        config: VotingConfig::of(node.config.members()),
        committed: VotingConfig::of(node.committed.members()),
    }
}

fn are_free(nodes: &[SurveyedNode], ids: &[NodeId]) -> Result<(), RescueError>
    ensures { Answers (λ u. u) result (all_free nodes.now ids.now) }
{
    for id in ids {
        if has_orders(nodes, *id) {
            return Err(RescueError::Refused(NoRescue::Armed(*id)));
        }
    }
    Ok(())
}

fn are_up(alloc: Global, nodes: &[SurveyedNode], ids: &[NodeId]) -> Result<Vec<UpNode>, RescueError>
    ensures { Answers (λ up. up.items) result (all_up nodes.now [] ids.now) }
{
    let mut up = Vec::new(alloc);
    for id in ids {
        let Some(node) = up_node(nodes, *id) else {
            return Err(RescueError::Refused(NoRescue::NotUp(*id)));
        };
        let Ok(()) = up.push(copied(node)) else {
            return Err(RescueError::Memory);
        };
    }
    Ok(up)
}

/// What is known of these nodes, each of which must be up and run, with no order of its disk left.
pub fn chosen(alloc: Global, survey: &Survey, ids: &NodeSet) -> Result<Vec<UpNode>, RescueError>
    ensures { Answers (λ up. up.items) result (chosen_of survey.now.nodes.items ids.now) }
{
    let nodes = survey.nodes.as_slice();
    let ids = ids.as_slice();
    let up = are_up(alloc, nodes, ids)?;
    are_free(nodes, ids)?;
    Ok(up)
}
