//! `plan`: the lines by which the nodes that are up elect one of them, which then commits a new state.
ghost use Rattle.std.specs.Prelude.{◌≡◌, ◌+◌, ◌<◌, ◌≤◌, ◌^◌, ◌&&◌, ◌++◌, [], ◌∷◌, length, OnOk, IfOk, codes};
ghost use Rattle.voting_config.specs.Ids.{has, is_quorum_of, most_ids};
ghost use Rattle.cluster_state.specs.Field.{last_number};
ghost use Rattle.rescue_plan.specs.Planning.{ids_of, newest, greatest, present, planned, start_lines, deliveries, one_for_all, plan_lines, no_quorum as no_quorum_of, plan_for as plan_for_of, plan_within as plan_within_of, Plans};

use crate::answer::{Plan, PlanError, RescueRefused, UpNode};
use cluster_state::LAST_NUMBER;
use schedule_text::{Line, Lines, SettingText};
use std::alloc::{AllocError, Global};
use text::Boxed;
use voting_config::{IdList, NodeId, VotingConfig};

// Of the first and the others, the first one that has accepted the newest state.
fn newest_of<'a>(first: &'a UpNode, others: &'a [UpNode]) -> &'a UpNode
    ensures { result.now ≡ newest first.now others.now }
{
    let mut found = first;
    for node in others {
        if node.accepted.is_fresher(found.accepted) {
            found = node;
        }
    }
    found
}

fn greatest_term(up: &[UpNode]) -> u64
    ensures { result ≡ greatest up.now }
{
    let mut top = 0;
    for node in up {
        if node.term > top {
            top = node.term;
        }
    }
    top
}

fn is_among(ids: &[NodeId], id: NodeId) -> bool
    ensures { result ≡ has id ids.now }
{
    ids.contains(&id)
}

fn ids_up(alloc: Global, up: &[UpNode]) -> Result<Vec<NodeId>, AllocError>
    ensures { IfOk result (λ ids. ids.items ≡ ids_of up.now) }
{
    let mut ids = Vec::new(alloc);
    for node in up {
        ids.push(node.id)?;
    }
    Ok(ids)
}

// How many nodes of the configuration are among the ids, and how many it has.
fn share(config: &VotingConfig, ids: &[NodeId]) -> (usize, usize)
    ensures present { result.0 ≡ present config.now ids.now }
    ensures size { result.1 ≡ length config.now }
    ensures few { result.0 ≤ most_ids }
    ensures fits { result.1 ≤ most_ids }
{
    let members = config.members();
    let size = members.len();
    let here = members
        .as_slice()
        .iter()
        .filter(|id| is_among(ids, **id))
        .count();
    (here, size)
}

fn push_starts(
    alloc: Global,
    lines: &mut Vec<Line>,
    up: &[UpNode],
    master: NodeId,
    term: u64,
) -> Result<(), AllocError>
    ensures { OnOk result (lines.new.items ≡ lines.old.items ++ start_lines master term up.now) }
{
    for node in up {
        let candidate = Boxed::of(alloc, master)?;
        lines.push(Line::StartJoin(node.id, candidate, term))?;
    }
    Ok(())
}

// The messages after this one, one for each node, for the master.
fn push_deliveries(
    lines: &mut Vec<Line>,
    up: &[UpNode],
    master: NodeId,
    after: u64,
) -> Result<(), AllocError>
    requires { after + length up.now < 2 ^ 64 }
    ensures { OnOk result (lines.new.items ≡ lines.old.items ++ deliveries master after up.now) }
{
    let mut number = after;
    for _node in up {
        number += 1;
        lines.push(Line::Deliver(master, number))?;
    }
    Ok(())
}

// This message, for each node.
fn push_for_all(lines: &mut Vec<Line>, up: &[UpNode], number: u64) -> Result<(), AllocError>
    ensures { OnOk result (lines.new.items ≡ lines.old.items ++ one_for_all number up.now) }
{
    for node in up {
        lines.push(Line::Deliver(node.id, number))?;
    }
    Ok(())
}

fn push_value(
    alloc: Global,
    lines: &mut Vec<Line>,
    master: NodeId,
    version: u64,
    config: &VotingConfig,
) -> Result<(), AllocError>
    ensures { OnOk result (lines.new.items ≡ lines.old.items ++ Line.Value master version (codes "rescue") config.now ∷ []) }
{
    let Some(text) = SettingText::from_bytes(b"rescue") else {
        unreachable!()
    };
    let text = Boxed::of(alloc, text)?;
    let config = IdList::of(alloc, config.members())?;
    let config = Boxed::of(alloc, config)?;
    lines.push(Line::Value(master, version, text, config))?;
    Ok(())
}

fn lines_of(
    alloc: Global,
    up: &[UpNode],
    sent: u64,
    master: &UpNode,
    term: u64,
    version: u64,
) -> Result<Lines, AllocError>
    requires { sent ≤ 2 ^ 62 }
    ensures { IfOk result (λ lines. lines ≡ plan_lines up.now sent master.now.id term version master.now.config) }
{
    let mut lines = Vec::new(alloc);
    let published = sent + up.len() as u64 + 1;
    push_starts(alloc, &mut lines, up, master.id, term)?;
    push_deliveries(&mut lines, up, master.id, sent)?;
    push_value(alloc, &mut lines, master.id, version, &master.config)?;
    push_for_all(&mut lines, up, published)?;
    push_deliveries(&mut lines, up, master.id, published)?;
    Ok(Lines::of(lines))
}

// Whether the ids are a quorum of the configuration.
fn are_quorum(config: &VotingConfig, ids: &[NodeId]) -> bool
    ensures { result ≡ is_quorum_of config.now ids.now }
{
    let share = share(config, ids);
    share.1 < 2 * share.0
}

// Whether they are one of both configurations of the node.
fn are_quorums(master: &UpNode, ids: &[NodeId]) -> bool
    ensures { result ≡ (is_quorum_of master.now.committed ids.now && is_quorum_of master.now.config ids.now) }
{
    are_quorum(&master.committed, ids) && are_quorum(&master.config, ids)
}

fn no_quorum(master: &UpNode, ids: &[NodeId]) -> RescueRefused
    ensures { result ≡ no_quorum_of ids.now master.now }
{
    RescueRefused::NoQuorum {
        committed: share(&master.committed, ids),
        accepted: share(&master.config, ids),
    }
}

// The plan, where the nodes are a quorum.
fn plan_within(alloc: Global, up: &[UpNode], sent: u64, master: &UpNode) -> Result<Plan, PlanError>
    requires { sent ≤ 2 ^ 62 }
    ensures { Plans result (plan_within_of up.now sent master.now) }
{
    let top = greatest_term(up);
    let version = master.accepted.version;
    if top < LAST_NUMBER && version < LAST_NUMBER {
        let lines = lines_of(alloc, up, sent, master, top + 1, version + 1)?;
        return Ok(Plan {
            master: master.id,
            term: top + 1,
            version: version + 1,
            lines,
        });
    }
    Err(PlanError::Refused(RescueRefused::Exhausted { term: top, version }))
}

// The plan by which this node is elected.
fn plan_for(alloc: Global, up: &[UpNode], sent: u64, master: &UpNode) -> Result<Plan, PlanError>
    requires { sent ≤ 2 ^ 62 }
    ensures { Plans result (plan_for_of up.now sent master.now) }
{
    let ids = ids_up(alloc, up)?;
    let ids = ids.as_slice();
    if are_quorums(master, ids) {
        return plan_within(alloc, up, sent, master);
    }
    Err(PlanError::Refused(no_quorum(master, ids)))
}

/// The lines by which these nodes elect the one of them that has accepted the newest state, the least of such, which then commits its
/// configuration again. So many messages were sent before. The ids of the nodes ascend. `law_rescue` says what the lines bring about.
///
/// `NoQuorum` exactly where the nodes are no quorum of that node's committed or accepted configuration; else `Exhausted` exactly where
/// their greatest term or its version is the last one.
pub fn plan(alloc: Global, up: &[UpNode], sent: u64) -> Result<Plan, PlanError>
    requires { sent ≤ 2 ^ 62 }
    ensures { Plans result (planned up.now sent) }
{
    let [first, others @ ..] = up else {
        return Err(PlanError::Refused(RescueRefused::NoQuorum {
            committed: (0, 0),
            accepted: (0, 0),
        }));
    };
    plan_for(alloc, up, sent, newest_of(first, others))
}
