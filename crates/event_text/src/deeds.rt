//! The lines of a node's acts and changes of mode.
ghost use Rattle.std.specs.Prelude.{◌≡◌, ◌++◌, OnOk, false};
ghost use Rattle.event_text.specs.Published.{published_after, published_in};
ghost use Rattle.event_text.specs.Deeds.{act_lines, mode_line, mode_text, outcome_left, deed_text, deed_left, deeds_text, as_left};

use crate::acts::{write_outcome, write_won_by};
use crate::committing::write_committed_by;
use crate::publishing::keep_published;
use cluster_state::SharedState;
use policy_model::{Deed, Mode};
use std::alloc::{AllocError, Global};
use text::Text;
use voting_config::NodeId;
use world_model::{Act, Outcome};

fn write_mode_word(text: &mut Text, mode: Mode) -> Result<(), AllocError>
    ensures { OnOk result (text.new ≡ text.old ++ mode_text mode) }
{
    match mode {
        Mode::Candidate => text.word("candidate"),
        Mode::Leader => text.word("leader"),
        Mode::Follower(leader) => {
            text.word("follower ")?;
            text.id(leader)
        }
    }
}

/// Writes that a node is in another mode from now on, in this term.
pub fn write_mode(text: &mut Text, node: NodeId, mode: Mode, term: u64) -> Result<(), AllocError>
    ensures { OnOk result (text.new ≡ text.old ++ mode_line node mode term) }
{
    text.word("mode ")?;
    text.id(node)?;
    text.word(" ")?;
    write_mode_word(text, mode)?;
    text.word(" ")?;
    text.number(term)?;
    text.word("\n")
}

fn write_act_lines(
    text: &mut Text,
    alloc: Global,
    node: NodeId,
    published: &Option<SharedState>,
    act: &Act,
    outcome: &Outcome,
) -> Result<(), AllocError>
    ensures { OnOk result (text.new ≡ text.old ++ act_lines node published.now act.now outcome.now) }
{
    write_outcome(text, alloc, node, act, outcome)?;
    write_won_by(text, node, act, outcome)?;
    write_committed_by(text, alloc, published, outcome)
}

fn write_act_left(
    text: &mut Text,
    alloc: Global,
    node: NodeId,
    published: &Option<SharedState>,
    crashed: bool,
    act: &Act,
    outcome: &Outcome,
) -> Result<(), AllocError>
    ensures { OnOk result (text.new ≡ text.old ++ act_lines node published.now act.now (outcome_left crashed outcome.now)) }
{
    match outcome {
        Outcome::Disk(kept) => {
            let told = if crashed {
                Outcome::Crashed(*kept)
            } else {
                Outcome::Disk(*kept)
            };
            write_act_lines(text, alloc, node, published, act, &told)
        }
        Outcome::Answered(_) | Outcome::Crashed(_) => {
            write_act_lines(text, alloc, node, published, act, outcome)
        }
    }
}

fn write_deed(
    text: &mut Text,
    alloc: Global,
    node: NodeId,
    published: &mut Option<SharedState>,
    crashed: bool,
    deed: &Deed,
) -> Result<(), AllocError>
    ensures text { OnOk result (text.new ≡ text.old ++ deed_text node published.old (deed_left crashed deed.now)) }
    ensures published { OnOk result (published.new ≡ published_in published.old deed.now) }
{
    match deed {
        Deed::Act(act, outcome) => {
            write_act_left(text, alloc, node, published, crashed, act, outcome)?;
            keep_published(published, act, outcome)
        }
        Deed::Mode(mode, term) => write_mode(text, node, *mode, *term),
    }
}

/// Writes a node's acts and changes of mode. `published` is the state that the node published last, and afterwards that
/// after these deeds; where it is another one, it is shared with the act that published it.
///
/// Where it answers an error, memory has run out or no more holders of a state can be counted, and `published` is that after some of the
/// deeds.
pub fn write_deeds(
    text: &mut Text,
    alloc: Global,
    node: NodeId,
    published: &mut Option<SharedState>,
    deeds: &[Deed],
) -> Result<(), AllocError>
    ensures text { OnOk result (text.new ≡ text.old ++ deeds_text node published.old deeds.now) }
    ensures published { OnOk result (published.new ≡ published_after published.old deeds.now) }
{
    write_struck_deeds(text, alloc, node, published, deeds, false)
}

/// Writes the same, where an act of them may have met a fault of the disk: where `crashed`, the fault was that the node
/// crashed in the act.
pub fn write_struck_deeds(
    text: &mut Text,
    alloc: Global,
    node: NodeId,
    published: &mut Option<SharedState>,
    deeds: &[Deed],
    crashed: bool,
) -> Result<(), AllocError>
    ensures text { OnOk result (text.new ≡ text.old ++ deeds_text node published.old (as_left crashed deeds.now)) }
    ensures published { OnOk result (published.new ≡ published_after published.old deeds.now) }
{
    for deed in deeds {
        write_deed(text, alloc, node, published, crashed, deed)?;
    }
    Ok(())
}
