//! The line of an act among the items of an event.
ghost use Rattle.std.specs.Prelude.{◌≡◌, ◌++◌, OnOk};
ghost use Rattle.world_model.specs.Acts.{wins};
ghost use Rattle.world_model.specs.declared.acts.Outcome.TheVariants as outcome;
ghost use Rattle.trace_text.specs.Endings.{ending_of, reply_ending};
ghost use Rattle.trace_text.specs.Trace.{act_line, act_text, outcome_line, won_line};

use std::alloc::{AllocError, Global};
use text::Text;
use trace_text::{
    Ending, write_act_head, write_boot, write_commit, write_join, write_publish, write_record,
    write_response, write_start_join, write_value, write_won,
};
use voting_config::NodeId;
use world_model::{Act, ActReply, Outcome};

fn write_act(text: &mut Text, alloc: Global, act: &Act) -> Result<(), AllocError>
    ensures { OnOk result (text.new ≡ text.old ++ act_text act.now) }
{
    match act {
        Act::Bootstrap(config) => write_boot(text, config.as_slice()),
        Act::StartJoin(candidate, term) => write_start_join(text, *candidate, *term),
        Act::TakeJoin(join) => write_join(text, join),
        Act::Value(version, config, value) => write_value(text, alloc, *version, config, value),
        Act::Publish(request) => write_publish(text, alloc, request),
        Act::Response(response) => write_response(text, response),
        Act::Commit(commit) => write_commit(text, commit),
        Act::Open(_) => text.word("open"),
    }
}

fn reply_end(reply: &ActReply) -> Ending
    ensures { result ≡ reply_ending reply.now }
{
    match reply {
        ActReply::Taken(_, _) => Ending::Taken,
        ActReply::Refused(cause) => Ending::Refused(*cause),
        ActReply::Stopped => Ending::Stopped,
    }
}

fn outcome_end(outcome: &Outcome) -> Ending
    ensures { result ≡ ending_of outcome.now }
{
    match outcome {
        Outcome::Answered(reply) => reply_end(reply),
        Outcome::Disk(_) => Ending::Disk,
        Outcome::Crashed(_) => Ending::Crashed,
    }
}

fn write_act_line(
    text: &mut Text,
    alloc: Global,
    node: NodeId,
    ending: Ending,
    act: &Act,
) -> Result<(), AllocError>
    ensures { OnOk result (text.new ≡ text.old ++ act_line node ending act.now) }
{
    write_act_head(text, node, ending)?;
    write_act(text, alloc, act)?;
    text.word("\n")
}

// An opening shows the record that it found.
pub(crate) fn write_outcome(
    text: &mut Text,
    alloc: Global,
    node: NodeId,
    act: &Act,
    outcome: &Outcome,
) -> Result<(), AllocError>
    ensures { OnOk result (text.new ≡ text.old ++ outcome_line node outcome.now act.now) }
{
    match act {
        Act::Open(found) => write_record(text, node, found.kept()),
        _ => write_act_line(text, alloc, node, outcome_end(outcome), act),
    }
}

fn is_winning(reply: &ActReply) -> bool
    ensures { result ≡ wins (outcome.Answered reply.now) }
{
    match reply {
        ActReply::Taken(_, wins) => *wins,
        ActReply::Refused(_) | ActReply::Stopped => false,
    }
}

fn has_won(outcome: &Outcome) -> bool
    ensures { result ≡ wins outcome.now }
{
    match outcome {
        Outcome::Answered(reply) => is_winning(reply),
        Outcome::Disk(_) | Outcome::Crashed(_) => false,
    }
}

pub(crate) fn write_won_by(
    text: &mut Text,
    node: NodeId,
    act: &Act,
    outcome: &Outcome,
) -> Result<(), AllocError>
    ensures { OnOk result (text.new ≡ text.old ++ won_line node act.now outcome.now) }
{
    match act {
        Act::TakeJoin(join) => write_won(text, has_won(outcome), node, join.term),
        _ => Ok(()),
    }
}
