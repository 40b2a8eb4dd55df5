//! What an act shows that sends a commit: the state that is committed, which the node published last.
ghost use Rattle.std.specs.Prelude.{◌≡◌, ◌++◌, Bool, OnOk, Some};
ghost use Rattle.world_model.specs.declared.acts.Outcome.TheVariants as outcome;
ghost use Rattle.world_model.specs.declared.acts.ActReply.TheVariants as reply;
ghost use Rattle.trace_text.specs.Trace.{committed_line, committed_text};

use cluster_state::SharedState;
use std::alloc::{AllocError, Global};
use text::Text;
use trace_text::write_committed;
use world_model::{ActReply, Message, Outcome};

fn write_last(
    text: &mut Text,
    alloc: Global,
    published: &Option<SharedState>,
) -> Result<(), AllocError>
    ensures { OnOk result (text.new ≡ text.old ++ committed_text published.now) }
{
    match published {
        None => Ok(()),
        Some(state) => write_committed(text, alloc, state),
    }
}

fn write_by_message(
    text: &mut Text,
    alloc: Global,
    published: &Option<SharedState>,
    message: &Message,
) -> Result<(), AllocError>
    ensures { OnOk result
        ((wins : Bool) → text.new ≡ text.old ++ committed_line (outcome.Answered (reply.Taken (Some message.now) wins)) published.now) }
{
    match message {
        Message::Commit(_) => write_last(text, alloc, published),
        _ => Ok(()),
    }
}

fn write_by_sends(
    text: &mut Text,
    alloc: Global,
    published: &Option<SharedState>,
    sends: &Option<Message>,
) -> Result<(), AllocError>
    ensures { OnOk result
        ((wins : Bool) → text.new ≡ text.old ++ committed_line (outcome.Answered (reply.Taken sends.now wins)) published.now) }
{
    match sends {
        None => Ok(()),
        Some(message) => write_by_message(text, alloc, published, message),
    }
}

fn write_by_reply(
    text: &mut Text,
    alloc: Global,
    published: &Option<SharedState>,
    reply: &ActReply,
) -> Result<(), AllocError>
    ensures { OnOk result (text.new ≡ text.old ++ committed_line (outcome.Answered reply.now) published.now) }
{
    match reply {
        ActReply::Taken(sends, _) => write_by_sends(text, alloc, published, sends),
        ActReply::Refused(_) | ActReply::Stopped => Ok(()),
    }
}

pub(crate) fn write_committed_by(
    text: &mut Text,
    alloc: Global,
    published: &Option<SharedState>,
    outcome: &Outcome,
) -> Result<(), AllocError>
    ensures { OnOk result (text.new ≡ text.old ++ committed_line outcome.now published.now) }
{
    match outcome {
        Outcome::Answered(reply) => write_by_reply(text, alloc, published, reply),
        Outcome::Disk(_) | Outcome::Crashed(_) => Ok(()),
    }
}
