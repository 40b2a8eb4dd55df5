//! Which state a node published last.
ghost use Rattle.std.specs.Prelude.{◌≡◌, Bool, OnOk, Some};
ghost use Rattle.world_model.specs.declared.acts.Outcome.TheVariants as outcome;
ghost use Rattle.world_model.specs.declared.acts.ActReply.TheVariants as reply;
ghost use Rattle.policy_model.specs.declared.events.Deed.TheVariants as deed;
ghost use Rattle.trace_text.specs.Published.{published_by};
ghost use Rattle.event_text.specs.Published.{published_in};

use cluster_state::SharedState;
use std::alloc::AllocError;
use world_model::{Act, ActReply, Message, Outcome};

fn keep_message(published: &mut Option<SharedState>, message: &Message) -> Result<(), AllocError>
    ensures { OnOk result
        ((wins : Bool) → published.new ≡ published_by (outcome.Answered (reply.Taken (Some message.now) wins)) published.old) }
{
    match message {
        Message::Publish(request) => {
            *published = Some(request.state.share()?);
            Ok(())
        }
        _ => Ok(()),
    }
}

fn keep_sends(
    published: &mut Option<SharedState>,
    sends: &Option<Message>,
) -> Result<(), AllocError>
    ensures { OnOk result ((wins : Bool) → published.new ≡ published_by (outcome.Answered (reply.Taken sends.now wins)) published.old) }
{
    match sends {
        None => Ok(()),
        Some(message) => keep_message(published, message),
    }
}

fn keep_reply(published: &mut Option<SharedState>, reply: &ActReply) -> Result<(), AllocError>
    ensures { OnOk result (published.new ≡ published_by (outcome.Answered reply.now) published.old) }
{
    match reply {
        ActReply::Taken(sends, _) => keep_sends(published, sends),
        ActReply::Refused(_) | ActReply::Stopped => Ok(()),
    }
}

fn keep_outcome(published: &mut Option<SharedState>, outcome: &Outcome) -> Result<(), AllocError>
    ensures { OnOk result (published.new ≡ published_by outcome.now published.old) }
{
    match outcome {
        Outcome::Answered(reply) => keep_reply(published, reply),
        Outcome::Disk(_) | Outcome::Crashed(_) => Ok(()),
    }
}

// Keeps what was published, where the act publishes.
pub(crate) fn keep_published(
    published: &mut Option<SharedState>,
    act: &Act,
    outcome: &Outcome,
) -> Result<(), AllocError>
    ensures { OnOk result (published.new ≡ published_in published.old (deed.Act act.now outcome.now)) }
{
    match act {
        Act::Value(_, _, _) => keep_outcome(published, outcome),
        _ => Ok(()),
    }
}
