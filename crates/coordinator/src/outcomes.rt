//! What the outcome of an act tells.
ghost use Rattle.std.specs.Prelude.{◌≡◌};
ghost use Rattle.world_model.specs.Acts.{is_ok, wins};
ghost use Rattle.world_model.specs.Replies.{is_taken as taken_of};
ghost use Rattle.world_model.specs.declared.acts.Outcome.TheVariants as outcome;
ghost use Rattle.policy_model.specs.LookBacks.{sends_one};
ghost use Rattle.coordinator.specs.Verdicts.{verdict as verdict_by};

use crate::coordinator::DiskFailed;
use world_model::{ActReply, Outcome};

fn is_taken(reply: &ActReply) -> bool
    ensures { result ≡ taken_of reply.now }
{
    match reply {
        ActReply::Taken(_, _) => true,
        ActReply::Refused(_) | ActReply::Stopped => false,
    }
}

/// Whether an act was taken, unless the disk failed.
pub(crate) fn verdict(outcome: &Outcome) -> Result<bool, DiskFailed>
    ensures { result ≡ verdict_by outcome.now }
{
    match outcome {
        Outcome::Answered(reply) => Ok(is_taken(reply)),
        Outcome::Disk(_) | Outcome::Crashed(_) => Err(DiskFailed),
    }
}

/// Whether an act was taken.
pub(crate) fn was_taken(outcome: &Outcome) -> bool
    ensures { result ≡ is_ok outcome.now }
{
    match outcome {
        Outcome::Answered(reply) => is_taken(reply),
        Outcome::Disk(_) | Outcome::Crashed(_) => false,
    }
}

fn is_winning(reply: &ActReply) -> bool
    ensures { result ≡ wins (outcome.Answered reply.now) }
{
    match reply {
        ActReply::Taken(_, wins) => *wins,
        ActReply::Refused(_) | ActReply::Stopped => false,
    }
}

/// Whether an act won the election.
pub(crate) fn has_won(outcome: &Outcome) -> bool
    ensures { result ≡ wins outcome.now }
{
    match outcome {
        Outcome::Answered(reply) => is_winning(reply),
        Outcome::Disk(_) | Outcome::Crashed(_) => false,
    }
}

fn sends_some(reply: &ActReply) -> bool
    ensures { result ≡ sends_one (outcome.Answered reply.now) }
{
    match reply {
        ActReply::Taken(sends, _) => sends.is_some(),
        ActReply::Refused(_) | ActReply::Stopped => false,
    }
}

/// Whether an act sends something.
pub(crate) fn has_sent(outcome: &Outcome) -> bool
    ensures { result ≡ sends_one outcome.now }
{
    match outcome {
        Outcome::Answered(reply) => sends_some(reply),
        Outcome::Disk(_) | Outcome::Crashed(_) => false,
    }
}
